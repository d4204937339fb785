//! Patterns, against which terms are matched.
ghost use Rattle.std.specs.Prelude.{◌≡◌, ◌↔◌, IsTrue, IfOk};

use crate::{Items, Name, NoMemory, Sort, Term, same};
use std::alloc::Global;

/// A pattern, against which terms are matched.
#[derive(Drop)]
pub enum Pattern {
    /// Only this term.
    Fixed(Term),
    /// A placeholder: any term of this type.
    Hole(Sort),
    /// A result variable: any term of this type. The variable with this slot takes the term.
    Result(u32, Sort),
    /// A name with arguments. A term matches if it has this name and as many arguments, each of which matches its pattern.
    Appl(Name, Patterns),
    /// A list. A term matches if it is a list with as many members, each of which matches its pattern.
    List(Patterns),
}

/// A list of patterns.
pub type Patterns = Items<Pattern>;

impl Pattern {
    /// Returns the same pattern in memory of its own.
    #[cycle(copy)]
    pub fn copy(&self, alloc: Global) -> Result<Pattern, NoMemory>
        ensures { IfOk result (λ copy. copy ≡ self.now) }
    {
        match self {
            Pattern::Fixed(term) => Ok(Pattern::Fixed(term.copy(alloc)?)),
            Pattern::Hole(sort) => Ok(Pattern::Hole(sort.copy(alloc)?)),
            Pattern::Result(slot, sort) => Ok(Pattern::Result(*slot, sort.copy(alloc)?)),
            Pattern::Appl(name, parts) => {
                let name = name.share()?;
                Ok(Pattern::Appl(name, copy_all(alloc, parts.as_slice())?))
            }
            Pattern::List(parts) => Ok(Pattern::List(copy_all(alloc, parts.as_slice())?)),
        }
    }

    /// Returns whether two patterns are equal.
    #[cycle(same)]
    pub fn is_same(&self, other: &Pattern) -> bool
        ensures { IsTrue result ↔ (self.now ≡ other.now) }
    {
        match self {
            Pattern::Fixed(term) => is_fixed(term, other),
            Pattern::Hole(sort) => is_hole(sort, other),
            Pattern::Result(slot, sort) => is_result(*slot, sort, other),
            Pattern::Appl(name, parts) => is_appl(name, parts.as_slice(), other),
            Pattern::List(parts) => is_list(parts.as_slice(), other),
        }
    }
}

/// Returns a copy of these patterns, in the same order.
pub fn copy_patterns(alloc: Global, patterns: &Patterns) -> Result<Patterns, NoMemory>
    ensures { IfOk result (λ copies. copies ≡ patterns.now) }
{
    copy_all(alloc, patterns.as_slice())
}

#[cycle(copy)]
fn copy_all(alloc: Global, patterns: &[Pattern]) -> Result<Patterns, NoMemory>
    ensures { IfOk result (λ copies. copies ≡ patterns.now) }
{
    let mut copies = Items::new(alloc);
    for pattern in patterns {
        copies.push(pattern.copy(alloc)?)?;
    }
    Ok(copies)
}

/// Returns whether two lists of patterns are equal.
pub fn same_pattern_lists(a: &Patterns, b: &Patterns) -> bool
    ensures { IsTrue result ↔ (a.now ≡ b.now) }
{
    same_all(a.as_slice(), b.as_slice())
}

fn is_fixed(term: &Term, pattern: &Pattern) -> bool
    ensures { IsTrue result ↔ (Pattern.Fixed term.now ≡ pattern.now) }
{
    match pattern {
        Pattern::Fixed(other) => same(term, other),
        _ => false,
    }
}

fn is_hole(sort: &Sort, pattern: &Pattern) -> bool
    ensures { IsTrue result ↔ (Pattern.Hole sort.now ≡ pattern.now) }
{
    match pattern {
        Pattern::Hole(other) => sort.is_same(other),
        _ => false,
    }
}

fn is_result(slot: u32, sort: &Sort, pattern: &Pattern) -> bool
    ensures { IsTrue result ↔ (Pattern.Result slot sort.now ≡ pattern.now) }
{
    match pattern {
        Pattern::Result(position, other) => *position == slot && sort.is_same(other),
        _ => false,
    }
}

#[cycle(same)]
fn is_appl(name: &Name, parts: &[Pattern], pattern: &Pattern) -> bool
    ensures { IsTrue result ↔ (Pattern.Appl name.now parts.now ≡ pattern.now) }
{
    match pattern {
        Pattern::Appl(other, others) => {
            name.is_same(other) && same_all(parts, others.as_slice())
        }
        _ => false,
    }
}

#[cycle(same)]
fn is_list(parts: &[Pattern], pattern: &Pattern) -> bool
    ensures { IsTrue result ↔ (Pattern.List parts.now ≡ pattern.now) }
{
    match pattern {
        Pattern::List(others) => same_all(parts, others.as_slice()),
        _ => false,
    }
}

#[cycle(same)]
fn same_all(a: &[Pattern], b: &[Pattern]) -> bool
    ensures { IsTrue result ↔ (a.now ≡ b.now) }
{
    if a.len() != b.len() {
        return false;
    }
    for (position, pattern) in a.iter().enumerate() {
        if !pattern.is_same(&b[position]) {
            return false;
        }
    }
    true
}
