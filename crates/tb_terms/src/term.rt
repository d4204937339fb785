//! Terms, with their copies and comparisons.
ghost use Rattle.std.specs.Prelude.{◌≡◌, ◌↔◌, IsTrue, IfOk};

use crate::{Items, Name, NoMemory, Text};
use std::alloc::Global;

/// A term: the value that messages and tool lines consist of.
#[derive(Drop)]
pub enum Term {
    /// A number.
    Int(i64),
    /// A string.
    Str(Text),
    /// A name, with or without arguments.
    Appl(Name, Terms),
    /// A list of terms.
    List(Terms),
}

/// A list of terms: the parts of a term, or the arguments of a message.
pub type Terms = Items<Term>;

impl Term {
    /// Returns the same term in memory of its own.
    pub fn copy(&self, alloc: Global) -> Result<Term, NoMemory>
        ensures { IfOk result (λ copy. copy ≡ self.now) }
    {
        match self {
            Term::Int(number) => Ok(Term::Int(*number)),
            Term::Str(_) | Term::Appl(_, _) | Term::List(_) => self.copy_deep(alloc),
        }
    }

    #[cycle(copy)]
    #[inline(never)]
    fn copy_deep(&self, alloc: Global) -> Result<Term, NoMemory>
        ensures { IfOk result (λ copy. copy ≡ self.now) }
    {
        match self {
            Term::Int(number) => Ok(Term::Int(*number)),
            Term::Str(text) => Ok(Term::Str(text.copy(alloc)?)),
            Term::Appl(name, parts) => {
                let name = name.share()?;
                Ok(Term::Appl(name, copy_all(alloc, parts.as_slice())?))
            }
            Term::List(parts) => Ok(Term::List(copy_all(alloc, parts.as_slice())?)),
        }
    }
}

/// Returns a copy of these terms, in the same order.
pub fn copy_terms(alloc: Global, terms: &Terms) -> Result<Terms, NoMemory>
    ensures { IfOk result (λ copies. copies ≡ terms.now) }
{
    copy_all(alloc, terms.as_slice())
}

#[cycle(copy)]
fn copy_all(alloc: Global, terms: &[Term]) -> Result<Terms, NoMemory>
    ensures { IfOk result (λ copies. copies ≡ terms.now) }
{
    let mut copies = Vec::with_capacity(alloc, terms.len())?;
    for term in terms {
        copies.push(term.copy_deep(alloc)?)?;
    }
    Ok(Items::from_vec(copies))
}

/// Returns whether two terms are equal.
#[cycle(same)]
pub fn same(a: &Term, b: &Term) -> bool
    ensures { IsTrue result ↔ (a.now ≡ b.now) }
{
    match a {
        Term::Int(number) => is_int(*number, b),
        Term::Str(text) => is_str(text, b),
        Term::Appl(name, parts) => is_appl(name, parts.as_slice(), b),
        Term::List(parts) => is_list(parts.as_slice(), b),
    }
}

/// Returns whether two lists of terms are equal.
pub fn same_terms(a: &Terms, b: &Terms) -> bool
    ensures { IsTrue result ↔ (a.now ≡ b.now) }
{
    same_all(a.as_slice(), b.as_slice())
}

fn is_int(number: i64, term: &Term) -> bool
    ensures { IsTrue result ↔ (Term.Int number ≡ term.now) }
{
    match term {
        Term::Int(other) => *other == number,
        _ => false,
    }
}

fn is_str(text: &Text, term: &Term) -> bool
    ensures { IsTrue result ↔ (Term.Str text.now ≡ term.now) }
{
    match term {
        Term::Str(other) => text.is_same(other),
        _ => false,
    }
}

#[cycle(same)]
fn is_appl(name: &Name, parts: &[Term], term: &Term) -> bool
    ensures { IsTrue result ↔ (Term.Appl name.now parts.now ≡ term.now) }
{
    match term {
        Term::Appl(other, others) => { name.is_same(other) && same_all(parts, others.as_slice()) }
        _ => false,
    }
}

#[cycle(same)]
fn is_list(parts: &[Term], term: &Term) -> bool
    ensures { IsTrue result ↔ (Term.List parts.now ≡ term.now) }
{
    match term {
        Term::List(others) => same_all(parts, others.as_slice()),
        _ => false,
    }
}

/// Returns whether two slices of terms are equal, term by term. Takes no memory.
#[cycle(same)]
pub fn same_all(a: &[Term], b: &[Term]) -> bool
    ensures { IsTrue result ↔ (a.now ≡ b.now) }
{
    if a.len() != b.len() {
        return false;
    }
    for (position, term) in a.iter().enumerate() {
        if !same(term, &b[position]) {
            return false;
        }
    }
    true
}
