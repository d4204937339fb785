//! Functions of lists.
ghost use Rattle.std.specs.Prelude.{◌≡◌, ◌++◌, IfOk, OnOk};
ghost use Rattle.std.specs.List.{list_any};
ghost use Rattle.tb_func.specs.Apply.{first_of, rest_of, member_at, joined, number_of};
ghost use Rattle.tb_terms.specs.Same.{is_same_term};

use sqlite_items::at;
use std::alloc::Global;
use tb_terms::{Items, NoMemory, Term, Terms, same};

pub(crate) fn number_of(terms: &[Term]) -> Option<Term>
    ensures { result ≡ number_of terms.now }
{
    match i64::try_from(terms.len()) {
        Ok(number) => Some(Term::Int(number)),
        Err(_) => None,
    }
}

pub(crate) fn first_of(alloc: Global, terms: &[Term]) -> Result<Option<Term>, NoMemory>
    ensures { IfOk result (λ v. v ≡ first_of terms.now) }
{
    match terms {
        [first, ..] => Ok(Some(first.copy(alloc)?)),
        [] => Ok(None),
    }
}

pub(crate) fn rest_of(alloc: Global, terms: &[Term]) -> Result<Option<Term>, NoMemory>
    ensures { IfOk result (λ v. v ≡ rest_of terms.now) }
{
    match terms {
        [_, rest @ ..] => {
            let mut copies = Items::new(alloc);
            copy_onto(alloc, rest, &mut copies)?;
            Ok(Some(Term::List(copies)))
        }
        [] => Ok(None),
    }
}

pub(crate) fn joined(alloc: Global, prefix: &[Term], back: &[Term]) -> Result<Term, NoMemory>
    ensures { IfOk result (λ v. v ≡ joined prefix.now back.now) }
{
    let mut copies = Items::new(alloc);
    copy_onto(alloc, prefix, &mut copies)?;
    copy_onto(alloc, back, &mut copies)?;
    Ok(Term::List(copies))
}

/// Appends copies of the terms.
fn copy_onto(alloc: Global, terms: &[Term], onto: &mut Terms) -> Result<(), NoMemory>
    ensures { OnOk result (onto.new ≡ onto.old ++ terms.now) }
{
    for term in terms {
        onto.push(term.copy(alloc)?)?;
    }
    Ok(())
}

/// Returns the member at this position, counted from 1, or `None` if there is none.
pub(crate) fn member_at(
    alloc: Global,
    terms: &[Term],
    position: i64,
) -> Result<Option<Term>, NoMemory>
    ensures { IfOk result (λ v. v ≡ member_at terms.now position) }
{
    if position < 1 {
        return Ok(None);
    }
    match at(terms, position as usize - 1) {
        Some(term) => Ok(Some(term.copy(alloc)?)),
        None => Ok(None),
    }
}

pub(crate) fn is_member(term: &Term, terms: &[Term]) -> bool
    ensures { result ≡ list_any (λ t. is_same_term t term.now) terms.now }
{
    for member in terms {
        if is_same(member, term) {
            return true;
        }
    }
    false
}

pub(crate) fn is_same(a: &Term, b: &Term) -> bool
    ensures { result ≡ is_same_term a.now b.now }
{
    same(a, b)
}
