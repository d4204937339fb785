//! Truth values, numbers, and lists as terms.
ghost use Rattle.std.specs.Prelude.{◌≡◌, [], IfOk, if◌then◌else◌, codes};
ghost use Rattle.std.specs.Option.{option_copied};
ghost use Rattle.tb_terms.specs.declared.term.Term.{out-Term};
ghost use Rattle.tb_terms.specs.Sorts.{is_word};
ghost use Rattle.tb_func.specs.Arguments.{bool_of, int_of, list_of, bool_term};

use std::alloc::Global;
use tb_terms::{Items, Name, NoMemory, Term};

/// Returns the truth value that the term represents, or `None` if the term is neither `true` nor `false`.
pub fn bool_of(term: &Term) -> Option<bool>
    ensures { result ≡ bool_of term.now }
{
    if is_word(term, b"true") {
        Some(true)
    } else if is_word(term, b"false") {
        Some(false)
    } else {
        None
    }
}

fn is_word(term: &Term, word: &[u8]) -> bool
    ensures { result ≡ is_word word.now (out-Term term.now) }
{
    match term {
        Term::Appl(name, parts) => parts.as_slice().is_empty() && name.as_bytes() == word,
        _ => false,
    }
}

/// Returns the number that the term is, or `None` if the term isn't a number.
pub fn int_of(term: &Term) -> Option<i64>
    ensures { result ≡ int_of term.now }
{
    match term {
        Term::Int(number) => Some(*number),
        _ => None,
    }
}

pub(crate) fn list_of(term: &Term) -> Option<&[Term]>
    ensures { option_copied result ≡ list_of term.now }
{
    match term {
        Term::List(parts) => Some(parts.as_slice()),
        _ => None,
    }
}

/// Returns the term that represents a truth value.
pub(crate) fn bool_term(alloc: Global, is_true: bool) -> Result<Term, NoMemory>
    ensures { IfOk result (λ term. term ≡ bool_term is_true) }
{
    let name = if is_true {
        Name::new(alloc, b"true")?
    } else {
        Name::new(alloc, b"false")?
    };
    Ok(Term::Appl(name, Items::new(alloc)))
}
