//! Which terms have a type, and the initial value of each type.
ghost use Rattle.std.specs.Prelude.{◌≡◌, [], ◌∷◌, pos, IsTrue, IfOk};
ghost use Rattle.std.specs.List.{list_all};
ghost use Rattle.tb_terms.specs.declared.term.Term.{out-Term};
ghost use Rattle.tb_terms.specs.Sorts.{has_sort, term_test, initial_value, is_word, is_int, is_str, is_list_of, is_one_int, is_tool};

use crate::{Items, Name, NoMemory, Sort, Term, Text};
use std::alloc::Global;

/// Returns whether the term has this type.
#[cycle(sorts)]
pub fn has_sort(term: &Term, sort: &Sort) -> bool
    ensures { result ≡ has_sort term.now sort.now }
{
    match sort {
        Sort::Bool => is_word(term, b"true") || is_word(term, b"false"),
        Sort::Int => is_int(term),
        Sort::Str => is_str(term),
        Sort::List(members) => is_list_of(term, members.get()),
        Sort::Any => true,
        Sort::Tool(name) => is_tool(term, name.as_bytes()),
    }
}

#[cycle(sorts)]
fn is_list_of(term: &Term, members: &Sort) -> bool
    ensures { result ≡ is_list_of (term_test members.now) (out-Term term.now) }
{
    match term {
        Term::List(parts) => all_have_sort(parts.as_slice(), members),
        _ => false,
    }
}

#[cycle(sorts)]
fn all_have_sort(terms: &[Term], sort: &Sort) -> bool
    ensures { result ≡ list_all (term_test sort.now) terms.now }
{
    for term in terms {
        if !has_sort(term, sort) {
            return false;
        }
    }
    true
}

fn is_word(term: &Term, word: &[u8]) -> bool
    ensures { result ≡ is_word word.now (out-Term term.now) }
{
    match term {
        Term::Appl(name, parts) => parts.as_slice().is_empty() && name.as_bytes() == word,
        _ => false,
    }
}

fn is_int(term: &Term) -> bool
    ensures { result ≡ is_int (out-Term term.now) }
{
    matches!(term, Term::Int(_))
}

fn is_str(term: &Term) -> bool
    ensures { result ≡ is_str (out-Term term.now) }
{
    matches!(term, Term::Str(_))
}

fn is_tool(term: &Term, tool: &[u8]) -> bool
    ensures { result ≡ is_tool tool.now (out-Term term.now) }
{
    match term {
        Term::Appl(name, parts) => name.as_bytes() == tool && is_one_int(parts.as_slice()),
        _ => false,
    }
}

fn is_one_int(terms: &[Term]) -> bool
    ensures { result ≡ is_one_int terms.now }
{
    match terms {
        [term] => is_int(term),
        _ => false,
    }
}

/// Returns the initial value of a variable of this type. This value has the type.
pub fn initial(alloc: Global, sort: &Sort) -> Result<Term, NoMemory>
    ensures value { IfOk result (λ term. term ≡ initial_value sort.now) }
    ensures well_sorted { IsTrue (has_sort (initial_value sort.now) sort.now) }
{
    match sort {
        Sort::Bool => Ok(Term::Appl(Name::new(alloc, b"false")?, Items::new(alloc))),
        Sort::Int => Ok(Term::Int(0)),
        Sort::Str => Ok(Term::Str(Text::empty(alloc))),
        Sort::List(_) => Ok(Term::List(Items::new(alloc))),
        Sort::Any => Ok(Term::Appl(Name::new(alloc, b"none")?, Items::new(alloc))),
        Sort::Tool(name) => initial_of_tool(alloc, name),
    }
}

fn initial_of_tool(alloc: Global, name: &Name) -> Result<Term, NoMemory>
    ensures { IfOk result (λ term. term ≡ Term.Appl name.now (Term.Int (pos 0) ∷ [])) }
{
    let mut number = Items::new(alloc);
    number.push(Term::Int(0))?;
    Ok(Term::Appl(name.share()?, number))
}
