//! Matches of patterns without result variables, which bind nothing.
ghost use Rattle.std.specs.Prelude.{◌≡◌, ◌↔◌, [], map, is_some, IsTrue};
ghost use Rattle.tb_terms.specs.declared.term.Term.{out-Term};
ghost use Rattle.tb_match.specs.Matches.{match_term, match_list, match_all, match_appl, match_members, binds_if, is_plain, are_plain};

use crate::bind::is_same;
use tb_terms::{Name, Pattern, Patterns, Term, Terms, has_sort, same_pattern_lists};

/// Returns whether the terms match the patterns one by one. The patterns have no result variables, so that a match binds nothing.
pub fn fits_list(ps: &Patterns, ts: &Terms) -> bool
    requires { IsTrue (are_plain ps.now) }
    ensures { result ≡ is_some (match_list ps.now ts.now) }
{
    fits_parts(ps.as_slice(), ts.as_slice())
}

/// Returns whether two lists of patterns are equal.
pub fn same_patterns(a: &Patterns, b: &Patterns) -> bool
    ensures { IsTrue result ↔ (a.now ≡ b.now) }
{
    same_pattern_lists(a, b)
}

#[cycle(fitting)]
fn fits(pattern: &Pattern, term: &Term) -> bool
    requires { IsTrue (is_plain pattern.now) }
    ensures { binds_if result [] ≡ match_term pattern.now term.now }
{
    match pattern {
        Pattern::Fixed(fixed) => is_same(fixed, term),
        Pattern::Hole(sort) | Pattern::Result(_, sort) => has_sort(term, sort),
        Pattern::Appl(name, parts) => fits_appl(name, parts.as_slice(), term),
        Pattern::List(parts) => fits_members(parts.as_slice(), term),
    }
}

#[cycle(fitting)]
fn fits_appl(name: &Name, parts: &[Pattern], term: &Term) -> bool
    requires { IsTrue (are_plain parts.now) }
    ensures { binds_if result []
        ≡ match_appl name.now (map match_term parts.now) (out-Term term.now) }
{
    match term {
        Term::Appl(other, terms) => {
            name.as_bytes() == other.as_bytes() && fits_parts(parts, terms.as_slice())
        }
        _ => false,
    }
}

#[cycle(fitting)]
fn fits_members(parts: &[Pattern], term: &Term) -> bool
    requires { IsTrue (are_plain parts.now) }
    ensures { binds_if result [] ≡ match_members (map match_term parts.now) (out-Term term.now) }
{
    match term {
        Term::List(terms) => fits_parts(parts, terms.as_slice()),
        _ => false,
    }
}

#[cycle(fitting)]
fn fits_parts(patterns: &[Pattern], terms: &[Term]) -> bool
    requires { IsTrue (are_plain patterns.now) }
    ensures { binds_if result [] ≡ match_all (map match_term patterns.now) terms.now }
{
    if patterns.len() != terms.len() {
        return false;
    }
    for (position, pattern) in patterns.iter().enumerate() {
        if !fits(pattern, &terms[position]) {
            return false;
        }
    }
    true
}
