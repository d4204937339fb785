//! Matches, with the terms that variables take.
ghost use Rattle.std.specs.Prelude.{◌≡◌, [], ◌∷◌, map, IfOk};
ghost use Rattle.tb_terms.specs.declared.term.Term.{out-Term};
ghost use Rattle.tb_terms.specs.Sorts.{has_sort};
ghost use Rattle.tb_match.specs.Joining.{with_prefix};
ghost use Rattle.tb_match.specs.Matches.{match_term, match_list, match_all, match_appl, match_members, binds_if};

use crate::bind::{Binds, empty, is_same, taken_if, with_bind};
use std::alloc::Global;
use tb_terms::{Items, Name, NoMemory, Pattern, Patterns, Sort, Term, Terms, has_sort};

/// Returns the binds of the match in the order of their first occurrences, or `None` if the term doesn't match the pattern.
pub fn match_term(alloc: Global, p: &Pattern, t: &Term) -> Result<Option<Binds>, NoMemory>
    ensures { IfOk result (λ m. m ≡ match_term p.now t.now) }
{
    let mut binds = Items::new(alloc);
    let matches = match_behind(alloc, p, t, &mut binds)?;
    Ok(taken_if(alloc, matches, &mut binds))
}

/// Returns the binds of the match in the order of their first occurrences, or `None` if the terms don't match the patterns one by one.
pub fn match_list(alloc: Global, ps: &Patterns, ts: &Terms) -> Result<Option<Binds>, NoMemory>
    ensures { IfOk result (λ m. m ≡ match_list ps.now ts.now) }
{
    let mut room = Items::new(alloc);
    match_list_in(alloc, ps, ts, &mut room)
}

/// Does the same as `match_list`, but collects the binds in `room`, whose old content it drops. If there is a match, the result takes the
/// memory of `room`. Otherwise, `room` keeps its memory.
pub fn match_list_in(
    alloc: Global,
    ps: &Patterns,
    ts: &Terms,
    room: &mut Binds,
) -> Result<Option<Binds>, NoMemory>
    ensures { IfOk result (λ m. m ≡ match_list ps.now ts.now) }
{
    empty(room);
    let matches = match_each(alloc, ps.as_slice(), ts.as_slice(), room)?;
    Ok(taken_if(alloc, matches, room))
}

/// Does the same as `match_parts`. Isn't in the cycle of `match_parts`, so that simple patterns cost little.
fn match_each(
    alloc: Global,
    patterns: &[Pattern],
    terms: &[Term],
    binds: &mut Binds,
) -> Result<bool, NoMemory>
    ensures { IfOk result (λ matches. binds_if matches binds.new
        ≡ with_prefix binds.old (match_all (map match_term patterns.now) terms.now)) }
{
    if patterns.len() != terms.len() {
        return Ok(false);
    }
    for (position, pattern) in patterns.iter().enumerate() {
        if !match_one(alloc, pattern, &terms[position], binds)? {
            return Ok(false);
        }
    }
    Ok(true)
}

/// Does the same as `match_behind`. Isn't in the cycle of `match_behind`, so that simple patterns cost little.
fn match_one(
    alloc: Global,
    pattern: &Pattern,
    term: &Term,
    binds: &mut Binds,
) -> Result<bool, NoMemory>
    ensures { IfOk result (λ matches. binds_if matches binds.new
        ≡ with_prefix binds.old (match_term pattern.now term.now)) }
{
    match pattern {
        Pattern::Fixed(fixed) => Ok(is_same(fixed, term)),
        Pattern::Result(slot, sort) => match_result(alloc, *slot, sort, term, binds),
        _ => match_behind(alloc, pattern, term, binds),
    }
}

#[cycle(matching)]
fn match_behind(
    alloc: Global,
    pattern: &Pattern,
    term: &Term,
    binds: &mut Binds,
) -> Result<bool, NoMemory>
    ensures { IfOk result (λ matches. binds_if matches binds.new
        ≡ with_prefix binds.old (match_term pattern.now term.now)) }
{
    match pattern {
        Pattern::Fixed(fixed) => Ok(is_same(fixed, term)),
        Pattern::Hole(sort) => Ok(has_sort(term, sort)),
        Pattern::Result(slot, sort) => match_result(alloc, *slot, sort, term, binds),
        Pattern::Appl(name, parts) => match_appl(alloc, name, parts.as_slice(), term, binds),
        Pattern::List(parts) => match_members(alloc, parts.as_slice(), term, binds),
    }
}

fn match_result(
    alloc: Global,
    slot: u32,
    sort: &Sort,
    term: &Term,
    binds: &mut Binds,
) -> Result<bool, NoMemory>
    ensures { IfOk result (λ matches. binds_if matches binds.new ≡ with_prefix binds.old
        (binds_if (has_sort term.now sort.now) (record { slot = slot; value = term.now } ∷ []))) }
{
    if !has_sort(term, sort) {
        return Ok(false);
    }
    with_bind(alloc, binds, slot, term)
}

#[cycle(matching)]
fn match_appl(
    alloc: Global,
    name: &Name,
    parts: &[Pattern],
    term: &Term,
    binds: &mut Binds,
) -> Result<bool, NoMemory>
    ensures { IfOk result (λ matches. binds_if matches binds.new ≡ with_prefix binds.old
        (match_appl name.now (map match_term parts.now) (out-Term term.now))) }
{
    match term {
        Term::Appl(other, terms) => {
            if name.as_bytes() == other.as_bytes() {
                return match_parts(alloc, parts, terms.as_slice(), binds);
            }
            Ok(false)
        }
        _ => Ok(false),
    }
}

#[cycle(matching)]
fn match_members(
    alloc: Global,
    parts: &[Pattern],
    term: &Term,
    binds: &mut Binds,
) -> Result<bool, NoMemory>
    ensures { IfOk result (λ matches. binds_if matches binds.new
        ≡ with_prefix binds.old (match_members (map match_term parts.now) (out-Term term.now))) }
{
    match term {
        Term::List(terms) => match_parts(alloc, parts, terms.as_slice(), binds),
        _ => Ok(false),
    }
}

#[cycle(matching)]
fn match_parts(
    alloc: Global,
    patterns: &[Pattern],
    terms: &[Term],
    binds: &mut Binds,
) -> Result<bool, NoMemory>
    ensures { IfOk result (λ matches. binds_if matches binds.new
        ≡ with_prefix binds.old (match_all (map match_term patterns.now) terms.now)) }
{
    if patterns.len() != terms.len() {
        return Ok(false);
    }
    for (position, pattern) in patterns.iter().enumerate() {
        if !match_behind(alloc, pattern, &terms[position], binds)? {
            return Ok(false);
        }
    }
    Ok(true)
}
