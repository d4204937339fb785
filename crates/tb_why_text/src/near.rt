//! The message that is nearest to a message which no other process sends or receives.

use crate::atoms::put_patterns;
use crate::waits::Seen;
use std::alloc::Global;
use tb_body::Act;
use tb_iface::write_pattern;
use tb_log_plain::{put, put_at, put_number, put_terms};
use tb_match::match_term;
use tb_terms::{Name, NoMemory, Pattern, Patterns, Term, Terms, write_term};
use tb_why::{Offering, Standing};

/// The action that an offer needs from another process.
#[derive(Clone, Copy)]
pub(crate) enum Wanted<'a> {
    /// To receive these terms.
    Receive(&'a Terms),
    /// To send terms that match these patterns.
    Send(&'a Patterns),
}

/// The patterns of a message's receiver, and the terms of its sender.
#[derive(Clone, Copy)]
struct Sides<'a> {
    patterns: &'a Patterns,
    terms: &'a Terms,
}

/// The distance of terms from patterns: first the difference of their numbers, and then the number of terms that don't match.
#[derive(Clone, Copy)]
struct Gap {
    number: usize,
    differing: usize,
}

/// An offer of a process that has the other side of the message, with its distance.
#[derive(Clone, Copy)]
struct Near<'a> {
    other: &'a Standing,
    offer: &'a Offering,
    sides: Sides<'a>,
    gap: Gap,
}

/// Appends the nearest message of another process, and how it differs. If no message begins alike, but the process itself has a matching
/// other side, appends a sentence about that.
pub(crate) fn put_nearest(
    alloc: Global,
    seen: &Seen,
    number: u32,
    wanted: Wanted,
    into: &mut Vec<u8>,
) -> Result<(), NoMemory> {
    let mut best: Option<Near> = None;
    for other in seen.standings {
        if other.number != number {
            best = nearest_of(alloc, seen, other, wanted, best)?;
        }
    }
    match best {
        Some(near) => put_near(alloc, seen, &near, wanted, into),
        None => put_own(alloc, seen, number, wanted, into),
    }
}

/// Appends that the process itself has the other side of the message. If it doesn't have one that matches, appends nothing.
fn put_own<'a>(
    alloc: Global,
    seen: &Seen<'a>,
    number: u32,
    wanted: Wanted<'a>,
    into: &mut Vec<u8>,
) -> Result<(), NoMemory> {
    for own in seen.standings {
        if own.number == number {
            return match nearest_of(alloc, seen, own, wanted, None)? {
                Some(near) if is_none_far(near.gap) => put_same(seen, &near, into),
                _ => Ok(()),
            };
        }
    }
    Ok(())
}

/// Returns whether both sides have the same length, and each argument matches by itself.
fn is_none_far(gap: Gap) -> bool {
    gap.number == 0 && gap.differing == 0
}

/// Appends where the process itself has the other side, and why that doesn't count.
fn put_same(seen: &Seen, near: &Near, into: &mut Vec<u8>) -> Result<(), NoMemory> {
    let Near { other, offer, .. } = near;
    put(b"; ", into)?;
    put_at(seen.names, other.number, other.body, offer.atom, into)?;
    put(
        b" doesn't count, since a process doesn't speak with itself",
        into,
    )
}

/// Returns the nearest offer so far, or an offer of this process that is nearer.
fn nearest_of<'a>(
    alloc: Global,
    seen: &Seen,
    other: &'a Standing,
    wanted: Wanted<'a>,
    so_far: Option<Near<'a>>,
) -> Result<Option<Near<'a>>, NoMemory> {
    let mut best = so_far;
    for offer in other.offers.as_slice() {
        let Some(sides) = sides_of(seen, other, offer, wanted) else {
            continue;
        };
        if let Some(gap) = gap_of(alloc, sides)? {
            if is_nearer(gap, &best) {
                best = Some(Near {
                    other,
                    offer,
                    sides,
                    gap,
                });
            }
        }
    }
    Ok(best)
}

fn is_nearer(gap: Gap, best: &Option<Near>) -> bool {
    match best {
        Some(near) if gap.number == near.gap.number => gap.differing < near.gap.differing,
        Some(near) => gap.number < near.gap.number,
        None => true,
    }
}

/// Returns both sides of the message, if the offer has the other side.
fn sides_of<'a>(
    seen: &Seen,
    other: &Standing,
    offer: &'a Offering,
    wanted: Wanted<'a>,
) -> Option<Sides<'a>> {
    let act = &seen.atom(other.body, offer.atom)?.act;
    match (wanted, act) {
        (Wanted::Receive(terms), Act::RecMsg(_)) => Some(Sides {
            patterns: offer.patterns.as_ref()?,
            terms,
        }),
        (Wanted::Send(patterns), Act::SndMsg(_)) => Some(Sides {
            patterns,
            terms: offer.sent.as_ref()?,
        }),
        _ => None,
    }
}

/// Returns the distance of the terms from the patterns, if both begin alike: with the same name, or with a term that matches its pattern.
fn gap_of(alloc: Global, sides: Sides) -> Result<Option<Gap>, NoMemory> {
    let Sides { patterns, terms } = sides;
    let (Some(pattern), Some(term)) = (patterns.get(0), terms.get(0)) else {
        return Ok(None);
    };
    if !have_same_name(pattern, term) && match_term(alloc, pattern, term)?.is_none() {
        return Ok(None);
    }
    Ok(Some(Gap {
        number: difference(patterns.len(), terms.len()),
        differing: count_differing(alloc, patterns.as_slice(), terms)?,
    }))
}

fn have_same_name(pattern: &Pattern, term: &Term) -> bool {
    match (name_in(pattern), name_of(term)) {
        (Some(one), Some(other)) => one.is_same(other),
        _ => false,
    }
}

/// Returns the name with which a term begins.
fn name_of(term: &Term) -> Option<&Name> {
    match term {
        Term::Appl(name, _) => Some(name),
        _ => None,
    }
}

/// Returns the name with which a pattern begins.
fn name_in(pattern: &Pattern) -> Option<&Name> {
    match pattern {
        Pattern::Fixed(term) => name_of(term),
        Pattern::Appl(name, _) => Some(name),
        _ => None,
    }
}

fn difference(one: usize, other: usize) -> usize {
    if one < other {
        other - one
    } else {
        one - other
    }
}

/// Returns the number of terms that don't match the pattern at the same place.
fn count_differing(alloc: Global, patterns: &[Pattern], terms: &Terms) -> Result<usize, NoMemory> {
    let mut count: usize = 0;
    for (place, pattern) in patterns.iter().enumerate() {
        if let Some(term) = terms.get(place) {
            if match_term(alloc, pattern, term)?.is_none() {
                count = count.saturating_add(1);
            }
        }
    }
    Ok(count)
}

/// Appends the place of the nearest message, its terms or patterns, and how it differs.
fn put_near(
    alloc: Global,
    seen: &Seen,
    near: &Near,
    wanted: Wanted,
    into: &mut Vec<u8>,
) -> Result<(), NoMemory> {
    let Near {
        other,
        offer,
        sides,
        ..
    } = near;
    put(b"; the nearest: ", into)?;
    put_at(seen.names, other.number, other.body, offer.atom, into)?;
    match wanted {
        Wanted::Receive(_) => {
            put(b" receives ", into)?;
            put_patterns(sides.patterns.as_slice(), into)?;
        }
        Wanted::Send(_) => {
            put(b" sends ", into)?;
            put_terms(sides.terms.as_slice(), into)?;
        }
    }
    put_difference(alloc, *sides, into)
}

/// Appends how terms differ from patterns: in their number, at a place, or only together.
fn put_difference(alloc: Global, sides: Sides, into: &mut Vec<u8>) -> Result<(), NoMemory> {
    let Sides { patterns, terms } = sides;
    if patterns.len() != terms.len() {
        put(b" (terms sent: ", into)?;
        put_number(terms.len() as u64, into)?;
        put(b", received: ", into)?;
        put_number(patterns.len() as u64, into)?;
        return put(b")", into);
    }
    for (place, pattern) in patterns.as_slice().iter().enumerate() {
        if let Some(term) = terms.get(place) {
            if match_term(alloc, pattern, term)?.is_none() {
                return put_argument(place, pattern, term, into);
            }
        }
    }
    put(b" (a variable that comes twice would take two terms)", into)
}

/// Appends the argument that doesn't match.
fn put_argument(
    place: usize,
    pattern: &Pattern,
    term: &Term,
    into: &mut Vec<u8>,
) -> Result<(), NoMemory> {
    put(b" (argument ", into)?;
    put_number((place as u64).saturating_add(1), into)?;
    put(b" is sent as ", into)?;
    write_term(term, into)?;
    put(b" and received as ", into)?;
    write_pattern(pattern, into)?;
    put(b")", into)
}
