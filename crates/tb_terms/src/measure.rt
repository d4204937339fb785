//! The size and the depth of a term, and their limits.
ghost use Rattle.std.specs.Prelude.{◌≡◌, ◌+◌, ◌↔◌, IsTrue, length, min, map, sum};
ghost use Rattle.std.specs.List.{All, list_all};
ghost use Rattle.tb_terms.specs.Sizes.{term_size, term_levels, greatest, is_within_limits, IsWithinLimits};

use crate::Term;

/// The greatest size of a term, in nodes plus bytes.
pub const MOST_TERM_SIZE: usize = 65_536;

/// The greatest depth of a term, in levels.
pub const MOST_TERM_LEVELS: usize = 64;

/// Returns whether a term is within the limits of size and depth.
#[tactic(auto, unfolding(crate::specs::Sizes::is_within_limits))]
pub fn is_within_limits(term: &Term) -> bool
    ensures test { result ≡ is_within_limits term.now }
    ensures limits { IsTrue result ↔ IsWithinLimits term.now }
{
    match term {
        Term::Int(_) => true,
        Term::Str(_) | Term::Appl(_, _) | Term::List(_) => {
            size(term) <= MOST_TERM_SIZE && depth(term) <= MOST_TERM_LEVELS
        }
    }
}

/// Returns whether each of these terms is within the limits of size and depth.
pub fn are_within_limits(terms: &[Term]) -> bool
    ensures test { result ≡ list_all is_within_limits terms.now }
    ensures limits { IsTrue result ↔ All IsWithinLimits terms.now }
{
    for term in terms {
        if !is_within_limits(term) {
            return false;
        }
    }
    true
}

/// Returns the sum of the sizes of these terms. If the sum is greater than `usize::MAX`, returns `usize::MAX`.
pub fn total_size(terms: &[Term]) -> usize
    ensures { result ≡ min (sum (map term_size terms.now)) usize.MAX }
{
    let mut total = 0usize;
    for term in terms {
        total = total.saturating_add(size(term));
    }
    total
}

/// Returns the size of a term: the number of its nodes plus the bytes of its names and strings. If the size is greater than
/// `usize::MAX`, returns `usize::MAX`.
pub fn size(term: &Term) -> usize
    ensures { result ≡ min (term_size term.now) usize.MAX }
{
    match term {
        Term::Int(_) => 1,
        Term::Str(_) | Term::Appl(_, _) | Term::List(_) => size_of(term),
    }
}

#[cycle(size)]
fn size_of(term: &Term) -> usize
    ensures { result ≡ min (term_size term.now) usize.MAX }
{
    match term {
        Term::Int(_) => 1,
        Term::Str(text) => text.as_bytes().len().saturating_add(1),
        Term::Appl(name, parts) => {
            let named = name.as_bytes().len().saturating_add(1);
            named.saturating_add(sum_of_sizes(parts.as_slice()))
        }
        Term::List(parts) => sum_of_sizes(parts.as_slice()).saturating_add(1),
    }
}

#[cycle(size)]
fn sum_of_sizes(terms: &[Term]) -> usize
    ensures { result ≡ min (sum (map term_size terms.now)) usize.MAX }
{
    let mut total = 0usize;
    for term in terms {
        total = total.saturating_add(size_of(term));
    }
    total
}

/// Returns the depth of a term: one more than the depth of its deepest part, or 1 if it has no parts. If the depth is greater than
/// `usize::MAX`, returns `usize::MAX`.
#[cycle(depth)]
pub fn depth(term: &Term) -> usize
    ensures { result ≡ min (term_levels term.now) usize.MAX }
{
    match term {
        Term::Int(_) | Term::Str(_) => 1,
        Term::Appl(_, parts) => greatest_depth(parts.as_slice()).saturating_add(1),
        Term::List(parts) => greatest_depth(parts.as_slice()).saturating_add(1),
    }
}

#[cycle(depth)]
fn greatest_depth(terms: &[Term]) -> usize
    ensures { result ≡ min (greatest (map term_levels terms.now)) usize.MAX }
{
    let mut deepest = 0;
    for term in terms {
        deepest = depth(term).max(deepest);
    }
    deepest
}
