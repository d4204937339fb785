//! Values within the limits of terms.
ghost use Rattle.std.specs.Prelude.{◌≡◌, ◌&&◌, nat_le};
ghost use Rattle.tb_terms.specs.Sizes.{most_term_size, most_term_levels};
ghost use Rattle.tb_func.specs.Limits.{limited};

use tb_terms::{MOST_TERM_LEVELS, MOST_TERM_SIZE, Term, is_within_limits};

/// Returns whether a term of this size and depth is within the limits.
pub(crate) fn are_within_limits(size: usize, levels: usize) -> bool
    ensures { result ≡ (nat_le size most_term_size && nat_le levels most_term_levels) }
{
    size <= MOST_TERM_SIZE && levels <= MOST_TERM_LEVELS
}

/// Returns the term, or `None` if it is over a limit.
pub(crate) fn limited(term: Term) -> Option<Term>
    ensures { result ≡ limited term }
{
    if is_within_limits(&term) {
        Some(term)
    } else {
        None
    }
}
