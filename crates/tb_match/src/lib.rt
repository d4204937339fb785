//! The matching of terms against patterns. A match binds the terms that variables take to their slots.
#![tactic(auto)]

mod bind;
mod fit;
mod laws;
mod matching;

pub use bind::{Bind, Binds, copy_binds};
pub use fit::{fits_list, same_patterns};
pub use laws::{list_matches_are_least, matches_are_least, matches_bind_once};
pub use matching::{match_list, match_list_in, match_term};
