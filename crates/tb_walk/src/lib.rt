//! Walks: running processes, represented by positions in the table of their body.
#![tactic(auto)]

mod branch;
mod ending;
mod laws;
mod look;
mod number;
mod patterns;
mod room;
mod settle;
mod sight;
mod take;
mod taken;
mod taking;
mod values;
mod walk;

pub use branch::{Branch, Row};
pub use laws::rows_end_with_their_terms;
pub use sight::Sight;
pub use walk::Walk;
