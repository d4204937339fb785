//! Reasons as sentences: what each process of a bus waits for.
#![tactic(auto)]

mod acts;
mod atoms;
mod near;
mod reasons;
mod times;
mod waits;

pub use waits::{Seen, write_waits};
