//! Writes a log in plain words for people. It names processes, and gives the places of atoms in the source.
#![tactic(auto)]

mod names;
mod plain;
mod write;

pub use names::{Named, Names, Spot, put_at, put_process};
pub use plain::Plain;
pub use write::{put, put_comma, put_count, put_number, put_terms};
