//! Theorems about the lines that a program takes from its tools.
#![tactic(auto)]

mod laws;

pub use laws::{heard_lines_were_given, taken_lines_are_heard};
