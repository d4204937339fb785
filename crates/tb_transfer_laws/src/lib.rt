//! Theorems about the operator `>>`: a step of the right side of a disrupt drops the left side.
#![tactic(auto)]

mod laws;

pub use laws::{a_step_of_the_right_side_drops_the_left_side, sides_of_a_disrupt_are_apart};
