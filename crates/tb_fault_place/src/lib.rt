//! Finds the error of a script, and the bytes of its place.
#![tactic(auto)]

mod calls;
mod laws;
mod lines;
mod marks;
mod names;
mod point;

pub use calls::first_call;
pub use laws::lines_begin_with_names;
pub use lines::write_place;
pub use names::fault_name;
pub use point::{Point, find_fault};
