//! Checks scripts: the nine conditions beyond the grammar, and the first one that a script fails.
#![tactic(auto)]

mod atoms;
mod bodies;
mod calls;
mod checked;
mod definitions;
mod expected_sorts;
mod exprs;
mod fault;
mod first;
mod fitting;
mod laws;
mod names;
mod positions;
mod scope;
mod seen;
mod tools;
mod values;
mod violation;

pub use checked::{check, proper_names};
pub use fault::CheckFault;
pub use laws::first_fault_is_one;
pub use names::Names;
pub use values::closed_value;
