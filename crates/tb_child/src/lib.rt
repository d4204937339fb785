//! Lanes whose tools are child programs. The inlet gives the output of a child, and the outlet writes to its input. No contract says
//! what a real child gives or takes. The crate also reads the program's own command line.
#![tactic(auto)]

mod arrivals;
mod inlet;
mod lines;
mod outlet;
mod pipes;
mod ready;
mod starting;
mod words;

pub use inlet::ChildInlet;
pub use outlet::ChildOutlet;
pub use pipes::{ChildPair, child_lanes, child_pair};
pub use words::command_words;
