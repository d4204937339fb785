//! Compiles the body of a process to a table of positions, with one position for each operator and each atom.
#![tactic(auto)]

mod behind;
mod code;
mod entry;
mod lists;
mod node;
mod two;

pub use behind::Behind;
pub use code::{Code, compile};
pub use entry::{Entry, Span, What};
pub use node::{Node, Op};
