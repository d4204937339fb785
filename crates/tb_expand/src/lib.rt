//! Expands processes: builds bodies in which each call is replaced by the body of the called process.
#![tactic(auto)]

mod acts;
mod atoms;
mod built;
mod call_cycle;
mod call_order;
mod expansion;
mod exprs;
mod fault;
mod graph;
mod number;
mod order;
mod parts;
mod positions;
mod scope;
mod seen;
mod size;
mod sizes;
mod slots;
mod walk;
mod whole;

pub use expansion::{Expansions, expand};
pub use fault::{ExpandFault, Idents};
