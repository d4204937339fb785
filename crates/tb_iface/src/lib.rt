//! The interface of a tool: the lines that a program may send to it, and the lines that the program may take from it.
#![tactic(auto)]

mod answer;
mod laws_handed;
mod laws_heard;
mod lines;
mod of_program;
mod outline;
mod write;

pub use answer::{IfaceFault, Interface};
pub use laws_handed::{lines_handed_out_match_the_interface, lines_handed_out_were_put};
pub use laws_heard::{
    told_and_heard_terms_match_the_interface, values_have_the_sorts_of_their_slots,
};
pub use of_program::interface;
pub use write::{write_interface, write_pattern};
