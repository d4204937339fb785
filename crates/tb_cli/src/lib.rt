//! The arguments of the command line, and the arguments of a pair.
#![tactic(auto)]

mod command;
mod fault;
mod laws;
mod pair_command;
mod parts;
mod reading;
mod table;
mod values;

pub use command::Command;
pub use fault::WordFault;
pub use laws::{asked_numbers_are_within_their_ranges, asked_pair_numbers_are_within_their_ranges};
pub use pair_command::PairCommand;
pub use reading::{read_pair_words, read_words};
