//! The parser of scripts: the script that a sequence of tokens spells, or its error.
#![tactic(auto)]

mod atoms;
mod brackets;
mod built;
mod definitions;
mod exprs;
mod fault;
mod kept;
mod laws;
mod parser;
mod procs;
mod reader;
mod sorts;

pub use fault::ParseFault;
pub use laws::{each_row_has_one, faults_are_unique, spelling_is_unique};
pub use parser::parse;
