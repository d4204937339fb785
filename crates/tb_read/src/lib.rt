//! The parsing of terms: each source is a term within the limits, or has a first error.
#![tactic(auto)]

mod build;
mod fault;
mod kind;
mod laws;
mod lex;
mod limits;
mod number;
mod quoted;
mod read;
mod scan;
mod shape;
mod stack;
mod token;

pub use fault::TermFault;
pub use laws::{
    each_text_has_one, faults_are_unique, numeral_faults, reading_is_unique, syntax_begins,
    syntax_stops, written_text_reads,
};
pub use lex::{is_blank, is_name_byte};
pub use limits::Limits;
pub use number::{digits_len, digits_value, is_negative, is_real, number_of, without_sign};
pub use quoted::{Turn, Within, string_turn};
pub use read::{read_term, read_within};
