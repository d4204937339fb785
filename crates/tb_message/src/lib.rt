//! The text of a line that reports an error or an end, as a value: fixed words and a suffix.
#![tactic(auto)]

mod message;

pub use message::{Message, Rest};
