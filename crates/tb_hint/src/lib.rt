//! The message about a rejected script: the place, a sentence, the line with a mark beneath it, notes, and help.
#![tactic(auto)]

mod bytes;
mod calls;
mod cures;
mod message;
mod reals;
mod syntax;
mod unfinished;

pub use message::message_text;
