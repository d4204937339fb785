//! The notes of one process: its subscriptions and its queue of notes.
#![tactic(auto)]

mod inbox;
mod laws;
mod queue;
mod subscriptions;

pub use inbox::Inbox;
pub use laws::{oldest_match_is_first, subscribing_adds, unsubscribing_removes};
pub use queue::Found;
