//! The feed of a simulation: the inputs of its bus, one line for each.
#![tactic(auto)]

mod fault;
mod feed;
mod laws;
mod line;
mod reading;

pub use fault::FeedFault;
pub use feed::Feed;
pub use laws::{
    a_feed_has_no_fault, a_line_says_one_input, a_text_has_one_fault, a_text_has_one_feed,
};
pub use reading::read_feed;
