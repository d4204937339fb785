//! The feed with the inputs of a log, with which a simulation can repeat a run.
#![tactic(auto)]

mod fault;
mod laws;
mod writing;

pub use fault::RefeedFault;
pub use laws::what_came_in_is_one_feed;
pub use writing::refeed;
