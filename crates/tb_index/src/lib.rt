//! An index of processes: the messages that each process sends and receives, and whether it is awake. Without a search through
//! all processes, the index finds the processes that may begin a move, and the processes that may receive a message.
#![tactic(auto)]

mod active;
mod bits;
mod coming;
mod counts;
mod few;
mod gather;
mod index;
mod mark;
mod pairs;
mod slot;

pub use index::Index;
pub use mark::{Mark, Marks, received_mark, sent_mark};
