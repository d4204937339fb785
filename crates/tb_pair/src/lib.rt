//! A pipe between two shared buses. The writing worker serves lane 1 of one bus, and the reading worker serves lane 1 of the other.
#![tactic(auto)]

mod job;
mod laws;
mod lines;
mod piece;
mod pipe;
mod reader;
mod settle;
mod ticker;
mod writer;

pub use job::{PairJob, PipeReading, PipeWriting, beside};
pub use laws::{a_pair_parts, ends_meet, ticks_meet};
pub use piece::{Piece, Told};
pub use pipe::{PipeIn, PipeOut};
pub use reader::pipe_reader;
pub use ticker::{TickedBus, pair_ticker};
pub use writer::pipe_writer;
