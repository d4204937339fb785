//! Writes to sinks: the line of an error or of an end, and a log, entry by entry.
#![tactic(auto)]

mod line;
mod log_writer;

pub use line::put_line;
pub use log_writer::{LogFault, LogWriter, PIECE_BYTES, put_log};
