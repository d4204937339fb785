//! Reads logs: from each line that is the text of an entry, it gets the number and the entry.
#![tactic(auto)]

mod buffers;
mod cut;
mod fault;
mod laws;
mod line;
mod log;
mod number;
mod part;
mod terms;
mod unescape;
mod word;
mod words;

pub use buffers::LineBuffers;
pub use fault::LogFault;
pub use laws::{bytes_stop_once, log_text_is_one_to_one};
pub use line::{Numbered, read_entry, read_entry_in};
pub use log::{read_line, read_log, split_line};
