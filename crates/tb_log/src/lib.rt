//! The log of a bus: one entry for each event, and the line of each entry.
#![tactic(auto)]

mod entry;
mod kept;
mod log;
mod pieces;
mod proper;
mod seen;
mod shape;
mod step_line;
mod text;

pub use entry::{Entries, Entry, Input, Label, LabelKind, Out, Place, Reply, ToolLine, Why};
pub use log::{Log, input_size, out_size};
pub use pieces::piece;
pub use proper::{show_proper_entry, show_proper_log};
pub use seen::{Seen, SeenLabel, SeenTerms};
pub use shape::{
    LANES, MOST_TOOL_NAME, is_in_shape, is_lane, is_out_in_shape, is_tool_line_in_shape,
};
pub use text::{kind_word, why_word, write_entry, write_seen};
