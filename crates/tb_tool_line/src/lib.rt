//! The lines between tools and the bus.
#![tactic(auto)]

mod laws;
mod line;
mod read;
mod send;

pub use laws::{each_line_is_one, tool_lines_are_unique};
pub use read::read_tool_line;
pub use send::{MOST_LINE_TEXT, SendFault, send_out, write_out};
