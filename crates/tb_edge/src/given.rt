//! The items that an inlet gives and an outlet takes, as contracts see them.
use crate::Bytes;
use tb_terms::Text;

/// An item that an inlet gives.
#[derive(Drop)]
pub enum Given {
    /// A line of a tool, at most 65,536 bytes without its newline.
    Line(Bytes),
    /// A longer line, whose bytes are lost.
    Long,
    /// The end of the output of one tool.
    End,
}

/// An item that an outlet takes.
#[derive(Drop)]
pub enum Taken {
    /// The start of a tool by this command.
    Start(Text),
    /// A line to the tool, without its newline.
    Line(Bytes),
    /// The end of the tool's input.
    End,
}
