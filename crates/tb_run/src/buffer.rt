//! A buffer with capacity for any line that is sent.
ghost use Rattle.std.specs.Prelude.{◌≤◌, vec_capacity};
ghost use Rattle.tb_tool_line.specs.Sending.{most_line_text};

use std::alloc::Global;
use tb_terms::NoMemory;
use tb_tool_line::MOST_LINE_TEXT;

/// A buffer with capacity for the text of any line that is sent.
#[derive(Drop)]
pub struct Buffer {
    pub(crate) bytes: Vec<u8>,
    ghost has_room: { most_line_text ≤ vec_capacity bytes },
}

impl Buffer {
    /// Takes the memory of a buffer.
    pub fn new(alloc: Global) -> Result<Buffer, NoMemory> {
        let bytes = Vec::with_capacity(alloc, MOST_LINE_TEXT)?;
        Ok(Buffer { bytes })
    }
}
