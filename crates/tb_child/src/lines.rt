//! How the output of a program is split into lines.
ghost use Rattle.std.specs.Prelude.{◌≡◌, ◌≤◌, length};

use std::alloc::{AllocError, Global};
use std::io;
use std::io::Read;
use tb_edge::MOST_LINE;

/// The largest number of bytes that are read at once.
const READ_BYTES: usize = 16_384;

/// Bytes that were read, and not taken yet.
#[derive(Drop)]
pub struct Pending {
    bytes: Vec<u8>,
    from: usize,
    to: usize,
}

impl Pending {
    pub fn new(alloc: Global) -> Result<Pending, AllocError> {
        Ok(Pending {
            bytes: vec![in alloc; 0; READ_BYTES]?,
            from: 0,
            to: 0,
        })
    }

    pub fn is_empty(&self) -> bool {
        self.rest().is_empty()
    }

    fn rest(&self) -> &[u8] {
        match self.bytes.as_slice().get(self.from..self.to) {
            Some(rest) => rest,
            None => &[],
        }
    }

    /// Reads bytes in place of the earlier ones, which must all be taken. Returns their number, which is 0 at the end of the output.
    pub fn fill<R: Read>(&mut self, source: &mut R) -> io::Result<usize> {
        self.from = 0;
        self.to = 0;
        let count = source.read(self.bytes.as_mut_slice())?;
        self.to = count;
        Ok(count)
    }
}

/// How much of a line was read.
#[derive(Clone, Copy, PartialEq, Eq)]
pub enum Part {
    /// A part of the line: its newline is missing.
    Open,
    /// The whole line with its newline.
    Whole,
}

/// Moves the bytes of the line from the bytes that were read to `line`. If the line gets too long, empties `line`, and sets `is_long`.
pub fn take_part(
    pending: &mut Pending,
    line: &mut Vec<u8>,
    is_long: &mut bool,
) -> Result<Part, AllocError>
    requires { length line.old.items ≤ 65536 }
    ensures { length line.new.items ≤ 65536 }
{
    let rest = pending.rest();
    let (part, end) = match rest.iter().position(|byte| *byte == b'\n') {
        Some(at) => (&rest[..at], Part::Whole),
        None => (rest, Part::Open),
    };
    if !*is_long {
        *is_long = !append(part, line)?;
    }
    let taken = part.len() + if end == Part::Whole { 1 } else { 0 };
    pending.from = pending.from.saturating_add(taken);
    Ok(end)
}

/// Appends a part to a line, and returns true. If the line would get too long, returns false.
fn append(part: &[u8], line: &mut Vec<u8>) -> Result<bool, AllocError>
    requires { length line.old.items ≤ 65536 }
    ensures { length line.new.items ≤ 65536 }
{
    if part.len() > MOST_LINE - line.len() {
        line.clear();
        return Ok(false);
    }
    line.extend_from_slice(part)?;
    Ok(true)
}
