//! Reads a log, line by line.
ghost use Rattle.std.specs.Prelude.{◌≡◌, ◌<◌, ◌≤◌, ◌⊎◌, ◌++◌, ℕ, List, Ok, Err, length, take, IfOk, IfErr};
ghost use Rattle.tb_log.specs.LogText.{log_text};
ghost use Rattle.tb_log.specs.declared.entry.Entry.{Entry};
ghost use Rattle.tb_log_read.specs.Lines.{IsLine, IsLog, IsNoLine, StopsAt, HasFault, first_line};

use crate::buffers::LineBuffers;
use crate::fault::LogFault;
use crate::line::read_entry_in;
use std::alloc::Global;
use tb_log::{Entries, Entry};
use tb_terms::Items;

/// Returns the log whose text the bytes are: entries in shape, numbered from 1, one line each.
pub fn read_log(alloc: Global, bytes: &[u8]) -> Result<Entries, LogFault>
    ensures found { IfOk result (λ log. IsLog log × (bytes.now ≡ log_text log)) }

    // If the bytes are the text of a log, the call returns the log or runs out of memory.
    ensures only { (log : List Entry) → IsLog log → bytes.now ≡ log_text log
        → (result ≡ Ok log) ⊎ (result ≡ Err LogFault.NoMemory) }
    ensures fault { IfErr result (HasFault bytes.now) }

    // If a line isn't an entry's, the call reports the first such line or runs out of memory.
    ensures exact { (number : ℕ) → StopsAt bytes.now number
        → (result ≡ Err (LogFault.Line number)) ⊎ (result ≡ Err LogFault.NoMemory) }
{
    read(alloc, bytes)
}

fn read(alloc: Global, bytes: &[u8]) -> Result<Entries, LogFault>
    ensures found { IfOk result (λ log. IsLog log × (bytes.now ≡ log_text log)) }
    ensures fault { IfErr result (HasFault bytes.now) }
{
    let mut entries = Items::new(alloc);
    let mut buffers = LineBuffers::new(alloc);
    let mut rest = bytes;
    'lines: while !rest.is_empty() {
        let (line, later) = split_line(rest);
        let number = entries.len() as u64 + 1;
        entries.push(read_line(alloc, number, line, &mut buffers)?)?;
        rest = later;
    }
    Ok(entries)
}

/// Returns the entry of this line, which includes its newline, if the entry has this number. Otherwise, the error has this number.
pub fn read_line(
    alloc: Global,
    number: u64,
    line: &[u8],
    buffers: &mut LineBuffers,
) -> Result<Entry, LogFault>
    ensures found { IfOk result (λ entry. IsLine number entry line.now) }
    ensures fault { IfErr result (IsNoLine number line.now) }
{
    match read_entry_in(alloc, line, buffers)? {
        Some(numbered) if numbered.number == number => Ok(numbered.entry),
        _ => Err(LogFault::Line(number)),
    }
}

/// Returns the first line, with its newline if it has one, and the bytes after the line.
pub fn split_line(bytes: &[u8]) -> (&[u8], &[u8])
    requires { 0 < length bytes.now }
    ensures line { result.0.now ≡ first_line bytes.now }
    ensures parts { bytes.now ≡ result.0.now ++ result.1.now }
    ensures shorter { length result.1.now < length bytes.now }
{
    bytes.split_at(line_len(bytes))
}

/// Returns the length of the first line, with its newline if it has one.
fn line_len(bytes: &[u8]) -> usize
    requires { 0 < length bytes.now }
    ensures line { take result bytes.now ≡ first_line bytes.now }
    ensures within { result ≤ length bytes.now }
    ensures some { 0 < result }
{
    for (place, byte) in bytes.iter().enumerate() {
        if *byte == b'\n' {
            return place + 1;
        }
    }
    bytes.len()
}
