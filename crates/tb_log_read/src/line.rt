//! Reads the entry of one line, with its number.
ghost use Rattle.std.specs.Prelude.{◌≡◌, ◌≤◌, ◌<◌, ◌^◌, ◌↔◌, ℕ, Some, IsTrue, IfOk, IfSome};
ghost use Rattle.tb_log.specs.LogText.{entry_text};
ghost use Rattle.tb_log.specs.Shapes.{InShape};
ghost use Rattle.tb_log.specs.declared.entry.Entry.{Entry};
ghost use Rattle.tb_log_read.specs.Lines.{IsLine};
ghost use Rattle.tb_log_read.specs.Helpers.Entries.{numbered_of};

use crate::buffers::LineBuffers;
use crate::cut::cut;
use crate::number::number64;
use crate::words::read_words;
use std::alloc::Global;
use tb_log::{Entry, is_in_shape, write_entry};
use tb_terms::NoMemory;

/// An entry and its number.
#[derive(Drop)]
pub struct Numbered {
    /// The number of the entry, with which its line begins.
    pub number: u64,
    /// The entry.
    pub entry: Entry,
}

/// Returns the entry whose line this is, with its number. The line includes its newline. Returns `None` if no entry in shape has this
/// line.
pub fn read_entry(alloc: Global, line: &[u8]) -> Result<Option<Numbered>, NoMemory>
    ensures found { IfOk result
        (λ found. IfSome found (λ numbered. IsLine numbered.number numbered.entry line.now)) }

    // If an entry has this line, the call returns the entry or runs out of memory.
    ensures only { (number : ℕ) (entry : Entry) → IsLine number entry line.now
        → IfOk result (λ found. found ≡ Some (record { number = number; entry = entry })) }
{
    let mut buffers = LineBuffers::new(alloc);
    read_entry_in(alloc, line, &mut buffers)
}

/// Returns the same as `read_entry`, and reuses the memory of the buffers. If each entry is given back to the buffers, reading a line
/// takes memory only for its terms.
pub fn read_entry_in(
    alloc: Global,
    line: &[u8],
    buffers: &mut LineBuffers,
) -> Result<Option<Numbered>, NoMemory>
    ensures found { IfOk result
        (λ found. IfSome found (λ numbered. IsLine numbered.number numbered.entry line.now)) }

    // If an entry has this line, the call returns the entry or runs out of memory.
    ensures only { (number : ℕ) (entry : Entry) → IsLine number entry line.now
        → IfOk result (λ found. found ≡ Some (record { number = number; entry = entry })) }
{
    let Some(numbered) = read_numbered(alloc, line, buffers)? else {
        return Ok(None);
    };
    if is_line(&numbered, line, &mut buffers.text)? {
        Ok(Some(numbered))
    } else {
        Ok(None)
    }
}

/// Returns the number and the entry that the line states, provided that the line is an entry's. Otherwise, the result has no meaning.
fn read_numbered(
    alloc: Global,
    line: &[u8],
    buffers: &mut LineBuffers,
) -> Result<Option<Numbered>, NoMemory>
    ensures { IfOk result (λ found. found ≡ numbered_of line.now) }
{
    let (text, _newline) = cut(b'\n', line);
    let (number, words) = cut(b' ', text);
    match read_words(alloc, words, buffers)? {
        Some(entry) => Ok(Some(Numbered {
            number: number64(number),
            entry,
        })),
        None => Ok(None),
    }
}

/// Returns whether the number isn't 0, the entry is in shape, and its line is exactly this one.
fn is_line(numbered: &Numbered, line: &[u8], text: &mut Vec<u8>) -> Result<bool, NoMemory>
    ensures { IfOk result (λ is. IsTrue is ↔ ((1 ≤ numbered.now.number) × InShape numbered.now.entry
        × (line.now ≡ entry_text numbered.now.number numbered.now.entry))) }
{
    if numbered.number == 0 || !is_in_shape(&numbered.entry) {
        return Ok(false);
    }
    text.clear();
    text.reserve(line.len())?;
    write_entry(numbered.number, &numbered.entry, text)?;
    Ok(text.as_slice() == line)
}
