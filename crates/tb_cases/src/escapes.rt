//! The bytes that a text with escapes represents.
use std::alloc::{AllocError, Global};

/// The role of the next byte.
#[derive(Clone, Copy)]
enum Mode {
    Text,
    /// The byte after a backslash.
    Escape,
    /// The first hexadecimal digit of a byte.
    High,
    /// The second hexadecimal digit of a byte. The first digit has this value.
    Low(u8),
    /// A digit of the number of repetitions, or the space after this number.
    Count,
    /// An escape before the byte was invalid.
    Bad,
}

/// A piece of a repeated part.
#[derive(Clone, Copy)]
enum Piece {
    Byte(u8),
    /// The number of the repetition, from 0, plus this number.
    Turn(usize),
}

#[derive(Drop)]
struct Reader {
    alloc: Global,
    bytes: Vec<u8>,
    mode: Mode,
    /// The part to repeat. If such a part has begun, `times` is the number of its repetitions.
    part: Vec<Piece>,
    times: Option<usize>,
}

/// Returns the bytes that a text represents, or `None` if an escape in it is invalid or incomplete. The escapes are `\\`, `\n`, `\r`, `\t`,
/// `\s` (a space), `\e` (nothing), `\xff` (a byte), and `\*3 ab\;` (three times `ab`). The repeated part can have other escapes, and also
/// `\#` (the number of the repetition, from 0) and `\+` (the next number).
pub fn meant(alloc: Global, text: &str) -> Result<Option<Vec<u8>>, AllocError> {
    let mut reader = Reader {
        alloc,
        bytes: Vec::new(alloc),
        mode: Mode::Text,
        part: Vec::new(alloc),
        times: None,
    };
    for byte in text.as_bytes() {
        reader.read(*byte)?;
    }
    let Reader {
        alloc: _,
        bytes,
        mode,
        part: _,
        times,
    } = reader;
    match (mode, times) {
        (Mode::Text, None) => Ok(Some(bytes)),
        _ => Ok(None),
    }
}

impl Reader {
    fn read(&mut self, byte: u8) -> Result<(), AllocError> {
        match (self.mode, byte) {
            (Mode::Text, b'\\') => self.mode = Mode::Escape,
            (Mode::Text, _) => self.put(byte)?,
            (Mode::Escape, _) => self.escape(byte)?,
            (Mode::High, _) => self.high(byte),
            (Mode::Low(high), _) => self.low(high, byte)?,
            (Mode::Count, _) => self.count(byte),
            (Mode::Bad, _) => {}
        }
        Ok(())
    }

    fn put(&mut self, byte: u8) -> Result<(), AllocError> {
        self.mode = Mode::Text;
        match self.times {
            Some(_) => self.part.push(Piece::Byte(byte))?,
            None => self.bytes.push(byte)?,
        }
        Ok(())
    }

    fn escape(&mut self, byte: u8) -> Result<(), AllocError> {
        match byte {
            b'\\' => self.put(b'\\'),
            b'n' => self.put(b'\n'),
            b'r' => self.put(b'\r'),
            b't' => self.put(b'\t'),
            b's' => self.put(b' '),
            b'#' => self.turn(0),
            b'+' => self.turn(1),
            b';' => self.repeat(),
            b'e' => {
                self.mode = Mode::Text;
                Ok(())
            }
            _ => {
                self.begin(byte);
                Ok(())
            }
        }
    }

    /// Begins an escape of several bytes.
    fn begin(&mut self, byte: u8) {
        match (byte, self.times) {
            (b'x', _) => self.mode = Mode::High,
            (b'*', None) => {
                self.times = Some(0);
                self.mode = Mode::Count;
            }
            _ => self.mode = Mode::Bad,
        }
    }

    fn high(&mut self, byte: u8) {
        match digit(byte) {
            Some(value) => self.mode = Mode::Low(value),
            None => self.mode = Mode::Bad,
        }
    }

    fn low(&mut self, high: u8, byte: u8) -> Result<(), AllocError> {
        match digit(byte) {
            Some(value) => self.put(high.wrapping_mul(16).wrapping_add(value)),
            None => {
                self.mode = Mode::Bad;
                Ok(())
            }
        }
    }

    /// Reads a byte of the number of repetitions. A space ends the number.
    fn count(&mut self, byte: u8) {
        match (byte, self.times) {
            (b'0'..=b'9', Some(times)) => {
                let value = usize::from(byte - b'0');
                self.times = Some(times.saturating_mul(10).saturating_add(value));
            }
            (b' ', _) => self.mode = Mode::Text,
            _ => self.mode = Mode::Bad,
        }
    }

    /// Adds the number of the repetition, plus `more`, to the part.
    fn turn(&mut self, more: usize) -> Result<(), AllocError> {
        self.mode = Mode::Text;
        self.part.push(Piece::Turn(more))?;
        Ok(())
    }

    /// Appends the repeated part to the bytes, and ends the part.
    fn repeat(&mut self) -> Result<(), AllocError> {
        match self.times {
            Some(times) => {
                for turn in 0..times {
                    put_part(self.alloc, self.part.as_slice(), turn, &mut self.bytes)?;
                }
                self.mode = Mode::Text;
            }
            None => self.mode = Mode::Bad,
        }
        self.times = None;
        self.part.clear();
        Ok(())
    }
}

/// Appends a part with the number of this repetition.
fn put_part(
    alloc: Global,
    part: &[Piece],
    turn: usize,
    into: &mut Vec<u8>,
) -> Result<(), AllocError> {
    for piece in part {
        match piece {
            Piece::Byte(byte) => into.push(*byte)?,
            Piece::Turn(more) => put_number(alloc, turn.saturating_add(*more), into)?,
        }
    }
    Ok(())
}

fn put_number(alloc: Global, number: usize, into: &mut Vec<u8>) -> Result<(), AllocError> {
    let text = format!(in alloc; "{number}")?;
    into.extend_from_slice(text.as_bytes())
}

/// Returns the value of a hexadecimal digit in lower case.
fn digit(byte: u8) -> Option<u8> {
    match byte {
        b'0'..=b'9' => Some(byte - b'0'),
        b'a'..=b'f' => Some(byte - b'a' + 10),
        _ => None,
    }
}
