//! The input from which lines are read.

use crate::status::Trouble;
use std::io::BufRead;

/// The input from which a log is read, line by line.
pub trait Source {
    /// Appends the next line, with its newline if it has one. Returns `false` if no line is left.
    fn line(&mut self, into: &mut Vec<u8>) -> Result<bool, Trouble>;
}

/// A reader as a source of lines.
#[derive(Drop)]
pub struct Reading<R> {
    reader: R,
}

impl<R> Reading<R> {
    /// Returns the source of this reader's lines.
    pub fn new(reader: R) -> Reading<R> {
        Reading { reader }
    }
}

impl<R: BufRead> Source for Reading<R> {
    fn line(&mut self, into: &mut Vec<u8>) -> Result<bool, Trouble> {
        match self.reader.read_until(b'\n', into) {
            Ok(count) => Ok(count > 0),
            Err(_) => Err(Trouble::Input),
        }
    }
}
