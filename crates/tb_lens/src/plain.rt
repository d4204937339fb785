//! The command `plain`: a log for people, as the log grows.

use crate::loading::{Loading, load_script};
use crate::put::put;
use crate::source::Source;
use crate::status::{Status, Trouble};
use std::alloc::Global;
use tb_edge::{Files, Sink};
use tb_log_plain::Plain;

/// Reads a log of a script line by line, and writes each line for people. Each line is written before the next one is read.
pub fn tell_plain<F: Files, I: Source, O: Sink>(
    alloc: Global,
    script: &str,
    files: &mut F,
    input: &mut I,
    out: &mut O,
) -> Result<Status, Trouble> {
    let Loading { program, names } = load_script(alloc, script, files)?;
    let mut plain = Plain::new(alloc, &program, &names)?;
    let mut line = Vec::new(alloc);
    let mut text = Vec::new(alloc);
    for _ in 0..u64::MAX {
        line.clear();
        if !input.line(&mut line)? {
            break;
        }
        text.clear();
        plain.line(line.as_slice(), &mut text)?;
        put(text.as_slice(), Status::Fine, out)?;
    }
    Ok(Status::Fine)
}
