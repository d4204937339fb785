//! The line of a script, with a mark beneath it.

use crate::source::between;
use tb_source_map::Mark;
use tb_terms::NoMemory;
use unicode_width::{UnicodeWidthChar, UnicodeWidthStr};

/// The greatest number of bytes of a line that are shown before the beginning of the mark, and from there on.
const MOST_SHOWN: usize = 100;

/// Adds the line of the script on which the mark begins, and below it a line with `^` at the marked bytes. Each line follows a newline.
/// Two points (`..`) replace the parts of the line that are too far from the beginning of the mark.
pub(crate) fn push_marked(text: &[u8], mark: Mark, into: &mut Vec<u8>) -> Result<(), NoMemory> {
    let from = mark.from.min(text.len());
    let before = last_line(&text[..from]);
    let behind = first_line(&text[from..]);
    let left = last_part(before);
    let right = first_part(behind);
    let marked = between(right, 0, mark.to.saturating_sub(from));
    into.push(b'\n')?;
    push_times(b'.', cut_of(before, left), into)?;
    push_shown(left, into)?;
    push_shown(right, into)?;
    push_times(b'.', cut_of(behind, right), into)?;
    into.push(b'\n')?;
    push_times(b' ', cut_of(before, left), into)?;
    push_blanks(left, into)?;
    push_times(b'^', columns_of(marked).max(1), into)
}

/// Returns the number of points that replace the bytes of a line outside this part.
fn cut_of(line: &[u8], part: &[u8]) -> usize {
    if part.len() < line.len() { 2 } else { 0 }
}

/// Returns the last bytes of a line, at most `MOST_SHOWN`, from the beginning of a character on. If no character begins there, returns the
/// whole line.
fn last_part(line: &[u8]) -> &[u8] {
    let begin = line.len().saturating_sub(MOST_SHOWN);
    for position in begin..line.len() {
        if !is_inner(line, position) {
            return between(line, position, line.len());
        }
    }
    line
}

/// Returns the first bytes of a line, at most `MOST_SHOWN`, up to the end of a character. If no character ends there, returns the whole
/// line.
fn first_part(line: &[u8]) -> &[u8] {
    if line.len() <= MOST_SHOWN {
        return line;
    }
    for position in (1..MOST_SHOWN).rev() {
        if !is_inner(line, position) {
            return between(line, 0, position);
        }
    }
    line
}

/// Returns whether the byte at this position continues a character of UTF-8.
fn is_inner(line: &[u8], position: usize) -> bool {
    matches!(
        between(line, position, position.saturating_add(1)),
        [128..=191]
    )
}

/// Returns the part after the last newline.
fn last_line(bytes: &[u8]) -> &[u8] {
    for position in (0..bytes.len()).rev() {
        if bytes[position] == b'\n' {
            return &bytes[position + 1..];
        }
    }
    bytes
}

/// Returns the part before the first newline, without a carriage return at its end.
fn first_line(bytes: &[u8]) -> &[u8] {
    for (position, byte) in bytes.iter().enumerate() {
        if *byte == b'\n' {
            return without_return(&bytes[..position]);
        }
    }
    bytes
}

fn without_return(line: &[u8]) -> &[u8] {
    match line {
        [rest @ .., b'\r'] => rest,
        _ => line,
    }
}

/// Adds the bytes, with a space in place of a carriage return, and `?` in place of other control characters. Tabs remain.
fn push_shown(bytes: &[u8], into: &mut Vec<u8>) -> Result<(), NoMemory> {
    for byte in bytes {
        into.push(shown(*byte))?;
    }
    Ok(())
}

fn shown(byte: u8) -> u8 {
    match byte {
        b'\t' => b'\t',
        b'\r' => b' ',
        0..=31 | 127 => b'?',
        _ => byte,
    }
}

/// Adds whitespace that takes as many columns as the text: a tab for a tab, two spaces for a wide character.
fn push_blanks(bytes: &[u8], into: &mut Vec<u8>) -> Result<(), NoMemory> {
    match str::from_utf8(bytes) {
        Ok(text) => push_text_blanks(text, into),
        Err(_) => push_times(b' ', bytes.len(), into),
    }
}

fn push_text_blanks(text: &str, into: &mut Vec<u8>) -> Result<(), NoMemory> {
    for c in text.chars() {
        match c {
            '\t' => into.push(b'\t')?,
            _ => push_times(b' ', c.width().unwrap_or(1), into)?,
        }
    }
    Ok(())
}

fn push_times(byte: u8, times: usize, into: &mut Vec<u8>) -> Result<(), NoMemory> {
    for _turn in 0..times {
        into.push(byte)?;
    }
    Ok(())
}

fn columns_of(bytes: &[u8]) -> usize {
    match str::from_utf8(bytes) {
        Ok(text) => text.width(),
        Err(_) => 1,
    }
}
