//! Functions that append pieces of text.

use itoa::Buffer;
use tb_terms::NoMemory;

/// The form in which a text is escaped and cut off.
#[derive(Clone, Copy)]
pub(crate) enum Form {
    /// The text isn't escaped. A `~` replaces the part that is cut off.
    Ascii,
    /// Text or an attribute value of XML. An ellipsis replaces the part that is cut off.
    Xml,
    /// A JSON string within an HTML page. An ellipsis replaces the part that is cut off.
    Json,
}

/// Appends a text.
pub(crate) fn push_text(text: &[u8], into: &mut Vec<u8>) -> Result<(), NoMemory> {
    into.extend_from_slice(text)?;
    Ok(())
}

/// Appends a number in decimal.
pub(crate) fn push_number(number: u64, into: &mut Vec<u8>) -> Result<(), NoMemory> {
    let mut buffer = Buffer::new();
    into.extend_from_slice(buffer.format(number).as_bytes())?;
    Ok(())
}

/// Appends a text. Each `#` of the text is replaced by the next of these numbers.
pub(crate) fn push_filled(
    text: &[u8],
    numbers: &[usize],
    into: &mut Vec<u8>,
) -> Result<(), NoMemory> {
    let mut next: usize = 0;
    for byte in text {
        if *byte == b'#' {
            push_nth(numbers, next, into)?;
            next = next.saturating_add(1);
        } else {
            into.push(*byte)?;
        }
    }
    Ok(())
}

fn push_nth(numbers: &[usize], index: usize, into: &mut Vec<u8>) -> Result<(), NoMemory> {
    match numbers.get(index) {
        Some(number) => push_number(*number as u64, into),
        None => Ok(()),
    }
}

/// Appends this number of spaces.
pub(crate) fn push_blanks(count: usize, into: &mut Vec<u8>) -> Result<(), NoMemory> {
    for _ in 0..count {
        into.push(b' ')?;
    }
    Ok(())
}

/// Appends a text in this form.
pub(crate) fn push_formed(form: Form, text: &[u8], into: &mut Vec<u8>) -> Result<(), NoMemory> {
    for byte in text {
        push_byte(form, *byte, into)?;
    }
    Ok(())
}

/// Appends a text in this form. If the text has more than `most` characters, appends one less than `most` of them, and a sign for the part
/// that is cut off.
pub(crate) fn push_short(
    form: Form,
    most: usize,
    text: &[u8],
    into: &mut Vec<u8>,
) -> Result<(), NoMemory> {
    if chars(text) <= most {
        return push_formed(form, text, into);
    }
    let dots: &[u8] = match form {
        Form::Ascii => b"~",
        Form::Xml | Form::Json => b"\xe2\x80\xa6",
    };
    push_formed(form, first_chars(text, most.saturating_sub(1)), into)?;
    push_text(dots, into)
}

/// Returns the number of characters of a text.
pub(crate) fn chars(text: &[u8]) -> usize {
    let mut count: usize = 0;
    for byte in text {
        if begins_char(*byte) {
            count = count.saturating_add(1);
        }
    }
    count
}

/// Returns the first characters of a text, at most `most`.
fn first_chars(text: &[u8], most: usize) -> &[u8] {
    let mut count: usize = 0;
    for (place, byte) in text.iter().enumerate() {
        if begins_char(*byte) {
            if count == most {
                return &text[..place];
            }
            count = count.saturating_add(1);
        }
    }
    text
}

/// Returns whether a character of UTF-8 begins with this byte.
fn begins_char(byte: u8) -> bool {
    byte & 0xc0 != 0x80
}

fn push_byte(form: Form, byte: u8, into: &mut Vec<u8>) -> Result<(), NoMemory> {
    match form {
        Form::Ascii => into.push(byte)?,
        Form::Xml => push_xml(byte, into)?,
        Form::Json => push_json(byte, into)?,
    }
    Ok(())
}

fn push_xml(byte: u8, into: &mut Vec<u8>) -> Result<(), NoMemory> {
    match byte {
        b'&' => push_text(b"&amp;", into),
        b'<' => push_text(b"&lt;", into),
        b'>' => push_text(b"&gt;", into),
        b'"' => push_text(b"&quot;", into),
        _ => {
            into.push(byte)?;
            Ok(())
        }
    }
}

/// Appends a byte of a JSON string. A `<` is written as `\u003c`, so that no text ends the script of a page.
fn push_json(byte: u8, into: &mut Vec<u8>) -> Result<(), NoMemory> {
    match byte {
        b'"' => push_text(b"\\\"", into),
        b'\\' => push_text(b"\\\\", into),
        b'<' => push_text(b"\\u003c", into),
        0..=31 => push_control(byte, into),
        _ => {
            into.push(byte)?;
            Ok(())
        }
    }
}

fn push_control(byte: u8, into: &mut Vec<u8>) -> Result<(), NoMemory> {
    push_text(b"\\u00", into)?;
    into.push(hex_digit(byte / 16))?;
    into.push(hex_digit(byte % 16))?;
    Ok(())
}

fn hex_digit(value: u8) -> u8 {
    match value {
        0..=9 => b'0' + value,
        10..=15 => b'a' + (value - 10),
        _ => b'?',
    }
}
