//! Strings of a source, byte by byte.
ghost use Rattle.std.specs.Prelude.{◌≡◌, ◌≤◌, ◌<◌, length, IfOk};
ghost use Rattle.tb_read.specs.Lexing.{string_turn, between_turn, going_turn, unescaped, lead, string_rest, string_at};
ghost use Rattle.tb_read.specs.Helpers.Answers.{Gives};
ghost use Rattle.tb_read.specs.declared.quoted.Within.TheVariants.{Between};

use crate::TermFault;
use crate::token::Token;
use std::alloc::Global;
use tb_terms::Text;

/// The state of a reader within a string.
#[derive(Clone, Copy, Debug, PartialEq, Eq)]
pub enum Within {
    /// At the beginning, or after a whole character.
    Between,
    /// After a backslash.
    Escaped,
    /// Within a character of several bytes: the number of bytes to come, and the lowest and the highest value of the next one.
    Going(u8, u8, u8),
}

/// The effect of the next byte of a string.
#[derive(Clone, Copy, Debug, PartialEq, Eq)]
pub enum Turn {
    /// The byte is the closing quote.
    Ends,
    /// The byte adds nothing to the string.
    Goes(Within),
    /// The byte adds this byte to the string.
    Puts(u8, Within),
    /// The byte can't continue the string.
    Bad,
}

/// Returns the string whose opening quote is the first byte, and the bytes after the string. `total` is the length of the source.
pub(crate) fn string_at(
    alloc: Global,
    total: usize,
    bytes: &[u8],
) -> Result<(Token, &[u8]), TermFault>
    requires { length bytes.now ≤ total }
    ensures string { Gives (λ x. (x.0, x.1.now)) result (string_at total bytes.now) }
    ensures shorter { IfOk result (λ x. length x.1.now < length bytes.now) }
{
    let Some((_quote, inner)) = bytes.split_first() else {
        return Err(TermFault::Syntax(total));
    };
    let (put, rest) = string_rest(alloc, total, inner)?;
    match Text::from_vec(put) {
        Some(text) => Ok((Token::Str(text), rest)),
        None => unreachable!(),
    }
}

fn string_rest(alloc: Global, total: usize, bytes: &[u8]) -> Result<(Vec<u8>, &[u8]), TermFault>
    requires { length bytes.now ≤ total }
    ensures string { Gives (λ x. (x.0.items, x.1.now)) result
        (string_rest total Within.Between bytes.now) }
    ensures shorter { IfOk result (λ x. length x.1.now < length bytes.now) }
{
    let mut put = Vec::new(alloc);
    let mut within = Within::Between;
    for (position, byte) in bytes.iter().enumerate() {
        match string_turn(within, *byte) {
            Turn::Ends => return Ok((put, &bytes[position + 1..])),
            Turn::Goes(next) => within = next,
            Turn::Puts(one, next) => {
                put.push(one)?;
                within = next;
            }
            Turn::Bad => return Err(TermFault::Syntax(total - (bytes.len() - position))),
        }
    }
    Err(TermFault::Syntax(total))
}

/// Returns the effect of this byte on a reader in this state.
pub fn string_turn(within: Within, byte: u8) -> Turn
    ensures { result ≡ string_turn within byte }
{
    match within {
        Within::Between => between_turn(byte),
        Within::Escaped => match unescaped(byte) {
            Some(one) => Turn::Puts(one, Within::Between),
            None => Turn::Bad,
        },
        Within::Going(more, low, high) => going_turn(more, low, high, byte),
    }
}

fn between_turn(byte: u8) -> Turn
    ensures { result ≡ between_turn byte }
{
    if byte == b'"' {
        Turn::Ends
    } else if byte == b'\\' {
        Turn::Goes(Within::Escaped)
    } else if byte < 32 && byte != b'\t' {
        Turn::Bad
    } else {
        lead(byte)
    }
}

fn going_turn(more: u8, low: u8, high: u8, byte: u8) -> Turn
    ensures { result ≡ going_turn more low high byte }
{
    if byte < low || high < byte {
        Turn::Bad
    } else if more < 2 {
        Turn::Puts(byte, Within::Between)
    } else {
        Turn::Puts(byte, Within::Going(more - 1, 128, 191))
    }
}

fn unescaped(letter: u8) -> Option<u8>
    ensures { result ≡ unescaped letter }
{
    match letter {
        b'\\' => Some(b'\\'),
        b'"' => Some(b'"'),
        b'n' => Some(b'\n'),
        b'r' => Some(b'\r'),
        b't' => Some(b'\t'),
        _ => None,
    }
}

/// Returns the effect of the first byte of a character, by the table of well-formed UTF-8.
fn lead(byte: u8) -> Turn
    ensures { result ≡ lead byte }
{
    match byte {
        0..=0x7F => Turn::Puts(byte, Within::Between),
        0xC2..=0xDF => Turn::Puts(byte, Within::Going(1, 0x80, 0xBF)),
        0xE0 => Turn::Puts(byte, Within::Going(2, 0xA0, 0xBF)),
        0xED => Turn::Puts(byte, Within::Going(2, 0x80, 0x9F)),
        0xE1..=0xEF => Turn::Puts(byte, Within::Going(2, 0x80, 0xBF)),
        0xF0 => Turn::Puts(byte, Within::Going(3, 0x90, 0xBF)),
        0xF1..=0xF3 => Turn::Puts(byte, Within::Going(3, 0x80, 0xBF)),
        0xF4 => Turn::Puts(byte, Within::Going(3, 0x80, 0x8F)),
        _ => Turn::Bad,
    }
}
