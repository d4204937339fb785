//! Strings of a script.
ghost use Rattle.std.specs.Prelude.{◌≡◌, ◌≤◌, ◌<◌, ◌+◌, ◌-◌, length, IfOk};
ghost use Rattle.tb_read.specs.declared.quoted.Within.TheVariants as within;
ghost use Rattle.tb_lex.specs.Helpers.Scanning.{string_fault, string_rest, string_at};
ghost use Rattle.tb_lex.specs.Helpers.Answers.{Gives};

use crate::{LexFault, TokenKind};
use std::alloc::Global;
use tb_read::{Turn, Within, string_turn};
use tb_terms::Text;

/// Reads the string with whose quote the bytes begin. Returns it with the bytes after its closing quote.
pub(crate) fn string_at(
    alloc: Global,
    total: usize,
    bytes: &[u8],
) -> Result<(TokenKind<'_>, &[u8]), LexFault>
    requires { length bytes.now ≤ total }
    ensures string { Gives (λ x. (x.0, x.1.now)) result (string_at total bytes.now) }
    ensures shorter { IfOk result (λ x. length x.1.now < length bytes.now) }
{
    let Some((_quote, inner)) = bytes.split_first() else {
        return Err(LexFault::BadByte(total));
    };
    let (put, rest) = string_rest(alloc, total, inner)?;
    match Text::from_vec(put) {
        Some(text) => Ok((TokenKind::Str(text), rest)),
        None => unreachable!(),
    }
}

/// Returns the content of the string whose opening quote is directly before these bytes, and the bytes after its closing quote.
/// Each escape in the content is replaced by its byte.
fn string_rest(alloc: Global, total: usize, bytes: &[u8]) -> Result<(Vec<u8>, &[u8]), LexFault>
    requires { length bytes.now < total }
    ensures string { Gives (λ x. (x.0.items, x.1.now)) result
        (string_rest (total - (length bytes.now + 1)) total within.Between bytes.now) }
    ensures shorter { IfOk result (λ x. length x.1.now ≤ length bytes.now) }
{
    let quote = total - (bytes.len() + 1);
    let mut put = Vec::new(alloc);
    let mut within = Within::Between;
    for (position, byte) in bytes.iter().enumerate() {
        match string_turn(within, *byte) {
            Turn::Ends => return Ok((put, &bytes[position + 1..])),
            Turn::Goes(next) => within = next,
            Turn::Puts(one, next) => {
                put.push(one)?;
                within = next;
            }
            Turn::Bad => {
                return Err(string_fault(quote, total - (bytes.len() - position), within, *byte));
            }
        }
    }
    Err(LexFault::OpenString(quote))
}

/// Returns the error of a string that can't continue with this byte, which is at this position.
/// For a newline, the error is `OpenString`. After a backslash, `BadByte` has the backslash's position.
fn string_fault(quote: usize, position: usize, within: Within, byte: u8) -> LexFault
    requires { 0 < position }
    ensures { result ≡ string_fault quote position within byte }
{
    if byte == b'\n' {
        return LexFault::OpenString(quote);
    }
    match within {
        Within::Escaped => LexFault::BadByte(position - 1),
        _ => LexFault::BadByte(position),
    }
}
