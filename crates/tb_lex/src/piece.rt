//! The token at the start of bytes.
ghost use Rattle.std.specs.Prelude.{◌≡◌, ◌≤◌, ◌<◌, length, drop, IsTrue, IfOk, Ok};
ghost use Rattle.std.specs.List.{prefix_len};
ghost use Rattle.tb_terms.specs.Names.{is_name_byte};
ghost use Rattle.tb_lex.specs.Helpers.Scanning.{has_head, lower_at, upper_at, symbol_at, piece_at};
ghost use Rattle.tb_lex.specs.Helpers.Answers.{Gives};

use crate::head::Head;
use crate::numeral::number_at;
use crate::quote::string_at;
use crate::symbol::{symbol_len, symbol_of};
use crate::{LexFault, LowerWord, TokenKind, UpperWord};
use std::alloc::Global;
use tb_read::is_name_byte;

/// Reads the token with which the bytes begin. Returns its kind with the bytes after it. `head` tells what the first byte begins.
/// `total` is the length of the source, of which the bytes are the end: an error's position follows from the two lengths.
pub(crate) fn piece_at(
    alloc: Global,
    head: Head,
    total: usize,
    bytes: &[u8],
) -> Result<(TokenKind<'_>, &[u8]), LexFault>
    requires head { IsTrue (has_head head bytes.now) }
    requires within { length bytes.now ≤ total }
    ensures piece { Gives (λ x. (x.0, x.1.now)) result (piece_at head total bytes.now) }
    ensures shorter { IfOk result (λ x. length x.1.now < length bytes.now) }
{
    match head {
        Head::Lower => Ok(lower_at(bytes)),
        Head::Upper => Ok(upper_at(bytes)),
        Head::Quote => string_at(alloc, total, bytes),
        Head::Numeral => number_at(total, bytes),
        Head::Other => symbol_at(total, bytes),
    }
}

/// Returns the name with whose lower-case letter the bytes begin, and the bytes after it.
fn lower_at(bytes: &[u8]) -> (TokenKind<'_>, &[u8])
    requires { IsTrue (has_head Head.Lower bytes.now) }
    ensures name { lower_at bytes.now ≡ Ok (result.0, result.1.now) }
    ensures shorter { length result.1.now < length bytes.now }
{
    let (name, rest) = bytes.split_at(name_len(bytes));
    (TokenKind::Lower(LowerWord::new(name)), rest)
}

/// Returns the name with whose upper-case letter the bytes begin, and the bytes after it.
fn upper_at(bytes: &[u8]) -> (TokenKind<'_>, &[u8])
    requires { IsTrue (has_head Head.Upper bytes.now) }
    ensures name { upper_at bytes.now ≡ Ok (result.0, result.1.now) }
    ensures shorter { length result.1.now < length bytes.now }
{
    let (name, rest) = bytes.split_at(name_len(bytes));
    (TokenKind::Upper(UpperWord::new(name)), rest)
}

/// Returns how many bytes at the start can occur in a name.
fn name_len(bytes: &[u8]) -> usize
    ensures value { result ≡ prefix_len is_name_byte bytes.now }
    ensures within { result ≤ length bytes.now }
{
    for (position, byte) in bytes.iter().enumerate() {
        if !is_name_byte(*byte) {
            return position;
        }
    }
    bytes.len()
}

/// Returns the symbol with which the bytes begin, and the bytes after it. If no symbol begins here, the error is `BadByte`.
fn symbol_at(total: usize, bytes: &[u8]) -> Result<(TokenKind<'_>, &[u8]), LexFault>
    requires { length bytes.now ≤ total }
    ensures symbol { Gives (λ x. (x.0, x.1.now)) result (symbol_at total bytes.now) }
    ensures shorter { IfOk result (λ x. length x.1.now < length bytes.now) }
{
    let from = total - bytes.len();
    let Some((first, behind)) = bytes.split_first() else {
        return Err(LexFault::BadByte(from));
    };
    match symbol_of(*first, behind) {
        Some(symbol) => Ok((TokenKind::Symbol(symbol), &bytes[symbol_len(symbol)..])),
        None => Err(LexFault::BadByte(from)),
    }
}
