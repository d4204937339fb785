//! The next token of a source.
ghost use Rattle.std.specs.Prelude.{◌≡◌, ◌≤◌, ◌<◌, length, IsTrue, IfOk};
ghost use Rattle.std.specs.List.{prefix_len};
ghost use Rattle.tb_terms.specs.Names.{is_name_byte};
ghost use Rattle.tb_read.specs.Spelling.{is_blank};
ghost use Rattle.tb_read.specs.Lexing.{skip_blanks, kind_of, token_of, name_at};
ghost use Rattle.tb_read.specs.Helpers.Answers.{Gives, begins_with};

use crate::TermFault;
use crate::kind::Kind;
use crate::number::number_at;
use crate::quoted::string_at;
use crate::token::Token;
use std::alloc::Global;
use tb_terms::Name;

pub(crate) fn skip_blanks(bytes: &[u8]) -> &[u8]
    ensures rest { result.now ≡ skip_blanks bytes.now }
    ensures shorter { length result.now ≤ length bytes.now }
{
    for (position, byte) in bytes.iter().enumerate() {
        if !is_blank(*byte) {
            return &bytes[position..];
        }
    }
    &bytes[bytes.len()..]
}

/// Returns whether the byte is whitespace: a tab, a newline, a carriage return, or a space.
pub fn is_blank(byte: u8) -> bool
    ensures { result ≡ is_blank byte }
{
    matches!(byte, b'\t' | b'\n' | b'\r' | b' ')
}

/// Returns the token at the beginning of the bytes, and the bytes after it. The first byte determines the kind. `total` is the length
/// of the source.
pub(crate) fn token_of(
    alloc: Global,
    kind: Kind,
    total: usize,
    bytes: &[u8],
) -> Result<(Token, &[u8]), TermFault>
    requires kind { IsTrue (begins_with kind bytes.now) }
    requires within { length bytes.now ≤ total }
    ensures token { Gives (λ x. (x.0, x.1.now)) result (token_of kind total bytes.now) }
    ensures shorter { IfOk result (λ x. length x.1.now < length bytes.now) }
{
    match kind {
        Kind::Int => number_at(total, bytes),
        Kind::Str => string_at(alloc, total, bytes),
        Kind::Name => name_at(alloc, bytes),
        Kind::LeftParen => Ok((Token::LeftParen, &bytes[1..])),
        Kind::RightParen => Ok((Token::RightParen, &bytes[1..])),
        Kind::LeftBracket => Ok((Token::LeftBracket, &bytes[1..])),
        Kind::RightBracket => Ok((Token::RightBracket, &bytes[1..])),
        Kind::Comma => Ok((Token::Comma, &bytes[1..])),
        Kind::Other => Err(TermFault::Syntax(total - bytes.len())),
    }
}

/// Returns the name at the beginning of the bytes, and the bytes after it.
fn name_at(alloc: Global, bytes: &[u8]) -> Result<(Token, &[u8]), TermFault>
    requires { IsTrue (begins_with Kind.Name bytes.now) }
    ensures name { Gives (λ x. (x.0, x.1.now)) result (name_at bytes.now) }
    ensures shorter { IfOk result (λ x. length x.1.now < length bytes.now) }
{
    let len = name_len(bytes);
    let (name, rest) = bytes.split_at(len);
    Ok((Token::Name(Name::new(alloc, name)?), rest))
}

fn name_len(bytes: &[u8]) -> usize
    requires { IsTrue (begins_with Kind.Name bytes.now) }
    ensures value { result ≡ prefix_len is_name_byte bytes.now }
    ensures within { (0 < result) × (result ≤ length bytes.now) }
{
    for (position, byte) in bytes.iter().enumerate() {
        if !is_name_byte(*byte) {
            return position;
        }
    }
    bytes.len()
}

/// Returns whether the byte can follow the first letter of a name.
pub fn is_name_byte(byte: u8) -> bool
    ensures { result ≡ is_name_byte byte }
{
    matches!(byte, b'a'..=b'z' | b'A'..=b'Z' | b'0'..=b'9' | b'-' | b'_')
}

pub(crate) fn kind_of(byte: u8) -> Kind
    ensures { result ≡ kind_of byte }
{
    match byte {
        b'(' => Kind::LeftParen,
        b')' => Kind::RightParen,
        b'[' => Kind::LeftBracket,
        b']' => Kind::RightBracket,
        b',' => Kind::Comma,
        b'"' => Kind::Str,
        b'a'..=b'z' => Kind::Name,
        b'0'..=b'9' | b'-' => Kind::Int,
        _ => Kind::Other,
    }
}
