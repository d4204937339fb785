//! The space between two tokens of a printed script.

ghost use Rattle.std.specs.Prelude.{◌≡◌};
ghost use Rattle.tb_syntax.specs.Helpers.TokenText.{gap, before_next, symbol_before, space, is_closing, is_joining, space_after_name};

use crate::words::{begins_line, is_leading};
use tb_lex::{Symbol, TokenKind};

/// The token before another one, as far as it determines the space between the two.
#[derive(Clone, Copy, PartialEq, Eq)]
pub(crate) enum Before {
    /// No token: the text begins here.
    Nothing,
    /// `(`, `[`, or `<`.
    Opening,
    /// A name, or a word other than `is`, `in`, `then`, and `else`, which a process can follow.
    Name,
    /// Every other token.
    Other,
}

/// Returns the space before a token: nothing, a space, or a newline.
pub(crate) fn gap(before: Before, kind: &TokenKind) -> &'static [u8]
    ensures { result.now ≡ gap before kind.now }
{
    match before {
        Before::Nothing => b"",
        Before::Opening => b"",
        Before::Name => space_after_name(kind),
        Before::Other => space(kind),
    }
}

fn space_after_name(kind: &TokenKind) -> &'static [u8]
    ensures { result.now ≡ space_after_name kind.now }
{
    match kind {
        TokenKind::Symbol(symbol) if is_joining(*symbol) => b"",
        _ => space(kind),
    }
}

fn space(kind: &TokenKind) -> &'static [u8]
    ensures { result.now ≡ space kind.now }
{
    match kind {
        TokenKind::Lower(name) if begins_line(name.as_bytes()) => b"\n",
        TokenKind::Symbol(symbol) if is_closing(*symbol) => b"",
        _ => b" ",
    }
}

fn is_joining(symbol: Symbol) -> bool
    ensures { result ≡ is_joining symbol }
{
    matches!(symbol, Symbol::LeftParen | Symbol::Greater)
}

fn is_closing(symbol: Symbol) -> bool
    ensures { result ≡ is_closing symbol }
{
    matches!(
        symbol,
        Symbol::RightParen | Symbol::RightBracket | Symbol::Comma | Symbol::Question
    )
}

/// Returns what a token is to the token after it.
pub(crate) fn before_next(kind: &TokenKind) -> Before
    ensures { result ≡ before_next kind.now }
{
    match kind {
        TokenKind::Int(_) => Before::Other,
        TokenKind::Str(_) => Before::Other,
        TokenKind::Lower(name) if is_leading(name.as_bytes()) => Before::Other,
        TokenKind::Lower(_) => Before::Name,
        TokenKind::Upper(_) => Before::Name,
        TokenKind::Symbol(symbol) => symbol_before(*symbol),
    }
}

fn symbol_before(symbol: Symbol) -> Before
    ensures { result ≡ symbol_before symbol }
{
    match symbol {
        Symbol::LeftParen | Symbol::LeftBracket | Symbol::Less => Before::Opening,
        _ => Before::Other,
    }
}
