//! The limits of a term, measured on its tokens.
ghost use Rattle.std.specs.Prelude.{◌≡◌, ◌≤◌, ◌<◌, ◌+◌, min};
ghost use Rattle.tb_read.specs.Helpers.Limits.{token_size, tokens_size, token_level, tokens_levels, nested_after};

use crate::token::Token;

/// The limits of a term that is parsed.
#[derive(Clone, Copy, Debug, PartialEq, Eq)]
pub struct Limits {
    /// The greatest size, in nodes plus bytes.
    pub size: usize,
    /// The greatest depth, in levels.
    pub levels: usize,
}

/// Returns the size of the term with these tokens. If the size is greater than `usize::MAX`, returns `usize::MAX`.
pub(crate) fn tokens_size(tokens: &[Token]) -> usize
    ensures { result ≡ min (tokens_size tokens.now) usize.MAX }
{
    let mut total = 0usize;
    for token in tokens {
        total = total.saturating_add(token_size(token));
    }
    total
}

fn token_size(token: &Token) -> usize
    ensures { result ≡ min (token_size token.now) usize.MAX }
{
    match token {
        Token::Int(_) | Token::LeftBracket => 1,
        Token::Str(text) => text.as_bytes().len().saturating_add(1),
        Token::Name(name) => name.as_bytes().len().saturating_add(1),
        Token::LeftParen | Token::RightParen | Token::RightBracket | Token::Comma => 0,
    }
}

/// Returns the depth of the term with these tokens.
pub(crate) fn tokens_levels(tokens: &[Token]) -> usize
    ensures { result ≡ tokens_levels 0 tokens.now }
{
    let mut nested = 0usize;
    let mut deepest = 0usize;
    for token in tokens {
        deepest = deepest.max(token_level(nested, token));
        nested = nested_after(nested, token);
    }
    deepest
}

fn token_level(nested: usize, token: &Token) -> usize
    requires { nested < usize.MAX }
    ensures { result ≡ token_level nested token.now }
{
    match token {
        Token::Int(_) | Token::Str(_) | Token::Name(_) | Token::LeftBracket => nested + 1,
        Token::LeftParen | Token::RightParen | Token::RightBracket | Token::Comma => 0,
    }
}

fn nested_after(nested: usize, token: &Token) -> usize
    requires { nested < usize.MAX }
    ensures value { result ≡ nested_after nested token.now }
    ensures near { result ≤ nested + 1 }
{
    match token {
        Token::Int(_) | Token::Str(_) | Token::Name(_) | Token::Comma => nested,
        Token::LeftParen | Token::LeftBracket => nested + 1,
        Token::RightParen | Token::RightBracket => nested.saturating_sub(1),
    }
}
