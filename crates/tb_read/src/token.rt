//! The tokens of a term.
use tb_terms::{Name, Text};

/// A token of a term.
#[derive(Drop)]
pub(crate) enum Token {
    Int(i64),
    Str(Text),
    Name(Name),
    LeftParen,
    RightParen,
    LeftBracket,
    RightBracket,
    Comma,
}
