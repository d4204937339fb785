//! The kinds of tokens.
use crate::{LowerWord, Symbol, UpperWord};
use tb_terms::Text;

/// The kind of a token, with its value. A reserved word is a `Lower`. Names borrow from the source; a string has memory of its own.
#[derive(Drop)]
pub enum TokenKind<'a> {
    /// A whole number.
    Int(i64),
    /// A string: its content, without the quotes, and with each escape replaced.
    Str(Text),
    /// A name that begins with a lower-case letter.
    Lower(LowerWord<'a>),
    /// A name that begins with an upper-case letter.
    Upper(UpperWord<'a>),
    /// A symbol, as `:=`.
    Symbol(Symbol),
}
