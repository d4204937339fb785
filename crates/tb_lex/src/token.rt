//! Tokens with their positions.
use crate::TokenKind;
use tb_terms::Items;

/// A token and its position: the source from `from` to before `to` spells it, in bytes counted from 0.
#[derive(Drop)]
pub struct Token<'a> {
    /// The kind of the token, with its value.
    pub kind: TokenKind<'a>,
    /// The position of its first byte.
    pub from: usize,
    /// The position after its last byte.
    pub to: usize,
}

/// Tokens in order.
pub type Tokens<'a> = Items<Token<'a>>;
