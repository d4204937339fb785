//! Splits the source of a script into tokens, from the left. A source without tokens has a first error.
#![tactic(auto)]

mod fault;
mod gap;
mod head;
mod kind;
mod laws;
mod lexer;
mod numeral;
mod piece;
mod quote;
mod symbol;
mod token;
mod word;

pub use fault::LexFault;
pub use kind::TokenKind;
pub use laws::{
    each_text_has_one, faults_are_unique, lexing_is_unique, spaced_tokens_lex, tokens_are_slices,
};
pub use lexer::lex;
pub use symbol::Symbol;
pub use token::{Token, Tokens};
pub use word::{LowerWord, UpperWord};
