//! The printed text of tokens.

ghost use Rattle.std.specs.Prelude.{◌≡◌, ◌++◌, OnOk, IfOk};
ghost use Rattle.tb_lex.specs.Tokens.{symbol_text};
ghost use Rattle.tb_syntax.specs.Helpers.TokenText.{token_text, tokens_text};

use crate::gap::{Before, before_next, gap};
use std::alloc::Global;
use tb_lex::{Symbol, TokenKind};
use tb_terms::{NoMemory, Term, write_term};

/// Returns the text of tokens. Each definition begins a line, a newline ends the text, and `gap` decides where a space is.
pub(crate) fn text_of(alloc: Global, kinds: &[TokenKind]) -> Result<Vec<u8>, NoMemory>
    ensures { IfOk result (λ text. text.items ≡ tokens_text kinds.now) }
{
    let mut text = Vec::new(alloc);
    let mut before = Before::Nothing;
    for kind in kinds {
        text.extend_from_slice(gap(before, kind))?;
        push_token(alloc, kind, &mut text)?;
        before = before_next(kind);
    }
    text.push(b'\n')?;
    Ok(text)
}

fn push_token(alloc: Global, kind: &TokenKind, into: &mut Vec<u8>) -> Result<(), NoMemory>
    ensures { OnOk result (into.new.items ≡ into.old.items ++ token_text kind.now) }
{
    match kind {
        TokenKind::Int(number) => {
            write_term(&Term::Int(*number), into)?;
            Ok(())
        }
        TokenKind::Str(text) => {
            write_term(&Term::Str(text.copy(alloc)?), into)?;
            Ok(())
        }
        TokenKind::Lower(name) => {
            into.extend_from_slice(name.as_bytes())?;
            Ok(())
        }
        TokenKind::Upper(name) => {
            into.extend_from_slice(name.as_bytes())?;
            Ok(())
        }
        TokenKind::Symbol(symbol) => {
            into.extend_from_slice(symbol_text(*symbol))?;
            Ok(())
        }
    }
}

fn symbol_text(symbol: Symbol) -> &'static [u8]
    ensures { result.now ≡ symbol_text symbol }
{
    match symbol {
        Symbol::LeftParen => b"(",
        Symbol::RightParen => b")",
        Symbol::LeftBracket => b"[",
        Symbol::RightBracket => b"]",
        Symbol::LeftBrace => b"{",
        Symbol::RightBrace => b"}",
        Symbol::Comma => b",",
        Symbol::Point => b".",
        Symbol::Colon => b":",
        Symbol::Assign => b":=",
        Symbol::Equals => b"=",
        Symbol::Question => b"?",
        Symbol::Plus => b"+",
        Symbol::Star => b"*",
        Symbol::Bars => b"||",
        Symbol::Angles => b">>",
        Symbol::Less => b"<",
        Symbol::Greater => b">",
    }
}
