//! The limit on open brackets.

ghost use Rattle.std.specs.Prelude.{◌≡◌, ◌≤◌, MatchOption};
ghost use Rattle.tb_syntax.specs.Limits.{most_open, open_step, opens, closes, IsTooDeep};
ghost use Rattle.tb_syntax.specs.Spelling.{kinds_of};
ghost use Rattle.tb_parse.specs.Faults.{NoneTooDeep};

use tb_lex::{Symbol, Token, TokenKind};

/// The greatest number of open brackets.
const MOST_OPEN: usize = 128;

/// Returns the position of the first token after which too many brackets are open.
pub(crate) fn too_deep(tokens: &[Token]) -> Option<usize>
    ensures { MatchOption result (NoneTooDeep (kinds_of tokens.now))
        (IsTooDeep (kinds_of tokens.now)) }
{
    let mut count = 0;
    for (position, token) in tokens.iter().enumerate() {
        count = open_behind(count, &token.kind);
        if count > MOST_OPEN {
            return Some(position);
        }
    }
    None
}

/// Returns how many brackets are open after a token, if `count` are open before it.
fn open_behind(count: usize, kind: &TokenKind) -> usize
    requires { count ≤ most_open }
    ensures { result ≡ open_step count kind.now }
{
    if opens(kind) {
        count + 1
    } else if closes(kind) {
        count.saturating_sub(1)
    } else {
        count
    }
}

fn opens(kind: &TokenKind) -> bool
    ensures { result ≡ opens kind.now }
{
    match kind {
        TokenKind::Lower(name) => matches!(name.as_bytes(), b"let" | b"if"),
        TokenKind::Symbol(symbol) => matches!(symbol, Symbol::LeftParen | Symbol::LeftBracket),
        _ => false,
    }
}

fn closes(kind: &TokenKind) -> bool
    ensures { result ≡ closes kind.now }
{
    match kind {
        TokenKind::Lower(name) => matches!(name.as_bytes(), b"endlet" | b"fi"),
        TokenKind::Symbol(symbol) => matches!(symbol, Symbol::RightParen | Symbol::RightBracket),
        _ => false,
    }
}
