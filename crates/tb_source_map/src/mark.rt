//! The bytes of a token.
ghost use Rattle.std.specs.Prelude.{◌≡◌, ◌-◌, length, slice_get};
ghost use Rattle.tb_source_map.specs.Marks.{mark_at, mark_of_token, end_of, end_behind};

use sqlite_items::at;
use tb_lex::Token;

/// Bytes of a script: from `from` to before `to`, both counted from 0.
#[derive(Clone, Copy, Debug, Drop, PartialEq, Eq)]
pub struct Mark {
    /// The position of the first byte.
    pub from: usize,
    /// The position after the last byte.
    pub to: usize,
}

/// Returns the bytes of the token at this position. For a position after all tokens, returns the empty place where the last token
/// ends.
pub fn mark_at(tokens: &[Token], token: usize) -> Mark
    ensures { result ≡ mark_at tokens.now token }
{
    match at(tokens, token) {
        Some(token) => Mark {
            from: token.from,
            to: token.to,
        },
        None => end_of(tokens),
    }
}

/// Returns the empty place where the last token ends, or the start of the source if there are no tokens.
fn end_of(tokens: &[Token]) -> Mark
    ensures { result ≡ end_of tokens.now }
{
    match at(tokens, tokens.len().saturating_sub(1)) {
        Some(last) => Mark {
            from: last.to,
            to: last.to,
        },
        None => Mark { from: 0, to: 0 },
    }
}
