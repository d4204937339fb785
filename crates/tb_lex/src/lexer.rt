//! The tokens of a whole script.
ghost use Rattle.std.specs.Prelude.{◌≡◌, ◌≢◌, ◌≤◌, ◌<◌, ◌⊎◌, List, length, IfOk, IfErr, IfSome, Ok, Err};
ghost use Rattle.tb_lex.specs.declared.token.Token.{Token};
ghost use Rattle.tb_lex.specs.declared.fault.LexFault.{LexFault};
ghost use Rattle.tb_lex.specs.Tokens.{Lexes, most_tokens};
ghost use Rattle.tb_lex.specs.Faults.{HasFault};
ghost use Rattle.tb_lex.specs.Helpers.Answers.{IsNext, HasScanned};

use crate::gap::skip_gap;
use crate::head::head_of;
use crate::piece::piece_at;
use crate::{LexFault, Token, Tokens};
use std::alloc::Global;
use tb_terms::Items;

/// The greatest number of tokens of a script.
const MOST_TOKENS: usize = 200_000;

/// Returns the tokens of a script's source, at most 200,000, or the first error from the left, or `NoMemory`.
pub fn lex(alloc: Global, bytes: &[u8]) -> Result<Tokens<'_>, LexFault>
    ensures found { IfOk result (λ tokens. Lexes bytes.now tokens × (length tokens ≤ most_tokens)) }

    // If the source has at most 200,000 tokens, the call fails only if it runs out of memory.
    ensures only { (tokens : List Token) → Lexes bytes.now tokens → length tokens ≤ most_tokens
        → (result ≡ Ok tokens) ⊎ (result ≡ Err LexFault.NoMemory) }
    ensures fault { IfErr result (HasFault bytes.now) }

    // If the source has an error other than `NoMemory`, the call returns this error or `NoMemory`.
    ensures exact { (f : LexFault) → HasFault bytes.now f → f ≢ LexFault.NoMemory
        → (result ≡ Err f) ⊎ (result ≡ Err LexFault.NoMemory) }
{
    scan(alloc, bytes)
}

fn scan(alloc: Global, bytes: &[u8]) -> Result<Tokens<'_>, LexFault>
    ensures { HasScanned bytes.now result }
{
    let mut tokens = Items::new(alloc);
    let mut rest = bytes;
    'tokens: loop {
        match next(alloc, tokens.len(), bytes.len(), rest)? {
            None => return Ok(tokens),
            Some((token, behind)) => {
                tokens.push(token)?;
                rest = behind;
            }
        }
    }
}

/// Returns the next token and the bytes after it, or none at the end. `count` is the number of tokens before it.
fn next(
    alloc: Global,
    count: usize,
    total: usize,
    bytes: &[u8],
) -> Result<Option<(Token<'_>, &[u8])>, LexFault>
    requires { length bytes.now ≤ total }
    ensures next { IsNext count total bytes.now result }
    ensures shorter { IfOk result (λ found. IfSome found (λ x. length x.1.now < length bytes.now)) }
{
    let bytes = skip_gap(bytes);
    let Some(first) = bytes.first() else {
        return Ok(None);
    };
    if count == MOST_TOKENS {
        return Err(LexFault::TooMany);
    }
    let (kind, rest) = piece_at(alloc, head_of(*first), total, bytes)?;
    let from = total - bytes.len();
    let to = total - rest.len();
    Ok(Some((Token { kind, from, to }, rest)))
}
