//! The tokens of a whole source.
ghost use Rattle.std.specs.Prelude.{◌≡◌, ◌≤◌, ◌<◌, [], length, IfOk, IfSome};
ghost use Rattle.tb_read.specs.Helpers.Answers.{IsNext, HasScanned};

use crate::TermFault;
use crate::lex::{kind_of, skip_blanks, token_of};
use crate::shape::Shape;
use crate::token::Token;
use std::alloc::Global;

/// Returns the tokens of a source that is one term of any size and depth, or the first error.
pub(crate) fn scan(alloc: Global, bytes: &[u8]) -> Result<Vec<Token>, TermFault>
    ensures { HasScanned bytes.now result }
{
    let mut tokens = Vec::new(alloc);
    let mut shape = Shape::new(alloc);
    let mut rest = bytes;
    'tokens: loop {
        match next(alloc, &mut shape, bytes.len(), rest)? {
            None => return Ok(tokens),
            Some((token, behind)) => {
                tokens.push(token)?;
                rest = behind;
            }
        }
    }
}

/// Returns the next token and the bytes after it, or `None` at the end of the source.
fn next<'a>(
    alloc: Global,
    shape: &mut Shape,
    total: usize,
    bytes: &'a [u8],
) -> Result<Option<(Token, &'a [u8])>, TermFault>
    requires { length bytes.now ≤ total }
    ensures next { IsNext shape.old shape.new total bytes.now result }
    ensures shorter { IfOk result (λ found. IfSome found (λ x. length x.1.now < length bytes.now)) }
{
    let bytes = skip_blanks(bytes);
    let Some(first) = bytes.first() else {
        return ended(shape, total);
    };
    let kind = kind_of(*first);
    if !shape.allows(kind) {
        return Err(TermFault::Syntax(total - bytes.len()));
    }
    let (token, rest) = token_of(alloc, kind, total, bytes)?;
    shape.take(&token)?;
    Ok(Some((token, rest)))
}

fn ended<'a>(shape: &Shape, total: usize) -> Result<Option<(Token, &'a [u8])>, TermFault>
    ensures { IsNext shape.now shape.now total [] result }
{
    if shape.may_end() {
        Ok(None)
    } else {
        Err(TermFault::Syntax(total))
    }
}
