//! The patterns of the lines that an atom may send to a tool or take from it.
ghost use Rattle.std.specs.Prelude.{◌≡◌, ◌∷◌, [], IsTrue, IfOk, codes, option_to_list, slice_get};
ghost use Rattle.tb_bus.specs.Exchanges.{name_of};
ghost use Rattle.tb_iface.specs.Interfaces.{hears, line, line_if, tells};
ghost use Rattle.tb_terms.specs.Names.{is_name};
ghost use Rattle.tb_terms.specs.declared.pattern.Pattern.TheVariants as pattern;

use crate::outline::{may_be, outline, outlines};
use sqlite_items::at;
use std::alloc::Global;
use std::slice;
use tb_body::{Act, Tool};
use tb_terms::{Expr, Items, Name, NoMemory, Pattern, Patterns, Sort};

/// Returns the pattern of the line that an atom may send to the tool, if it may send one. `sorts` has the types of the body's slots.
pub(crate) fn told_line(
    alloc: Global,
    tool: &Name,
    sorts: &[Sort],
    act: &Act,
) -> Result<Option<Pattern>, NoMemory>
    ensures { IfOk result (λ line. option_to_list line ≡ tells tool.now sorts.now act.now) }
{
    match act {
        Act::SndEval(first, expr) => {
            line_if(
                alloc,
                tool,
                sorts,
                first,
                b"rec-eval",
                slice::from_ref(expr),
            )
        }
        Act::SndDo(first, expr) => {
            line_if(alloc, tool, sorts, first, b"rec-do", slice::from_ref(expr))
        }
        Act::SndAckEvent(first, exprs) => {
            line_if(
                alloc,
                tool,
                sorts,
                first,
                b"rec-ack-event",
                exprs.as_slice(),
            )
        }
        Act::SndTerminate(first, expr) => {
            line_if(
                alloc,
                tool,
                sorts,
                first,
                b"rec-terminate",
                slice::from_ref(expr),
            )
        }
        Act::Shutdown(reason) => {
            let parts = outlines(alloc, slice::from_ref(reason), sorts)?;
            Ok(Some(line(alloc, b"rec-terminate", parts)?))
        }
        _ => Ok(None),
    }
}

/// Returns the pattern of the line that an atom may take from the tool, if it may take one. `kinds` has the tools that the program
/// declares.
pub(crate) fn heard_line(
    alloc: Global,
    kinds: &[Tool],
    tool: &Name,
    sorts: &[Sort],
    act: &Act,
) -> Result<Option<Pattern>, NoMemory>
    ensures { IfOk result
        (λ line. option_to_list line ≡ hears kinds.now tool.now sorts.now act.now) }
{
    match act {
        Act::RecValue(first, expr) => {
            line_if(
                alloc,
                tool,
                sorts,
                first,
                b"snd-value",
                slice::from_ref(expr),
            )
        }
        Act::RecEvent(first, exprs) => {
            line_if(alloc, tool, sorts, first, b"snd-event", exprs.as_slice())
        }
        Act::RecConnect { tool: kind, .. } => {
            if name_at(kinds, *kind) != tool.as_bytes() {
                return Ok(None);
            }
            Ok(Some(line_of_name(alloc, b"snd-connect", tool.share()?)?))
        }
        _ => Ok(None),
    }
}

/// Returns the line with this word and the outlines of these expressions, if the first argument of the atom may be the tool.
fn line_if(
    alloc: Global,
    tool: &Name,
    sorts: &[Sort],
    first: &Expr,
    word: &[u8],
    exprs: &[Expr],
) -> Result<Option<Pattern>, NoMemory>
    requires { IsTrue (is_name word.now) }
    ensures { IfOk result (λ line. option_to_list line
        ≡ line_if tool.now sorts.now first.now word.now exprs.now) }
{
    if !may_be(tool, &outline(alloc, first, sorts)?) {
        return Ok(None);
    }
    let parts = outlines(alloc, exprs, sorts)?;
    Ok(Some(line(alloc, word, parts)?))
}

/// Returns the name of a declared tool, or the empty name if the index is out of range.
fn name_at(kinds: &[Tool], kind: u32) -> &[u8]
    ensures { result.now ≡ name_of (slice_get kinds.now kind) }
{
    match at(kinds, kind as usize) {
        Some(kind) => kind.name.as_bytes(),
        None => &[],
    }
}

/// Returns the line that each tool receives if the bus shuts down for this reason.
pub(crate) fn last_line(alloc: Global, reason: &[u8]) -> Result<Pattern, NoMemory>
    requires { IsTrue (is_name reason.now) }
    ensures { IfOk result (λ it. it ∷ []
        ≡ line (codes "rec-terminate") (pattern.Appl reason.now [] ∷ [])) }
{
    line_of_name(alloc, b"rec-terminate", Name::new(alloc, reason)?)
}

/// Returns the line with this word and this name as its only part.
fn line_of_name(alloc: Global, word: &[u8], name: Name) -> Result<Pattern, NoMemory>
    requires { IsTrue (is_name word.now) }
    ensures { IfOk result (λ it. it ∷ [] ≡ line word.now (pattern.Appl name [] ∷ [])) }
{
    let mut parts = Items::new(alloc);
    parts.push(Pattern::Appl(name, Items::new(alloc)))?;
    line(alloc, word, parts)
}

/// Returns the line with this word and these parts.
fn line(alloc: Global, word: &[u8], parts: Patterns) -> Result<Pattern, NoMemory>
    requires { IsTrue (is_name word.now) }
    ensures { IfOk result (λ it. it ∷ [] ≡ line word.now parts) }
{
    Ok(Pattern::Appl(Name::new(alloc, word)?, parts))
}
