//! An offered atom with its values and its patterns.

use crate::acts::act_name;
use tb_body::{Act, Program, Tool};
use tb_iface::write_pattern;
use tb_log_plain::{put, put_comma, put_terms};
use tb_terms::{NoMemory, Pattern};
use tb_why::Offering;

/// Appends the atom with the values that it sends and the patterns that it matches: `rec-msg(reply,a,<int>)`. If a value or a pattern
/// can't be evaluated, `..` replaces all of them. For `execute`, `rec-connect` and `rec-disconnect` with a variable, appends the name of
/// the tool.
pub(crate) fn put_atom(
    program: &Program,
    act: &Act,
    offer: &Offering,
    into: &mut Vec<u8>,
) -> Result<(), NoMemory> {
    put(act_name(act), into)?;
    match act {
        Act::Delta | Act::Tau => Ok(()),
        Act::Execute { tool, .. }
        | Act::RecConnect { tool, .. }
        | Act::RecDisconnectAny { tool, .. } => put_kind(program, *tool, into),
        Act::Set { .. } => put_value(offer, into),
        _ => put_arguments(offer, into),
    }
}

/// Appends the name of a tool of the script in parentheses.
fn put_kind(program: &Program, tool: u32, into: &mut Vec<u8>) -> Result<(), NoMemory> {
    let kind: Option<&Tool> = program.tools.get(tool as usize);
    if let Some(kind) = kind {
        put(b"(", into)?;
        put(kind.name.as_bytes(), into)?;
        put(b")", into)?;
    }
    Ok(())
}

/// Appends the value that an assignment gives to its variable, or `..` if the expression has no value.
fn put_value(offer: &Offering, into: &mut Vec<u8>) -> Result<(), NoMemory> {
    put(b" ", into)?;
    match &offer.sent {
        Some(sent) => put_terms(sent.as_slice(), into),
        None => put(b"..", into),
    }
}

/// Appends the values and then the patterns in parentheses, or `(..)` if one of them has no value.
fn put_arguments(offer: &Offering, into: &mut Vec<u8>) -> Result<(), NoMemory> {
    let (Some(sent), Some(patterns)) = (&offer.sent, &offer.patterns) else {
        return put(b"(..)", into);
    };
    if sent.is_empty() && patterns.is_empty() {
        return Ok(());
    }
    put(b"(", into)?;
    put_terms(sent.as_slice(), into)?;
    if !sent.is_empty() && !patterns.is_empty() {
        put(b",", into)?;
    }
    put_patterns(patterns.as_slice(), into)?;
    put(b")", into)
}

/// Appends patterns with commas between them.
pub(crate) fn put_patterns(patterns: &[Pattern], into: &mut Vec<u8>) -> Result<(), NoMemory> {
    for (place, pattern) in patterns.iter().enumerate() {
        put_comma(place, into)?;
        write_pattern(pattern, into)?;
    }
    Ok(())
}
