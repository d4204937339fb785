//! The message about a rejected script.
ghost use Rattle.std.specs.Prelude.{IfOk};
ghost use Rattle.tb_fault_place.specs.Points.{TellsFault};

use crate::bytes::say_lex;
use crate::calls::{say_expand, say_long, say_roots};
use crate::syntax::{say_deep, say_syntax};
use std::alloc::Global;
use tb_fault_place::{Point, fault_name, write_place};
use tb_hint_checks::say_check;
use tb_hint_parts::{Said, Source};
use tb_lex::{LexFault, Tokens, lex};
use tb_parse::ParseFault;
use tb_script::ScriptFault;
use tb_terms::{Items, NoMemory};

/// Returns the message about a rejected script: the place, the name of the error, a sentence, the line of the script with a mark beneath
/// it, notes, and help. `text` is the script, `name` the name of its file, and `point` the error with its place.
#[tactic(auto, using(tb_fault_place::proofs::Tells::tells))]
pub fn message_text(
    alloc: Global,
    name: &str,
    text: &[u8],
    point: &Point,
) -> Result<Vec<u8>, NoMemory>
    ensures { IfOk result (λ lines. TellsFault name.now text.now point.now lines.items) }
{
    let rest = rest_of(alloc, name, text, point)?;
    let mut lines = Vec::new(alloc);
    write_place(name, text, &point.mark, &mut lines)?;
    lines.extend_from_slice(fault_name(&point.fault).as_bytes())?;
    lines.extend_from_slice(b": ")?;
    lines.extend_from_slice(rest.as_slice())?;
    lines.push(b'\n')?;
    Ok(lines)
}

/// Returns the message after the name of the error and its colon, without the last newline.
fn rest_of(alloc: Global, name: &str, text: &[u8], point: &Point) -> Result<Vec<u8>, NoMemory> {
    match lex(alloc, text) {
        Ok(tokens) => rest_by(alloc, name, text, &tokens, point),
        Err(LexFault::NoMemory) => Err(NoMemory),
        Err(_) => rest_by(alloc, name, text, &Items::new(alloc), point),
    }
}

fn rest_by(
    alloc: Global,
    name: &str,
    text: &[u8],
    tokens: &Tokens,
    point: &Point,
) -> Result<Vec<u8>, NoMemory> {
    let source = Source {
        name,
        text,
        tokens: tokens.as_slice(),
    };
    let mut said = Said::new(alloc, source);
    say_fault(&mut said, tokens, &point.fault);
    said.joined(point.mark)
}

fn say_fault(said: &mut Said, tokens: &Tokens, fault: &ScriptFault) {
    match fault {
        ScriptFault::Lex(fault) => say_lex(said, *fault),
        ScriptFault::Parse(fault) => say_parse(said, *fault),
        ScriptFault::Check(fault) => say_check(said, *fault),
        ScriptFault::Expand(fault) => say_expand(said, tokens, fault),
        ScriptFault::Roots(count) => say_roots(said, *count),
        ScriptFault::TooLong(count) => say_long(said, *count),
        ScriptFault::NotBuilt(_) => {}
        ScriptFault::NoMemory => said.lack(),
    }
}

fn say_parse(said: &mut Said, fault: ParseFault) {
    match fault {
        ParseFault::Syntax(token) => say_syntax(said, token),
        ParseFault::TooDeep(token) => say_deep(said, token),
        ParseFault::NoMemory => said.lack(),
    }
}
