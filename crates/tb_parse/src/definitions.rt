//! Reads a script and its definitions.

ghost use Rattle.tb_parse.specs.Helpers.Parsing.{script, definitions, formal, in_parens, parted, tool, command, roots};
ghost use Rattle.tb_parse.specs.Helpers.Defining.{Defines, Judges, process_made, definitions_kept};
ghost use Rattle.tb_parse.specs.Helpers.Reading.{Meets, runs};

use crate::ParseFault;
use crate::atoms::{calls, var};
use crate::kept::{Kept, Made, add, definition, nothing, whole};
use crate::procs::proc;
use crate::reader::Reader;
use std::alloc::Global;
use tb_lex::Symbol;
use tb_syntax::{Calls, Formal, Formals, Script, ToolDef, Var};
use tb_terms::{Items, Text};

/// Reads a whole script: after it, no tokens may follow.
pub(crate) fn script(
    alloc: Global,
    reader: &mut Reader<'_, '_>,
    room: usize,
) -> Result<Script, ParseFault>
    ensures { Judges (runs (script room) reader.old) result }
{
    let defined = definitions(alloc, reader, room)?;
    reader.skip_word(b"toolbus")?;
    reader.skip_sign(Symbol::LeftParen)?;
    let roots = roots(alloc, reader, room)?;
    if !reader.is_done() {
        return Err(ParseFault::Syntax(reader.position()));
    }
    whole(defined, roots)
}

fn definitions(alloc: Global, reader: &mut Reader<'_, '_>, room: usize) -> Result<Kept, ParseFault>
    ensures { Meets (runs (definitions_kept room room) reader.old) result reader.new }
{
    let mut found = nothing(alloc);
    for _turn in 0..room {
        if !define(alloc, reader, room, &mut found)? {
            return Ok(found);
        }
    }
    Err(ParseFault::Syntax(reader.position()))
}

/// Reads one more definition, if one comes next. Returns whether it did.
fn define(
    alloc: Global,
    reader: &mut Reader<'_, '_>,
    room: usize,
    found: &mut Kept,
) -> Result<bool, ParseFault>
    ensures { Defines room found.old reader.old result found.new reader.new }
{
    let token = reader.position();
    if reader.eat_word(b"process") {
        let made = process(alloc, reader, room, token)?;
        add(found, made)?;
        return Ok(true);
    }
    if reader.eat_word(b"tool") {
        let declared = tool(alloc, reader, token)?;
        found.tools.push(declared)?;
        return Ok(true);
    }
    Ok(false)
}

/// Reads the rest of a definition after the word `process`, which is at the position `token`.
fn process(
    alloc: Global,
    reader: &mut Reader<'_, '_>,
    room: usize,
    token: usize,
) -> Result<Made, ParseFault>
    ensures { Meets (runs (process_made room token) reader.old) result reader.new }
{
    let name = reader.upper(alloc)?;
    let formals = formals(alloc, reader, room)?;
    reader.skip_word(b"is")?;
    let body = proc(alloc, reader, room)?;
    Ok(definition(name, formals, body, token))
}

/// Reads parameters in parentheses, or none if no parenthesis comes next.
#[tactic(auto, unfolding(crate::specs::Helpers::Parsing::in_parens))]
fn formals(alloc: Global, reader: &mut Reader<'_, '_>, room: usize) -> Result<Formals, ParseFault>
    ensures { Meets (runs (in_parens (formal room) room) reader.old) result reader.new }
{
    if !reader.eat_sign(Symbol::LeftParen) {
        return Ok(Items::new(alloc));
    }
    let found = parted_formals(alloc, reader, room)?;
    reader.skip_sign(Symbol::RightParen)?;
    Ok(found)
}

fn parted_formals(
    alloc: Global,
    reader: &mut Reader<'_, '_>,
    room: usize,
) -> Result<Formals, ParseFault>
    ensures { Meets (runs (parted (formal room) room) reader.old) result reader.new }
{
    let mut found = Items::new(alloc);
    for _turn in 0..room {
        found.push(formal(alloc, reader, room)?)?;
        if !reader.eat_sign(Symbol::Comma) {
            return Ok(found);
        }
    }
    Err(ParseFault::Syntax(reader.position()))
}

fn formal(alloc: Global, reader: &mut Reader<'_, '_>, room: usize) -> Result<Formal, ParseFault>
    ensures { Meets (runs (formal room) reader.old) result reader.new }
{
    let Var {
        name,
        sort,
        token,
        sort_token,
    } = var(alloc, reader, room)?;
    let result = reader.eat_sign(Symbol::Question);
    Ok(Formal {
        name,
        sort,
        result,
        token,
        sort_token,
    })
}

/// Reads the rest of a declaration after the word `tool`, which is at the position `token`.
#[tactic(auto, unfolding(crate::specs::Helpers::Parsing::tool))]
fn tool(alloc: Global, reader: &mut Reader<'_, '_>, token: usize) -> Result<ToolDef, ParseFault>
    ensures { Meets (runs (tool token) reader.old) result reader.new }
{
    let name = reader.free_name(alloc)?;
    reader.skip_word(b"is")?;
    reader.skip_sign(Symbol::LeftBrace)?;
    let command = command(alloc, reader)?;
    reader.skip_sign(Symbol::RightBrace)?;
    Ok(ToolDef {
        name,
        command,
        token,
    })
}

#[tactic(auto, unfolding(crate::specs::Helpers::Parsing::command))]
fn command(alloc: Global, reader: &mut Reader<'_, '_>) -> Result<Option<Text>, ParseFault>
    ensures { Meets (runs command reader.old) result reader.new }
{
    if !reader.eat_word(b"command") {
        return Ok(None);
    }
    reader.skip_sign(Symbol::Equals)?;
    Ok(Some(reader.text(alloc)?))
}

/// Reads the calls with which a script starts, after the opening parenthesis.
#[tactic(auto, unfolding(crate::specs::Helpers::Parsing::roots))]
fn roots(alloc: Global, reader: &mut Reader<'_, '_>, room: usize) -> Result<Calls, ParseFault>
    ensures { Meets (runs (roots room) reader.old) result reader.new }
{
    if reader.eat_sign(Symbol::RightParen) {
        return Ok(Items::new(alloc));
    }
    let found = calls(alloc, reader, room)?;
    reader.skip_sign(Symbol::RightParen)?;
    Ok(found)
}
