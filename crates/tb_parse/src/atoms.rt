//! Reads atoms with their time conditions, calls, and variables.

ghost use Rattle.std.specs.Prelude.{◌≡◌};
ghost use Rattle.tb_parse.specs.Helpers.Parsing.{call_of, call, create, time, times, var, parted};
ghost use Rattle.tb_parse.specs.Helpers.Reading.{Meets, runs};

use crate::ParseFault;
use crate::exprs::{arguments, expr};
use crate::reader::Reader;
use crate::sorts::sort;
use std::alloc::Global;
use tb_lex::Symbol;
use tb_syntax::{ActDef, Call, Calls, TimeDef, TimeDefs, Var, Vars};
use tb_terms::{Ident, Items};

/// Reads the arguments of the call whose name is at the position `token`, and has been taken already.
#[tactic(auto, unfolding(crate::specs::Helpers::Parsing::call_of))]
pub(crate) fn call_of(
    alloc: Global,
    reader: &mut Reader<'_, '_>,
    room: usize,
    name: Ident,
    token: usize,
) -> Result<Call, ParseFault>
    ensures { Meets (runs (call_of room name token) reader.old) result reader.new }
{
    let actuals = arguments(alloc, reader, room)?;
    Ok(Call {
        name,
        actuals,
        token,
    })
}

#[tactic(auto, unfolding(crate::specs::Helpers::Parsing::call))]
pub(crate) fn call(
    alloc: Global,
    reader: &mut Reader<'_, '_>,
    room: usize,
) -> Result<Call, ParseFault>
    ensures { Meets (runs (call room) reader.old) result reader.new }
{
    let token = reader.position();
    let name = reader.upper(alloc)?;
    call_of(alloc, reader, room, name, token)
}

/// Reads one call or more, with a comma between each two.
pub(crate) fn calls(
    alloc: Global,
    reader: &mut Reader<'_, '_>,
    room: usize,
) -> Result<Calls, ParseFault>
    ensures { Meets (runs (parted (call room) room) reader.old) result reader.new }
{
    let mut found = Items::new(alloc);
    for _turn in 0..room {
        found.push(call(alloc, reader, room)?)?;
        if !reader.eat_sign(Symbol::Comma) {
            return Ok(found);
        }
    }
    Err(ParseFault::Syntax(reader.position()))
}

/// Reads the rest of an atom after the word `create`.
#[tactic(auto, unfolding(crate::specs::Helpers::Parsing::create))]
pub(crate) fn create(
    alloc: Global,
    reader: &mut Reader<'_, '_>,
    room: usize,
) -> Result<ActDef, ParseFault>
    ensures { Meets (runs (create room) reader.old) result reader.new }
{
    reader.skip_sign(Symbol::LeftParen)?;
    let made = call(alloc, reader, room)?;
    reader.skip_sign(Symbol::Comma)?;
    let variable = expr(alloc, reader, room)?;
    reader.skip_sign(Symbol::RightParen)?;
    Ok(ActDef::Create(made, variable))
}

#[tactic(auto, unfolding(crate::specs::Helpers::Parsing::time))]
fn time(alloc: Global, reader: &mut Reader<'_, '_>, room: usize) -> Result<TimeDef, ParseFault>
    ensures { Meets (runs (time room) reader.old) result reader.new }
{
    let token = reader.position();
    let name = reader.lower(alloc)?;
    reader.skip_sign(Symbol::LeftParen)?;
    let value = expr(alloc, reader, room)?;
    reader.skip_sign(Symbol::RightParen)?;
    Ok(TimeDef { name, value, token })
}

/// Reads the time conditions after an atom, as many as there are.
pub(crate) fn times(
    alloc: Global,
    reader: &mut Reader<'_, '_>,
    room: usize,
) -> Result<TimeDefs, ParseFault>
    ensures { Meets (runs (times room room) reader.old) result reader.new }
{
    let mut found = Items::new(alloc);
    for _turn in 0..room {
        if !reader.is_time() {
            return Ok(found);
        }
        found.push(time(alloc, reader, room)?)?;
    }
    Err(ParseFault::Syntax(reader.position()))
}

/// Reads a variable with its type.
#[tactic(auto, unfolding(crate::specs::Helpers::Parsing::var))]
pub(crate) fn var(
    alloc: Global,
    reader: &mut Reader<'_, '_>,
    room: usize,
) -> Result<Var, ParseFault>
    ensures { Meets (runs (var room) reader.old) result reader.new }
{
    let token = reader.position();
    let name = reader.upper(alloc)?;
    reader.skip_sign(Symbol::Colon)?;
    let (sort, sort_token) = sort(alloc, reader, room)?;
    Ok(Var {
        name,
        sort,
        token,
        sort_token,
    })
}

/// Reads one variable or more, with a comma between each two.
pub(crate) fn vars(
    alloc: Global,
    reader: &mut Reader<'_, '_>,
    room: usize,
) -> Result<Vars, ParseFault>
    ensures { Meets (runs (parted (var room) room) reader.old) result reader.new }
{
    let mut found = Items::new(alloc);
    for _turn in 0..room {
        found.push(var(alloc, reader, room)?)?;
        if !reader.eat_sign(Symbol::Comma) {
            return Ok(found);
        }
    }
    Err(ParseFault::Syntax(reader.position()))
}
