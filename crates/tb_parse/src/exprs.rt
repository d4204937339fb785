//! Reads expressions.

ghost use Rattle.std.specs.Prelude.{◌≡◌, if◌then◌else◌};
ghost use Rattle.tb_syntax.specs.declared.ast.AstKind.{AstKind};
ghost use Rattle.tb_parse.specs.Helpers.Parsing.{expr, kind, in_parens, parted, list, hole};
ghost use Rattle.tb_parse.specs.Helpers.Reading.{Meets, runs};

use crate::ParseFault;
use crate::reader::Reader;
use crate::sorts::word_sort;
use std::alloc::Global;
use tb_lex::{Symbol, TokenKind};
use tb_syntax::{Ast, AstKind, Asts, is_reserved};
use tb_terms::{Ident, Items};

/// Reads an expression. `room` bounds how deep expressions are nested, and how many are in one list.
#[cycle(exprs)]
#[tactic(auto, unfolding(crate::specs::Helpers::Parsing::expr))]
pub(crate) fn expr(
    alloc: Global,
    reader: &mut Reader<'_, '_>,
    room: usize,
) -> Result<Ast, ParseFault>
    ensures { Meets (runs (expr room) reader.old) result reader.new }
{
    let token = reader.position();
    if room == 0 {
        return Err(ParseFault::Syntax(token));
    }
    let kind = kind(alloc, reader, room - 1)?;
    Ok(Ast { kind, token })
}

#[cycle(exprs)]
#[tactic(auto, unfolding(crate::specs::Helpers::Parsing::kind))]
fn kind(alloc: Global, reader: &mut Reader<'_, '_>, room: usize) -> Result<AstKind, ParseFault>
    ensures { Meets (runs (kind (expr room) room) reader.old) result reader.new }
{
    let at = reader.position();
    match reader.take() {
        Some(TokenKind::Int(number)) => Ok(AstKind::Int(*number)),
        Some(TokenKind::Str(text)) => Ok(AstKind::Str(text.copy(alloc)?)),
        Some(TokenKind::Lower(name)) => {
            if is_reserved(name.as_bytes()) {
                return Err(ParseFault::Syntax(at));
            }
            let name = name.copy(alloc)?;
            Ok(AstKind::Appl(name, arguments(alloc, reader, room)?))
        }
        Some(TokenKind::Upper(name)) => {
            let name = name.copy(alloc)?;
            Ok(variable(name, reader.eat_sign(Symbol::Question)))
        }
        Some(TokenKind::Symbol(Symbol::LeftBracket)) => list(alloc, reader, room),
        Some(TokenKind::Symbol(Symbol::Less)) => hole(alloc, reader),
        _ => Err(ParseFault::Syntax(at)),
    }
}

fn variable(name: Ident, takes: bool) -> AstKind
    ensures { result ≡ (if takes then AstKind.Result name else AstKind.Var name) }
{
    if takes {
        AstKind::Result(name)
    } else {
        AstKind::Var(name)
    }
}

/// Reads a placeholder after its `<`.
#[tactic(auto, unfolding(crate::specs::Helpers::Parsing::hole))]
fn hole(alloc: Global, reader: &mut Reader<'_, '_>) -> Result<AstKind, ParseFault>
    ensures { Meets (runs hole reader.old) result reader.new }
{
    let at = reader.position();
    let name = reader.lower(alloc)?;
    let Some(sort) = word_sort(alloc, name.as_bytes())? else {
        return Err(ParseFault::Syntax(at));
    };
    reader.skip_sign(Symbol::Greater)?;
    Ok(AstKind::Hole(sort))
}

/// Reads a list after its `[`.
#[cycle(exprs)]
#[tactic(auto, unfolding(crate::specs::Helpers::Parsing::list))]
fn list(alloc: Global, reader: &mut Reader<'_, '_>, room: usize) -> Result<AstKind, ParseFault>
    ensures { Meets (runs (list (expr room) room) reader.old) result reader.new }
{
    if reader.eat_sign(Symbol::RightBracket) {
        return Ok(AstKind::List(Items::new(alloc)));
    }
    let parts = exprs(alloc, reader, room)?;
    reader.skip_sign(Symbol::RightBracket)?;
    Ok(AstKind::List(parts))
}

/// Reads expressions in parentheses, or none if no parenthesis comes next.
#[cycle(exprs)]
#[tactic(auto, unfolding(crate::specs::Helpers::Parsing::in_parens))]
pub(crate) fn arguments(
    alloc: Global,
    reader: &mut Reader<'_, '_>,
    room: usize,
) -> Result<Asts, ParseFault>
    ensures { Meets (runs (in_parens (expr room) room) reader.old) result reader.new }
{
    if !reader.eat_sign(Symbol::LeftParen) {
        return Ok(Items::new(alloc));
    }
    let parts = exprs(alloc, reader, room)?;
    reader.skip_sign(Symbol::RightParen)?;
    Ok(parts)
}

/// Reads one expression or more, with a comma between each two.
#[cycle(exprs)]
fn exprs(alloc: Global, reader: &mut Reader<'_, '_>, room: usize) -> Result<Asts, ParseFault>
    ensures { Meets (runs (parted (expr room) room) reader.old) result reader.new }
{
    let mut parts = Items::new(alloc);
    for _turn in 0..room {
        parts.push(expr(alloc, reader, room)?)?;
        if !reader.eat_sign(Symbol::Comma) {
            return Ok(parts);
        }
    }
    Err(ParseFault::Syntax(reader.position()))
}
