//! The places where result variables and placeholders are allowed.

ghost use Rattle.std.specs.Prelude.{◌≡◌, ◌++◌, OnOk, map};
ghost use Rattle.std.specs.List.{flat_map};
ghost use Rattle.tb_types.specs.Positions.{takes_results, takes_holes, part_position, argument_position, misplaced, misplaced_kind};

use crate::names::applied;
use crate::violation::{Rule, Violation, note_if};
use tb_syntax::{Ast, AstKind};
use tb_terms::{Items, Name, NoMemory};

/// The kind of a place: whether the expression there can have result variables and placeholders.
#[derive(Clone, Copy, Debug, PartialEq, Eq)]
pub enum Position {
    /// Neither is allowed.
    Sent,
    /// The whole expression can be a result variable. No placeholder is allowed.
    Taken,
    /// Placeholders are allowed. No result variable is allowed.
    Noted,
    /// Both are allowed.
    Received,
}

fn takes_results(position: Position) -> bool
    ensures { result ≡ takes_results position }
{
    matches!(position, Position::Taken | Position::Received)
}

fn takes_holes(position: Position) -> bool
    ensures { result ≡ takes_holes position }
{
    matches!(position, Position::Noted | Position::Received)
}

fn part_position(position: Position) -> Position
    ensures { result ≡ part_position position }
{
    match position {
        Position::Sent | Position::Taken => Position::Sent,
        Position::Noted => Position::Noted,
        Position::Received => Position::Received,
    }
}

fn argument_position(name: &Name, count: usize, position: Position) -> Position
    ensures { result ≡ argument_position name.now count position }
{
    if applied(name, count).is_some() {
        Position::Sent
    } else {
        part_position(position)
    }
}

/// Adds a violation for each result variable and placeholder in the expression that isn't allowed at its place.
#[cycle(misplaced)]
pub(crate) fn push_misplaced(
    position: Position,
    expr: &Ast,
    into: &mut Items<Violation>,
) -> Result<(), NoMemory>
    ensures { OnOk result (into.new ≡ into.old ++ misplaced position expr.now) }
{
    push_misplaced_kind(position, &expr.kind, expr.token, into)?;
    Ok(())
}

#[cycle(misplaced)]
#[tactic(auto, using(crate::proofs::MisplacedKinds::misplaced_of_appl, crate::proofs::MisplacedKinds::misplaced_of_list))]
fn push_misplaced_kind(
    position: Position,
    kind: &AstKind,
    token: usize,
    into: &mut Items<Violation>,
) -> Result<(), NoMemory>
    ensures { OnOk result (into.new ≡ into.old ++ misplaced_kind kind.now token position) }
{
    match kind {
        AstKind::Int(_) => Ok(()),
        AstKind::Str(_) => Ok(()),
        AstKind::Appl(name, parts) => {
            let inner = argument_position(name, parts.len(), position);
            push_misplaced_parts(inner, parts.as_slice(), into)?;
            Ok(())
        }
        AstKind::Var(_) => Ok(()),
        AstKind::Result(_) => {
            note_if(!takes_results(position), Rule::ResultInSend, token, into)?;
            Ok(())
        }
        AstKind::Hole(_) => {
            note_if(!takes_holes(position), Rule::ResultInSend, token, into)?;
            Ok(())
        }
        AstKind::List(parts) => {
            push_misplaced_parts(part_position(position), parts.as_slice(), into)?;
            Ok(())
        }
    }
}

#[cycle(misplaced)]
fn push_misplaced_parts(
    position: Position,
    parts: &[Ast],
    into: &mut Items<Violation>,
) -> Result<(), NoMemory>
    ensures { OnOk result (into.new ≡ into.old ++ flat_map (misplaced position) parts.now) }
{
    for part in parts {
        push_misplaced(position, part, into)?;
    }
    Ok(())
}
