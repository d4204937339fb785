//! A pipe's piece of an item that goes to a tool, and a tool's line of a piece.
ghost use Rattle.std.specs.Prelude.{◌≡◌, ◌∷◌, [], IfOk, MatchOption, Some, None, IsTrue, codes};
ghost use Rattle.std.specs.Str.{bytes_eq};
ghost use Rattle.tb_terms.specs.declared.term.Term.{out-Term};
ghost use Rattle.tb_terms.specs.declared.term.Term.TheOpen.{Appl};
ghost use Rattle.tb_log.specs.Shapes.{IsForTool, IsInputInShape, IsOutInShape};
ghost use Rattle.tb_pair.specs.Piping.{told_by, told_in, connect};
ghost use Rattle.tb_pair.specs.Helpers.Reading.{line_of};

use crate::piece::{Piece, Told};
use crate::pipe::LANE;
use std::alloc::Global;
use tb_log::{Input, Out, ToolLine};
use tb_terms::{Items, Name, NoMemory, Term};

/// Returns the term of the item's `rec-do` line, if the item is such a line.
pub(crate) fn told_of(out: Out) -> Option<Told>
    requires { IsOutInShape out }
    ensures { MatchOption result (told_by out ≡ None) (λ told. told_by out ≡ Some told) }
{
    match out {
        Out::Line(term) => told_in(term),
        Out::Start(_) | Out::End => None,
    }
}

fn told_in(term: Term) -> Option<Told>
    requires { IsForTool (out-Term term) }
    ensures { MatchOption result
        (told_in (out-Term term) ≡ None) (λ told. told_in (out-Term term) ≡ Some told) }
{
    match term {
        Term::Appl(name, parts) => told_by_name(name, parts),
        _ => None,
    }
}

fn told_by_name(name: Name, parts: Items<Term>) -> Option<Told>
    requires { IsForTool (Appl name parts) }
    ensures { MatchOption result
        (told_in (Appl name parts) ≡ None) (λ told. told_in (Appl name parts) ≡ Some told) }
{
    let mut parts = parts;
    if !is_do(name.as_bytes()) || parts.len() != 1 {
        return None;
    }
    match parts.pop() {
        Some(term) => Some(Told::of(term)),
        None => None,
    }
}

fn is_do(name: &[u8]) -> bool
    ensures { result ≡ bytes_eq name.now (codes "rec-do") }
{
    name == b"rec-do".as_slice()
}

/// The connect request of the tool.
pub(crate) fn connect_input(alloc: Global) -> Result<Input, NoMemory>
    ensures value { IfOk result (λ it. it ≡ connect) }
    ensures form { IfOk result IsInputInShape }
{
    let name = Name::new(alloc, b"pipe")?;
    Ok(Input::Line(LANE, ToolLine::Connect(name)))
}

/// The line for a piece.
pub(crate) fn input_of(alloc: Global, piece: Piece) -> Result<Input, NoMemory>
    ensures value { IfOk result (λ it. it ≡ line_of piece) }
    ensures form { IfOk result IsInputInShape }
{
    match piece {
        Piece::Told(told) => {
            let mut terms = Vec::with_capacity(alloc, 1)?;
            terms.push_reserved(told.into_term());
            Ok(Input::Line(LANE, ToolLine::Event(Items::from_vec(terms))))
        }
        Piece::Last => Ok(Input::Line(LANE, ToolLine::Disconnect)),
    }
}
