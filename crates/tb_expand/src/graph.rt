//! The call graph: which processes each process calls.

ghost use Rattle.std.specs.Prelude.{◌≡◌, ◌<◌, [], ◌∷◌, ◌++◌, length, option_map, All, IfOk, OnOk};
ghost use Rattle.tb_expand.specs.Cycles.{called, or_none};
ghost use Rattle.tb_expand.specs.Helpers.CallGraphs.{graph_of, names_of, positions_of};

use crate::fault::Idents;
use std::alloc::Global;
use tb_syntax::{Call, Proc, Script};
use tb_terms::{Boxed, Items, NoMemory};
use tb_types::Names;

/// A sequence of positions.
pub(crate) type Positions = Items<usize>;

/// A graph: the successors of each position.
pub(crate) type Graph = Items<Positions>;

/// Returns the call graph of a script: the successors of a process are the processes that its body calls.
pub(crate) fn graph_of(alloc: Global, names: &Names) -> Result<Graph, NoMemory>
    ensures { IfOk result (λ graph. graph ≡ graph_of names.now.script.now) }
{
    let mut graph = Items::new(alloc);
    for def in names.script.procs.as_slice() {
        let mut positions = Items::new(alloc);
        push_called(names, &def.body, &mut positions)?;
        graph.push(positions)?;
    }
    Ok(graph)
}

/// Adds the positions of the processes that a process calls, in the order of the source.
#[cycle(calls)]
#[tactic(auto, using(crate::proofs::CalledPositions::called_at))]
fn push_called(names: &Names, proc: &Proc, into: &mut Positions) -> Result<(), NoMemory>
    ensures { OnOk result
        (into.new ≡ into.old ++ positions_of names.now.script.now (called proc.now)) }
{
    match proc {
        Proc::Atom(_) => Ok(()),
        Proc::Call(call) => {
            push_position(names, call, into)?;
            Ok(())
        }
        Proc::Seq(x, y)
        | Proc::Alt(x, y)
        | Proc::Star(x, y)
        | Proc::Par(x, y)
        | Proc::Disrupt(x, y) => {
            push_both(names, x.get(), y.get(), into)?;
            Ok(())
        }
        Proc::If(_, x, y) => {
            push_called(names, x.get(), into)?;
            push_else(names, y, into)?;
            Ok(())
        }
        Proc::Let(_, x) => {
            push_called(names, x.get(), into)?;
            Ok(())
        }
    }
}

#[cycle(calls)]
fn push_both(names: &Names, x: &Proc, y: &Proc, into: &mut Positions) -> Result<(), NoMemory>
    ensures { OnOk result (into.new ≡ into.old ++ (positions_of names.now.script.now (called x.now)
        ++ positions_of names.now.script.now (called y.now))) }
{
    push_called(names, x, into)?;
    push_called(names, y, into)?;
    Ok(())
}

#[cycle(calls)]
fn push_else(names: &Names, y: &Option<Boxed<Proc>>, into: &mut Positions) -> Result<(), NoMemory>
    ensures { OnOk result (into.new
        ≡ into.old ++ positions_of names.now.script.now (or_none (option_map called y.now))) }
{
    match y {
        None => Ok(()),
        Some(y) => {
            push_called(names, y.get(), into)?;
            Ok(())
        }
    }
}

/// Adds the position of the called process, if a process has this name.
fn push_position(names: &Names, call: &Call, into: &mut Positions) -> Result<(), NoMemory>
    ensures { OnOk result
        (into.new ≡ into.old ++ positions_of names.now.script.now (call.now.name ∷ [])) }
{
    if let Some(position) = names.process_position(call.name.as_bytes()) {
        into.push(position)?;
    }
    Ok(())
}

/// Returns the names of the processes at these positions.
pub(crate) fn names_at(
    alloc: Global,
    script: &Script,
    positions: &[usize],
) -> Result<Idents, NoMemory>
    requires { All (λ position. position < length script.now.procs) positions.now }
    ensures { IfOk result (λ names. names ≡ names_of script.now positions.now) }
{
    let mut names = Items::new(alloc);
    for position in positions {
        names.push(script.procs.as_slice()[*position].name.copy(alloc)?)?;
    }
    Ok(names)
}
