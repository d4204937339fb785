//! A depth-first walk through a graph.

ghost use Rattle.std.specs.Prelude.{◌≡◌, ℕ, ◌<◌, ◌+◌, ◌^◌, List, [], ◌∷◌, ◌++◌, length, slice_get, Some, ⊤, IfOk, IfSome, OnOk, MatchOption};
ghost use Rattle.tb_expand.specs.Helpers.Graphs.{IsClosed, next_positions};
ghost use Rattle.tb_expand.specs.declared.walk.Visit.TheVariants.{Open};
ghost use Rattle.tb_expand.specs.Helpers.Walks.{IsWalk, IsKnown, Continues, ClosesCycle, IsAtRest, start_of, opened, advanced, closed};

use crate::graph::{Graph, Positions};
use sqlite_items::at;
use std::alloc::Global;
use tb_terms::{Items, NoMemory};

/// The state of a position in a walk.
#[derive(Clone, Copy)]
pub(crate) enum Visit {
    /// The position wasn't visited.
    New,
    /// The position is on the path, and this many of its successors, from the first, are done.
    Open(usize),
    /// The position and everything that is reachable from it are done.
    Done,
}

/// The state of a depth-first walk through a graph.
#[derive(Drop)]
pub(crate) struct Walk {
    /// The state of each position.
    pub visits: Items<Visit>,
    /// The path: the positions that are open. Each position after the first is a successor of the one before.
    pub way: Positions,
    /// The positions that are done, each after its successors.
    pub order: Positions,
}

/// Returns the state before the first step, in a graph with this many positions.
pub(crate) fn start(alloc: Global, count: usize) -> Result<Walk, NoMemory>
    ensures { IfOk result (λ walk. walk ≡ start_of count) }
{
    let mut visits = Vec::new(alloc);
    visits.resize(count, Visit::New)?;
    Ok(Walk {
        visits: Items::from_vec(visits),
        way: Items::new(alloc),
        order: Items::new(alloc),
    })
}

/// Takes one step from the last position of the path. If the step leads to a position of the path, returns this position and changes
/// nothing.
pub(crate) fn step(
    graph: &Graph,
    walk: &mut Walk,
    position: usize,
) -> Result<Option<usize>, NoMemory>
    requires graph { IsClosed graph.now }
    requires walk { IsWalk graph.now walk.old }
    requires last { (prefix : List ℕ) × (walk.old.way ≡ prefix ++ position ∷ []) }
    ensures { IfOk result (λ found. MatchOption found (Continues graph.now walk.old walk.new)
        (λ again. ClosesCycle graph.now walk.new again)) }
{
    let looked = looked_at(walk, position);
    let Some(next) = next_of(graph, position, looked) else {
        close(walk, position)?;
        return Ok(None);
    };
    match visit_of(walk, next) {
        Visit::New => {
            open(walk, next)?;
            Ok(None)
        }
        Visit::Open(_) => Ok(Some(next)),
        Visit::Done => {
            walk.visits.set(position, Visit::Open(looked + 1));
            Ok(None)
        }
    }
}

/// Returns the state of a position.
pub(crate) fn visit_of(walk: &Walk, position: usize) -> Visit
    requires { position < length walk.now.visits }
    ensures { slice_get walk.now.visits position ≡ Some result }
{
    walk.visits.as_slice()[position]
}

/// Returns how many successors of an open position were looked at. For other positions, the result is 0.
fn looked_at(walk: &Walk, position: usize) -> usize
    requires { position < length walk.now.visits }
    ensures { (looked : ℕ)
        → slice_get walk.now.visits position ≡ Some (Open looked) → result ≡ looked }
{
    match visit_of(walk, position) {
        Visit::Open(looked) => looked,
        _ => 0,
    }
}

/// Returns the successor of a position after this many others.
fn next_of(graph: &Graph, position: usize, looked: usize) -> Option<usize>
    ensures value { result ≡ slice_get (next_positions graph.now position) looked }
    ensures fits { IfSome result (λ next. looked + 1 < 2 ^ 64) }
{
    match at(graph.as_slice(), position) {
        Some(positions) if looked < positions.len() => Some(positions.as_slice()[looked]),
        _ => None,
    }
}

/// Adds a new position at the end of the path.
pub(crate) fn open(walk: &mut Walk, position: usize) -> Result<(), NoMemory>
    requires { position < length walk.old.visits }
    ensures { OnOk result (walk.new ≡ opened walk.old position) }
{
    walk.way.push(position)?;
    walk.visits.set(position, Visit::Open(0));
    Ok(())
}

/// Removes the last position from the path, and marks it as done. All its successors must be done.
fn close(walk: &mut Walk, position: usize) -> Result<(), NoMemory>
    requires { position < length walk.old.visits }
    ensures { (prefix : List ℕ) → walk.old.way ≡ prefix ++ position ∷ []
        → OnOk result (walk.new ≡ closed walk.old position prefix) }
{
    walk.order.push(position)?;
    walk.visits.set(position, Visit::Done);
    let _position = walk.way.pop();
    Ok(())
}
