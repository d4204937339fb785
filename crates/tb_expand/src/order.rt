//! The topological order of a graph, or a cycle of the graph.

ghost use Rattle.std.specs.Prelude.{◌≡◌, ℕ, ◌<◌, List, [], ◌∷◌, ◌++◌, length, slice_get, Some, IfOk, OnOk, MatchOption};
ghost use Rattle.tb_expand.specs.Helpers.Graphs.{Graph, IsClosed};
ghost use Rattle.tb_expand.specs.Helpers.Ordered.{IsOrdered};
ghost use Rattle.tb_expand.specs.Helpers.Walks.{IsAtRest, HasBegun, HasEnded, ClosesCycle};

use crate::call_cycle::cycle_of;
use crate::graph::{Graph, Positions};
use crate::walk::{Visit, Walk, open, start, step, visit_of};
use std::alloc::Global;
use tb_terms::NoMemory;

/// The result for a graph.
#[derive(Drop)]
pub(crate) enum Ordered {
    /// All positions, each after its successors.
    Order(Positions),
    /// The positions of a cycle, from the least position on.
    Cyclic(Positions),
}

/// Orders the positions of a graph, or finds a cycle. It takes at most one step for each position, and two for each successor of a
/// position.
pub(crate) fn topological_order(alloc: Global, graph: &Graph) -> Result<Ordered, NoMemory>
    requires { IsClosed graph.now }
    ensures { IfOk result (IsOrdered graph.now) }
{
    let mut walk = start(alloc, graph.len())?;
    for root in 0..graph.len() {
        if let Some(again) = walk_from(graph, &mut walk, root)? {
            return Ok(Ordered::Cyclic(cycle_of(alloc, walk.way.as_slice(), again)?));
        }
    }
    Ok(Ordered::Order(walk.order))
}

/// Walks all paths from a position, unless it was visited. If a path closes a cycle, returns the position that the path reaches again.
fn walk_from(graph: &Graph, walk: &mut Walk, root: usize) -> Result<Option<usize>, NoMemory>
    requires graph { IsClosed graph.now }
    requires root { root < length graph.now }
    requires walk { IsAtRest graph.now walk.old }
    ensures { IfOk result (λ found. MatchOption found (HasEnded graph.now walk.old walk.new root)
        (λ again. ClosesCycle graph.now walk.new again)) }
{
    begin(walk, root)?;
    while let Some(position) = last(walk.way.as_slice()) {
        if let Some(again) = step(graph, walk, position)? {
            return Ok(Some(again));
        }
    }
    Ok(None)
}

/// Puts the position on the path, unless it was visited.
fn begin(walk: &mut Walk, root: usize) -> Result<(), NoMemory>
    requires { root < length walk.old.visits }
    ensures { (graph : Graph) → root < length graph → IsAtRest graph walk.old
        → OnOk result (HasBegun graph walk.old walk.new root) }
{
    match visit_of(walk, root) {
        Visit::New => {
            open(walk, root)?;
            Ok(())
        }
        _ => Ok(()),
    }
}

fn last(positions: &[usize]) -> Option<usize>
    ensures { MatchOption result (positions.now ≡ [])
        (λ position. (prefix : List ℕ) × (positions.now ≡ prefix ++ position ∷ [])) }
{
    match positions {
        [] => None,
        [.., position] => Some(*position),
    }
}
