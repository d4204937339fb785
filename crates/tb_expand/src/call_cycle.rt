//! Cycles of calls, rotated so that the least position is first.

ghost use Rattle.std.specs.Prelude.{◌≡◌, ℕ, ◌<◌, List, length, nat_lt, Contains, IfOk};
ghost use Rattle.std.specs.List.{IsFirstBest};
ghost use Rattle.tb_expand.specs.Helpers.TurnedCycles.{onward, IsTurned};

use crate::graph::Positions;
use std::alloc::Global;
use tb_terms::{Items, NoMemory};

/// Returns the cycle that a path closes when it reaches the position `again` a second time. The least position of the cycle is first.
pub(crate) fn cycle_of(alloc: Global, way: &[usize], again: usize) -> Result<Positions, NoMemory>
    requires { Contains way.now again }
    ensures { IfOk result (IsTurned (onward again way.now)) }
{
    Ok(turned(alloc, onward(way, again))?)
}

/// Returns the part of a path from the first occurrence of this position on.
fn onward(way: &[usize], again: usize) -> &[usize]
    ensures { result.now ≡ onward again way.now }
{
    let mut rest = way;
    while let [position, others @ ..] = rest {
        if *position == again {
            return rest;
        }
        rest = others;
    }
    rest
}

/// Returns the positions from the least on, followed by the positions before the least.
fn turned(alloc: Global, call_cycle: &[usize]) -> Result<Positions, NoMemory>
    requires { 0 < length call_cycle.now }
    ensures { IfOk result (IsTurned call_cycle.now) }
{
    let (before, from_least) = call_cycle.split_at(least_at(call_cycle));
    let mut positions = Items::from_slice(alloc, from_least)?;
    positions.append(Items::from_slice(alloc, before)?)?;
    Ok(positions)
}

/// Returns the index of the least position.
fn least_at(positions: &[usize]) -> usize
    requires { 0 < length positions.now }
    ensures { IsFirstBest nat_lt positions.now (length positions.now) result }
{
    let mut least = 0;
    for at in 1..positions.len() {
        if positions[at] < positions[least] {
            least = at;
        }
    }
    least
}
