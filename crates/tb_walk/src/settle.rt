//! The change of a row when one of its branches ends or is replaced.
ghost use Rattle.std.specs.Prelude.{◌≡◌, ◌<◌, ◌≤◌, ◌++◌, ◌+◌, ◌∷◌, [], Some, IfOk, IfSome, OnOk, slice_get, take, drop, length, suc};
ghost use Rattle.std.specs.Option.{option_to_list};
ghost use Rattle.tb_process_steps.specs.Processes.{fresh};
ghost use Rattle.tb_code.specs.Positions.{size};
ghost use Rattle.tb_walk.specs.Helpers.Rests.{or_rest, rest_behind, without};
ghost use Rattle.tb_walk.specs.Helpers.Takings.{EndsTo, IsWithin, row_after};

use crate::ending::{any_there, first_part, left_of, what_ends};
use crate::{Branch, Row};
use std::alloc::Global;
use tb_code::Code;
use tb_terms::{Items, NoMemory};

/// The change of a row.
#[derive(Drop)]
pub enum Step {
    /// The given branch replaces the branch at this index.
    Put(usize, Branch),
    /// The branch at this index leaves the row.
    Leave(usize),
    /// A new row replaces the row.
    Part(Row),
    /// The branch at this index leaves the row, with the given number of waiting right sides after it. The given branch is entered, if
    /// there is one.
    Fall(usize, usize, Option<Branch>),
}

/// Returns the change of a row when the branch at the index has ended.
#[inline(always)]
pub(crate) fn left_by(code: &Code, row: &[Branch], ticks: u64, at: usize) -> Step
    requires within { at < length row.now }
    requires there { (branch : Branch) → slice_get row.now at ≡ Some branch
        → branch.position < size (fresh code.now.body.tree) }
    ensures within { IsWithin row.now result }
    ensures after { EndsTo (fresh code.now.body.tree) ticks row.now at (row_after row.now result) }
{
    let branch = row[at];
    match code.node(branch.position).frame {
        Some(frame) => left_in(code, frame, row, ticks, at),
        None => Step::Leave(at),
    }
}

/// Returns the change of a row when the branch at the index has ended, whose position has this frame.
#[inline(always)]
fn left_in(code: &Code, frame: usize, row: &[Branch], ticks: u64, at: usize) -> Step
    requires frame { frame < size (fresh code.now.body.tree) }
    requires within { at < length row.now }
    ensures within { IsWithin row.now result }
    ensures after { row_after row.now result ≡ take at row.now
        ++ rest_behind (fresh code.now.body.tree) ticks (Some frame) (take at row.now)
        (drop (suc at) row.now) }
{
    let first = first_part(code, frame);
    if any_there(before(row, at), after(row, at), frame, first.bound) {
        return Step::Leave(at);
    }
    if first.falls {
        return fallen(code, frame, row, ticks, at);
    }
    Step::Put(
        at,
        Branch {
            position: first.next,
            entered: ticks,
        },
    )
}

/// Returns the change of a row when a disrupt's left side has ended completely with the branch at the index.
#[inline(never)]
fn fallen(code: &Code, frame: usize, row: &[Branch], ticks: u64, at: usize) -> Step
    requires frame { frame < size (fresh code.now.body.tree) }
    requires within { at < length row.now }
    ensures within { IsWithin row.now result }
    ensures after { row_after row.now result ≡ take at row.now
        ++ rest_behind (fresh code.now.body.tree) ticks (Some frame) (take at row.now)
        (drop (suc at) row.now) }
{
    let ending = what_ends(code, Some(frame), ticks, before(row, at), after(row, at));
    Step::Fall(at, ending.fallen, ending.next)
}

/// Returns the branches before the index.
pub(crate) fn before(row: &[Branch], at: usize) -> &[Branch]
    requires { at < length row.now }
    ensures { result.now ≡ take at row.now }
{
    &row[..at]
}

/// Returns the branches after the index.
pub(crate) fn after(row: &[Branch], at: usize) -> &[Branch]
    requires { at < length row.now }
    ensures { result.now ≡ drop (suc at) row.now }
{
    &row[at + 1..]
}

/// Returns the row with these branches in place of the branch at the index.
pub(crate) fn spliced(
    alloc: Global,
    row: &[Branch],
    at: usize,
    inside: Row,
) -> Result<Row, NoMemory>
    requires { at < length row.now }
    ensures { IfOk result (λ whole. whole ≡ take at row.now ++ (inside ++ drop (suc at) row.now)) }
{
    let kept = Items::from_slice(alloc, before(row, at))?;
    joined(alloc, kept, inside, after(row, at))
}

fn joined(alloc: Global, kept: Row, inside: Row, after: &[Branch]) -> Result<Row, NoMemory>
    ensures { IfOk result (λ whole. whole ≡ kept ++ (inside ++ after.now)) }
{
    let mut whole = kept;
    whole.append(inside)?;
    let rest = Items::from_slice(alloc, after)?;
    whole.append(rest)?;
    Ok(whole)
}

/// Returns the kept branches, then the branches `inside` that are left of a part, then the branches after it. If no branch is left of the
/// part, the kept branches are followed by the continuation, which the part's frame determines.
pub(crate) fn settled(
    alloc: Global,
    code: &Code,
    frame: Option<usize>,
    ticks: u64,
    kept: Row,
    inside: Row,
    after: &[Branch],
) -> Result<Row, NoMemory>
    requires { IfSome frame (λ at. at < size (fresh code.now.body.tree)) }
    ensures { IfOk result (λ whole. whole ≡ kept ++ or_rest inside after.now
        (rest_behind (fresh code.now.body.tree) ticks frame kept after.now)) }
{
    if !inside.is_empty() {
        return joined(alloc, kept, inside, after);
    }
    let ending = what_ends(code, frame, ticks, kept.as_slice(), after);
    let next = one_or_none(inside, ending.next)?;
    joined(alloc, kept, next, left_of(after, ending.fallen))
}

fn one_or_none(none: Row, next: Option<Branch>) -> Result<Row, NoMemory>
    requires { none ≡ [] }
    ensures { IfOk result (λ row. row ≡ option_to_list next) }
{
    let mut row = none;
    match next {
        Some(next) => {
            row.push(next)?;
            Ok(row)
        }
        None => Ok(row),
    }
}

/// Returns the branches of a row that aren't between these positions, both exclusive.
pub(crate) fn outside(
    alloc: Global,
    row: &[Branch],
    at: usize,
    bound: usize,
) -> Result<Row, NoMemory>
    ensures { IfOk result (λ kept. kept ≡ without at bound row.now) }
{
    let mut kept = Items::new(alloc);
    for branch in row {
        add_outside(&mut kept, *branch, at, bound)?;
    }
    Ok(kept)
}

fn add_outside(kept: &mut Row, one: Branch, at: usize, bound: usize) -> Result<(), NoMemory>
    ensures { OnOk result (kept.new ≡ kept.old ++ without at bound (one ∷ [])) }
{
    if at < one.position && one.position < bound {
        return Ok(());
    }
    kept.push(one)?;
    Ok(())
}

/// Makes the given change of a row.
pub(crate) fn go_on(row: &mut Row, step: Step)
    requires { IsWithin row.old step }
    ensures { row.new ≡ row_after row.old step }
{
    match step {
        Step::Put(at, branch) => row.set(at, branch),
        Step::Leave(at) => {
            row.remove(at);
        }
        Step::Part(parted) => *row = parted,
        Step::Fall(at, gone, next) => fall(row, at, gone, next),
    }
}

/// Removes the branch at the index and the given number of branches after it, and enters the given branch, if any.
#[inline(never)]
fn fall(row: &mut Row, at: usize, gone: usize, next: Option<Branch>)
    requires { at + 1 + gone ≤ length row.old }
    ensures { row.new ≡ take at row.old ++ (option_to_list next ++ drop (at + 1 + gone) row.old) }
{
    remove_behind(row, at, gone);
    match next {
        Some(next) => row.set(at, next),
        None => {
            row.remove(at);
        }
    }
}

fn remove_behind(row: &mut Row, at: usize, many: usize)
    requires { at + 1 + many ≤ length row.old }
    ensures { row.new ≡ take (at + 1) row.old ++ drop (at + 1 + many) row.old }
{
    let _count = row.len();
    let behind = at + 1;
    for _turn in 0..many {
        row.remove(behind);
    }
}
