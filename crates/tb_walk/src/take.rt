//! The change of a row when the atom of a found offer happens.
ghost use Rattle.std.specs.Prelude.{◌≡◌, ◌<◌, ◌++◌, ◌∷◌, [], None, Some, IfOk, IfSome, OnOk, false, length, nat_lt, slice_get, if◌then◌else◌};
ghost use Rattle.tb_process_steps.specs.Processes.{fresh, Par};
ghost use Rattle.tb_code.specs.Positions.{size, op_at, part, is_wait, Begins, IsTwo, IsUntil};
ghost use Rattle.tb_code.specs.declared.node.Op.TheVariants as op_of;
ghost use Rattle.tb_walk.specs.Helpers.Places.{root_at};
ghost use Rattle.tb_walk.specs.Helpers.Reads.{branch, or_entered};
ghost use Rattle.tb_walk.specs.Helpers.Partings.{and_waits, branch_by, row_by};
ghost use Rattle.tb_walk.specs.Helpers.Takings.{IsInRow, IsSettled};

use crate::settle::{Step, after, before, left_by, outside, settled, spliced};
use crate::{Branch, Row, Sight};
use std::alloc::Global;
use tb_code::{Behind, Code, Op};
use tb_terms::{Items, NoMemory};

/// Returns the change of a row when the atom of the found offer happens.
pub(crate) fn step_by(
    alloc: Global,
    code: &Code,
    row: &[Branch],
    ticks: u64,
    sight: &Sight,
) -> Result<Step, NoMemory>
    requires { IsInRow (fresh code.now.body.tree) row.now sight.now }
    ensures { (branch : Branch) → slice_get row.now sight.now.branch ≡ Some branch
        → IfOk result (IsSettled (fresh code.now.body.tree) ticks row.now sight.now.branch
        (branch_by (fresh code.now.body.tree) ticks branch sight.now.position)) }
{
    match sight.behind {
        Behind::Ended => Ok(left_by(code, row, ticks, sight.branch)),
        Behind::Entered(position) => Ok(Step::Put(
            sight.branch,
            Branch {
                position,
                entered: ticks,
            },
        )),
        Behind::Parted => parted(alloc, code, row, ticks, sight.branch, sight.position),
    }
}

/// Returns the position of the operator's side that has the atom.
fn side(first: usize, right: usize, atom: usize) -> usize
    ensures { result ≡ (if nat_lt atom right then first else right) }
{
    if atom < right { first } else { right }
}

/// Returns the change of the row when a merge or a disrupt is parted into branches. `atom` is the position of the atom.
#[inline(never)]
fn parted(
    alloc: Global,
    code: &Code,
    row: &[Branch],
    ticks: u64,
    at: usize,
    atom: usize,
) -> Result<Step, NoMemory>
    requires within { at < length row.now }
    requires there { (branch : Branch) → slice_get row.now at ≡ Some branch
        → branch.position < size (fresh code.now.body.tree) }
    ensures { (branch : Branch) → slice_get row.now at ≡ Some branch
        → IfOk result (IsSettled (fresh code.now.body.tree) ticks row.now at
        (branch_by (fresh code.now.body.tree) ticks branch atom)) }
{
    let Branch { position, entered } = row[at];
    let since = Since { entered, ticks };
    let mut inside = Items::new(alloc);
    part_at(code, position, atom, since, &mut inside)?;
    match waits_for(code, position) {
        Some(disrupt) => begun(alloc, code, row, ticks, at, disrupt, inside),
        None => stepped(alloc, code, row, ticks, at, inside),
    }
}

/// Returns the disrupt whose right side waits at the position, if one does.
fn waits_for(code: &Code, at: usize) -> Option<usize>
    requires { at < size (fresh code.now.body.tree) }
    ensures some { IfSome result
        (λ disrupt. op_at (fresh code.now.body.tree) at ≡ op_of.Waits disrupt) }
    ensures none { result ≡ None → Begins (fresh code.now.body.tree) at }
{
    waits_in(&code.node(at).op)
}

fn waits_in(op: &Op) -> Option<usize>
    ensures some { IfSome result (λ disrupt. op.now ≡ op_of.Waits disrupt) }
    ensures none { result ≡ None → is_wait op.now ≡ false }
{
    match op {
        Op::Waits(disrupt) => Some(*disrupt),
        Op::At(_)
        | Op::Seq(_)
        | Op::Alt(_)
        | Op::Star(_)
        | Op::Par(_)
        | Op::Disrupt(_)
        | Op::If(_, _)
        | Op::When(_)
        | Op::Let(_) => None,
    }
}

/// Returns the change of a row when the branches `inside` are left of the branch at the index. No right side waits at its position.
fn stepped(
    alloc: Global,
    code: &Code,
    row: &[Branch],
    ticks: u64,
    at: usize,
    inside: Row,
) -> Result<Step, NoMemory>
    requires within { at < length row.now }
    requires there { (branch : Branch) → slice_get row.now at ≡ Some branch
        → branch.position < size (fresh code.now.body.tree) }
    requires begins { (branch : Branch) → slice_get row.now at ≡ Some branch
        → Begins (fresh code.now.body.tree) branch.position }
    ensures { IfOk result (IsSettled (fresh code.now.body.tree) ticks row.now at inside) }
{
    if inside.is_empty() {
        Ok(left_by(code, row, ticks, at))
    } else {
        Ok(Step::Part(spliced(alloc, row, at, inside)?))
    }
}

/// Returns the change of a row when the waiting right side of this disrupt takes its first step. The branches of the left side leave the
/// row, and the branches `inside` are left of the branch at the index.
fn begun(
    alloc: Global,
    code: &Code,
    row: &[Branch],
    ticks: u64,
    at: usize,
    disrupt: usize,
    inside: Row,
) -> Result<Step, NoMemory>
    requires within { at < length row.now }
    requires there { (branch : Branch) → slice_get row.now at ≡ Some branch
        → branch.position < size (fresh code.now.body.tree) }
    requires waits { (branch : Branch) → slice_get row.now at ≡ Some branch
        → op_at (fresh code.now.body.tree) branch.position ≡ op_of.Waits disrupt }
    ensures { IfOk result (IsSettled (fresh code.now.body.tree) ticks row.now at inside) }
{
    let position = row[at].position;
    let kept = outside(alloc, before(row, at), disrupt, position)?;
    let frame = code.node(position).frame;
    let new = settled(alloc, code, frame, ticks, kept, inside, after(row, at))?;
    Ok(Step::Part(new))
}

/// The tick at which a branch was entered, and the number of ticks that the process has seen.
#[derive(Clone, Copy)]
struct Since {
    entered: u64,
    ticks: u64,
}

/// Adds the branches that are left of the part at a position when the atom at position `atom` happens.
#[cycle(part_at)]
fn part_at(code: &Code, at: usize, atom: usize, since: Since, row: &mut Row) -> Result<(), NoMemory>
    requires { at < size (fresh code.now.body.tree) }
    ensures { OnOk result (row.new ≡ row.old ++ row_by since.ticks since.entered
        (root_at (fresh code.now.body.tree) at) (part (fresh code.now.body.tree) at) atom) }
{
    let first = code.first(at);
    match &code.node(at).op {
        Op::At(_) => Ok(()),
        Op::Seq(right) => part_first(code, first, *right, atom, since, row),
        Op::Alt(right) => part_at(code, side(first, *right, atom), atom, since, row),
        Op::Star(right) => {
            if atom < *right {
                part_first(code, first, at, atom, since, row)
            } else {
                part_at(code, *right, atom, since, row)
            }
        }
        Op::Par(right) => part_merge(code, at, *right, atom, since, row),
        Op::Disrupt(waits) => part_disrupt(code, at, *waits, atom, since, row),
        Op::Waits(_) => part_at(code, first, atom, since, row),
        Op::If(_, right) => part_at(code, side(first, *right, atom), atom, since, row),
        Op::When(_) => part_at(code, first, atom, since, row),
        Op::Let(_) => part_at(code, first, atom, since, row),
    }
}

/// Adds the branches that are left of a first part. If the first part has ended, adds a branch at position `next`, entered now.
#[cycle(part_at)]
fn part_first(
    code: &Code,
    first: usize,
    next: usize,
    atom: usize,
    since: Since,
    row: &mut Row,
) -> Result<(), NoMemory>
    requires { first < size (fresh code.now.body.tree) }
    ensures { OnOk result (row.new ≡ row.old ++ or_entered (row_by since.ticks since.entered
        (root_at (fresh code.now.body.tree) first) (part (fresh code.now.body.tree) first) atom)
        (branch next since.ticks ∷ [])) }
{
    let before = row.len();
    part_at(code, first, atom, since, row)?;
    if row.len() == before {
        row.push(Branch {
            position: next,
            entered: since.ticks,
        })?;
    }
    Ok(())
}

/// Adds the branches that are left of a merge. Its other side still waits, and keeps its tick.
#[cycle(part_at)]
fn part_merge(
    code: &Code,
    at: usize,
    right: usize,
    atom: usize,
    since: Since,
    row: &mut Row,
) -> Result<(), NoMemory>
    requires { IsTwo (fresh code.now.body.tree) Par at right }
    ensures { OnOk result (row.new ≡ row.old
        ++ row_by since.ticks since.entered at (part (fresh code.now.body.tree) at) atom) }
{
    let first = code.first(at);
    if atom < right {
        part_at(code, first, atom, since, row)?;
        push_waiting(row, right, since)
    } else {
        push_waiting(row, first, since)?;
        part_at(code, right, atom, since, row)
    }
}

/// Adds the branches that are left of a disrupt.
#[cycle(part_at)]
fn part_disrupt(
    code: &Code,
    at: usize,
    waits: usize,
    atom: usize,
    since: Since,
    row: &mut Row,
) -> Result<(), NoMemory>
    requires { IsUntil (fresh code.now.body.tree) at waits }
    ensures { OnOk result (row.new ≡ row.old
        ++ row_by since.ticks since.entered at (part (fresh code.now.body.tree) at) atom) }
{
    if atom < waits {
        part_until(code, code.first(at), waits, atom, since, row)
    } else {
        part_at(code, code.first(waits), atom, since, row)
    }
}

/// Adds the branches that are left of a left side. If the left side continues, adds the branch of the waiting right side after them.
#[cycle(part_at)]
fn part_until(
    code: &Code,
    first: usize,
    waits: usize,
    atom: usize,
    since: Since,
    row: &mut Row,
) -> Result<(), NoMemory>
    requires { first < size (fresh code.now.body.tree) }
    ensures { OnOk result (row.new ≡ row.old ++ and_waits (row_by since.ticks since.entered
        (root_at (fresh code.now.body.tree) first) (part (fresh code.now.body.tree) first) atom)
        (branch waits since.entered)) }
{
    let before = row.len();
    part_at(code, first, atom, since, row)?;
    if row.len() != before {
        push_waiting(row, waits, since)?;
    }
    Ok(())
}

fn push_waiting(row: &mut Row, position: usize, since: Since) -> Result<(), NoMemory>
    ensures { OnOk result (row.new ≡ row.old ++ branch position since.entered ∷ []) }
{
    row.push(Branch {
        position,
        entered: since.entered,
    })?;
    Ok(())
}
