//! The continuation when a branch has ended.
ghost use Rattle.std.specs.Prelude.{◌≡◌, ◌<◌, ◌≤◌, ◌++◌, ◌||◌, [], IfSome, Some, drop, false, length};
ghost use Rattle.std.specs.Option.{option_to_list};
ghost use Rattle.tb_process_steps.specs.Processes.{fresh};
ghost use Rattle.tb_code.specs.Positions.{op_at, size};
ghost use Rattle.tb_walk.specs.Helpers.Reads.{any_inside, branch, is_inside};
ghost use Rattle.tb_walk.specs.Helpers.Rests.{bound_by, falls_by, frame_above, next_by, rest_behind};

use crate::Branch;
use tb_code::{Code, Op};

/// The number of waiting right sides that leave the row with a branch that has ended, and the branch that is entered then, if any.
#[derive(Clone, Copy)]
pub(crate) struct Ending {
    pub(crate) fallen: usize,
    pub(crate) next: Option<Branch>,
}

/// The first part of a frame. `bound` is the position after this part. `next` is the position that is entered when this part has ended.
/// `falls` is true if this part is the left side of a disrupt. For a disrupt, `next` is its own position.
#[derive(Clone, Copy)]
pub(crate) struct FirstPart {
    pub(crate) bound: usize,
    pub(crate) next: usize,
    pub(crate) falls: bool,
}

/// Returns the first part of a frame.
pub(crate) fn first_part(code: &Code, frame: usize) -> FirstPart
    requires { frame < size (fresh code.now.body.tree) }
    ensures bound { result.bound ≡ bound_by (op_at (fresh code.now.body.tree) frame) frame }
    ensures next { result.next ≡ next_by (op_at (fresh code.now.body.tree) frame) frame }
    ensures falls { result.falls ≡ falls_by (op_at (fresh code.now.body.tree) frame) }
{
    first_by(&code.node(frame).op, frame)
}

/// Returns the first part of a frame with this operator.
fn first_by(op: &Op, frame: usize) -> FirstPart
    ensures bound { result.bound ≡ bound_by op.now frame }
    ensures next { result.next ≡ next_by op.now frame }
    ensures falls { result.falls ≡ falls_by op.now }
{
    match op {
        Op::Seq(right) => FirstPart {
            bound: *right,
            next: *right,
            falls: false,
        },
        Op::Star(right) => FirstPart {
            bound: *right,
            next: frame,
            falls: false,
        },
        Op::Disrupt(waits) => FirstPart {
            bound: *waits,
            next: frame,
            falls: true,
        },
        Op::At(_)
        | Op::Alt(_)
        | Op::Par(_)
        | Op::Waits(_)
        | Op::If(_, _)
        | Op::When(_)
        | Op::Let(_) => none_behind(frame),
    }
}

/// Returns an empty first part, for an operator that is no frame.
fn none_behind(frame: usize) -> FirstPart
    ensures bound { result.bound ≡ frame }
    ensures next { result.next ≡ frame }
    ensures falls { result.falls ≡ false }
{
    FirstPart {
        bound: frame,
        next: frame,
        falls: false,
    }
}

/// Returns whether a branch before or after the ended branch is between these positions, both exclusive.
pub(crate) fn any_there(before: &[Branch], after: &[Branch], at: usize, bound: usize) -> bool
    ensures { result ≡ (any_inside at bound before.now || any_inside at bound after.now) }
{
    any_inside(before, at, bound) || any_inside(after, at, bound)
}

fn any_inside(row: &[Branch], at: usize, bound: usize) -> bool
    ensures { result ≡ any_inside at bound row.now }
{
    for branch in row {
        if at < branch.position && branch.position < bound {
            return true;
        }
    }
    false
}

/// Returns the continuation when the branch between `before` and `after` has ended. The position of the ended branch has this frame.
pub(crate) fn what_ends(
    code: &Code,
    frame: Option<usize>,
    ticks: u64,
    before: &[Branch],
    after: &[Branch],
) -> Ending
    requires { IfSome frame (λ at. at < size (fresh code.now.body.tree)) }
    ensures within { result.fallen ≤ length after.now }
    ensures rest { rest_behind (fresh code.now.body.tree) ticks frame before.now after.now
        ≡ option_to_list result.next ++ drop result.fallen after.now }
{
    let mut frame = frame;
    for fallen in 0..after.len() {
        let Some(at) = frame else {
            return Ending { fallen, next: None };
        };
        let rest = left_of(after, fallen);
        let first = first_part(code, at);
        if any_there(before, rest, at, first.bound) {
            return Ending { fallen, next: None };
        }
        if !first.falls {
            let next = entered(first.next, ticks);
            return Ending { fallen, next };
        }
        frame = above(code, at);
    }
    let fallen = after.len();
    let next = last(code, frame, ticks, before);
    Ending { fallen, next }
}

/// Returns the frame of a frame.
fn above(code: &Code, at: usize) -> Option<usize>
    requires { at < size (fresh code.now.body.tree) }
    ensures frame { result ≡ frame_above (fresh code.now.body.tree) (Some at) }
    ensures within { IfSome result (λ above. above < size (fresh code.now.body.tree)) }
{
    code.node(at).frame
}

/// Returns the branches without the first `fallen` branches.
pub(crate) fn left_of(after: &[Branch], fallen: usize) -> &[Branch]
    requires { fallen ≤ length after.now }
    ensures { result.now ≡ drop fallen after.now }
{
    &after[fallen..]
}

fn entered(position: usize, ticks: u64) -> Option<Branch>
    ensures { result ≡ Some (branch position ticks) }
{
    Some(Branch {
        position,
        entered: ticks,
    })
}

/// Returns the branch that is entered when the last branch of the row has ended. The position of the ended branch has this frame.
fn last(code: &Code, frame: Option<usize>, ticks: u64, before: &[Branch]) -> Option<Branch>
    requires { IfSome frame (λ at. at < size (fresh code.now.body.tree)) }
    ensures { option_to_list result
        ≡ rest_behind (fresh code.now.body.tree) ticks frame before.now [] }
{
    let at = frame?;
    let first = first_part(code, at);
    if any_inside(before, at, first.bound) {
        return None;
    }
    entered(first.next, ticks)
}
