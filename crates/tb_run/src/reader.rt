//! The worker that reads the inlet of a lane and delivers its items.
ghost use Rattle.std.specs.Prelude.{◌≡◌, true, MatchOption};
ghost use Rattle.tb_log.specs.Shapes.{IsLane};
ghost use Rattle.tb_lock.specs.Rights.{In, has};
ghost use Rattle.tb_run.specs.Workers.{ReadsLane};
ghost use Rattle.tb_run.specs.Helpers.Working.{Reads};

use crate::ends::WorkEnd;
use crate::handing::{deliver, stop};
use crate::next::Next;
use crate::post::Post;
use std::sync::Wait;
use tb_edge::{Got, Inlet};
use tb_lock::Seat;
use tb_log::{Input, ToolLine};
use tb_process_steps::Walker;
use tb_tool_line::read_tool_line;

/// Delivers all items of an inlet, until the inlet is over or the bus has shut down. A failure of the inlet counts as the end of its tool.
/// `line` is the buffer for each line. `next` goes on with the bus after each delivered item.
pub fn read_lane<W: Walker, R: Wait, I: Inlet, N: Next>(
    rt: &R,
    post: &Post<W>,
    next: &N,
    seat: &mut Seat,
    inlet: &mut I,
    line: &mut Vec<u8>,
    lane: u8,
) -> WorkEnd
    requires own { seat.old.bus ≡ post.now.shared }
    requires lane { IsLane lane }
    requires right { has seat.old.rights (In lane) ≡ true }
    requires next { N.goes_on next.now post.now.shared }
    ensures { ReadsLane lane seat.old seat.new (I.told inlet.old) (I.told inlet.new) result }
{
    for _ in rt.forever() {
        match read_one(rt, post, seat, inlet, line, lane) {
            Some(end) => return end,
            None => next.go_on(rt, post, lane),
        }
    }
    unreachable!()
}

/// Delivers the next item of the inlet, and returns why the worker ends, if it ends.
fn read_one<W: Walker, R: Wait, I: Inlet>(
    rt: &R,
    post: &Post<W>,
    seat: &mut Seat,
    inlet: &mut I,
    line: &mut Vec<u8>,
    lane: u8,
) -> Option<WorkEnd>
    requires own { seat.old.bus ≡ post.now.shared }
    requires lane { IsLane lane }
    requires right { has seat.old.rights (In lane) ≡ true }
    ensures { MatchOption result
        (Reads lane seat.old seat.new (I.told inlet.old) (I.told inlet.new))
        (ReadsLane lane seat.old seat.new (I.told inlet.old) (I.told inlet.new)) }
{
    match inlet.next(line) {
        Got::Line => match read_tool_line(post.alloc, line.as_slice()) {
            Ok(read) => deliver(rt, post, seat, Input::Line(lane, read)),
            Err(_) => {
                stop(rt, post, seat);
                Some(WorkEnd::NoMemory)
            }
        },
        Got::Long => deliver(rt, post, seat, Input::Line(lane, ToolLine::Bad)),
        Got::End => deliver(rt, post, seat, Input::Gone(lane)),
        Got::Failed => deliver(rt, post, seat, Input::Gone(lane)),
        Got::Over => Some(WorkEnd::Over),
        Got::NoMemory => {
            stop(rt, post, seat);
            Some(WorkEnd::NoMemory)
        }
    }
}
