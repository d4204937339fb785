//! The worker that takes the items of a lane and sends their terms through a pipe.
ghost use Rattle.std.specs.Prelude.{◌≡◌, true, MatchOption};
ghost use Rattle.rtrb.specs.Ring.{sent, SameProducer};
ghost use Rattle.tb_log.specs.Shapes.{IsOutInShape};
ghost use Rattle.tb_lock.specs.Rights.{In, Out as Outs, has};
ghost use Rattle.tb_pair.specs.Workers.{WritesPipe};
ghost use Rattle.tb_pair.specs.Helpers.Writing.{WritesOn, EndsWriting, Wrote, Written, PassesOn};

use crate::lines::told_of;
use crate::piece::Piece;
use crate::pipe::{LANE, PipeIn};
use crate::settle::name_itself;
use std::sync::Wait;
use tb_bells::Bells;
use tb_bus::entries_are_in_shape;
use tb_core::TakeOut;
use tb_lock::{Seat, calls_add_their_own};
use tb_log::Out;
use tb_process_steps::Walker;
use tb_run::{Post, WorkEnd, refused, wait_for_call};

/// Names the tool of lane 1 `pipe`, and sends the term of each `rec-do` line of this tool through the pipe. The worker ends if the
/// bus has shut down and nothing is left in the lane's queue, or if a call of the bus is rejected, or if memory runs out. Then it
/// sends that nothing more comes. If the reader has ended, the worker still takes the queued items, but sends nothing more.
pub fn pipe_writer<'a, W: Walker, R: Wait>(
    rt: &R,
    post: &Post<W>,
    seat: &mut Seat,
    pipe: &mut PipeIn<'a>,
) -> WorkEnd
    requires own { seat.old.bus ≡ post.now.shared }
    requires reads { has seat.old.rights (In 1) ≡ true }
    requires writes { has seat.old.rights (Outs 1) ≡ true }
    ensures ring { SameProducer pipe.old.end pipe.new.end }
    ensures work { WritesPipe seat.old seat.new (sent pipe.old.end) (sent pipe.new.end) result }
{
    let mut heard = 0;
    let end = write_all(rt, post, seat, pipe, &mut heard);
    pipe.put(rt, &post.bells, &mut heard, Piece::Last);
    end
}

fn write_all<'a, W: Walker, R: Wait>(
    rt: &R,
    post: &Post<W>,
    seat: &mut Seat,
    pipe: &mut PipeIn<'a>,
    heard: &mut u64,
) -> WorkEnd
    requires own { seat.old.bus ≡ post.now.shared }
    requires reads { has seat.old.rights (In 1) ≡ true }
    requires writes { has seat.old.rights (Outs 1) ≡ true }
    ensures ring { SameProducer pipe.old.end pipe.new.end }
    ensures work { Written seat.old seat.new (sent pipe.old.end) (sent pipe.new.end)
        pipe.new.flows result }
{
    match name_itself(rt, post, seat) {
        Ok(_) => write_on(rt, post, seat, pipe, heard),
        Err(end) => end,
    }
}

/// Takes items and passes their terms on, until the bus has shut down and nothing is left, or a call is rejected.
fn write_on<'a, W: Walker, R: Wait>(
    rt: &R,
    post: &Post<W>,
    seat: &mut Seat,
    pipe: &mut PipeIn<'a>,
    heard: &mut u64,
) -> WorkEnd
    requires own { seat.old.bus ≡ post.now.shared }
    requires writes { has seat.old.rights (Outs 1) ≡ true }
    ensures ring { SameProducer pipe.old.end pipe.new.end }
    ensures work { Wrote seat.old seat.new (sent pipe.old.end) (sent pipe.new.end)
        pipe.old.flows pipe.new.flows result }
{
    for _ in rt.forever() {
        wait_for_call(rt, post, LANE, heard);
        match write_one(rt, post, seat, pipe, heard) {
            Some(end) => return end,
            None => {}
        }
    }
    unreachable!()
}

/// Takes the next queued item and passes its term on, if there is one. Returns why the worker ends, if it ends.
fn write_one<'a, W: Walker, R: Wait>(
    rt: &R,
    post: &Post<W>,
    seat: &mut Seat,
    pipe: &mut PipeIn<'a>,
    heard: &mut u64,
) -> Option<WorkEnd>
    requires own { seat.old.bus ≡ post.now.shared }
    requires writes { has seat.old.rights (Outs 1) ≡ true }
    ensures ring { SameProducer pipe.old.end pipe.new.end }
    ensures work { MatchOption result
        (WritesOn seat.old seat.new (sent pipe.old.end) (sent pipe.new.end)
        pipe.old.flows pipe.new.flows)
        (EndsWriting seat.old seat.new (sent pipe.old.end) (sent pipe.new.end)
        pipe.old.flows pipe.new.flows) }
{
    calls_add_their_own();
    entries_are_in_shape();
    match post.shared.take_out(rt, seat, LANE) {
        Ok(TakeOut::Out(out)) => {
            post.tell_taken(&out);
            pass_on(rt, &post.bells, pipe, heard, out);
            None
        }
        Ok(TakeOut::Nothing) => None,
        Ok(TakeOut::Closed) => Some(WorkEnd::Down),
        Err(fault) => Some(refused(rt, post, seat, fault)),
    }
}

/// Sends the term of a `rec-do` line, and nothing of other items.
fn pass_on<'a, R: Wait>(rt: &R, bells: &Bells, pipe: &mut PipeIn<'a>, heard: &mut u64, out: Out)
    requires { IsOutInShape out }
    ensures ring { SameProducer pipe.old.end pipe.new.end }
    ensures passed { PassesOn out pipe.old.flows pipe.new.flows
        (sent pipe.old.end) (sent pipe.new.end) }
{
    match told_of(out) {
        Some(told) => pipe.put(rt, bells, heard, Piece::Told(told)),
        None => {}
    }
}
