//! The worker that delivers the ticks of a clock.
ghost use Rattle.std.specs.Prelude.{◌≡◌, true, MatchOption};
ghost use Rattle.tb_lock.specs.Rights.{Ticks as ToTick, has};
ghost use Rattle.tb_run.specs.Workers.{TicksBus};
ghost use Rattle.tb_run.specs.Helpers.Ticking.{EndsAll};
ghost use Rattle.tb_run.specs.Helpers.Working.{Ticks};

use crate::ends::WorkEnd;
use crate::handing::hand;
use crate::post::Post;
use std::sync::Wait;
use tb_edge::{Beat, Clock};
use tb_lock::Seat;
use tb_log::Input;
use tb_process_steps::Walker;

/// Delivers the ticks of a clock, at most `ticks` of them, and then the end of ticks. If a tick is dropped because the bus has shut down,
/// ends at once.
pub fn tick_worker<W: Walker, R: Wait, C: Clock>(
    rt: &R,
    post: &Post<W>,
    seat: &mut Seat,
    clock: &mut C,
    ticks: u64,
) -> WorkEnd
    requires own { seat.old.bus ≡ post.now.shared }
    requires right { has seat.old.rights ToTick ≡ true }
    ensures { TicksBus (λ count. count ≡ ticks) ticks seat.old seat.new (C.told clock.old)
        (C.told clock.new) (C.faults clock.old) (C.faults clock.new) result }
{
    for _done in 0..ticks {
        match tick_one(rt, post, seat, clock) {
            Some(end) => return end,
            None => {}
        }
    }
    no_more(rt, post, seat, WorkEnd::Over)
}

/// Delivers the next tick, or the end of ticks if the clock has ended or failed. Returns why the worker ends, if it ends.
fn tick_one<W: Walker, R: Wait, C: Clock>(
    rt: &R,
    post: &Post<W>,
    seat: &mut Seat,
    clock: &mut C,
) -> Option<WorkEnd>
    requires own { seat.old.bus ≡ post.now.shared }
    requires right { has seat.old.rights ToTick ≡ true }
    ensures { MatchOption result (Ticks seat.old seat.new (C.told clock.old) (C.told clock.new)
        (C.faults clock.old) (C.faults clock.new) 1) (TicksBus (λ count. ⊥) 1 seat.old seat.new
        (C.told clock.old) (C.told clock.new) (C.faults clock.old) (C.faults clock.new)) }
{
    match clock.wait() {
        Beat::Tick => hand(rt, post, seat, Input::Tick),
        Beat::End => Some(no_more(rt, post, seat, WorkEnd::Over)),
        Beat::Failed => Some(no_more(rt, post, seat, WorkEnd::Failed)),
    }
}

/// Delivers the end of ticks. Returns `end`, unless the call was rejected.
fn no_more<W: Walker, R: Wait>(rt: &R, post: &Post<W>, seat: &mut Seat, end: WorkEnd) -> WorkEnd
    requires own { seat.old.bus ≡ post.now.shared }
    requires right { has seat.old.rights ToTick ≡ true }
    ensures { EndsAll seat.old seat.new end result }
{
    match hand(rt, post, seat, Input::NoTicks) {
        None => end,
        Some(WorkEnd::Down) => end,
        Some(other) => other,
    }
}
