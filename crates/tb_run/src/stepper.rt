//! The worker that makes the steps of a bus.
ghost use Rattle.std.specs.Prelude.{◌≡◌, true, MatchOption};
ghost use Rattle.tb_core.specs.Cores.{MakeStep, IsStep};
ghost use Rattle.tb_lock.specs.Rights.{Steps as ToStep, has};
ghost use Rattle.tb_lock.specs.Seats.{SeatView};
ghost use Rattle.tb_lock.specs.Calls.{Called};
ghost use Rattle.tb_run.specs.Workers.{StepsBus};
ghost use Rattle.tb_run.specs.Helpers.Working.{Steps};

use crate::ends::WorkEnd;
use crate::handing::refused;
use crate::post::Post;
use std::sync::Wait;
use tb_bells::Sleeper;
use tb_core::{CoreFault, Stepped};
use tb_lock::{Seat, calls_add_their_own};
use tb_process_steps::Walker;

/// The largest number of turns in one visit of the gate. After these, other threads are woken, or their work is done.
const BURST: u32 = 8;

/// Makes steps until the bus has shut down. If no step is possible, waits until another thread wakes it.
pub fn step_worker<W: Walker, R: Wait>(rt: &R, post: &Post<W>, seat: &mut Seat) -> WorkEnd
    requires own { seat.old.bus ≡ post.now.shared }
    requires right { has seat.old.rights ToStep ≡ true }
    ensures { StepsBus seat.old seat.new result }
{
    let mut heard = 0;
    for _ in rt.forever() {
        let mut rests = false;
        match step_some(rt, post, seat, &mut rests) {
            Some(end) => return end,
            None => {}
        }
        post.tell_steps();
        if rests {
            heard = post.bells.wait_past(rt, Sleeper::Stepper, heard);
        }
    }
    unreachable!()
}

/// Makes some steps. Returns why the worker ends, if it ends. `rests` is set if no further step is possible.
pub(crate) fn step_some<W: Walker, R: Wait>(
    rt: &R,
    post: &Post<W>,
    seat: &mut Seat,
    rests: &mut bool,
) -> Option<WorkEnd>
    requires own { seat.old.bus ≡ post.now.shared }
    requires right { has seat.old.rights ToStep ≡ true }
    ensures { MatchOption result (Steps seat.old seat.new) (StepsBus seat.old seat.new) }
{
    calls_add_their_own();
    match make_steps(rt, post, seat) {
        Ok(Stepped::Did) => None,
        Ok(Stepped::Quiet) => {
            *rests = true;
            None
        }
        Ok(Stepped::Down) => {
            post.bells.ring_all();
            Some(WorkEnd::Down)
        }
        Err(fault) => Some(refused(rt, post, seat, fault)),
    }
}

/// Makes steps, each in its own turn, until an answer isn't `Did` or `BURST` turns are taken. Enters the gate of the bus once, and
/// returns the last answer.
fn make_steps<W: Walker, R: Wait>(
    rt: &R,
    post: &Post<W>,
    seat: &mut Seat,
) -> Result<Stepped, CoreFault>
    requires own { seat.old.bus ≡ post.now.shared }
    requires right { has seat.old.rights ToStep ≡ true }
    ensures { (mid : SeatView) × Steps seat.old mid × Called IsStep MakeStep mid seat.new result }
{
    calls_add_their_own();
    let visit = post.shared.enter(rt);
    for _ in 1..BURST {
        match visit.step(rt, seat) {
            Ok(Stepped::Did) => {}
            Ok(Stepped::Quiet) => return Ok(Stepped::Quiet),
            Ok(Stepped::Down) => return Ok(Stepped::Down),
            Err(fault) => return Err(fault),
        }
    }
    let last = visit.step(rt, seat);
    last
}
