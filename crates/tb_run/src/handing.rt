//! Delivers an input and wakes the threads that can have work after it; stops the bus after a rejected call.
ghost use Rattle.std.specs.Prelude.{◌≡◌, true};
ghost use Rattle.tb_log.specs.Shapes.{IsInputInShape};
ghost use Rattle.tb_core.specs.Cores.{HandIn};
ghost use Rattle.tb_lock.specs.Rights.{has, right_to};
ghost use Rattle.tb_run.specs.Seats.{Hands, Ends, Stops};
ghost use Rattle.tb_run.specs.Helpers.Working.{end_of};

use crate::ends::WorkEnd;
use crate::post::{Post, lane_of};
use std::sync::Wait;
use tb_core::CoreFault;
use tb_lock::{Seat, calls_add_their_own};
use tb_log::{Input, Reply, Why};
use tb_process_steps::Walker;

/// Delivers an input, and wakes the threads that can have work after it. Returns the reason if the worker ends: the bus has shut down, or
/// the call was rejected. After a rejected call, the worker has stopped the bus, unless the bus was stopped before.
pub fn hand<W: Walker, R: Wait>(
    rt: &R,
    post: &Post<W>,
    seat: &mut Seat,
    input: Input,
) -> Option<WorkEnd>
    requires own { seat.old.bus ≡ post.now.shared }
    requires form { IsInputInShape input }
    requires right { has seat.old.rights (right_to (HandIn input)) ≡ true }
    ensures { Hands input seat.old seat.new result }
{
    let lane = lane_of(&input);
    let end = deliver(rt, post, seat, input);
    post.tell_input(lane);
    end
}

/// Delivers an input as `hand` does, but wakes no thread unless the call was rejected.
pub(crate) fn deliver<W: Walker, R: Wait>(
    rt: &R,
    post: &Post<W>,
    seat: &mut Seat,
    input: Input,
) -> Option<WorkEnd>
    requires own { seat.old.bus ≡ post.now.shared }
    requires form { IsInputInShape input }
    requires right { has seat.old.rights (right_to (HandIn input)) ≡ true }
    ensures { Hands input seat.old seat.new result }
{
    calls_add_their_own();
    match post.shared.hand_in(rt, seat, input) {
        Ok(reply) => end_of(reply),
        Err(fault) => Some(refused(rt, post, seat, fault)),
    }
}

/// Returns `Down` if the input was dropped because the bus had shut down.
fn end_of(reply: Reply) -> Option<WorkEnd>
    ensures { result ≡ end_of reply }
{
    match reply {
        Reply::Dropped(Why::Down) => Some(WorkEnd::Down),
        _ => None,
    }
}

/// Returns the end of a worker after a rejected call. The worker stops the bus, unless the bus was stopped before.
pub fn refused<W: Walker, R: Wait>(
    rt: &R,
    post: &Post<W>,
    seat: &mut Seat,
    fault: CoreFault,
) -> WorkEnd
    requires own { seat.old.bus ≡ post.now.shared }
    ensures { Ends fault seat.old seat.new result }
{
    match fault {
        CoreFault::Stopped => WorkEnd::Stopped,
        CoreFault::Full => {
            stop(rt, post, seat);
            WorkEnd::Full
        }
        CoreFault::NoMemory => {
            stop(rt, post, seat);
            WorkEnd::NoMemory
        }
    }
}

/// Stops the bus, and wakes all threads that sleep on its bells.
pub fn stop<W: Walker, R: Wait>(rt: &R, post: &Post<W>, seat: &mut Seat)
    requires own { seat.old.bus ≡ post.now.shared }
    ensures { Stops seat.old seat.new }
{
    calls_add_their_own();
    post.shared.stop(rt, seat);
    post.bells.ring_all();
}
