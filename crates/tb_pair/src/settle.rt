//! A worker delivers an input, and goes on also after its bus has shut down.
ghost use Rattle.std.specs.Prelude.{◌≡◌, true};
ghost use Rattle.tb_log.specs.Shapes.{IsInputInShape};
ghost use Rattle.tb_core.specs.Cores.{HandIn};
ghost use Rattle.tb_lock.specs.Rights.{In, has, right_to};
ghost use Rattle.tb_pair.specs.Piping.{connect};
ghost use Rattle.tb_pair.specs.Helpers.Settling.{Settles, settled};

use crate::lines::connect_input;
use std::sync::Wait;
use tb_lock::Seat;
use tb_log::Input;
use tb_process_steps::Walker;
use tb_run::{Post, WorkEnd, hand, stop};

/// Delivers an input. Returns whether the bus hasn't shut down, or why the worker ends.
pub(crate) fn hand_over<W: Walker, R: Wait>(
    rt: &R,
    post: &Post<W>,
    seat: &mut Seat,
    input: Input,
) -> Result<bool, WorkEnd>
    requires own { seat.old.bus ≡ post.now.shared }
    requires form { IsInputInShape input }
    requires right { has seat.old.rights (right_to (HandIn input)) ≡ true }
    ensures { Settles input seat.old seat.new result }
{
    settle(hand(rt, post, seat, input))
}

fn settle(answer: Option<WorkEnd>) -> Result<bool, WorkEnd>
    ensures { result ≡ settled answer }
{
    match answer {
        None => Ok(true),
        Some(WorkEnd::Down) => Ok(false),
        Some(end) => Err(end),
    }
}

/// Delivers the connect request of the tool of lane 1.
pub(crate) fn name_itself<W: Walker, R: Wait>(
    rt: &R,
    post: &Post<W>,
    seat: &mut Seat,
) -> Result<bool, WorkEnd>
    requires own { seat.old.bus ≡ post.now.shared }
    requires reads { has seat.old.rights (In 1) ≡ true }
    ensures { Settles connect seat.old seat.new result }
{
    match connect_input(post.alloc) {
        Ok(input) => hand_over(rt, post, seat, input),
        Err(_) => {
            stop(rt, post, seat);
            Err(WorkEnd::NoMemory)
        }
    }
}
