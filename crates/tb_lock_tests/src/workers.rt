//! Threads that use the seats of one bus.
ghost use Rattle.std.specs.Prelude.{◌≡◌, ◌+◌, [], length, IsTrue, true};

use std::sync::Wait;
use std::thread::{Threads, join};
use tb_core::Stepped;
use tb_lock::{Seat, Shared};
use tb_log::Input;
use tb_process_steps::{Rewriter, Walker};

/// A bus whose walkers are rewriters.
pub(crate) type Bus = Shared<Rewriter>;

/// The number of entries that each of two threads adds.
pub(crate) const ROUNDS: u64 = 100;

/// Makes `ROUNDS` steps, or fewer if one isn't made. Returns whether all were made.
fn make_steps<W: Walker, R: Wait>(rt: &R, bus: &Shared<W>, mut seat: Seat) -> (Seat, bool)
    requires own { seat.bus ≡ bus.now }
    requires right { seat.rights.steps ≡ true }
    ensures same { (result.0.bus ≡ seat.bus)
        × (result.0.rights ≡ seat.rights) × (result.0.room ≡ seat.room) }
    ensures mine { IsTrue result.1 → length result.0.mine ≡ length seat.mine + ROUNDS }
{
    for _ in 0..ROUNDS {
        match bus.step(rt, &mut seat) {
            Ok(Stepped::Did) => {}
            Ok(Stepped::Quiet) | Ok(Stepped::Down) | Err(_) => return (seat, false),
        }
    }
    (seat, true)
}

/// Delivers `ROUNDS` ticks, or fewer if one is rejected. Returns whether none was rejected.
fn hand_in_ticks<W: Walker, R: Wait>(rt: &R, bus: &Shared<W>, mut seat: Seat) -> (Seat, bool)
    requires own { seat.bus ≡ bus.now }
    requires right { seat.rights.ticks ≡ true }
    ensures same { (result.0.bus ≡ seat.bus)
        × (result.0.rights ≡ seat.rights) × (result.0.room ≡ seat.room) }
    ensures mine { IsTrue result.1 → length result.0.mine ≡ length seat.mine + ROUNDS }
{
    for _ in 0..ROUNDS {
        match bus.hand_in(rt, &mut seat, Input::Tick) {
            Ok(_) => {}
            Err(_) => return (seat, false),
        }
    }
    (seat, true)
}

/// Uses two new seats in two threads: one makes steps, and the other delivers ticks. The walkers can go to another thread. Returns for each
/// seat whether its thread has added all its entries, which are then the seat's own.
pub(crate) fn side_by_side<W: Walker + Send, R: Threads + Wait + Sync>(
    rt: &R,
    bus: &Shared<W>,
    steps: Seat,
    ticks: Seat,
) -> ((Seat, bool), (Seat, bool))
where
    W::Plan: Send,
    W::Taken: Send,
    requires own { (steps.bus ≡ bus.now) × (ticks.bus ≡ bus.now) }
    requires right { (steps.rights.steps ≡ true) × (ticks.rights.ticks ≡ true) }
    requires new { (steps.mine ≡ []) × (ticks.mine ≡ []) }
    ensures same { (result.0.0.bus ≡ bus.now) × (result.0.0.rights ≡ steps.rights)
        × (result.0.0.room ≡ steps.room) }
    ensures other { (result.1.0.bus ≡ bus.now) × (result.1.0.rights ≡ ticks.rights)
        × (result.1.0.room ≡ ticks.room) }
    ensures mine { (IsTrue result.0.1 → length result.0.0.mine ≡ ROUNDS)
        × (IsTrue result.1.1 → length result.1.0.mine ≡ ROUNDS) }
{
    join(
        rt,
        move || -> (Seat, bool)
            requires { (steps.bus ≡ bus.now) × (steps.rights.steps ≡ true) }
            ensures { (result.0.bus ≡ bus.entry.now)
                × (result.0.rights ≡ steps.rights) × (result.0.room ≡ steps.room)
                × (IsTrue result.1 → length result.0.mine ≡ length steps.mine + ROUNDS) }
        { make_steps(rt, bus, steps) },
        move || -> (Seat, bool)
            requires { (ticks.bus ≡ bus.now) × (ticks.rights.ticks ≡ true) }
            ensures { (result.0.bus ≡ bus.entry.now)
                × (result.0.rights ≡ ticks.rights) × (result.0.room ≡ ticks.room)
                × (IsTrue result.1 → length result.0.mine ≡ length ticks.mine + ROUNDS) }
        { hand_in_ticks(rt, bus, ticks) },
    )
}
