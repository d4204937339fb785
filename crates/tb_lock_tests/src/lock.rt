//! Tests of a shared bus, with threads.
ghost use Rattle.std.specs.Prelude.{◌≡◌, ◌≤◌, IfOk};
ghost use Rattle.tb_core.specs.Cores.{most_entries};
ghost use Rattle.tb_lock.specs.Seats.{first_seat};

use crate::cores::ui;
use crate::crowd::{join_all, split_off, work_beside};
use crate::workers::side_by_side;
use std::alloc::Global;
use std::test::Fail;
use tb_core::{Core, CoreFault, Stepped, TakeOut};
use tb_lock::{Rights, Seat, Shared};
use tb_log::{Input, Log, Out, Reply, Seen};
use tb_process_steps::{Rewriter, Walker};
use tb_script::load;
use tb_tools::LaneState;
use tb_walk::Walk;

/// A script that makes steps without end.
const TAUS: &str = "process P is tau * delta toolbus(P)";

/// Returns a bus that runs `TAUS`, and its first seat. The log has a capacity of `limit` entries, and lane 1 has a command to start.
fn shared<W: Walker>(alloc: Global, limit: u32) -> Result<(Shared<W>, Seat), Fail>
    requires { limit ≤ most_entries }
    ensures { IfOk result (λ made. made.1 ≡ first_seat made.0 made.1.origin) }
{
    let commands = ui(alloc)?;
    let core = Core::start(alloc, load(alloc, TAUS.as_bytes())?, &commands, limit)?;
    match Shared::make(alloc, core) {
        Ok(made) => Ok(made),
        Err(_) => Err("no memory")?,
    }
}

/// Returns whether a core is stopped, the number of entries in its log, and the number of steps among these entries.
fn counted<W: Walker>(core: Core<W>) -> (bool, usize, usize) {
    (core.is_stopped(), core.log().len(), steps_in(core.log()))
}

/// Returns the number of entries of a log that record a step.
fn steps_in(log: &Log) -> usize {
    let mut count = 0_usize;
    for at in 0..log.len() {
        if matches!(log.at(at), Seen::Did(_)) {
            count = count.saturating_add(1);
        }
    }
    count
}

#[test]
fn two_threads_make_one_history(rt: HostRuntime) -> Result<(), Fail> {
    let (bus, mut seat) = shared::<Walk>(rt.alloc(), 1_000)?;
    let other = bus.split(&mut seat, Rights::ticker());
    let ((mut seat, made), (other, handed)) = side_by_side(&rt, &bus, seat, other);
    bus.join(&mut seat, other);
    let found = counted(bus.close(&rt, seat));
    assert_eq!(rt; (made, handed, found), (true, true, (false, 200, 100)));
    Ok(())
}

#[test]
fn thirty_four_seats_of_which_some_stop(rt: HostRuntime) -> Result<(), Fail> {
    let (bus, mut seat) = shared::<Rewriter>(rt.alloc(), 4_000_000)?;
    let others = split_off(rt.alloc(), &bus, &mut seat, 33)?;
    let ((seat, made), others) = work_beside(&rt, &bus, seat, others);
    let seat = join_all(&bus, seat, others);
    let (stopped, entries, _steps) = counted(bus.close(&rt, seat));
    assert_eq!(rt; (stopped, entries as u64), (true, made));
    Ok(())
}

#[test]
fn a_full_and_a_stopped_bus_refuse(rt: HostRuntime) -> Result<(), Fail> {
    let (bus, mut seat) = shared::<Rewriter>(rt.alloc(), 2)?;
    let step = bus.step(&rt, &mut seat);
    let tick = bus.hand_in(&rt, &mut seat, Input::Tick);
    let full = bus.step(&rt, &mut seat);
    bus.stop(&rt, &mut seat);
    let stopped = bus.hand_in(&rt, &mut seat, Input::Tick);
    let (_stopped, entries, _steps) = counted(bus.close(&rt, seat));
    let wanted = (
        Ok(Stepped::Did),
        Ok(Reply::Took),
        Err(CoreFault::Full),
        Err(CoreFault::Stopped),
        2,
    );
    assert_eq!(rt; (step, tick, full, stopped, entries), wanted);
    Ok(())
}

/// Returns whether the item that was taken is a command.
fn is_command(taken: Result<TakeOut, CoreFault>) -> bool {
    matches!(&taken, Ok(TakeOut::Out(Out::Start(_))))
}

#[test]
fn what_is_to_be_handed_out_is_taken_once(rt: HostRuntime) -> Result<(), Fail> {
    let (bus, mut seat) = shared::<Rewriter>(rt.alloc(), 10)?;
    let state = bus.lane_state(&rt, &mut seat, 1);
    let first = is_command(bus.take_out(&rt, &mut seat, 1));
    let second = is_command(bus.take_out(&rt, &mut seat, 1));
    let (_stopped, entries, _steps) = counted(bus.close(&rt, seat));
    let found = (state, first, second, entries);
    assert_eq!(rt; found, (LaneState::Unnamed, true, false, 1));
    Ok(())
}

#[test]
fn a_lane_calls_while_something_is_there_or_the_bus_is_stopped(
    rt: HostRuntime,
) -> Result<(), Fail> {
    let (bus, mut seat) = shared::<Rewriter>(rt.alloc(), 10)?;
    let begun = (bus.calls_for(1), bus.calls_for(2));
    let taken = is_command(bus.take_out(&rt, &mut seat, 1));
    let empty = (bus.calls_for(1), bus.calls_for(2));
    bus.stop(&rt, &mut seat);
    let stopped = (bus.calls_for(1), bus.calls_for(16));
    bus.close(&rt, seat);
    let wanted = ((true, false), true, (false, false), (true, true));
    assert_eq!(rt; (begun, taken, empty, stopped), wanted);
    Ok(())
}
