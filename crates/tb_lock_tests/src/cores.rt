//! A test of a core that is used after it has rejected calls.
ghost use Rattle.std.specs.Prelude.{◌≡◌, length, IfOk};

use std::alloc::Global;
use std::test::Fail;
use tb_core::{Core, CoreFault, Stepped, TakeOut};
use tb_log::{Entry, Input, Reply};
use tb_script::load;
use tb_terms::{Items, Text, Texts};
use tb_tools::LaneState;
use tb_walk::Walk;

/// A script that makes steps without end.
const TAUS: &str = "process P is tau * delta toolbus(P)";

/// Returns the commands of the lanes: one command, for lane 1.
pub(crate) fn ui(alloc: Global) -> Result<Texts, Fail>
    ensures { IfOk result (λ commands. length commands ≡ 1) }
{
    let mut commands = Items::new(alloc);
    commands.push(Text::from_str(alloc, "ui")?.ok_or("no text")?)?;
    Ok(commands)
}

/// Returns a core that runs `TAUS`. Its log has a capacity of two entries.
fn core_of_two(alloc: Global) -> Result<Core<Walk>, Fail> {
    let commands = ui(alloc)?;
    Ok(Core::start(alloc, load(alloc, TAUS.as_bytes())?, &commands, 2)?)
}

fn fault_word(fault: CoreFault) -> &'static str {
    match fault {
        CoreFault::Full => "full",
        CoreFault::Stopped => "stopped",
        CoreFault::NoMemory => "no memory",
    }
}

fn follow_word(answer: Result<bool, CoreFault>) -> &'static str {
    match answer {
        Ok(true) => "yes",
        Ok(false) => "no",
        Err(fault) => fault_word(fault),
    }
}

fn take_word(answer: Result<TakeOut, CoreFault>) -> &'static str {
    match answer {
        Ok(TakeOut::Out(_)) => "out",
        Ok(TakeOut::Nothing) => "nothing",
        Ok(TakeOut::Closed) => "closed",
        Err(fault) => fault_word(fault),
    }
}

/// Returns whether each call answers as the rules say. The log has a capacity of two entries, which the first step and the first `take_out`
/// add.
fn answer_in_turn(core: &mut Core<Walk>) -> [bool; 22] {
    [
        core.reserve(9) == Ok(()),
        core.spare() >= 9,
        core.has_step() == Ok(true),
        core.first_out() == Some(1),
        core.step() == Ok(Stepped::Did),
        take_word(core.take_out(1)) == "out",
        core.step() == Err(CoreFault::Full),
        core.hand_in(Input::Tick) == Err(CoreFault::Full),
        core.step() == Err(CoreFault::Full),
        follow_word(core.follow(&Entry::Fed(Input::Tick, Reply::Took))) == "full",
        // The next calls need no capacity in the log.
        follow_word(core.follow(&Entry::Quiet)) == "no",
        take_word(core.take_out(1)) == "nothing",
        core.has_step() == Ok(true),
        core.lane_state(1) == LaneState::Unnamed,
        !core.is_down(),
        !core.is_stopped(),
        stopped(core),
        core.step() == Err(CoreFault::Stopped),
        core.hand_in(Input::Tick) == Err(CoreFault::Stopped),
        take_word(core.take_out(1)) == "stopped",
        follow_word(core.follow(&Entry::Quiet)) == "stopped",
        core.log().len() == 2,
    ]
}

/// Stops a core. Returns whether it is then stopped.
fn stopped(core: &mut Core<Walk>) -> bool {
    core.stop();
    core.is_stopped()
}

#[test]
fn a_core_is_used_after_it_has_refused_calls(rt: HostRuntime) -> Result<(), Fail> {
    let mut core = core_of_two(rt.alloc())?;
    assert_eq!(rt; answer_in_turn(&mut core), [true; 22]);
    Ok(())
}
