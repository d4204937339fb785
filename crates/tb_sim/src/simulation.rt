//! How a core with a feed is simulated, turn by turn.
ghost use Rattle.std.specs.Prelude.{◌≡◌, ◌&&◌, ◌==◌, ◌≤◌, [], drop, IfOk, IsSome, OnOk, OnErr, IsErrOf, false, None};
ghost use Rattle.tb_bus.specs.Buses.{start};
ghost use Rattle.tb_bus.specs.Steps.{steps as steps_of};
ghost use Rattle.tb_log.specs.Shapes.{IsInputInShape, IsLane};
ghost use Rattle.tb_tools.specs.Finding.{first_out, next_out};
ghost use Rattle.tb_core.specs.Cores.{bus_now, has_any, ends_quiet, Stays};
ghost use Rattle.tb_sim.specs.Simulation.{IsSim, IsSimPrefix, limits_of, sim_start};
ghost use Rattle.tb_sim.specs.Helpers.Turns.{HandsIn, HandsInNext, HandsOut, Goes, IsWithin, LeftWithin};

use crate::ends::{Progress, SimEnd, Turned};
use tb_core::{Core, CoreFault, Stepped, TakeOut};
use tb_feed::Feed;
use tb_log::Input;
use tb_process_steps::Walker;
use tb_terms::NoMemory;

/// Returns whether the limit of steps is reached and another step is possible.
fn is_at_limit<W: Walker>(core: &mut Core<W>, made: u64, steps: u64) -> Result<bool, NoMemory>
    ensures value { IfOk result
        (λ limit. limit ≡ (made == steps && has_any (steps_of (bus_now core.old)))) }
    ensures unchanged { core.new ≡ core.old }
{
    if made != steps {
        return Ok(false);
    }
    core.has_step()
}

/// Makes one or two turns: sends the next item of a lane, or takes a step, or logs `quiet` and delivers the next input. Or it reaches
/// the end, perhaps after `quiet`. Each of these turns logs an entry.
fn go<W: Walker>(
    core: &mut Core<W>,
    feed: &Feed,
    steps: u64,
    so_far: Progress,
) -> Result<Turned, NoMemory>
    requires within { IsWithin steps feed.now so_far }
    requires running { core.old.stopped ≡ false }
    requires said { ends_quiet core.old.log ≡ false }
    ensures ok { IfOk result (Goes steps feed.now core.old so_far core.new) }
    ensures err { OnErr result (LeftWithin steps feed.now core.old so_far core.new) }
{
    match core.first_out() {
        Some(lane) => hand_out(core, lane, so_far),
        None => go_up(core, feed, steps, so_far),
    }
}

/// Sends the next item of a lane, or reaches the end `Events`.
fn hand_out<W: Walker>(core: &mut Core<W>, lane: u8, so_far: Progress) -> Result<Turned, NoMemory>
    requires lane { IsLane lane }
    requires some { IsSome (next_out lane (bus_now core.old).bench) }
    requires running { core.old.stopped ≡ false }
    ensures ok { IfOk result (HandsOut lane so_far core.old core.new) }
    ensures err { OnErr result (Stays core.old core.new) }
{
    match core.take_out(lane) {
        Ok(TakeOut::Out(_)) => Ok(Turned::On(so_far)),
        Ok(TakeOut::Nothing | TakeOut::Closed) => unreachable!(),
        Err(CoreFault::Full) => Ok(Turned::End(SimEnd::Events)),
        Err(CoreFault::NoMemory | CoreFault::Stopped) => Err(NoMemory),
    }
}

/// Does the same if no lane has a queued item: takes a step, or logs `quiet` and delivers the next input, or reaches the end.
fn go_up<W: Walker>(
    core: &mut Core<W>,
    feed: &Feed,
    steps: u64,
    so_far: Progress,
) -> Result<Turned, NoMemory>
    requires idle { first_out (bus_now core.old).bench ≡ None }
    requires within { IsWithin steps feed.now so_far }
    requires running { core.old.stopped ≡ false }
    requires said { ends_quiet core.old.log ≡ false }
    ensures ok { IfOk result (Goes steps feed.now core.old so_far core.new) }
    ensures err { OnErr result (LeftWithin steps feed.now core.old so_far core.new) }
{
    if is_at_limit(core, so_far.steps, steps)? {
        return Ok(Turned::End(SimEnd::Steps));
    }
    match core.step() {
        Ok(Stepped::Did) => Ok(Turned::On(Progress {
            steps: so_far.steps + 1,
            inputs: so_far.inputs,
        })),
        Ok(Stepped::Down) => Ok(Turned::End(SimEnd::Down)),
        Ok(Stepped::Quiet) => hand_in_next(core, feed, so_far),
        Err(CoreFault::Full) => Ok(Turned::End(SimEnd::Events)),
        Err(CoreFault::NoMemory | CoreFault::Stopped) => Err(NoMemory),
    }
}

/// Delivers the next input of the feed. If none is left, it delivers the end of ticks.
fn hand_in_next<W: Walker>(
    core: &mut Core<W>,
    feed: &Feed,
    so_far: Progress,
) -> Result<Turned, NoMemory>
    requires { core.old.stopped ≡ false }
    ensures ok { IfOk result (HandsInNext (drop so_far.inputs feed.now) so_far core.old core.new) }
    ensures err { OnErr result (Stays core.old core.new) }
{
    if so_far.inputs >= feed.len() {
        return hand_in(core, Input::NoTicks, so_far);
    }
    let input = feed.input(so_far.inputs)?;
    let next = Progress {
        steps: so_far.steps,
        inputs: so_far.inputs + 1,
    };
    hand_in(core, input, next)
}

/// Delivers an input, after which the progress is `next`, or reaches the end `Events`.
fn hand_in<W: Walker>(core: &mut Core<W>, input: Input, next: Progress) -> Result<Turned, NoMemory>
    requires running { core.old.stopped ≡ false }
    requires in_form { IsInputInShape input }
    ensures ok { IfOk result (HandsIn input next core.old core.new) }
    ensures err { OnErr result (Stays core.old core.new) }
{
    match core.hand_in(input) {
        Ok(_) => Ok(Turned::On(next)),
        Err(CoreFault::Full) => Ok(Turned::End(SimEnd::Events)),
        Err(CoreFault::NoMemory | CoreFault::Stopped) => Err(NoMemory),
    }
}

/// Runs a core to its end. It always takes the first possible step, and takes at most `steps` of them. Before each step, it sends the
/// items that are queued on the lanes, the lowest lane first. If no step is possible, it logs `quiet`, and then delivers the next input
/// of the feed. After the feed's last input, it delivers the end of ticks. The end is `Events` if the log has no capacity for the next
/// entry. After an `Err`, the log is a prefix of the simulation's log.
pub fn simulate<W: Walker>(core: &mut Core<W>, feed: &Feed, steps: u64) -> Result<SimEnd, NoMemory>
    requires fresh { core.old.log ≡ [] }
    requires running { core.old.stopped ≡ false }
    ensures origin { core.new.origin ≡ core.old.origin }
    ensures still_running { core.new.stopped ≡ false }
    ensures ok { IfOk result (IsSim (limits_of steps core.old.origin)
        (sim_start (start core.old.origin) feed.now) core.new.log) }
    ensures err { OnErr result (IsSimPrefix (limits_of steps core.old.origin)
        (sim_start (start core.old.origin) feed.now) core.new.log) }
{
    let mut so_far = Progress {
        steps: 0,
        inputs: 0,
    };
    loop {
        match go(core, feed, steps, so_far) {
            Ok(Turned::On(next)) => so_far = next,
            Ok(Turned::End(end)) => return Ok(end),
            Err(fault) => return Err(fault),
        }
    }
}
