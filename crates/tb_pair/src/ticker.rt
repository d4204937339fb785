//! The worker that delivers the ticks of one clock to two buses.
ghost use Rattle.std.specs.Prelude.{◌≡◌, ◌+◌, ◌&&◌, ℕ, None, is_some, MatchOption};
ghost use Rattle.tb_lock.specs.Seats.{SeatView};
ghost use Rattle.tb_run.specs.Helpers.Ticking.{EndsAll};
ghost use Rattle.tb_pair.specs.Ticking.{CanTick, TicksPair};
ghost use Rattle.tb_pair.specs.Helpers.Ticking.{Ticked, TickedMore, TickedAll, TicksOne, NoTick, SaysSo};

use std::sync::Wait;
use tb_edge::{Beat, Clock};
use tb_lock::Seat;
use tb_log::Input;
use tb_process_steps::Walker;
use tb_run::{Post, WorkEnd, hand};

/// One of two buses that receive the ticks of one clock.
#[derive(Drop)]
pub struct TickedBus<'a, W: Walker> {
    /// The bus.
    pub post: &'a Post<W>,
    /// Has the right to deliver ticks.
    pub seat: Seat,
    /// Why the bus receives no more of them, if this is so.
    pub end: Option<WorkEnd>,
}

/// Delivers each tick of a clock to two buses, first to the one and then to the other, at most `ticks` of them. Then it reports to
/// each that no more come. A bus that has shut down or has rejected a tick receives no more. Returns why each has ended.
pub fn pair_ticker<'a, W: Walker, R: Wait, C: Clock>(
    rt: &R,
    one: &mut TickedBus<'a, W>,
    other: &mut TickedBus<'a, W>,
    clock: &mut C,
    ticks: u64,
) -> (WorkEnd, WorkEnd)
    requires one { CanTick one.old.post.now.shared one.old.seat × (one.old.end ≡ None) }
    requires other { CanTick other.old.post.now.shared other.old.seat × (other.old.end ≡ None) }
    ensures { TicksPair ticks one.old.seat one.new.seat other.old.seat other.new.seat
        (C.told clock.old) (C.told clock.new) (C.faults clock.old) (C.faults clock.new)
        result.0 result.1 }
{
    let wanted = tick_all(rt, one, other, clock, ticks);
    let one_end = no_more(rt, one, wanted);
    let other_end = no_more(rt, other, wanted);
    (one_end, other_end)
}

/// Delivers the ticks, and returns why no more come.
fn tick_all<'a, W: Walker, R: Wait, C: Clock>(
    rt: &R,
    one: &mut TickedBus<'a, W>,
    other: &mut TickedBus<'a, W>,
    clock: &mut C,
    ticks: u64,
) -> WorkEnd
    requires one { CanTick one.old.post.now.shared one.old.seat × (one.old.end ≡ None) }
    requires other { CanTick other.old.post.now.shared other.old.seat × (other.old.end ≡ None) }
    ensures ticked { TickedAll ticks one.old.seat one.new.seat one.new.end
        other.old.seat other.new.seat other.new.end
        (C.told clock.old) (C.told clock.new) (C.faults clock.old) (C.faults clock.new) result }
    ensures one { CanTick one.new.post.now.shared one.new.seat }
    ensures other { CanTick other.new.post.now.shared other.new.seat }
{
    for _done in 0..ticks {
        match tick_one(rt, one, other, clock) {
            Some(wanted) => return wanted,
            None => {}
        }
    }
    WorkEnd::Over
}

/// Delivers the next tick, or returns why no more come.
fn tick_one<'a, W: Walker, R: Wait, C: Clock>(
    rt: &R,
    one: &mut TickedBus<'a, W>,
    other: &mut TickedBus<'a, W>,
    clock: &mut C,
) -> Option<WorkEnd>
    requires one { CanTick one.old.post.now.shared one.old.seat }
    requires other { CanTick other.old.post.now.shared other.old.seat }
    ensures ticked { MatchOption result
        (TicksOne one.old.seat one.new.seat one.old.end one.new.end
        other.old.seat other.new.seat other.old.end other.new.end
        (C.told clock.old) (C.told clock.new) (C.faults clock.old) (C.faults clock.new))
        (λ wanted. (one.new.seat ≡ one.old.seat) × (other.new.seat ≡ other.old.seat)
        × (one.new.end ≡ one.old.end) × (other.new.end ≡ other.old.end)
        × NoTick one.old.end other.old.end (C.told clock.old) (C.told clock.new)
        (C.faults clock.old) (C.faults clock.new) wanted) }
    ensures one { CanTick one.new.post.now.shared one.new.seat }
    ensures other { CanTick other.new.post.now.shared other.new.seat }
{
    if neither(one.end, other.end) {
        return Some(WorkEnd::Down);
    }
    match clock.wait() {
        Beat::Tick => {
            tick(rt, one);
            tick(rt, other);
            None
        }
        Beat::End => Some(WorkEnd::Over),
        Beat::Failed => Some(WorkEnd::Failed),
    }
}

/// Returns whether neither bus receives ticks any more, by why each receives none.
fn neither(one: Option<WorkEnd>, other: Option<WorkEnd>) -> bool
    ensures { result ≡ (is_some one && is_some other) }
{
    one.is_some() && other.is_some()
}

/// Delivers a tick to a bus that still receives them.
fn tick<'a, W: Walker, R: Wait>(rt: &R, bus: &mut TickedBus<'a, W>)
    requires { CanTick bus.old.post.now.shared bus.old.seat }
    ensures ticked { (begun : SeatView) (given : ℕ) → Ticked begun bus.old.seat given bus.old.end
        → TickedMore begun bus.new.seat (given + 1) bus.old.end bus.new.end }
    ensures can { CanTick bus.new.post.now.shared bus.new.seat }
{
    match bus.end {
        Some(_) => {}
        None => bus.end = hand(rt, bus.post, &mut bus.seat, Input::Tick),
    }
}

/// Reports that no more ticks come, to a bus that still receives them.
fn no_more<'a, W: Walker, R: Wait>(rt: &R, bus: &mut TickedBus<'a, W>, wanted: WorkEnd) -> WorkEnd
    requires { CanTick bus.old.post.now.shared bus.old.seat }
    ensures { SaysSo bus.old.end bus.old.seat bus.new.seat wanted result }
{
    match bus.end {
        Some(it) => it,
        None => say_so(rt, bus, wanted),
    }
}

fn say_so<'a, W: Walker, R: Wait>(rt: &R, bus: &mut TickedBus<'a, W>, end: WorkEnd) -> WorkEnd
    requires { CanTick bus.old.post.now.shared bus.old.seat }
    ensures { EndsAll bus.old.seat bus.new.seat end result }
{
    match hand(rt, bus.post, &mut bus.seat, Input::NoTicks) {
        None => end,
        Some(WorkEnd::Down) => end,
        Some(other) => other,
    }
}
