//! Why a bus of a pair ends, and why the pair does.
ghost use Rattle.std.specs.Prelude.{◌≡◌};
ghost use Rattle.tb_run.specs.Reasons as reasons;
ghost use Rattle.tb_pair_run.specs.Outcomes.{of_both};
ghost use Rattle.tb_pair_run.specs.Helpers.Reasons.{bus_why, by_both, of_refusals, of_ticks};
ghost use Rattle.tb_pair_run.specs.Helpers.Reasons.{pair_why, no_crew};

use crate::ends::{BusWhy, PairWhy};
use tb_run::{RunWhy, WorkEnd, any_full, any_no_memory};

/// Returns why a bus ends, from why the worker of the pipe, the ticker and all others ended there.
pub(crate) fn bus_why(pipe: WorkEnd, tick: WorkEnd, ends: &[WorkEnd]) -> BusWhy
    ensures { result ≡ bus_why pipe tick ends.now }
{
    let no_memory = is_no_memory(pipe) || (is_no_memory(tick) || any_no_memory(ends));
    let full = is_full_end(pipe) || (is_full_end(tick) || any_full(ends));
    of_refusals(no_memory, full)
}

fn of_refusals(no_memory: bool, full: bool) -> BusWhy
    ensures { result ≡ of_refusals no_memory full }
{
    if no_memory {
        BusWhy::NoMemory
    } else if full {
        BusWhy::Events
    } else {
        BusWhy::Ended
    }
}

fn is_no_memory(end: WorkEnd) -> bool
    ensures { result ≡ reasons.is_no_memory end }
{
    matches!(end, WorkEnd::NoMemory)
}

fn is_full_end(end: WorkEnd) -> bool
    ensures { result ≡ reasons.is_full_end end }
{
    matches!(end, WorkEnd::Full)
}

/// Returns why a pair ends, from why its buses ended and why the ticker ended at each.
pub(crate) fn pair_why(one: BusWhy, other: BusWhy, tick: WorkEnd, others_tick: WorkEnd) -> PairWhy
    ensures { result ≡ pair_why one other tick others_tick }
{
    match of_both(one, other) {
        BusWhy::NoMemory => PairWhy::NoMemory,
        BusWhy::Events => PairWhy::Events,
        BusWhy::Ended => of_ticks(tick, others_tick),
    }
}

/// Returns the first of two reasons.
fn of_both(one: BusWhy, other: BusWhy) -> BusWhy
    ensures { result ≡ of_both one other }
{
    match one {
        BusWhy::NoMemory => BusWhy::NoMemory,
        BusWhy::Events => match other {
            BusWhy::NoMemory => BusWhy::NoMemory,
            BusWhy::Events | BusWhy::Ended => BusWhy::Events,
        },
        BusWhy::Ended => other,
    }
}

fn of_ticks(tick: WorkEnd, others_tick: WorkEnd) -> PairWhy
    ensures { result ≡ of_ticks tick others_tick }
{
    match tick {
        WorkEnd::Failed => PairWhy::Clock,
        WorkEnd::Over | WorkEnd::Down => of_tick(others_tick),
        WorkEnd::Stopped | WorkEnd::Full | WorkEnd::NoMemory => PairWhy::Ended,
    }
}

fn of_tick(tick: WorkEnd) -> PairWhy
    ensures { result ≡ of_ticks WorkEnd.Over tick }
{
    match tick {
        WorkEnd::Failed => PairWhy::Clock,
        _ => PairWhy::Ended,
    }
}

/// Returns why there was no crew.
pub(crate) fn no_crew(why: RunWhy) -> PairWhy
    ensures { result ≡ no_crew why }
{
    match why {
        RunWhy::Crew => PairWhy::Crew,
        _ => PairWhy::NoMemory,
    }
}
