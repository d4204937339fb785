//! The reason why a run ends, by the reasons why its workers ended.
ghost use Rattle.std.specs.Prelude.{◌≡◌};
ghost use Rattle.std.specs.List.{list_any};
ghost use Rattle.tb_run.specs.Reasons.{reason_of, of_log, of_ends, of_clock, is_no_memory, is_full_end};

use crate::ends::{LogEnd, RunWhy, WorkEnd};

/// Returns the reason why a run ends, by the ends of the tick worker, of the other workers, and of the job that writes the log.
pub(crate) fn reason_of(tick: WorkEnd, ends: &[WorkEnd], writer: LogEnd) -> RunWhy
    ensures { result ≡ reason_of tick ends.now writer }
{
    let no_memory = is_no_memory(tick) || any_no_memory(ends);
    let full = is_full_end(tick) || any_full(ends);
    of_log(no_memory, full, tick, writer)
}

fn of_log(no_memory: bool, full: bool, tick: WorkEnd, writer: LogEnd) -> RunWhy
    ensures { result ≡ of_log no_memory full tick writer }
{
    match writer {
        LogEnd::Over => of_ends(no_memory, full, tick),
        LogEnd::Out => if no_memory {
            RunWhy::NoMemory
        } else {
            RunWhy::Out
        },
        LogEnd::NoMemory => RunWhy::NoMemory,
    }
}

fn of_ends(no_memory: bool, full: bool, tick: WorkEnd) -> RunWhy
    ensures { result ≡ of_ends no_memory full tick }
{
    if no_memory {
        RunWhy::NoMemory
    } else if full {
        RunWhy::Events
    } else {
        of_clock(tick)
    }
}

fn of_clock(tick: WorkEnd) -> RunWhy
    ensures { result ≡ of_clock tick }
{
    match tick {
        WorkEnd::Failed => RunWhy::Clock,
        _ => RunWhy::Ended,
    }
}

fn is_no_memory(end: WorkEnd) -> bool
    ensures { result ≡ is_no_memory end }
{
    matches!(end, WorkEnd::NoMemory)
}

fn is_full_end(end: WorkEnd) -> bool
    ensures { result ≡ is_full_end end }
{
    matches!(end, WorkEnd::Full)
}

/// Returns whether a worker ended because memory ran out.
pub fn any_no_memory(ends: &[WorkEnd]) -> bool
    ensures { result ≡ list_any is_no_memory ends.now }
{
    for end in ends {
        if is_no_memory(*end) {
            return true;
        }
    }
    false
}

/// Returns whether a worker ended because the log was full.
pub fn any_full(ends: &[WorkEnd]) -> bool
    ensures { result ≡ list_any is_full_end ends.now }
{
    for end in ends {
        if is_full_end(*end) {
            return true;
        }
    }
    false
}
