//! The differences between the result of a call and the expectations of its case.

use crate::case::Case;
use crate::lanes::taken_text;
use crate::live::{Wanted, What};
use crate::logged::{first_missing, inputs_of, times_of};
use crate::playing::{Played, play};
use crate::rewriting::{asked, rewritten};
use crate::verifying::verifying;
use std::alloc::Global;
use std::sync::Wait;
use std::thread::Threads;
use tb_fake::Records;
use tb_terms::NoMemory;

/// Makes the call of a case, and returns the first difference from its expectations.
pub(crate) fn difference<R: Threads + Wait + Sync>(
    rt: &R,
    alloc: Global,
    case: &Case,
) -> Result<Option<String>, NoMemory> {
    match play(rt, alloc, case)? {
        Some(played) => difference_or_verified(rt, alloc, case, &played),
        None => Ok(Some(String::from_str(alloc, "there are not sixteen lanes")?)),
    }
}

/// Returns the first difference of a call. If there is none, `verify` must report that the log of the call is a trace.
fn difference_or_verified<R: Threads + Wait + Sync>(
    rt: &R,
    alloc: Global,
    case: &Case,
    played: &Played,
) -> Result<Option<String>, NoMemory> {
    if let Some(what) = difference_of(alloc, case, played)? {
        return Ok(Some(what));
    }
    if case.is_once || !has_log(played) {
        return Ok(None);
    }
    match verifying(alloc, case, played.out.as_slice())? {
        Some(verified) => difference_verified(rt, alloc, &verified),
        None => Ok(None),
    }
}

/// Returns how the result of `verify` for the log of a case differs from the result for a trace.
fn difference_verified<R: Threads + Wait + Sync>(
    rt: &R,
    alloc: Global,
    verified: &Case,
) -> Result<Option<String>, NoMemory> {
    let Some(played) = play(rt, alloc, verified)? else {
        return Ok(None);
    };
    match difference_played(alloc, verified, &played)? {
        Some(what) => Ok(Some(format!(in alloc; "its log, by verify: {what}")?)),
        None => Ok(None),
    }
}

/// Returns whether the whole log was written, if the arguments ask for a log.
fn has_log(played: &Played) -> bool {
    played.status == 0 || played.status == 4
}

fn difference_of(alloc: Global, case: &Case, played: &Played) -> Result<Option<String>, NoMemory> {
    if let Some(what) = difference_played(alloc, case, played)? {
        return Ok(Some(what));
    }
    if let Some(what) = difference_live(alloc, case, played)? {
        return Ok(Some(what));
    }
    if let Some(what) = difference_asked(alloc, case)? {
        return Ok(Some(what));
    }
    if case.is_once || !has_log(played) {
        return Ok(None);
    }
    match rewritten(alloc, case)? {
        Some(log) => difference_at(alloc, "over rewriters", case, log.as_slice()),
        None => Ok(None),
    }
}

/// Returns the command that the arguments ask for, if the case expects another command.
fn difference_asked(alloc: Global, case: &Case) -> Result<Option<String>, NoMemory> {
    let Some(asks) = &case.asks else {
        return Ok(None);
    };
    let found = asked(alloc, case)?;
    if found.as_str() == asks.as_str() {
        return Ok(None);
    }
    Ok(Some(format!(in alloc; "asks {found}")?))
}

fn difference_played(
    alloc: Global,
    case: &Case,
    played: &Played,
) -> Result<Option<String>, NoMemory> {
    if played.status != case.status {
        return Ok(Some(format!(in alloc; "status {}", played.status)?));
    }
    if let Some(what) = first_line(alloc, "err", case.err.as_slice(), played.err.as_slice())? {
        return Ok(Some(what));
    }
    if case.says_out || !case.is_run() {
        return difference_at(alloc, "out", case, played.out.as_slice());
    }
    Ok(None)
}

/// Returns the first difference from the expected lines of a run. If the case isn't a run, no lane may have taken an item.
fn difference_live(
    alloc: Global,
    case: &Case,
    played: &Played,
) -> Result<Option<String>, NoMemory> {
    let log = str::from_utf8(played.out.as_slice()).unwrap_or("(no text)");
    for wanted in &case.live.wanted {
        if let Some(what) = difference_wanted(alloc, wanted, log, &played.records)? {
            return Ok(Some(what));
        }
    }
    if case.is_run() {
        return Ok(None);
    }
    for lane in 1..17u8 {
        if let Some(what) = difference_taken(alloc, lane, b"", &played.records)? {
            return Ok(Some(what));
        }
    }
    Ok(None)
}

fn difference_wanted(
    alloc: Global,
    wanted: &Wanted,
    log: &str,
    records: &Records,
) -> Result<Option<String>, NoMemory> {
    let lines = wanted.lines.as_slice();
    match wanted.what {
        What::Order => difference_order(alloc, lines, log),
        What::Time => first_line(alloc, "time", lines, times_of(alloc, log)?.as_bytes()),
        What::Lane(lane) => {
            let what = format!(in alloc; "lane {lane}")?;
            let inputs = inputs_of(alloc, log, lane)?;
            first_line(alloc, what.as_str(), lines, inputs.as_bytes())
        }
        What::Took(lane) => difference_taken(alloc, lane, lines, records),
    }
}

fn difference_order(alloc: Global, lines: &[u8], log: &str) -> Result<Option<String>, NoMemory> {
    let lines = str::from_utf8(lines).unwrap_or("(no text)");
    match first_missing(log, lines) {
        Some(line) => Ok(Some(format!(in alloc; "order: not in its place: {line}")?)),
        None => Ok(None),
    }
}

/// Returns the first difference between these lines and the items that the outlet of a lane took.
fn difference_taken(
    alloc: Global,
    lane: u8,
    lines: &[u8],
    records: &Records,
) -> Result<Option<String>, NoMemory> {
    let what = format!(in alloc; "took {lane}")?;
    match taken_text(alloc, records, lane)? {
        Some(taken) => first_line(alloc, what.as_str(), lines, taken.as_slice()),
        None => Ok(Some(format!(in alloc; "{what}: more than is kept")?)),
    }
}

/// Returns the first difference between a log or an output and the expected bytes on `out`.
fn difference_at(
    alloc: Global,
    what: &str,
    case: &Case,
    found: &[u8],
) -> Result<Option<String>, NoMemory> {
    let wanted = case.out.as_slice();
    if case.is_end {
        if found.ends_with(wanted) {
            return Ok(None);
        }
        return Ok(Some(format!(in alloc; "{what}: another end")?));
    }
    first_line(alloc, what, wanted, found)
}

/// Returns the number of the first line in which two texts differ, and the found line.
fn first_line(
    alloc: Global,
    what: &str,
    wanted: &[u8],
    found: &[u8],
) -> Result<Option<String>, NoMemory> {
    if wanted == found {
        return Ok(None);
    }
    let mut number: usize = 1;
    let pairs = wanted
        .split(|byte| *byte == b'\n')
        .zip(found.split(|byte| *byte == b'\n'));
    for (want, line) in pairs {
        if want != line {
            let line = str::from_utf8(line).unwrap_or("(no text)");
            return Ok(Some(format!(in alloc; "{what}: line {number}: {line}")?));
        }
        number = number.saturating_add(1);
    }
    Ok(Some(format!(in alloc; "{what}: line {number}: more or less")?))
}
