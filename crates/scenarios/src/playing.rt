//! The call of the ToolBus with the contents of a case.

use crate::case::{Case, Named};
use crate::lanes::ends_of;
use std::alloc::Global;
use std::sync::Wait;
use std::thread::Threads;
use tb_edge::{
    Bytes, Clock, Crew, HeldFile, LanePair, MemClock, MemFiles, MemSink, NoCrew, ThreadCrew,
};
use tb_fake::{FakeClock, FakePair, FakePairs, Records};
use tb_terms::{Items, NoMemory, Text};
use tb_top::{Status, toolbus};

/// The outputs and the status of a call, and the items that its lanes took.
#[derive(Drop)]
pub(crate) struct Played {
    pub(crate) status: u8,
    pub(crate) out: MemSink,
    pub(crate) err: MemSink,
    pub(crate) records: Records,
}

/// The files, outputs, and lanes that a call borrows.
#[derive(Drop)]
struct Stage {
    files: MemFiles,
    out: MemSink,
    err: MemSink,
    lanes: Vec<LanePair>,
}

/// The default capacity of `out` and of `err`, in bytes.
pub(crate) const ROOM: usize = 24_000_000;

/// The number of lanes.
const LANES: usize = 16;

/// Calls the ToolBus with the arguments, files, and lanes of the case. Returns `None` if there aren't sixteen lanes before or after the
/// call.
pub(crate) fn play<R: Threads + Wait + Sync>(
    rt: &R,
    alloc: Global,
    case: &Case,
) -> Result<Option<Played>, NoMemory> {
    let FakePairs {
        pairs,
        mut clock,
        records,
    } = ends_of(alloc, &case.live)?;
    let mut lanes = Vec::new(alloc);
    for FakePair { inlet, outlet } in pairs {
        lanes.push(LanePair {
            inlet: Box::new(alloc, inlet)?,
            outlet: Box::new(alloc, outlet)?,
        })?;
    }
    let mut stage = stage_of(alloc, case, lanes)?;
    match play_on(rt, alloc, case, &mut stage, &mut clock)? {
        Some(status) => Ok(outcome(status, stage, records)),
        None => Ok(None),
    }
}

/// Returns the outcome of a call, or `None` if there aren't sixteen lanes.
fn outcome(status: Status, stage: Stage, records: Records) -> Option<Played> {
    if stage.lanes.len() != LANES {
        return None;
    }
    Some(Played {
        status: status.number(),
        out: stage.out,
        err: stage.err,
        records,
    })
}

/// Makes the call with the clock that the case states, or else with this clock.
fn play_on<R: Threads + Wait + Sync>(
    rt: &R,
    alloc: Global,
    case: &Case,
    stage: &mut Stage,
    clock: &mut FakeClock,
) -> Result<Option<Status>, NoMemory> {
    match case.live.ticks {
        Some(ticks) => {
            let mut clock = MemClock::new(ticks, one(alloc, case.live.clock_fails)?);
            Ok(play_by(rt, alloc, case, stage, &mut clock))
        }
        None => Ok(play_by(rt, alloc, case, stage, clock)),
    }
}

/// Makes the call with this clock. If the case has no thread group, there are no threads.
fn play_by<R: Threads + Wait + Sync, C: Clock + Send>(
    rt: &R,
    alloc: Global,
    case: &Case,
    stage: &mut Stage,
    clock: &mut C,
) -> Option<Status> {
    if case.live.has_crew {
        play_with(rt, alloc, case, stage, clock, &mut ThreadCrew::new())
    } else {
        play_with(rt, alloc, case, stage, clock, &mut NoCrew::new())
    }
}

/// Makes the call with this clock and this thread group.
fn play_with<R: Threads + Wait + Sync, C: Clock + Send, P: Crew>(
    rt: &R,
    alloc: Global,
    case: &Case,
    stage: &mut Stage,
    clock: &mut C,
    crew: &mut P,
) -> Option<Status> {
    if stage.lanes.len() != LANES {
        return None;
    }
    Some(toolbus(
        rt,
        alloc,
        &case.words,
        &mut stage.files,
        &mut stage.out,
        &mut stage.err,
        &mut stage.lanes,
        clock,
        crew,
    ))
}

fn stage_of(alloc: Global, case: &Case, lanes: Vec<LanePair>) -> Result<Stage, NoMemory> {
    Ok(Stage {
        files: files_of(alloc, case)?,
        out: MemSink::new(alloc, case.room, one(alloc, case.fails.out)?)?,
        err: MemSink::new(alloc, case.err_room, one(alloc, case.fails.err)?)?,
        lanes,
    })
}

fn files_of(alloc: Global, case: &Case) -> Result<MemFiles, NoMemory> {
    let mut held = Vec::new(alloc);
    for file in &case.files {
        held.push(held_file(alloc, file)?)?;
    }
    let fails = one(alloc, case.fails.files)?;
    Ok(MemFiles::new(alloc, Items::from_vec(held), fails))
}

fn held_file(alloc: Global, file: &Named) -> Result<HeldFile, NoMemory> {
    let name = file_name(alloc, file.name.as_str())?;
    let bytes = Bytes::from_slice(alloc, file.bytes.as_slice())?;
    Ok(HeldFile { name, bytes })
}

/// Returns the name of a file in memory. If the name isn't a valid `Text`, returns the empty name.
fn file_name(alloc: Global, name: &str) -> Result<Text, NoMemory> {
    match Text::from_str(alloc, name)? {
        Some(name) => Ok(name),
        None => Ok(Text::empty(alloc)),
    }
}

fn one(alloc: Global, call: u64) -> Result<Items<u64>, NoMemory> {
    let mut calls = Items::new(alloc);
    calls.push(call)?;
    Ok(calls)
}
