//! Runs two programs as a pair.
ghost use Rattle.std.specs.Prelude.{◌≡◌, ◌≤◌, [], ◌∷◌, IfErr, IfOk, false, codes, vec_len};
ghost use Rattle.tb_core.specs.Cores.{Stays, started};
ghost use Rattle.tb_pair_top.specs.Outcomes.{RunOutcome, TellsFirst, pair_origin};
ghost use Rattle.tb_pair_top.specs.Views.{outside_seen};
ghost use Rattle.tb_pair_top.specs.Helpers.Parts.{AreStarted, IsRunFault};

use crate::fault::PairFault;
use crate::loading::Programs;
use crate::logs::put_logs;
use std::alloc::Global;
use std::sync::Wait;
use std::thread::Threads;
use tb_body::Program;
use tb_core::Core;
use tb_edge::{Clock, Crew, Inlet, LanePair, Outlet, Sink};
use tb_pair_run::run_pair;
use tb_terms::{Items, NoMemory, Text, Texts};
use tb_walk::Walk;

/// Runs two programs concurrently, with a pipe between them, and writes both logs. The clock gives at most `ticks` ticks, and each log has
/// at most `events` entries.
pub fn run_programs<R: Threads + Wait + Sync, O: Sink, C: Clock + Send, P: Crew>(
    rt: &R,
    alloc: Global,
    programs: Programs,
    ticks: u64,
    events: u32,
    out: &mut O,
    first: &mut Vec<LanePair>,
    second: &mut Vec<LanePair>,
    clock: &mut C,
    crew: &mut P,
) -> Result<(), PairFault>
    requires events { events ≤ 4000000 }
    requires lanes { vec_len first.old ≡ 16 }
    requires others { vec_len second.old ≡ 16 }
    ensures outcome { let seen = outside_seen ⟦<Box<dyn Inlet + Send> as Inlet>⟧
        ⟦<Box<dyn Outlet + Send> as Outlet>⟧ C.Clock P.Crew O.Sink in
        RunOutcome ticks (pair_origin programs.first events) (pair_origin programs.second events)
        (seen first.old.items second.old.items clock.old crew.old out.old)
        (seen first.new.items second.new.items clock.new crew.new out.new) result }
    ensures tells { let seen = outside_seen ⟦<Box<dyn Inlet + Send> as Inlet>⟧
        ⟦<Box<dyn Outlet + Send> as Outlet>⟧ C.Clock P.Crew O.Sink in
        TellsFirst (seen first.old.items second.old.items clock.old crew.old out.old)
        (seen first.new.items second.new.items clock.new crew.new out.new) result }
    ensures behind { IfErr result IsRunFault }
    ensures lanes { vec_len first.new ≡ 16 }
    ensures others { vec_len second.new ≡ 16 }
{
    match start_both(alloc, programs, events) {
        Ok(cores) => run_cores(rt, alloc, cores, ticks, out, first, second, clock, crew),
        Err(NoMemory) => Err(PairFault::NoMemory),
    }
}

/// The cores of two buses.
#[derive(Drop)]
pub struct Cores {
    /// The core of the first bus.
    pub first: Core<Walk>,
    /// The core of the second bus.
    pub second: Core<Walk>,
}

/// Makes two buses that start with these programs. The tool `pipe` is on lane 1 of each.
fn start_both(alloc: Global, programs: Programs, events: u32) -> Result<Cores, NoMemory>
    requires { events ≤ 4000000 }
    ensures { IfOk result (AreStarted programs events) }
{
    let connects = pipe_alone(alloc)?;
    let Programs { first, second } = programs;
    let first = Core::start(alloc, first, &connects, events)?;
    start_second(alloc, first, second, &connects, events)
}

/// Makes the second bus, and returns it with the first.
fn start_second(
    alloc: Global,
    first: Core<Walk>,
    second: Program,
    connects: &Texts,
    events: u32,
) -> Result<Cores, NoMemory>
    requires connects { connects.now ≡ codes "pipe" ∷ [] }
    requires events { events ≤ 4000000 }
    ensures { IfOk result (λ cores. (cores.first ≡ first)
        × Stays (started (pair_origin second events)) cores.second) }
{
    let second = Core::start(alloc, second, connects, events)?;
    Ok(Cores { first, second })
}

/// Returns the list of connected commands, which has only `pipe`.
fn pipe_alone(alloc: Global) -> Result<Texts, NoMemory>
    ensures { IfOk result (λ connects. connects ≡ codes "pipe" ∷ []) }
{
    let mut connects = Items::new(alloc);
    connects.push(pipe_text(alloc)?)?;
    Ok(connects)
}

fn pipe_text(alloc: Global) -> Result<Text, NoMemory>
    ensures { IfOk result (λ text. text ≡ codes "pipe") }
{
    match Text::from_str(alloc, "pipe") {
        Ok(Some(text)) => Ok(text),
        Ok(None) => unreachable!(),
        Err(NoMemory) => Err(NoMemory),
    }
}

/// Runs two cores concurrently, with a pipe between them, and writes both logs.
fn run_cores<R: Threads + Wait + Sync, O: Sink, C: Clock + Send, P: Crew>(
    rt: &R,
    alloc: Global,
    cores: Cores,
    ticks: u64,
    out: &mut O,
    first: &mut Vec<LanePair>,
    second: &mut Vec<LanePair>,
    clock: &mut C,
    crew: &mut P,
) -> Result<(), PairFault>
    requires log { cores.first.log ≡ [] }
    requires other_log { cores.second.log ≡ [] }
    requires running { cores.first.stopped ≡ false }
    requires other_running { cores.second.stopped ≡ false }
    requires lanes { vec_len first.old ≡ 16 }
    requires others { vec_len second.old ≡ 16 }
    ensures outcome { let seen = outside_seen ⟦<Box<dyn Inlet + Send> as Inlet>⟧
        ⟦<Box<dyn Outlet + Send> as Outlet>⟧ C.Clock P.Crew O.Sink in
        RunOutcome ticks cores.first.origin cores.second.origin
        (seen first.old.items second.old.items clock.old crew.old out.old)
        (seen first.new.items second.new.items clock.new crew.new out.new) result }
    ensures tells { let seen = outside_seen ⟦<Box<dyn Inlet + Send> as Inlet>⟧
        ⟦<Box<dyn Outlet + Send> as Outlet>⟧ C.Clock P.Crew O.Sink in
        TellsFirst (seen first.old.items second.old.items clock.old crew.old out.old)
        (seen first.new.items second.new.items clock.new crew.new out.new) result }
    ensures behind { IfErr result IsRunFault }
    ensures lanes { vec_len first.new ≡ 16 }
    ensures others { vec_len second.new ≡ 16 }
{
    let (why, one, other) = run_pair(
        rt,
        alloc,
        cores.first,
        cores.second,
        first,
        second,
        clock,
        ticks,
        crew,
    );
    put_logs(alloc, why, one.log(), other.log(), out)
}
