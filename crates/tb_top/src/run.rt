//! `run`: runs a bus with live tools, and writes its log while it runs.
ghost use Rattle.std.specs.Prelude.{◌≡◌, ◌≤◌, List, [], Err, IfErr, false, length, map, vec_len};
ghost use Rattle.tb_bus.specs.Buses.{origin_of};
ghost use Rattle.tb_cli.specs.Table.{most_connects};
ghost use Rattle.tb_edge.specs.Faults.{Rose};
ghost use Rattle.tb_run.specs.Views.{outside_seen};
ghost use Rattle.tb_top.specs.Asking.{AsksBeside};
ghost use Rattle.tb_top.specs.Run.{LiveOutcome};
ghost use Rattle.tb_top.specs.Helpers.Parts.{EndsRun, IsLive, IsLiveFault};

use crate::fault::Fault;
use crate::loading::load_script;
use crate::status::Bound;
use std::alloc::Global;
use std::sync::Wait;
use std::thread::Threads;
use tb_body::Program;
use tb_core::Core;
use tb_edge::{Clock, Crew, Files, Inlet, LanePair, Outlet, Sink};
use tb_run::{RunWhy, run};
use tb_terms::{NoMemory, Texts};
use tb_walk::Walk;

/// Runs the script in the file of this name over the tools of sixteen lanes, and writes its log while it runs. At the start, each of the
/// given commands is connected. `ticks` and `events` are the greatest numbers of ticks and of entries of the log.
pub fn run_script<R: Threads + Wait + Sync, F: Files, O: Sink, C: Clock + Send, P: Crew>(
    rt: &R,
    alloc: Global,
    script: &str,
    connects: &Texts,
    ticks: u64,
    events: u32,
    files: &mut F,
    out: &mut O,
    lanes: &mut Vec<LanePair>,
    clock: &mut C,
    crew: &mut P,
) -> Result<(), Fault>
    requires connects { length connects.now ≤ most_connects }
    requires events { events ≤ 4000000 }
    requires lanes { vec_len lanes.old ≡ 16 }
    ensures outcome { let seen = outside_seen ⟦<Box<dyn Inlet + Send> as Inlet>⟧
        ⟦<Box<dyn Outlet + Send> as Outlet>⟧ C.Clock P.Crew O.Sink in
        LiveOutcome (F.held files.old)
        (record { script = script.now; connects = connects.now; ticks = ticks; events = events })
        (seen lanes.old.items clock.old crew.old out.old)
        (seen lanes.new.items clock.new crew.new out.new) result }
    ensures asks { AsksBeside (F.held files.old script.now) script.now []
        (F.asked files.old) (F.asked files.new) result }
    ensures file_rose { result ≡ Err Fault.File → Rose (F.faults files.old) (F.faults files.new) }
    ensures out_rose { result ≡ Err Fault.Out → Rose (O.faults out.old) (O.faults out.new) }
    ensures clock_rose { result ≡ Err Fault.Clock → Rose (C.faults clock.old) (C.faults clock.new) }
    ensures crew_rose { result ≡ Err Fault.Crew → Rose (P.faults crew.old) (P.faults crew.new) }
    ensures lanes { vec_len lanes.new ≡ 16 }
{
    match load_script(alloc, script, files) {
        Ok(program) => run_program(
            rt, alloc, program, connects, ticks, events, out, lanes, clock, crew,
        ),
        Err(fault) => Err(fault),
    }
}

/// Runs a program.
fn run_program<R: Threads + Wait + Sync, O: Sink, C: Clock + Send, P: Crew>(
    rt: &R,
    alloc: Global,
    program: Program,
    connects: &Texts,
    ticks: u64,
    events: u32,
    out: &mut O,
    lanes: &mut Vec<LanePair>,
    clock: &mut C,
    crew: &mut P,
) -> Result<(), Fault>
    requires connects { length connects.now ≤ most_connects }
    requires events { events ≤ 4000000 }
    requires lanes { vec_len lanes.old ≡ 16 }
    ensures outcome { let seen = outside_seen ⟦<Box<dyn Inlet + Send> as Inlet>⟧
        ⟦<Box<dyn Outlet + Send> as Outlet>⟧ C.Clock P.Crew O.Sink in
        IsLive ticks (origin_of program connects.now events)
        (seen lanes.old.items clock.old crew.old out.old)
        (seen lanes.new.items clock.new crew.new out.new) result }
    ensures behind { IfErr result IsLiveFault }
    ensures out_rose { result ≡ Err Fault.Out → Rose (O.faults out.old) (O.faults out.new) }
    ensures clock_rose { result ≡ Err Fault.Clock → Rose (C.faults clock.old) (C.faults clock.new) }
    ensures crew_rose { result ≡ Err Fault.Crew → Rose (P.faults crew.old) (P.faults crew.new) }
    ensures lanes { vec_len lanes.new ≡ 16 }
{
    match Core::start(alloc, program, connects, events) {
        Ok(core) => run_core(rt, alloc, core, ticks, out, lanes, clock, crew),
        Err(NoMemory) => Err(Fault::NoMemory),
    }
}

/// Runs the program over a core.
fn run_core<R: Threads + Wait + Sync, O: Sink, C: Clock + Send, P: Crew>(
    rt: &R,
    alloc: Global,
    core: Core<Walk>,
    ticks: u64,
    out: &mut O,
    lanes: &mut Vec<LanePair>,
    clock: &mut C,
    crew: &mut P,
) -> Result<(), Fault>
    requires fresh { core.log ≡ [] }
    requires running { core.stopped ≡ false }
    requires lanes { vec_len lanes.old ≡ 16 }
    ensures outcome { let seen = outside_seen ⟦<Box<dyn Inlet + Send> as Inlet>⟧
        ⟦<Box<dyn Outlet + Send> as Outlet>⟧ C.Clock P.Crew O.Sink in
        IsLive ticks core.origin
        (seen lanes.old.items clock.old crew.old out.old)
        (seen lanes.new.items clock.new crew.new out.new) result }
    ensures behind { IfErr result IsLiveFault }
    ensures out_rose { result ≡ Err Fault.Out → Rose (O.faults out.old) (O.faults out.new) }
    ensures clock_rose { result ≡ Err Fault.Clock → Rose (C.faults clock.old) (C.faults clock.new) }
    ensures crew_rose { result ≡ Err Fault.Crew → Rose (P.faults crew.old) (P.faults crew.new) }
    ensures lanes { vec_len lanes.new ≡ 16 }
{
    let (why, _core) = run(rt, alloc, core, lanes, clock, ticks, crew, out);
    after_run(why)
}

/// Returns the result of the command after a run with this end.
fn after_run(why: RunWhy) -> Result<(), Fault>
    ensures ends { EndsRun why result }
    ensures behind { IfErr result IsLiveFault }
{
    match why {
        RunWhy::Ended => Ok(()),
        RunWhy::Crew => Err(Fault::Crew),
        RunWhy::Clock => Err(Fault::Clock),
        RunWhy::Out => Err(Fault::Out),
        RunWhy::Events => Err(Fault::Limit(Bound::Events)),
        RunWhy::NoMemory => Err(Fault::NoMemory),
    }
}
