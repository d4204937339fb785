//! `sim`: writes the log of a script's simulation.
ghost use Rattle.std.specs.Prelude.{◌≡◌, ◌≤◌, ℕ, List, [], option_to_list, Err, IfErr, IsTrue};
ghost use Rattle.std.specs.Prelude.{length, false};
ghost use Rattle.std.specs.List.{list_all};
ghost use Rattle.tb_edge.specs.Faults.{Rose};
ghost use Rattle.tb_bus.specs.Buses.{origin_of};
ghost use Rattle.tb_log.specs.LogText.{log_text};
ghost use Rattle.tb_log.specs.Proper.{is_proper_entry};
ghost use Rattle.tb_log.specs.Shapes.{lane_count};
ghost use Rattle.tb_top.specs.Asking.{AsksBeside};
ghost use Rattle.tb_load.specs.Loading.{HasProgram};
ghost use Rattle.tb_top.specs.Sim.{IsFed, SimOutcome};
ghost use Rattle.tb_top.specs.Helpers.Parts.{AsksForFeed, IsBehindFeed, IsBehindScript, IsInside};
ghost use Rattle.tb_top.specs.Helpers.Parts.{IsSimulated, PutsText};

use crate::fault::{Fault, after_end};
use crate::loading::{load_feed, load_script};
use std::alloc::Global;
use std::mem::forget;
use tb_body::Program;
use tb_core::Core;
use tb_edge::{Files, Sink};
use tb_feed::Feed;
use tb_log::{Log, show_proper_log};
use tb_sim::{SimEnd, simulate};
use tb_terms::{NoMemory, Text, Texts};
use tb_walk::Walk;
use tb_write::{LogFault, put_log};

/// Writes the log of the simulation of the script in the file of this name. At the start, each of the given commands is connected. The
/// simulation delivers the inputs of the feed. `steps` and `events` are the greatest numbers of steps and of entries of the log.
pub fn sim<F: Files, O: Sink>(
    alloc: Global,
    script: &str,
    feed: &Option<Text>,
    connects: &Texts,
    steps: u64,
    events: u32,
    files: &mut F,
    out: &mut O,
) -> Result<(), Fault>
    requires connects { length connects.now ≤ lane_count }
    requires events { events ≤ 4000000 }
    ensures outcome { SimOutcome (F.held files.old)
        (record {
          script = script.now;
          feed = feed.now;
          connects = connects.now;
          steps = steps;
          events = events;
        })
        (O.taken out.old) (O.taken out.new) result }
    ensures asks { AsksBeside (F.held files.old script.now) script.now (option_to_list feed.now)
        (F.asked files.old) (F.asked files.new) result }
    ensures file_rose { result ≡ Err Fault.File → Rose (F.faults files.old) (F.faults files.new) }
    ensures inside { IfErr result IsInside }
    ensures out_rose { result ≡ Err Fault.Out → Rose (O.faults out.old) (O.faults out.new) }
{
    match load_script(alloc, script, files) {
        Ok(program) => sim_program(alloc, program, feed, connects, steps, events, files, out),
        Err(fault) => Err(fault),
    }
}

/// Simulates a program with the feed in the file with this name.
fn sim_program<F: Files, O: Sink>(
    alloc: Global,
    program: Program,
    feed: &Option<Text>,
    connects: &Texts,
    steps: u64,
    events: u32,
    files: &mut F,
    out: &mut O,
) -> Result<(), Fault>
    requires connects { length connects.now ≤ lane_count }
    requires events { events ≤ 4000000 }
    ensures outcome { (script : List ℕ) → HasProgram (F.held files.old script) program
        → SimOutcome (F.held files.old)
        (record {
          script = script;
          feed = feed.now;
          connects = connects.now;
          steps = steps;
          events = events;
        })
        (O.taken out.old) (O.taken out.new) result }
    ensures behind { IfErr result IsBehindScript }
    ensures asks { AsksForFeed feed.now (F.asked files.old) (F.asked files.new) result }
    ensures file_rose { result ≡ Err Fault.File → Rose (F.faults files.old) (F.faults files.new) }
    ensures inside { IfErr result IsInside }
    ensures out_rose { result ≡ Err Fault.Out → Rose (O.faults out.old) (O.faults out.new) }
{
    match load_feed(alloc, feed, files) {
        Ok(inputs) => sim_fed(alloc, program, &inputs, connects, steps, events, out),
        Err(fault) => Err(fault),
    }
}

/// Simulates the program with these inputs.
fn sim_fed<O: Sink>(
    alloc: Global,
    program: Program,
    feed: &Feed,
    connects: &Texts,
    steps: u64,
    events: u32,
    out: &mut O,
) -> Result<(), Fault>
    requires connects { length connects.now ≤ lane_count }
    requires events { events ≤ 4000000 }
    ensures outcome { IsSimulated steps (origin_of program connects.now events) feed.now
        (O.taken out.old) (O.taken out.new) result }
    ensures behind { IfErr result IsBehindFeed }
    ensures inside { IfErr result IsInside }
    ensures out_rose { result ≡ Err Fault.Out → Rose (O.faults out.old) (O.faults out.new) }
{
    match Core::start(alloc, program, connects, events) {
        Ok(mut core) => {
            let outcome = sim_core(alloc, &mut core, feed, steps, out);
            // The program ends next, so that the log needn't be freed term by term.
            forget(core);
            outcome
        }
        Err(NoMemory) => Err(Fault::NoMemory),
    }
}

/// Simulates the program over a core.
fn sim_core<O: Sink>(
    alloc: Global,
    core: &mut Core<Walk>,
    feed: &Feed,
    steps: u64,
    out: &mut O,
) -> Result<(), Fault>
    requires fresh { core.old.log ≡ [] }
    requires running { core.old.stopped ≡ false }
    ensures outcome { IsSimulated steps core.old.origin feed.now
        (O.taken out.old) (O.taken out.new) result }
    ensures behind { IfErr result IsBehindFeed }
    ensures inside { IfErr result IsInside }
    ensures out_rose { result ≡ Err Fault.Out → Rose (O.faults out.old) (O.faults out.new) }
{
    match simulate(core, feed, steps) {
        Ok(end) => put_simulation(alloc, core.log(), end, out),
        Err(NoMemory) => Err(Fault::NoMemory),
    }
}

/// Writes the log of a simulation with this end. All entries of the log are well-formed.
fn put_simulation<O: Sink>(alloc: Global, log: &Log, end: SimEnd, out: &mut O) -> Result<(), Fault>
    ensures outcome { PutsText (log_text log.now.entries) end
        (O.taken out.old) (O.taken out.new) result }
    ensures proper { IsTrue (list_all is_proper_entry log.now.entries) }
    ensures behind { IfErr result IsBehindFeed }
    ensures inside { IfErr result IsInside }
    ensures out_rose { result ≡ Err Fault.Out → Rose (O.faults out.old) (O.faults out.new) }
{
    show_proper_log(log);
    match put_log(alloc, log, out) {
        Ok(()) => after_end(end),
        Err(LogFault::Out) => Err(Fault::Out),
        Err(LogFault::NoMemory) => Err(Fault::NoMemory),
    }
}
