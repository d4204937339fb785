//! `ring`: writes a summary of the simulation of processes that pass a message round a ring.
ghost use Rattle.std.specs.Prelude.{◌≡◌, ◌≤◌, ◌*◌, ◌++◌, [], false, Err, IfOk, IfErr, OnOk, OnErr};
ghost use Rattle.std.specs.Prelude.{sum_by, length, decimal};
ghost use Rattle.tb_edge.specs.Faults.{Rose};
ghost use Rattle.tb_edge.specs.Sinks.{Writes, WritesPrefix};
ghost use Rattle.tb_gen.specs.Ring.{ring_text};
ghost use Rattle.tb_log.specs.Seens.{entry_seen};
ghost use Rattle.tb_top.specs.Ring.{RingOutcome, last_word, ring_origin, steps_in, summary};
ghost use Rattle.tb_top.specs.Ring.{word_after};
ghost use Rattle.tb_top.specs.Helpers.Parts.{IsBehindFeed, IsInside, IsRingSimulated, PutsWhole};

use crate::fault::{Fault, after_end};
use crate::loading::load_bytes;
use itoa::Buffer;
use std::alloc::Global;
use std::mem::forget;
use tb_body::Program;
use tb_core::Core;
use tb_edge::{Failed, Sink};
use tb_feed::Feed;
use tb_gen::ring_script;
use tb_log::{Log, Seen, kind_word};
use tb_sim::{SimEnd, simulate};
use tb_terms::{Items, NoMemory};
use tb_walk::Walk;

/// The largest number of steps of a ring.
const MOST_STEPS: u64 = 4_000_000;

/// The largest number of entries in the log of a ring.
const MOST_EVENTS: u32 = 4_000_000;

/// Writes a summary of the simulation of `n` processes in a ring that a message goes round `k` times.
pub fn ring<O: Sink>(alloc: Global, n: u32, k: u32, out: &mut O) -> Result<(), Fault>
    requires few { 2 ≤ n }
    requires many { n ≤ 10000 }
    requires once { 1 ≤ k }
    requires product { n * k ≤ 1000000 }
    ensures outcome { RingOutcome n k (O.taken out.old) (O.taken out.new) result }
    ensures inside { IfErr result IsInside }
    ensures out_rose { result ≡ Err Fault.Out → Rose (O.faults out.old) (O.faults out.new) }
{
    let Ok(script) = ring_script(alloc, n, k) else {
        return Err(Fault::NoMemory);
    };
    match load_bytes(alloc, script.as_slice()) {
        Ok(program) => ring_program(alloc, program, n, out),
        Err(fault) => Err(fault),
    }
}

/// Simulates the program of the ring's script, and writes the summary.
fn ring_program<O: Sink>(alloc: Global, program: Program, n: u32, out: &mut O) -> Result<(), Fault>
    ensures outcome { IsRingSimulated program n (O.taken out.old) (O.taken out.new) result }
    ensures behind { IfErr result IsBehindFeed }
    ensures inside { IfErr result IsInside }
    ensures out_rose { result ≡ Err Fault.Out → Rose (O.faults out.old) (O.faults out.new) }
{
    match Core::start(alloc, program, &Items::new(alloc), MOST_EVENTS) {
        Ok(mut core) => {
            let outcome = ring_core(alloc, &mut core, n, out);
            // The program ends next, so that the log needn't be freed term by term.
            forget(core);
            outcome
        }
        Err(NoMemory) => Err(Fault::NoMemory),
    }
}

/// Simulates the ring over a core, and writes the summary.
fn ring_core<O: Sink>(
    alloc: Global,
    core: &mut Core<Walk>,
    n: u32,
    out: &mut O,
) -> Result<(), Fault>
    requires fresh { core.old.log ≡ [] }
    requires running { core.old.stopped ≡ false }
    requires origin { core.old.origin ≡ ring_origin core.old.origin.program }
    ensures outcome { IsRingSimulated core.old.origin.program n
        (O.taken out.old) (O.taken out.new) result }
    ensures behind { IfErr result IsBehindFeed }
    ensures inside { IfErr result IsInside }
    ensures out_rose { result ≡ Err Fault.Out → Rose (O.faults out.old) (O.faults out.new) }
{
    match simulate(core, &Feed::empty(alloc), MOST_STEPS) {
        Ok(end) => put_summary(alloc, n, core.log(), end, out),
        Err(NoMemory) => Err(Fault::NoMemory),
    }
}

/// Writes the summary of a simulation with this end.
fn put_summary<O: Sink>(
    alloc: Global,
    n: u32,
    log: &Log,
    end: SimEnd,
    out: &mut O,
) -> Result<(), Fault>
    ensures outcome { PutsWhole (summary n log.now.entries) end
        (O.taken out.old) (O.taken out.new) result }
    ensures behind { IfErr result IsBehindFeed }
    ensures inside { IfErr result IsInside }
    ensures out_rose { result ≡ Err Fault.Out → Rose (O.faults out.old) (O.faults out.new) }
{
    let Ok(text) = summary_text(alloc, n, log) else {
        return Err(Fault::NoMemory);
    };
    match out.put(text.as_slice()) {
        Ok(()) => after_end(end),
        Err(Failed) => Err(Fault::Out),
    }
}

/// Returns the summary of a log.
fn summary_text(alloc: Global, n: u32, log: &Log) -> Result<Vec<u8>, NoMemory>
    ensures { IfOk result (λ text. text.items ≡ summary n log.now.entries) }
{
    let mut text = Vec::new(alloc);
    text.extend_from_slice(b"processes ")?;
    push_number(u64::from(n), &mut text)?;
    text.extend_from_slice(b" steps ")?;
    push_number(step_count(log) as u64, &mut text)?;
    text.extend_from_slice(b" end ")?;
    text.extend_from_slice(last_word(log))?;
    text.push(b'\n')?;
    Ok(text)
}

fn push_number(number: u64, text: &mut Vec<u8>) -> Result<(), NoMemory>
    ensures { OnOk result (text.new.items ≡ text.old.items ++ decimal number) }
{
    let mut buffer = Buffer::new();
    text.extend_from_slice(buffer.format(number).as_bytes())?;
    Ok(())
}

/// Returns the number of steps in a log.
fn step_count(log: &Log) -> usize
    ensures { result ≡ sum_by steps_in log.now.entries }
{
    let mut count = 0;
    for at in 0..log.len() {
        count += steps_in(&log.at(at));
    }
    count
}

fn steps_in(seen: &Seen) -> usize
    ensures value { result ≡ steps_in (entry_seen seen.now) }
    ensures one { result ≤ 1 }
{
    match *seen {
        Seen::Did(_) => 1,
        _ => 0,
    }
}

/// Returns the word of the last step in a log.
fn last_word(log: &Log) -> &'static [u8]
    ensures { result.now ≡ last_word log.now.entries }
{
    let mut word: &'static [u8] = b"";
    for at in 0..log.len() {
        word = word_after(word, &log.at(at));
    }
    word
}

fn word_after(word: &'static [u8], seen: &Seen) -> &'static [u8]
    ensures { result.now ≡ word_after word.now (entry_seen seen.now) }
{
    match *seen {
        Seen::Did(label) => kind_word(label.kind),
        _ => word,
    }
}
