//! The program `toolbus`, from its arguments to its status.
ghost use Rattle.std.specs.Prelude.{◌≡◌, Err, Ok, map, string_bytes, vec_len};
ghost use Rattle.tb_cli.specs.Words.{asked};
ghost use Rattle.tb_cli.specs.Table.{IsWithin};
ghost use Rattle.tb_edge.specs.Faults.{Rose};
ghost use Rattle.tb_edge.specs.FilesHeld.{AsksSome};
ghost use Rattle.tb_top.specs.Asking.{Asks};
ghost use Rattle.tb_top.specs.Headlines.{HasHeadline};
ghost use Rattle.tb_top.specs.Outcomes.{Comes, CommandOutcome, files_of};
ghost use Rattle.tb_top.specs.Reporting.{Reported};
ghost use Rattle.tb_top.specs.Views.{all_seen};

use crate::check::check;
use crate::fault::Fault;
use crate::iface::iface;
use crate::report::report;
use crate::ring::ring;
use crate::run::run_script;
use crate::sim::sim;
use crate::status::{Edge, Status};
use crate::verify::verify_log;
use std::alloc::Global;
use std::sync::Wait;
use std::thread::Threads;
use tb_cli::{Command, WordFault, read_words};
use tb_edge::{Clock, Crew, Files, Inlet, LanePair, Outlet, Sink};

/// Does the command that the arguments of the command line request. `check SCRIPT` writes `ok` and a newline to `out` if the script in
/// that file is accepted. `sim SCRIPT [--feed FILE] [--connect COMMAND] [--steps N] [--events N]` writes the log of the script's
/// simulation. The simulation starts with each command connected, delivers the inputs of the feed in that file, and makes at most the
/// given numbers of steps and of entries of its log. `run SCRIPT [--connect COMMAND] [--ticks N] [--events N]` runs the script over the
/// tools of the lanes, and writes its log while it runs. `ring N K` writes a summary of the simulation of N processes in a ring that a
/// message goes round K times. `verify SCRIPT LOG [--connect COMMAND]` writes `trace` and a newline if the log in the second file is a
/// trace of the script, starting with each command connected. `iface SCRIPT TOOL` writes the interface of the tool of this name: the
/// lines that the tool may receive, and the lines of the tool that a process may take. For each status except `Ended`, the call writes one
/// line to `err`. If `err` fails at this line, the status is `Outside(Err)`.
pub fn toolbus<R: Threads + Wait + Sync, F: Files, O: Sink, E: Sink, C: Clock + Send, P: Crew>(
    rt: &R,
    alloc: Global,
    words: &Vec<String>,
    files: &mut F,
    out: &mut O,
    err: &mut E,
    lanes: &mut Vec<LanePair>,
    clock: &mut C,
    crew: &mut P,
) -> Status
    requires { vec_len lanes.old ≡ 16 }
    // The statuses that may come, each with the written bytes, the requested files, and the effects on the environment.
    ensures outcome { let seen = all_seen F.Files ⟦<Box<dyn Inlet + Send> as Inlet>⟧
        ⟦<Box<dyn Outlet + Send> as Outlet>⟧ C.Clock P.Crew O.Sink in
        Reported {A = Unit {0}}
        (Comes (asked (map string_bytes words.now.items))
        (seen files.old lanes.old.items clock.old crew.old out.old)
        (seen files.new lanes.new.items clock.new crew.new out.new))
        (E.taken err.old) (E.taken err.new) result }

    // The headline: what the written log of `run` and of `sim` states about the script and the environment.
    ensures headline { let seen = all_seen F.Files ⟦<Box<dyn Inlet + Send> as Inlet>⟧
        ⟦<Box<dyn Outlet + Send> as Outlet>⟧ C.Clock P.Crew O.Sink in
        Reported {A = Unit {0}}
        (HasHeadline (asked (map string_bytes words.now.items))
        (seen files.old lanes.old.items clock.old crew.old out.old)
        (seen files.new lanes.new.items clock.new crew.new out.new))
        (E.taken err.old) (E.taken err.new) result }

    // At any status, only files that the arguments name are requested, in their order.
    ensures asks { AsksSome (files_of (asked (map string_bytes words.now.items)))
        (F.asked files.old) (F.asked files.new) }

    // A status names a part of the environment only if this part failed in the call.
    ensures file_rose { result ≡ Status.Outside Edge.File
        → Rose (F.faults files.old) (F.faults files.new) }
    ensures out_rose { result ≡ Status.Outside Edge.Out
        → Rose (O.faults out.old) (O.faults out.new) }
    ensures clock_rose { result ≡ Status.Outside Edge.Clock
        → Rose (C.faults clock.old) (C.faults clock.new) }
    ensures crew_rose { result ≡ Status.Outside Edge.Crew
        → Rose (P.faults crew.old) (P.faults crew.new) }
    ensures lanes { vec_len lanes.new ≡ 16 }
    ensures err_rose { result ≡ Status.Outside Edge.Err
        → Rose (E.faults err.old) (E.faults err.new) }
{
    let answer = answer(rt, alloc, words, files, out, lanes, clock, crew);
    report(answer, err)
}

/// Does the command that the arguments request.
fn answer<R: Threads + Wait + Sync, F: Files, O: Sink, C: Clock + Send, P: Crew>(
    rt: &R,
    alloc: Global,
    words: &Vec<String>,
    files: &mut F,
    out: &mut O,
    lanes: &mut Vec<LanePair>,
    clock: &mut C,
    crew: &mut P,
) -> Result<(), Fault>
    requires { vec_len lanes.old ≡ 16 }
    ensures outcome { let seen = all_seen F.Files ⟦<Box<dyn Inlet + Send> as Inlet>⟧
        ⟦<Box<dyn Outlet + Send> as Outlet>⟧ C.Clock P.Crew O.Sink in
        CommandOutcome (asked (map string_bytes words.now.items))
        (seen files.old lanes.old.items clock.old crew.old out.old)
        (seen files.new lanes.new.items clock.new crew.new out.new) result }
    ensures asks { Asks (F.held files.old) (files_of (asked (map string_bytes words.now.items)))
        (F.asked files.old) (F.asked files.new) result }
    ensures file_rose { result ≡ Err Fault.File → Rose (F.faults files.old) (F.faults files.new) }
    ensures out_rose { result ≡ Err Fault.Out → Rose (O.faults out.old) (O.faults out.new) }
    ensures clock_rose { result ≡ Err Fault.Clock → Rose (C.faults clock.old) (C.faults clock.new) }
    ensures crew_rose { result ≡ Err Fault.Crew → Rose (P.faults crew.old) (P.faults crew.new) }
    ensures lanes { vec_len lanes.new ≡ 16 }
{
    match read_words(alloc, words) {
        Ok(command) => do_command(rt, alloc, &command, files, out, lanes, clock, crew),
        Err(WordFault::NoMemory) => Err(Fault::NoMemory),
        Err(fault) => Err(Fault::Words(fault)),
    }
}

fn do_command<R: Threads + Wait + Sync, F: Files, O: Sink, C: Clock + Send, P: Crew>(
    rt: &R,
    alloc: Global,
    command: &Command,
    files: &mut F,
    out: &mut O,
    lanes: &mut Vec<LanePair>,
    clock: &mut C,
    crew: &mut P,
) -> Result<(), Fault>
    requires within { IsWithin command.now }
    requires lanes { vec_len lanes.old ≡ 16 }
    ensures outcome { let seen = all_seen F.Files ⟦<Box<dyn Inlet + Send> as Inlet>⟧
        ⟦<Box<dyn Outlet + Send> as Outlet>⟧ C.Clock P.Crew O.Sink in
        CommandOutcome (Ok command.now)
        (seen files.old lanes.old.items clock.old crew.old out.old)
        (seen files.new lanes.new.items clock.new crew.new out.new) result }
    ensures asks { Asks (F.held files.old) (files_of (Ok command.now))
        (F.asked files.old) (F.asked files.new) result }
    ensures file_rose { result ≡ Err Fault.File → Rose (F.faults files.old) (F.faults files.new) }
    ensures out_rose { result ≡ Err Fault.Out → Rose (O.faults out.old) (O.faults out.new) }
    ensures clock_rose { result ≡ Err Fault.Clock → Rose (C.faults clock.old) (C.faults clock.new) }
    ensures crew_rose { result ≡ Err Fault.Crew → Rose (P.faults crew.old) (P.faults crew.new) }
    ensures lanes { vec_len lanes.new ≡ 16 }
{
    match command {
        Command::Check { script } => check(alloc, script.as_str(), files, out),
        Command::Sim {
            script,
            feed,
            connects,
            steps,
            events,
        } => sim(
            alloc,
            script.as_str(),
            feed,
            connects,
            *steps,
            *events,
            files,
            out,
        ),
        Command::Run {
            script,
            connects,
            ticks,
            events,
        } => run_script(
            rt,
            alloc,
            script.as_str(),
            connects,
            *ticks,
            *events,
            files,
            out,
            lanes,
            clock,
            crew,
        ),
        Command::Verify {
            script,
            log,
            connects,
        } => verify_log(alloc, script.as_str(), log.as_str(), connects, files, out),
        Command::Iface { script, tool } => {
            iface(alloc, script.as_str(), tool.as_str(), files, out)
        }
        Command::Ring { n, k } => ring(alloc, *n, *k, out),
    }
}
