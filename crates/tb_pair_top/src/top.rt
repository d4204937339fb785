//! The program of a pair, from its arguments to its status.
ghost use Rattle.std.specs.Prelude.{◌≡◌, Err, Ok, IfErr, map, string_bytes, vec_len};
ghost use Rattle.tb_cli.specs.Words.{asked_pair};
ghost use Rattle.tb_cli.specs.Table.{IsPairWithin};
ghost use Rattle.tb_edge.specs.Faults.{Rose};
ghost use Rattle.tb_edge.specs.FilesHeld.{AsksSome};
ghost use Rattle.tb_pair_top.specs.Headlines.{HasHeadline};
ghost use Rattle.tb_pair_top.specs.Outcomes.{Comes, files_of};
ghost use Rattle.tb_pair_top.specs.Reporting.{Reported};
ghost use Rattle.tb_pair_top.specs.Views.{all_seen};
ghost use Rattle.tb_pair_top.specs.Helpers.Parts.{of_load};

use crate::fault::PairFault;
use crate::loading::load_both;
use crate::report::report;
use crate::running::run_programs;
use crate::status::{PairEdge, PairStatus};
use std::alloc::Global;
use std::sync::Wait;
use std::thread::Threads;
use tb_cli::{PairCommand, WordFault, read_pair_words};
use tb_edge::{Clock, Crew, Files, Inlet, LanePair, Outlet, Sink};
use tb_load::LoadFault;

/// Runs two scripts as a pair: `FIRST SECOND [--ticks N] [--events N]`. Both run at the same time, each over lanes 2 to 16 of its own.
/// The terms that the tool `pipe` of the first bus receives in `rec-do` lines are the events of the tool `pipe` of the second. Once
/// both have ended, the call writes the log of the first to `out`, then the line `--`, then the log of the second. For each status except
/// `Ended`, the call writes one line to `err`. If `err` fails at this line, the status is `Outside(Err)`.
pub fn pair<R: Threads + Wait + Sync, F: Files, O: Sink, E: Sink, C: Clock + Send, P: Crew>(
    rt: &R,
    alloc: Global,
    words: &Vec<String>,
    files: &mut F,
    out: &mut O,
    err: &mut E,
    first: &mut Vec<LanePair>,
    second: &mut Vec<LanePair>,
    clock: &mut C,
    crew: &mut P,
) -> PairStatus
    requires lanes { vec_len first.old ≡ 16 }
    requires others { vec_len second.old ≡ 16 }
    // The statuses that may come, each with the requested files, the effects on the environment, and the written bytes.
    ensures outcome { let seen = all_seen F.Files ⟦<Box<dyn Inlet + Send> as Inlet>⟧
        ⟦<Box<dyn Outlet + Send> as Outlet>⟧ C.Clock P.Crew O.Sink in
        Reported {A = Unit {0}} (Comes (asked_pair (map string_bytes words.now.items))
        (seen files.old first.old.items second.old.items clock.old crew.old out.old)
        (seen files.new first.new.items second.new.items clock.new crew.new out.new))
        (E.taken err.old) (E.taken err.new) result }

    // The headline: what the written logs state about the scripts and the environment.
    ensures headline { let seen = all_seen F.Files ⟦<Box<dyn Inlet + Send> as Inlet>⟧
        ⟦<Box<dyn Outlet + Send> as Outlet>⟧ C.Clock P.Crew O.Sink in
        Reported {A = Unit {0}} (HasHeadline (asked_pair (map string_bytes words.now.items))
        (seen files.old first.old.items second.old.items clock.old crew.old out.old)
        (seen files.new first.new.items second.new.items clock.new crew.new out.new))
        (E.taken err.old) (E.taken err.new) result }

    // At any status, only the files of the two scripts are requested, in their order.
    ensures asks { AsksSome (files_of (asked_pair (map string_bytes words.now.items)))
        (F.asked files.old) (F.asked files.new) }

    // A status names a part of the environment only if this part failed in the call.
    ensures file_rose { result ≡ PairStatus.Outside PairEdge.File
        → Rose (F.faults files.old) (F.faults files.new) }
    ensures out_rose { result ≡ PairStatus.Outside PairEdge.Out
        → Rose (O.faults out.old) (O.faults out.new) }
    ensures clock_rose { result ≡ PairStatus.Outside PairEdge.Clock
        → Rose (C.faults clock.old) (C.faults clock.new) }
    ensures crew_rose { result ≡ PairStatus.Outside PairEdge.Crew
        → Rose (P.faults crew.old) (P.faults crew.new) }
    ensures err_rose { result ≡ PairStatus.Outside PairEdge.Err
        → Rose (E.faults err.old) (E.faults err.new) }
    ensures lanes { vec_len first.new ≡ 16 }
    ensures others { vec_len second.new ≡ 16 }
{
    let answer = answer(rt, alloc, words, files, out, first, second, clock, crew);
    report(answer, err)
}

/// Runs the pair that the arguments request, or returns the error.
fn answer<R: Threads + Wait + Sync, F: Files, O: Sink, C: Clock + Send, P: Crew>(
    rt: &R,
    alloc: Global,
    words: &Vec<String>,
    files: &mut F,
    out: &mut O,
    first: &mut Vec<LanePair>,
    second: &mut Vec<LanePair>,
    clock: &mut C,
    crew: &mut P,
) -> Result<(), PairFault>
    requires lanes { vec_len first.old ≡ 16 }
    requires others { vec_len second.old ≡ 16 }
    ensures comes { let seen = all_seen F.Files ⟦<Box<dyn Inlet + Send> as Inlet>⟧
        ⟦<Box<dyn Outlet + Send> as Outlet>⟧ C.Clock P.Crew O.Sink in
        Comes (asked_pair (map string_bytes words.now.items))
        (seen files.old first.old.items second.old.items clock.old crew.old out.old)
        (seen files.new first.new.items second.new.items clock.new crew.new out.new) result }
    ensures file_rose { result ≡ Err PairFault.File
        → Rose (F.faults files.old) (F.faults files.new) }
    ensures out_rose { result ≡ Err PairFault.Out → Rose (O.faults out.old) (O.faults out.new) }
    ensures clock_rose { result ≡ Err PairFault.Clock
        → Rose (C.faults clock.old) (C.faults clock.new) }
    ensures crew_rose { result ≡ Err PairFault.Crew → Rose (P.faults crew.old) (P.faults crew.new) }
    ensures lanes { vec_len first.new ≡ 16 }
    ensures others { vec_len second.new ≡ 16 }
{
    match read_pair_words(alloc, words) {
        Ok(command) => do_pair(rt, alloc, &command, files, out, first, second, clock, crew),
        Err(WordFault::NoMemory) => Err(PairFault::NoMemory),
        Err(fault) => Err(PairFault::Words(fault)),
    }
}

/// Loads both scripts, and runs them.
fn do_pair<R: Threads + Wait + Sync, F: Files, O: Sink, C: Clock + Send, P: Crew>(
    rt: &R,
    alloc: Global,
    command: &PairCommand,
    files: &mut F,
    out: &mut O,
    first: &mut Vec<LanePair>,
    second: &mut Vec<LanePair>,
    clock: &mut C,
    crew: &mut P,
) -> Result<(), PairFault>
    requires within { IsPairWithin command.now }
    requires lanes { vec_len first.old ≡ 16 }
    requires others { vec_len second.old ≡ 16 }
    ensures comes { let seen = all_seen F.Files ⟦<Box<dyn Inlet + Send> as Inlet>⟧
        ⟦<Box<dyn Outlet + Send> as Outlet>⟧ C.Clock P.Crew O.Sink in
        Comes (Ok command.now)
        (seen files.old first.old.items second.old.items clock.old crew.old out.old)
        (seen files.new first.new.items second.new.items clock.new crew.new out.new) result }
    ensures lanes { vec_len first.new ≡ 16 }
    ensures others { vec_len second.new ≡ 16 }
{
    match load_both(
        alloc,
        command.first.as_str(),
        command.second.as_str(),
        files,
    ) {
        Ok(programs) => run_programs(
            rt,
            alloc,
            programs,
            command.ticks,
            command.events,
            out,
            first,
            second,
            clock,
            crew,
        ),
        Err(fault) => Err(of_load(fault)),
    }
}

/// Returns the error of a pair, by the error of its files.
fn of_load(fault: LoadFault) -> PairFault
    ensures { result ≡ of_load fault }
{
    match fault {
        LoadFault::Script(fault) => PairFault::Script(fault),
        LoadFault::File => PairFault::File,
        LoadFault::NoMemory => PairFault::NoMemory,
    }
}
