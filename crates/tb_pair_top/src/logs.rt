//! Writes the two logs of a pair.
ghost use Rattle.std.specs.Prelude.{◌≡◌, ◌++◌, OnOk, OnErr, IsErrOf, codes};
ghost use Rattle.tb_edge.specs.Faults.{Rose};
ghost use Rattle.tb_edge.specs.Sinks.{Writes, WritesPrefix};
ghost use Rattle.tb_log.specs.LogText.{log_text};
ghost use Rattle.tb_pair_top.specs.Outcomes.{ArePut, pair_text};
ghost use Rattle.tb_pair_top.specs.Helpers.Parts.{EndsAs, PutsLogs};

use crate::fault::PairFault;
use std::alloc::Global;
use tb_edge::{Failed, Sink};
use tb_log::Log;
use tb_pair_run::PairWhy;
use tb_write::{LogFault, put_log};

/// Writes both logs of a pair that ended for this reason, unless the crew failed or memory ran out. Returns the answer of the program.
pub fn put_logs<O: Sink>(
    alloc: Global,
    why: PairWhy,
    one: &Log,
    other: &Log,
    out: &mut O,
) -> Result<(), PairFault>
    ensures { PutsLogs why (pair_text one.now.entries other.now.entries)
        (O.taken out.old) (O.taken out.new) (O.faults out.old) (O.faults out.new) result }
{
    match why {
        PairWhy::Ended | PairWhy::Clock | PairWhy::Events => put_all(alloc, why, one, other, out),
        PairWhy::Crew => Err(PairFault::Crew),
        PairWhy::NoMemory => Err(PairFault::NoMemory),
    }
}

/// Writes both logs of a pair that ended for a reason for which the logs are written. Returns the answer of the program.
fn put_all<O: Sink>(
    alloc: Global,
    why: PairWhy,
    one: &Log,
    other: &Log,
    out: &mut O,
) -> Result<(), PairFault>
    requires { ArePut why }
    ensures { PutsLogs why (pair_text one.now.entries other.now.entries)
        (O.taken out.old) (O.taken out.new) (O.faults out.old) (O.faults out.new) result }
{
    match put_both(alloc, one, other, out) {
        Ok(()) => after_run(why),
        Err(LogFault::Out) => Err(PairFault::Out),
        Err(LogFault::NoMemory) => Err(PairFault::NoMemory),
    }
}

/// Returns the answer of the program after both logs were written.
fn after_run(why: PairWhy) -> Result<(), PairFault>
    requires { ArePut why }
    ensures { EndsAs why result }
{
    match why {
        PairWhy::Ended => Ok(()),
        PairWhy::Clock => Err(PairFault::Clock),
        PairWhy::Events => Err(PairFault::Limit),
        PairWhy::Crew => Err(PairFault::Crew),
        PairWhy::NoMemory => Err(PairFault::NoMemory),
    }
}

/// Writes two logs, with the line `--` between them.
fn put_both<O: Sink>(alloc: Global, one: &Log, other: &Log, out: &mut O) -> Result<(), LogFault>
    ensures ok { OnOk result (Writes (O.taken out.old) (O.taken out.new)
        (pair_text one.now.entries other.now.entries)) }
    ensures prefix { OnErr result (WritesPrefix (O.taken out.old) (O.taken out.new)
        (pair_text one.now.entries other.now.entries)) }
    ensures rose { IsErrOf result LogFault.Out → Rose (O.faults out.old) (O.faults out.new) }
    ensures calm { OnOk result (O.faults out.new ≡ O.faults out.old) }
{
    match put_log(alloc, one, out) {
        Ok(()) => put_second(alloc, other, out),
        Err(fault) => Err(fault),
    }
}

/// Writes the line `--`, and then a log.
fn put_second<O: Sink>(alloc: Global, log: &Log, out: &mut O) -> Result<(), LogFault>
    ensures ok { OnOk result (Writes (O.taken out.old) (O.taken out.new)
        (codes "--\n" ++ log_text log.now.entries)) }
    ensures prefix { OnErr result (WritesPrefix (O.taken out.old) (O.taken out.new)
        (codes "--\n" ++ log_text log.now.entries)) }
    ensures rose { IsErrOf result LogFault.Out → Rose (O.faults out.old) (O.faults out.new) }
    ensures calm { OnOk result (O.faults out.new ≡ O.faults out.old) }
{
    match out.put(b"--\n") {
        Ok(()) => put_log(alloc, log, out),
        Err(Failed) => Err(LogFault::Out),
    }
}
