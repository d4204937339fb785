//! The commands: their requests, the rows of the table, and how a command is made of the values of its arguments.

ghost use Rattle.std.specs.Prelude.{◌≡◌, map, option_map, option_copied, string_bytes, IfOk};
ghost use Rattle.tb_cli.specs.Parts.{parts_of};
ghost use Rattle.tb_cli.specs.Table.{make, IsWithin, check, sim, run, verify, iface, ring, row_named};
ghost use Rattle.tb_cli.specs.Helpers.Tables.{row_of};
ghost use Rattle.tb_cli.specs.Helpers.Fitting.{row_by, FormFits};

use crate::table::{Form, Kind, Row, Setting, Verb, find_row};
use crate::values::{operand_number, operand_text, option_commands, option_file, option_number};
use std::alloc::Global;
use tb_terms::{NoMemory, Text, Texts};

/// The command that the arguments of the command line request.
#[derive(Debug, Drop)]
pub enum Command {
    /// A check whether a script is accepted.
    Check {
        /// The name of the file with the script.
        script: Text,
    },
    /// A simulation of a bus, whose log is written.
    Sim {
        /// The name of the file with the script.
        script: Text,
        /// The name of the file with the feed. Without one, the feed is empty.
        feed: Option<Text>,
        /// The commands to connect, in order.
        connects: Texts,
        /// The greatest number of steps.
        steps: u64,
        /// The greatest number of entries of the log.
        events: u32,
    },
    /// A run of a bus with live tools, whose log is written.
    Run {
        /// The name of the file with the script.
        script: Text,
        /// The commands to connect, in order.
        connects: Texts,
        /// The greatest number of ticks of the clock.
        ticks: u64,
        /// The greatest number of entries of the log.
        events: u32,
    },
    /// A check whether a file is the text of a trace of the script, with these commands connected.
    Verify {
        /// The name of the file with the script.
        script: Text,
        /// The name of the file with the log.
        log: Text,
        /// The commands to connect, in order.
        connects: Texts,
    },
    /// The interface of a tool in a script: the lines that the tool can receive and send.
    Iface {
        /// The name of the file with the script.
        script: Text,
        /// The name of the tool. Any string is accepted as a name here.
        tool: Text,
    },
    /// A simulation of a ring of `n` processes around which a message goes `k` times, and a summary of it.
    Ring {
        /// The number of processes.
        n: u32,
        /// The number of rounds.
        k: u32,
    },
}

const FEED: Setting = Setting {
    name: "--feed",
    kind: Kind::File,
    usual: 0,
};

const CONNECT: Setting = Setting {
    name: "--connect",
    kind: Kind::Command,
    usual: 0,
};

const STEPS: Setting = Setting {
    name: "--steps",
    kind: Kind::Number {
        least: 1,
        most: 4_000_000,
    },
    usual: 1_000_000,
};

pub(crate) const TICKS: Setting = Setting {
    name: "--ticks",
    kind: Kind::Number {
        least: 0,
        most: 10_000_000,
    },
    usual: 36_000,
};

pub(crate) const EVENTS: Setting = Setting {
    name: "--events",
    kind: Kind::Number {
        least: 1,
        most: 4_000_000,
    },
    usual: 1_000_000,
};

const CHECK: Row = Row {
    verb: Verb::Check,
    word: "check",
    form: Form {
        operands: &[Kind::File],
        options: &[],
    },
};

const SIM: Row = Row {
    verb: Verb::Sim,
    word: "sim",
    form: Form {
        operands: &[Kind::File],
        options: &[FEED, CONNECT, STEPS, EVENTS],
    },
};

const RUN: Row = Row {
    verb: Verb::Run,
    word: "run",
    form: Form {
        operands: &[Kind::File],
        options: &[CONNECT, TICKS, EVENTS],
    },
};

const VERIFY: Row = Row {
    verb: Verb::Verify,
    word: "verify",
    form: Form {
        operands: &[Kind::File, Kind::File],
        options: &[CONNECT],
    },
};

const IFACE: Row = Row {
    verb: Verb::Iface,
    word: "iface",
    form: Form {
        operands: &[Kind::File, Kind::File],
        options: &[],
    },
};

const RING: Row = Row {
    verb: Verb::Ring,
    word: "ring",
    form: Form {
        operands: &[
            Kind::Number {
                least: 2,
                most: 10_000,
            },
            Kind::Factor { most: 1_000_000 },
        ],
        options: &[],
    },
};

static TABLE: [Row; 6] = [CHECK, SIM, RUN, VERIFY, IFACE, RING];

/// Returns the row of the command with this first argument.
pub(crate) fn row_named(word: &str) -> Option<&'static Row>
    ensures { option_map row_of (option_copied result) ≡ row_named word.now }
{
    find_row(&TABLE, word)
}

/// Makes this command from the arguments after the first.
pub(crate) fn make_command(alloc: Global, verb: Verb, words: &[String]) -> Result<Command, NoMemory>
    requires { FormFits (row_by verb).form (parts_of (map string_bytes words.now)) }
    ensures is { IfOk result
        (λ command. command ≡ make verb (parts_of (map string_bytes words.now))) }
    ensures within { IfOk result IsWithin }
{
    match verb {
        Verb::Check => make_check(alloc, words),
        Verb::Sim => make_sim(alloc, words),
        Verb::Run => make_run(alloc, words),
        Verb::Verify => make_verify(alloc, words),
        Verb::Iface => make_iface(alloc, words),
        Verb::Ring => Ok(make_ring(words)),
    }
}

fn make_check(alloc: Global, words: &[String]) -> Result<Command, NoMemory>
    requires { FormFits check.form (parts_of (map string_bytes words.now)) }
    ensures is { IfOk result
        (λ command. command ≡ make Verb.Check (parts_of (map string_bytes words.now))) }
    ensures within { IfOk result IsWithin }
{
    let script = operand_text(alloc, words, 0)?;
    Ok(Command::Check { script })
}

fn make_sim(alloc: Global, words: &[String]) -> Result<Command, NoMemory>
    requires { FormFits sim.form (parts_of (map string_bytes words.now)) }
    ensures is { IfOk result
        (λ command. command ≡ make Verb.Sim (parts_of (map string_bytes words.now))) }
    ensures within { IfOk result IsWithin }
{
    let script = operand_text(alloc, words, 0)?;
    let feed = option_file(alloc, &FEED, words)?;
    let connects = option_commands(alloc, &CONNECT, words)?;
    let steps = option_number(&STEPS, words);
    let events = option_number(&EVENTS, words);
    Ok(Command::Sim {
        script,
        feed,
        connects,
        steps: u64::from(steps),
        events,
    })
}

fn make_run(alloc: Global, words: &[String]) -> Result<Command, NoMemory>
    requires { FormFits run.form (parts_of (map string_bytes words.now)) }
    ensures is { IfOk result
        (λ command. command ≡ make Verb.Run (parts_of (map string_bytes words.now))) }
    ensures within { IfOk result IsWithin }
{
    let script = operand_text(alloc, words, 0)?;
    let connects = option_commands(alloc, &CONNECT, words)?;
    let ticks = option_number(&TICKS, words);
    let events = option_number(&EVENTS, words);
    Ok(Command::Run {
        script,
        connects,
        ticks: u64::from(ticks),
        events,
    })
}

fn make_verify(alloc: Global, words: &[String]) -> Result<Command, NoMemory>
    requires { FormFits verify.form (parts_of (map string_bytes words.now)) }
    ensures is { IfOk result
        (λ command. command ≡ make Verb.Verify (parts_of (map string_bytes words.now))) }
    ensures within { IfOk result IsWithin }
{
    let script = operand_text(alloc, words, 0)?;
    let log = operand_text(alloc, words, 1)?;
    let connects = option_commands(alloc, &CONNECT, words)?;
    Ok(Command::Verify {
        script,
        log,
        connects,
    })
}

fn make_iface(alloc: Global, words: &[String]) -> Result<Command, NoMemory>
    requires { FormFits iface.form (parts_of (map string_bytes words.now)) }
    ensures is { IfOk result
        (λ command. command ≡ make Verb.Iface (parts_of (map string_bytes words.now))) }
    ensures within { IfOk result IsWithin }
{
    let script = operand_text(alloc, words, 0)?;
    let tool = operand_text(alloc, words, 1)?;
    Ok(Command::Iface { script, tool })
}

fn make_ring(words: &[String]) -> Command
    requires { FormFits ring.form (parts_of (map string_bytes words.now)) }
    ensures is { result ≡ make Verb.Ring (parts_of (map string_bytes words.now)) }
    ensures within { IsWithin result }
{
    let n = operand_number(words, 0);
    let k = operand_number(words, 1);
    Command::Ring { n, k }
}
