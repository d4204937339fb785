//! The pair that arguments request, and the form of these arguments.

ghost use Rattle.std.specs.Prelude.{◌≡◌, map, string_bytes, IfOk};
ghost use Rattle.tb_cli.specs.Parts.{parts_of};
ghost use Rattle.tb_cli.specs.Table.{make_pair, pair, IsPairWithin};
ghost use Rattle.tb_cli.specs.Helpers.Fitting.{FormFits};

use crate::command::{EVENTS, TICKS};
use crate::table::{Form, Kind};
use crate::values::{operand_text, option_number};
use std::alloc::Global;
use tb_terms::{NoMemory, Text};

/// The pair that arguments request.
#[derive(Drop)]
pub struct PairCommand {
    /// The name of the file with the script of the first bus.
    pub first: Text,
    /// The name of the file with the script of the second bus.
    pub second: Text,
    /// The greatest number of ticks.
    pub ticks: u64,
    /// The greatest number of entries of each of the two logs.
    pub events: u32,
}

pub(crate) static PAIR: Form = Form {
    operands: &[Kind::File, Kind::File],
    options: &[TICKS, EVENTS],
};

/// Makes the pair of arguments that have no error.
pub(crate) fn make_pair(alloc: Global, words: &[String]) -> Result<PairCommand, NoMemory>
    requires { FormFits pair (parts_of (map string_bytes words.now)) }
    ensures is { IfOk result
        (λ command. command ≡ make_pair (parts_of (map string_bytes words.now))) }
    ensures within { IfOk result IsPairWithin }
{
    let first = operand_text(alloc, words, 0)?;
    let second = operand_text(alloc, words, 1)?;
    let ticks = option_number(&TICKS, words);
    let events = option_number(&EVENTS, words);
    Ok(PairCommand {
        first,
        second,
        ticks: u64::from(ticks),
        events,
    })
}
