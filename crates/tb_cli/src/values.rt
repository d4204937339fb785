//! The values of arguments that have no error.

ghost use Rattle.std.specs.Prelude.{◌≡◌, ◌≤◌, ◌<◌, ◌^◌, map, length, get_or, slice_get, string_bytes, option_copied, IsTrue, IfOk, OnOk, Some};
ghost use Rattle.tb_read.specs.Spelling.{digits_value};
ghost use Rattle.tb_terms.specs.Names.{is_text};
ghost use Rattle.tb_cli.specs.Parts.{parts_of, given};
ghost use Rattle.tb_cli.specs.Table.{operand, file_of, commands_of, number_of, most_connects};
ghost use Rattle.tb_cli.specs.Helpers.Tables.{setting_of};
ghost use Rattle.tb_cli.specs.Helpers.Fitting.{OperandFits, OptionFits, IsIn, IsNumber};

use crate::parts::{OPERANDS, find_or_empty, find_value};
use crate::table::{Kind, Setting};
use std::alloc::Global;
use tb_read::digits_value;
use tb_terms::{Items, NoMemory, Text, Texts};

/// Returns the operand at this place (from 0), a string.
pub(crate) fn operand_text(alloc: Global, words: &[String], place: usize) -> Result<Text, NoMemory>
    requires { OperandFits place Kind.File (parts_of (map string_bytes words.now)) }
    ensures { IfOk result (λ text. text ≡ operand place (parts_of (map string_bytes words.now))) }
{
    let word = operand(words, place);
    make_text(alloc, word)
}

/// Returns the operand at this place (from 0), a number.
pub(crate) fn operand_number(words: &[String], place: usize) -> u32
    requires { digits_value (operand place (parts_of (map string_bytes words.now))) < 2 ^ 32 }
    ensures { result ≡ digits_value (operand place (parts_of (map string_bytes words.now))) }
{
    digits_value(operand(words, place).as_bytes()) as u32
}

fn operand(words: &[String], place: usize) -> &str
    ensures { result.now ≡ operand place (parts_of (map string_bytes words.now)) }
{
    find_or_empty(words, OPERANDS, place)
}

/// Returns the name of the file that this option gives, if the option is given.
pub(crate) fn option_file(
    alloc: Global,
    option: &Setting,
    words: &[String],
) -> Result<Option<Text>, NoMemory>
    requires kind { option.now.kind ≡ Kind.File }
    requires fits { OptionFits (setting_of option.now) (parts_of (map string_bytes words.now)) }
    ensures { IfOk result
        (λ file. file ≡ file_of (setting_of option.now) (parts_of (map string_bytes words.now))) }
{
    match find_value(words, Some(option.name), 0) {
        Some(word) => Ok(Some(make_text(alloc, word)?)),
        None => Ok(None),
    }
}

/// Returns the commands that this option gives, in order.
pub(crate) fn option_commands(
    alloc: Global,
    option: &Setting,
    words: &[String],
) -> Result<Texts, NoMemory>
    requires kind { option.now.kind ≡ Kind.Command }
    requires fits { OptionFits (setting_of option.now) (parts_of (map string_bytes words.now)) }
    ensures is { IfOk result (λ commands. commands
        ≡ commands_of (setting_of option.now) (parts_of (map string_bytes words.now))) }
    ensures few { IfOk result (λ commands. length commands ≤ most_connects) }
{
    let mut commands = Items::new(alloc);
    let mut place = 0;
    while let Some(word) = find_value(words, Some(option.name), place) {
        commands.push(make_text(alloc, word)?)?;
        place += 1;
    }
    Ok(commands)
}

/// Returns the number that this option gives, or the default.
pub(crate) fn option_number(option: &Setting, words: &[String]) -> u32
    requires kind { IsNumber option.now.kind }
    requires usual { IsIn option.now.kind option.now.usual }
    requires fits { OptionFits (setting_of option.now) (parts_of (map string_bytes words.now)) }
    ensures is { result
        ≡ number_of (setting_of option.now) (parts_of (map string_bytes words.now)) }
    ensures within { IsIn option.now.kind result }
{
    match find_value(words, Some(option.name), 0) {
        Some(word) => digits_value(word.as_bytes()) as u32,
        None => option.usual,
    }
}

fn make_text(alloc: Global, word: &str) -> Result<Text, NoMemory>
    requires { IsTrue (is_text word.now) }
    ensures { IfOk result (λ text. text ≡ word.now) }
{
    match Text::from_str(alloc, word) {
        Ok(Some(text)) => Ok(text),
        Ok(None) => unreachable!(),
        Err(NoMemory) => Err(NoMemory),
    }
}
