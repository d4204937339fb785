//! The reader of the arguments of the command line, and of the arguments of a pair.

ghost use Rattle.std.specs.Prelude.{◌≡◌, ◌≢◌, ℕ, ◌+◌, ◌≤◌, ◌<◌, ◌^◌, ◌&&◌, ◌*◌, [], length, map, slice_get, nat_le, string_bytes, option_map, option_copied, Ok, IsOk, IfOk, IfErr, OnOk, Err, Some};
ghost use Rattle.tb_read.specs.Spelling.{is_digits, digits_value};
ghost use Rattle.tb_terms.specs.Names.{is_text, is_text_byte};
ghost use Rattle.tb_cli.specs.Parts.{AnOption, AWord, parts_of, name_of, given, operands_of};
ghost use Rattle.tb_cli.specs.Table.{option_named, pair, IsWithin, IsPairWithin};
ghost use Rattle.tb_cli.specs.Words.{Answer, asked, asked_pair, made, made_pair, form_answer, parts_answer, part_answer, whole_answer, setting_kind, operand_kind, checked_value, value_answer, text_answer, number_answer, most_times, once_more};
ghost use Rattle.tb_cli.specs.Helpers.Tables.{form_of, row_of, setting_of};
ghost use Rattle.tb_cli.specs.Helpers.Scanning.{part_of};
ghost use Rattle.tb_cli.specs.Helpers.Fitting.{row_by, FormFits};

use crate::command::{make_command, row_named};
use crate::pair_command::{PAIR, PairCommand, make_pair};
use crate::parts::{OPERANDS, count_values, find_or_empty, is_option, part_len};
use crate::table::{Form, Kind, Row, option_named};
use crate::{Command, WordFault};
use std::alloc::Global;
use tb_read::digits_value;
use tb_terms::NoMemory;

/// The greatest number of commands to connect.
const MOST_CONNECTS: usize = 16;

/// Returns the command that the arguments request.
pub fn read_words(alloc: Global, words: &Vec<String>) -> Result<Command, WordFault>
    ensures ok { IfOk result (λ command. asked (map string_bytes words.now.items) ≡ Ok command) }
    ensures fault { IfErr result (λ fault. fault ≢ WordFault.NoMemory
        → asked (map string_bytes words.now.items) ≡ Err fault) }

    // The command's numbers are in their ranges.
    ensures within { IfOk result IsWithin }

    // An error in the arguments is reported with and without memory.
    ensures memory { result ≡ Err WordFault.NoMemory
        → IsOk (asked (map string_bytes words.now.items)) }

    // Every command and each of its options is built.
    ensures built { (place : ℕ) → result ≢ Err (WordFault.NotBuilt place) }
{
    let words = words.as_slice();
    let Some(word) = words.first() else {
        return Err(WordFault::NoCommand);
    };
    let Some(row) = row_named(word.as_str()) else {
        return Err(WordFault::Unknown(1));
    };
    read_row(alloc, row, &words[1..])
}

/// Returns the command of this row that the arguments after the first request.
fn read_row(alloc: Global, row: &Row, words: &[String]) -> Result<Command, WordFault>
    requires { row_of row.now ≡ row_by row.now.verb }
    ensures ok { IfOk result
        (λ command. made (row_of row.now) (parts_of (map string_bytes words.now))
        (form_answer (row_of row.now).form 2 (parts_of (map string_bytes words.now))) ≡ Ok command) }
    ensures within { IfOk result IsWithin }
    ensures fault { IfErr result (λ fault. fault ≢ WordFault.NoMemory
        → made (row_of row.now) (parts_of (map string_bytes words.now))
        (form_answer (row_of row.now).form 2 (parts_of (map string_bytes words.now))) ≡ Err fault) }
    ensures memory { result ≡ Err WordFault.NoMemory
        → IsOk (made (row_of row.now) (parts_of (map string_bytes words.now))
        (form_answer (row_of row.now).form 2 (parts_of (map string_bytes words.now)))) }
{
    check_form(&row.form, 2, words)?;
    match make_command(alloc, row.verb, words) {
        Ok(command) => Ok(command),
        Err(NoMemory) => Err(WordFault::NoMemory),
    }
}

/// Returns the pair that these arguments request: two scripts, and limits. The first argument isn't a command.
pub fn read_pair_words(alloc: Global, words: &Vec<String>) -> Result<PairCommand, WordFault>
    ensures ok { IfOk result
        (λ command. asked_pair (map string_bytes words.now.items) ≡ Ok command) }
    ensures fault { IfErr result (λ fault. fault ≢ WordFault.NoMemory
        → asked_pair (map string_bytes words.now.items) ≡ Err fault) }

    // The command's numbers are in their ranges.
    ensures within { IfOk result IsPairWithin }

    // An error in the arguments is reported with and without memory.
    ensures memory { result ≡ Err WordFault.NoMemory
        → IsOk (asked_pair (map string_bytes words.now.items)) }

    // Each option is built.
    ensures built { (place : ℕ) → result ≢ Err (WordFault.NotBuilt place) }
{
    let words = words.as_slice();
    if words.is_empty() {
        return Err(WordFault::NoCommand);
    }
    read_pair(alloc, words)
}

/// Returns the pair that these arguments request. There is at least one argument.
fn read_pair(alloc: Global, words: &[String]) -> Result<PairCommand, WordFault>
    ensures ok { IfOk result (λ command. made_pair (parts_of (map string_bytes words.now))
        (form_answer pair 1 (parts_of (map string_bytes words.now))) ≡ Ok command) }
    ensures within { IfOk result IsPairWithin }
    ensures fault { IfErr result (λ fault. fault ≢ WordFault.NoMemory
        → made_pair (parts_of (map string_bytes words.now))
        (form_answer pair 1 (parts_of (map string_bytes words.now))) ≡ Err fault) }
    ensures memory { result ≡ Err WordFault.NoMemory
        → IsOk (made_pair (parts_of (map string_bytes words.now))
        (form_answer pair 1 (parts_of (map string_bytes words.now)))) }
{
    check_form(&PAIR, 1, words)?;
    match make_pair(alloc, words) {
        Ok(command) => Ok(command),
        Err(NoMemory) => Err(WordFault::NoMemory),
    }
}

/// Returns the first error in arguments of this form. The first argument is at position `first`.
fn check_form(form: &Form, first: usize, words: &[String]) -> Result<(), WordFault>
    requires { first ≤ 2 }
    ensures is { result
        ≡ form_answer (form_of form.now) first (parts_of (map string_bytes words.now)) }
    ensures told { result ≢ Err WordFault.NoMemory }
{
    check_parts(form, first, words)?;
    check_whole(form, words)
}

/// Returns `Missing` if the arguments have fewer operands than the form.
fn check_whole(form: &Form, words: &[String]) -> Result<(), WordFault>
    ensures is { result ≡ whole_answer (form_of form.now) (parts_of (map string_bytes words.now)) }
    ensures told { result ≢ Err WordFault.NoMemory }
{
    if count_values(words, OPERANDS) < form.operands.len() {
        Err(WordFault::Missing)
    } else {
        Ok(())
    }
}

/// Returns the first error in a part of the arguments. A missing operand isn't an error of a part.
fn check_parts(form: &Form, first: usize, words: &[String]) -> Result<(), WordFault>
    requires { first ≤ 2 }
    ensures is { result
        ≡ parts_answer (form_of form.now) [] first (parts_of (map string_bytes words.now)) }
    ensures told { result ≢ Err WordFault.NoMemory }
{
    let mut index = 0;
    while index < words.len() {
        let word = words[index].as_str();
        check_part(form, first, &words[..index], word, words.get(index + 1))?;
        index += part_len(word);
    }
    Ok(())
}

/// Returns the error of the part that begins with `word`, if it has one. `before` has the earlier arguments.
fn check_part(
    form: &Form,
    first: usize,
    before: &[String],
    word: &str,
    next: Option<&String>,
) -> Result<(), WordFault>
    requires few { length before.now < 2 ^ 62 }
    requires first { first ≤ 2 }
    ensures is { result ≡ part_answer (form_of form.now)
        (given (name_of (part_of word.now (option_map string_bytes (option_copied next.entry))))
        (parts_of (map string_bytes before.now))) (length before.now + first)
        (part_of word.now (option_map string_bytes (option_copied next.entry))) }
    ensures told { result ≢ Err WordFault.NoMemory }
{
    if is_option(word) {
        check_option(form, first, before, word, next)
    } else {
        check_operand(form, first, before, word)
    }
}

/// Returns the error of the operand `word`, if it has one. `before` has the earlier arguments.
fn check_operand(form: &Form, first: usize, before: &[String], word: &str) -> Result<(), WordFault>
    requires few { length before.now < 2 ^ 62 }
    requires first { first ≤ 2 }
    ensures is { result
        ≡ part_answer (form_of form.now) (operands_of (parts_of (map string_bytes before.now)))
        (length before.now + first) (AWord word.now) }
    ensures told { result ≢ Err WordFault.NoMemory }
{
    let position = before.len() + first;
    let kind = operand_kind(form, count_values(before, OPERANDS), position)?;
    let earliest = find_or_empty(before, OPERANDS, 0);
    check_value(kind, earliest, position, word)
}

/// Returns the kind of the operand at this position, after `place` other operands. If the form has no more operands, returns `Extra`.
fn operand_kind(form: &Form, place: usize, position: usize) -> Result<Kind, WordFault>
    ensures is { result ≡ operand_kind (slice_get (form_of form.now).operands place) position }
    ensures told { result ≢ Err WordFault.NoMemory }
{
    match form.operands.get(place) {
        Some(kind) => Ok(*kind),
        None => Err(WordFault::Extra(position)),
    }
}

/// Returns the error of an option and its value, if there is one. `before` has the earlier arguments.
fn check_option(
    form: &Form,
    first: usize,
    before: &[String],
    name: &str,
    value: Option<&String>,
) -> Result<(), WordFault>
    requires few { length before.now < 2 ^ 62 }
    requires first { first ≤ 2 }
    ensures is { result ≡ part_answer (form_of form.now)
        (given (Some name.now) (parts_of (map string_bytes before.now))) (length before.now + first)
        (AnOption name.now (option_map string_bytes (option_copied value.entry))) }
    ensures told { result ≢ Err WordFault.NoMemory }
{
    let position = before.len() + first;
    let kind = option_kind(form, count_values(before, Some(name)), position, name)?;
    let Some(value) = value else {
        return Err(WordFault::Missing);
    };
    let earliest = find_or_empty(before, Some(name), 0);
    check_value(kind, earliest, position + 1, value.as_str())
}

/// Returns the kind of value of the option with this name. Returns an error if the form has no such option, or if the option was already
/// given `times` times and can't be given again.
fn option_kind(form: &Form, times: usize, position: usize, name: &str) -> Result<Kind, WordFault>
    ensures is { result
        ≡ setting_kind (option_named (form_of form.now).options name.now) times position }
    ensures told { result ≢ Err WordFault.NoMemory }
{
    let Some(option) = option_named(form.options, name) else {
        return Err(WordFault::Unknown(position));
    };
    if times < most_times(option.kind) {
        Ok(option.kind)
    } else {
        Err(once_more(option.kind, position))
    }
}

/// Returns how many times an option with such a value can be given.
fn most_times(kind: Kind) -> usize
    ensures { result ≡ most_times kind }
{
    match kind {
        Kind::Command => MOST_CONNECTS,
        Kind::File | Kind::Number { .. } | Kind::Factor { .. } => 1,
    }
}

/// Returns the error of an option at this position that was already given as often as it can be.
fn once_more(kind: Kind, position: usize) -> WordFault
    ensures is { result ≡ once_more kind position }
    ensures told { result ≢ WordFault.NoMemory }
{
    match kind {
        Kind::Command => WordFault::Range(position),
        Kind::File | Kind::Number { .. } | Kind::Factor { .. } => WordFault::Extra(position),
    }
}

/// Returns the error of the value at this position, if it has one. `first` is the first value under the same name, or empty.
fn check_value(kind: Kind, first: &str, position: usize, word: &str) -> Result<(), WordFault>
    ensures is { result ≡ value_answer kind first.now position word.now }
    ensures told { result ≢ Err WordFault.NoMemory }
{
    match kind {
        Kind::File | Kind::Command => check_text(position, word),
        Kind::Number { least, most } => {
            let number = digits_value(word.as_bytes());
            let in_range = u64::from(least) <= number && number <= u64::from(most);
            check_number(in_range, position, word)
        }
        Kind::Factor { most } => {
            let in_range = is_factor(first, word, most);
            check_number(in_range, position, word)
        }
    }
}

/// Returns whether the second number is at least 1, and the product of both is at most `most`.
fn is_factor(first: &str, word: &str, most: u32) -> bool
    ensures { result ≡ nat_le 1 (digits_value word.now)
        && nat_le (digits_value first.now * digits_value word.now) most }
{
    let number = digits_value(word.as_bytes());
    let product = digits_value(first.as_bytes()).saturating_mul(number);
    1 <= number && product <= u64::from(most)
}

fn check_text(position: usize, word: &str) -> Result<(), WordFault>
    ensures is { result ≡ text_answer position word.now }
    ensures told { result ≢ Err WordFault.NoMemory }
{
    if is_text(word.as_bytes()) {
        Ok(())
    } else {
        Err(WordFault::Unknown(position))
    }
}

fn check_number(in_range: bool, position: usize, word: &str) -> Result<(), WordFault>
    ensures is { result ≡ number_answer in_range position word.now }
    ensures told { result ≢ Err WordFault.NoMemory }
{
    if !is_digits(word.as_bytes()) {
        Err(WordFault::Number(position))
    } else if in_range {
        Ok(())
    } else {
        Err(WordFault::Range(position))
    }
}

fn is_text(bytes: &[u8]) -> bool
    ensures { result ≡ is_text bytes.now }
{
    for byte in bytes {
        if !is_text_byte(*byte) {
            return false;
        }
    }
    true
}

fn is_text_byte(byte: u8) -> bool
    ensures { result ≡ is_text_byte byte }
{
    byte >= 32 || byte == b'\t' || byte == b'\n' || byte == b'\r'
}

fn is_digits(bytes: &[u8]) -> bool
    ensures { result ≡ is_digits bytes.now }
{
    if bytes.is_empty() {
        return false;
    }
    for byte in bytes {
        if !byte.is_ascii_digit() {
            return false;
        }
    }
    true
}
