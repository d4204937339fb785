//! The place of a format where `printf` has no text.

ghost use Rattle.std.specs.Prelude.{◌≡◌, ◌∷◌, [], ℕ, List, false, is_some};
ghost use Rattle.tb_func.specs.Printing.{shown};
ghost use Rattle.tb_why.specs.Formats.{fault_from, fault_with, fault_without, format_fault, is_directive};
ghost use Rattle.tb_why.specs.Helpers.Scenes.{fault_at, fault_or};

use crate::reason::FormatFault;
use tb_terms::Term;

/// The state of reading a format.
#[derive(Clone, Copy)]
struct Reading {
    /// The number of arguments that letters have taken.
    taken: usize,
    /// Whether the next byte is a letter after a `%`.
    begun: bool,
}

/// Returns the fault at the first place of the format that has no text. If each place has a text, the whole text is too long.
pub(crate) fn format_fault(terms: &[Term]) -> FormatFault
    ensures { result ≡ format_fault terms.now }
{
    match terms {
        [Term::Str(format), others @ ..] => fault_of(format.as_bytes(), others),
        _ => FormatFault::NoFormat,
    }
}

/// Returns the fault of a format with these arguments.
fn fault_of(format: &[u8], terms: &[Term]) -> FormatFault
    ensures { result ≡ fault_from false 1 format.now terms.now }
{
    let mut reading = Reading {
        taken: 0,
        begun: false,
    };
    for letter in format {
        if let Some(fault) = take(&mut reading, *letter, terms) {
            return fault;
        }
    }
    at_end(reading, terms)
}

/// Reads the next byte of the format. Returns the fault if this place has no text.
fn take(reading: &mut Reading, letter: u8, terms: &[Term]) -> Option<FormatFault>
    ensures { (rest : List ℕ) → fault_at reading.old (letter ∷ rest) terms.now
        ≡ fault_or result (fault_at reading.new rest terms.now) }
{
    if letter == b'%' {
        reading.begun = !reading.begun;
        return None;
    }
    if !reading.begun {
        return None;
    }
    reading.begun = false;
    if reading.taken >= terms.len() {
        return Some(fault_without(letter));
    }
    let term = &terms[reading.taken];
    reading.taken += 1;
    if is_shown(letter, term) {
        None
    } else {
        Some(fault_with(letter, reading.taken))
    }
}

/// Returns the fault of a letter for which no argument is left.
fn fault_without(letter: u8) -> FormatFault
    ensures { result ≡ fault_without letter }
{
    if is_directive(letter) {
        FormatFault::TooFew(letter)
    } else {
        FormatFault::NoDirective(letter)
    }
}

/// Returns the fault of a letter that doesn't print the argument with this number.
fn fault_with(letter: u8, number: usize) -> FormatFault
    ensures { result ≡ fault_with letter number }
{
    if is_directive(letter) {
        FormatFault::Differs(letter, number)
    } else {
        FormatFault::NoDirective(letter)
    }
}

/// Returns whether a letter is one of those that print an argument: `d`, `s`, or `t`.
fn is_directive(letter: u8) -> bool
    ensures { result ≡ is_directive letter }
{
    letter == b'd' || letter == b's' || letter == b't'
}

/// Returns the fault at the end of a format.
fn at_end(reading: Reading, terms: &[Term]) -> FormatFault
    ensures { result ≡ fault_at reading [] terms.now }
{
    if reading.begun {
        FormatFault::Ends
    } else if reading.taken < terms.len() {
        FormatFault::TooMany(reading.taken + 1)
    } else {
        FormatFault::TooLong
    }
}

/// Returns whether a letter prints this argument.
fn is_shown(letter: u8, term: &Term) -> bool
    ensures { result ≡ is_some (shown letter term.now) }
{
    match (letter, term) {
        (b'd', Term::Int(_)) | (b's', Term::Str(_)) | (b't', _) => true,
        _ => false,
    }
}
