//! The sentence about a number with a decimal point.

use tb_hint_parts::{Said, Source, between};
use tb_lex::{LexFault, lex};
use tb_syntax::is_time_word;

/// Says that the number after this text has a decimal point.
pub(crate) fn say_real(said: &mut Said, number: &[u8], prefix: &[u8]) {
    said.say("the number `%` has a decimal point", &[number]);
    said.help("scripts have whole numbers only", &[]);
    match lex(said.alloc, prefix) {
        Ok(tokens) => {
            let source = Source {
                name: "",
                text: prefix,
                tokens: tokens.as_slice(),
            };
            say_time(said, number, word_of_argument(&source));
        }
        Err(LexFault::NoMemory) => said.lack(),
        Err(_) => {}
    }
}

/// Returns the word whose first argument begins after all tokens, or an empty text if there is none.
fn word_of_argument<'a>(source: &Source<'a>) -> &'a [u8] {
    let end = source.tokens.len();
    if source.has_before(end, 1, "(") {
        return source.word(end.saturating_sub(2));
    }
    b""
}

/// Adds help about a number that is the argument of a time or of `sec`: its unit, or its form in milliseconds.
fn say_time(said: &mut Said, number: &[u8], word: &[u8]) {
    let is_time = is_time_word(word);
    if is_time {
        said.help(
            "the number in `%(..)` counts ticks; in a run, a tick takes 100 milliseconds or more",
            &[word],
        );
    }
    if (is_time || word == b"sec".as_slice()) && has_milliseconds(number) {
        say_milliseconds(said, number);
    }
}

/// Returns whether the number, taken as seconds, is a whole number of milliseconds, more than 0, and not too large.
fn has_milliseconds(number: &[u8]) -> bool {
    let whole = before_point(number);
    let part = behind_point(number);
    whole.len() <= 12
        && part.len() <= 3
        && are_digits(whole)
        && are_digits(part)
        && !(without_zeros(whole).is_empty() && without_zeros(part).is_empty())
}

/// Adds help that shows how to write a time of this number of seconds.
fn say_milliseconds(said: &mut Said, number: &[u8]) {
    let whole = without_zeros(before_point(number));
    let digits = behind_point(number);
    let part = if whole.is_empty() {
        without_zeros(digits)
    } else {
        digits
    };
    let zeros: &[u8] = match digits.len() {
        1 => b"00",
        2 => b"0",
        _ => b"",
    };
    said.help("% seconds are `msec(%%%)`", &[number, whole, part, zeros]);
}

fn before_point(number: &[u8]) -> &[u8] {
    between(number, 0, point_of(number))
}

fn behind_point(number: &[u8]) -> &[u8] {
    between(number, point_of(number).saturating_add(1), number.len())
}

/// Returns the position of the first point, or the length of the number if it has none.
fn point_of(number: &[u8]) -> usize {
    for position in 0..number.len() {
        if number[position] == b'.' {
            return position;
        }
    }
    number.len()
}

fn are_digits(text: &[u8]) -> bool {
    for byte in text {
        if !matches!(*byte, b'0'..=b'9') {
            return false;
        }
    }
    true
}

/// Returns the digits from the first on that isn't 0.
fn without_zeros(digits: &[u8]) -> &[u8] {
    for position in 0..digits.len() {
        if digits[position] != b'0' {
            return between(digits, position, digits.len());
        }
    }
    b""
}
