//! The sentence about bytes that can't be tokenized.

use crate::reals::say_real;
use std::alloc::Global;
use tb_hint_parts::{Said, between, text_of};
use tb_lex::{LexFault, lex};

/// The reason why no token begins with a byte. A `%` is replaced by the byte.
static OUTSIDE: [(&str, &str); 7] = [
    (";", "`%` isn't part of the language"),
    ("|", "`%` alone is no symbol"),
    ("-", "no digit follows the `%`"),
    ("%", "`%` alone is no symbol"),
    ("'", "`%` begins no token"),
    ("#", "`%` begins no token"),
    ("/", "`%` begins no token"),
];

/// The help about such a byte.
static INSTEAD: [(&str, &str); 7] = [
    (
        ";",
        "write `.` between two steps; nothing stands at the end of a definition",
    ),
    (
        "|",
        "either x or y is written `x + y`; x and y side by side are written `x || y`",
    ),
    (
        "-",
        "a name begins with a letter, and a number with a digit or with `-` and a digit",
    ),
    ("%", "a comment begins with two of them"),
    ("'", "a string stands between two `\"`"),
    ("#", "a comment begins with two percent signs"),
    ("/", "a comment begins with two percent signs"),
];

/// Says why the bytes of the script can't be tokenized.
pub(crate) fn say_lex(said: &mut Said, fault: LexFault) {
    let text = said.source.text;
    match fault {
        LexFault::BadByte(at) => say_byte(said, at),
        LexFault::OpenString(_) => {
            said.say("this string isn't closed on its line", &[]);
            said.help(
                "close it with `\"`; a newline in a string is written `\\n`",
                &[],
            );
        }
        LexFault::Real(at) => {
            let number = numeral(between(text, at, text.len()));
            say_real(said, number, between(text, 0, at));
        }
        LexFault::IntRange(at) => {
            let number = numeral(between(text, at, text.len()));
            said.say("the number `%` doesn't fit in 64 bits", &[number]);
            said.help(
                "numbers go from -9223372036854775808 to 9223372036854775807",
                &[],
            );
        }
        LexFault::TooMany => {
            said.say("the script has more than 200,000 tokens", &[]);
            said.help(
                "move parts that are repeated to a process that is called",
                &[],
            );
        }
        LexFault::NoMemory => said.lack(),
    }
}

/// Returns the signs, digits and points with which the text begins.
fn numeral(text: &[u8]) -> &[u8] {
    for (position, byte) in text.iter().enumerate() {
        if !matches!(*byte, b'0'..=b'9' | b'.' | b'-') {
            return &text[..position];
        }
    }
    text
}

/// Says why no token can begin or continue with the byte at this position.
fn say_byte(said: &mut Said, at: usize) {
    let text = said.source.text;
    let byte = between(text, at, at.saturating_add(1));
    match lex_fault(said.alloc, between(text, 0, at)) {
        Some(LexFault::OpenString(_)) => say_in_string(
            said,
            between(text, at, at.saturating_add(2)),
        ),
        Some(LexFault::NoMemory) => said.lack(),
        _ => say_outside(said, byte),
    }
}

fn lex_fault(alloc: Global, text: &[u8]) -> Option<LexFault> {
    match lex(alloc, text) {
        Ok(_) => None,
        Err(fault) => Some(fault),
    }
}

/// Says why the open string can't continue with the first of these two bytes.
fn say_in_string(said: &mut Said, bytes: &[u8]) {
    match bytes {
        [b'\\', 33..=126] => {
            said.say("`%` is no escape", &[bytes]);
            say_escapes(said);
        }
        [b'\\', ..] => {
            said.say("the backslash begins no escape", &[]);
            say_escapes(said);
        }
        [0..=31, ..] => {
            said.say("this control character can't stand in a string", &[]);
            said.help("in a string write `\\n`, `\\r` or `\\t`", &[]);
        }
        _ => said.say("the string isn't well-formed UTF-8 here", &[]),
    }
}

fn say_escapes(said: &mut Said) {
    said.help(
        "in a string write `\\\\`, `\\\"`, `\\n`, `\\r` or `\\t`",
        &[],
    );
}

fn say_outside(said: &mut Said, byte: &[u8]) {
    let Some(sentence) = text_of(OUTSIDE.as_slice(), byte) else {
        return say_other(said, byte);
    };
    said.say(sentence, &[byte]);
    if let Some(help) = text_of(INSTEAD.as_slice(), byte) {
        said.help(help, &[]);
    }
}

fn say_other(said: &mut Said, byte: &[u8]) {
    match byte {
        [33..=126] => said.say("`%` begins no token", &[byte]),
        [128..=255] => {
            said.say("this character begins no token", &[]);
            said.help(
                "only strings and comments have characters beyond ASCII",
                &[],
            );
        }
        _ => said.say("this control character begins no token", &[]),
    }
}
