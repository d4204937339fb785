//! Notes at a construct that begins before a token at which the source can't be parsed, and that isn't finished.

use crate::calls::say_repetition;
use crate::syntax::{begins_process, has};
use tb_hint_parts::{Said, Source, is_among, is_lower, text_of};

/// The operators between two processes.
static BETWEEN: [&str; 5] = [".", "+", "*", "||", ">>"];

/// The other tokens before which a process must have ended.
static ENDS: [&str; 7] = [")", "endlet", "fi", "else", "process", "tool", "toolbus"];

/// The bracketed constructs: the token with which each begins, and the token with which it ends.
static CLOSED: [(&str, &str); 5] = [
    ("(", ")"),
    ("[", "]"),
    ("{", "}"),
    ("if", "fi"),
    ("let", "endlet"),
];

/// The tokens with which bracketed constructs end.
static CLOSERS: [&str; 5] = [")", "]", "}", "fi", "endlet"];

/// The note about a construct without its end, by its first token.
static NOTES: [(&str, &str); 5] = [
    ("(", "this `(` isn't closed"),
    ("[", "this `[` isn't closed"),
    ("{", "this `{` isn't closed"),
    ("if", "this `if` has no `fi`"),
    ("let", "this `let` has no `endlet`"),
];

/// The words with which a definition begins.
static DEFINITIONS: [&str; 3] = ["process", "tool", "toolbus"];

/// Returns whether a process is missing at this token, after an operator between two processes.
pub(crate) fn is_behind_symbol(source: &Source, expected: &[&'static str], token: usize) -> bool {
    let found = source.word(token);
    let has_ended = found.is_empty()
        || is_among(ENDS.as_slice(), found)
        || is_symbol(source, token);
    has_ended && begins_process(expected) && is_symbol(source, token.saturating_sub(1))
}

/// Returns whether this token is an operator between two processes.
pub(crate) fn is_symbol(source: &Source, token: usize) -> bool {
    is_among(BETWEEN.as_slice(), source.word(token))
}

/// Adds a note at the operator before this token, after which no process comes.
pub(crate) fn note_symbol(said: &mut Said, token: usize) {
    let source = said.source;
    let symbol = token.saturating_sub(1);
    said.note(
        symbol,
        "nothing stands behind this `%`",
        &[source.word(symbol)],
    );
    if source.is(symbol, "*") {
        say_repetition(said);
    }
}

/// Adds a note at the innermost bracketed construct around this token, if its end may come here and is missing.
pub(crate) fn note_open(said: &mut Said, expected: &[&'static str], token: usize) {
    let source = said.source;
    if let Some(open) = unclosed(&source, expected, token) {
        let note = text_of(NOTES.as_slice(), source.word(open));
        said.note(open, note.unwrap_or(""), &[]);
    }
}

/// Returns the `fi` or `endlet` of the innermost bracketed construct around this token, if this end may come here and is missing.
/// Otherwise, returns an empty text.
pub(crate) fn missing_word(
    source: &Source,
    expected: &[&'static str],
    token: usize,
) -> &'static str {
    let end = match unclosed(source, expected, token) {
        Some(open) => end_of(source.word(open)),
        None => "",
    };
    if is_lower(end.as_bytes()) { end } else { "" }
}

/// Returns the first token of the innermost bracketed construct around this token, if its end may come here and is missing.
fn unclosed(source: &Source, expected: &[&'static str], token: usize) -> Option<usize> {
    let open = open_before(source, token)?;
    let end = end_of(source.word(open));
    if has(expected, end) && !is_closed(source, open, token, end) {
        return Some(open);
    }
    None
}

/// Returns the first token of the innermost bracketed construct that isn't closed before this token.
fn open_before(source: &Source, token: usize) -> Option<usize> {
    let mut depth: usize = 0;
    for position in (0..token).rev() {
        let word = source.word(position);
        if is_end(word) {
            depth = depth.saturating_add(1);
        } else if is_begin(word) {
            if depth == 0 {
                return Some(position);
            }
            depth = depth.saturating_sub(1);
        }
    }
    None
}

/// Returns whether the construct that begins at `open` is closed by this end, from `token` on. If another end comes first that no
/// construct around `open` can have, that end counts as superfluous, and the construct as closed.
fn is_closed(source: &Source, open: usize, token: usize, end: &str) -> bool {
    let mut depth: usize = 0;
    for position in token..source.tokens.len() {
        let word = source.word(position);
        if is_definition(word) {
            return false;
        } else if is_begin(word) {
            depth = depth.saturating_add(1);
        } else if is_end(word) {
            if depth == 0 {
                return word == end.as_bytes() || !is_wanted(source, open, word);
            }
            depth = depth.saturating_sub(1);
        }
    }
    false
}

/// Returns whether an open construct that begins before this token can have this end.
fn is_wanted(source: &Source, token: usize, end: &[u8]) -> bool {
    let mut inner = token;
    for _turn in 0..token {
        let Some(open) = open_before(source, inner) else {
            return false;
        };
        if end_of(source.word(open)).as_bytes() == end {
            return true;
        }
        inner = open;
    }
    false
}

fn is_begin(word: &[u8]) -> bool {
    !end_of(word).is_empty()
}

/// Returns the token that ends a construct which begins with this word, or an empty text if none does.
fn end_of(word: &[u8]) -> &'static str {
    text_of(CLOSED.as_slice(), word).unwrap_or("")
}

fn is_end(word: &[u8]) -> bool {
    is_among(CLOSERS.as_slice(), word)
}

fn is_definition(word: &[u8]) -> bool {
    is_among(DEFINITIONS.as_slice(), word)
}
