//! The sentence about a token at which the source can't be parsed. Trying the parser shows which tokens may come there.

use crate::cures::cure;
use crate::unfinished::{is_behind_symbol, is_symbol, missing_word, note_open, note_symbol};
use std::alloc::Global;
use tb_hint_parts::{Said, between, is_among, joint, text_of};
use tb_lex::{LexFault, Tokens, lex};
use tb_parse::{ParseFault, parse};
use tb_source_map::mark_at;
use tb_terms::{Items, NoMemory};

/// A token of each kind that the grammar distinguishes.
static CANDIDATES: [&str; 40] = [
    "process", "is", "tool", "toolbus", "let", "in", "endlet", "if", "then", "else", "fi",
    "create", "command", "tau", "delay", "int", "x", "X", "0", "\"\"", "(", ")", "[", "]", "{",
    "}", ",", ".", ":", ":=", "=", "?", "+", "*", "||", ">>", "<", ">", "list", "bool",
];

/// The candidates with which a process may begin. A single name represents them all in the sentence.
static PROCESS: [&str; 6] = ["tau", "create", "X", "(", "let", "if"];

/// The candidates with which an expression may begin. A single name represents them all in the sentence.
static EXPRESSION: [&str; 13] = [
    "0", "\"\"", "x", "X", "[", "<", "tau", "delay", "int", "list", "bool", "command", "create",
];

/// The candidates that may be a name or a type. A single name represents them all in the sentence.
static NAME: [&str; 8] = [
    "x", "tau", "delay", "int", "list", "bool", "command", "create",
];

/// The names of the candidates that the sentence doesn't quote.
static UNQUOTED: [(&str, &str); 3] = [
    ("X", "a name that begins with an upper-case letter"),
    ("\"\"", "a string"),
    ("delay", "a time such as `delay(1)`"),
];

/// What the parser makes of tokens.
#[derive(Clone, Copy, PartialEq, Eq)]
enum Reading {
    /// The tokens parse as a script.
    Script,
    /// The tokens may begin a script.
    Begun,
    /// No script begins with the tokens, or the text can't be tokenized.
    Broken,
}

/// Says which tokens may come at this place, and which token is there.
pub(crate) fn say_syntax(said: &mut Said, token: usize) {
    let source = said.source;
    let prefix = between(source.text, 0, mark_at(source.tokens, token).from);
    said.say("expected ", &[]);
    match expected_behind(said.alloc, prefix) {
        Ok(expected) => {
            let missing = missing_word(&source, expected.as_slice(), token);
            say_expected(said, expected.as_slice(), missing, prefix);
            say_found(said, expected.as_slice(), token);
        }
        Err(NoMemory) => said.lack(),
    }
}

/// Says what may come: a name for each kind of construct, with commas between them and `or` before the last. The missing word comes after
/// the name of the construct that may begin here.
fn say_expected(said: &mut Said, expected: &[&'static str], missing: &str, prefix: &[u8]) {
    let construct = construct_of(expected);
    let ends = is_script(said, prefix);
    let count = count_names(expected, construct, ends);
    let mut position: usize = 0;
    if !construct.name.is_empty() {
        say_name(said, position, count, construct.name);
        position = 1;
    }
    if !missing.is_empty() {
        say_name(said, position, count, missing);
        position = position.saturating_add(1);
    }
    for word in expected {
        if !has(construct.words, *word) && word.as_bytes() != missing.as_bytes() {
            say_name(said, position, count, shown(*word));
            position = position.saturating_add(1);
        }
    }
    if ends {
        say_name(said, position, count, "the end of the script");
    }
}

/// Returns whether the tokens of the prefix parse as a script, so that it may end here.
fn is_script(said: &mut Said, prefix: &[u8]) -> bool {
    match reading_of(said.alloc, prefix) {
        Ok(reading) => reading == Reading::Script,
        Err(NoMemory) => {
            said.lack();
            false
        }
    }
}

/// Returns the number of names in the sentence.
fn count_names(expected: &[&'static str], construct: Construct, ends: bool) -> usize {
    let mut count: usize = 0;
    for word in expected {
        if !has(construct.words, *word) {
            count = count.saturating_add(1);
        }
    }
    if !construct.name.is_empty() {
        count = count.saturating_add(1);
    }
    if ends {
        count = count.saturating_add(1);
    }
    count
}

fn say_name(said: &mut Said, position: usize, count: usize, name: &str) {
    said.say(joint(position, count, " or "), &[]);
    said.say(template_of(name), &[name.as_bytes()]);
}

fn say_found(said: &mut Said, expected: &[&'static str], token: usize) {
    let source = said.source;
    let found = source.word(token);
    if found.is_empty() {
        said.say(", but the script ends here", &[]);
    } else {
        said.say(", but found `%`", &[found]);
    }
    say_cure(said, expected, token);
}

/// Adds a note at a construct before this token that isn't finished, or help about the token. After an open parenthesis, a `+` or `*` is
/// probably not meant as an operator of an expression, so the note takes precedence.
fn say_cure(said: &mut Said, expected: &[&'static str], token: usize) {
    let source = said.source;
    if is_behind_symbol(&source, expected, token) {
        note_symbol(said, token);
    } else if is_symbol(&source, token) {
        note_open(said, expected, token);
        if !said.has_more() {
            cure(said, expected, token);
        }
    } else {
        cure(said, expected, token);
        if !said.has_more() {
            note_open(said, expected, token);
        }
    }
}

/// Returns the candidates that may come after the tokens of this text.
fn expected_behind(alloc: Global, prefix: &[u8]) -> Result<Items<&'static str>, NoMemory> {
    let mut expected = Items::new(alloc);
    for candidate in CANDIDATES.as_slice() {
        if reading_with(alloc, prefix, *candidate)? != Reading::Broken {
            expected.push(*candidate)?;
        }
    }
    Ok(expected)
}

/// Returns what the parser makes of the tokens of the prefix and this candidate.
fn reading_with(alloc: Global, prefix: &[u8], candidate: &str) -> Result<Reading, NoMemory> {
    let mut text = Vec::from_slice(alloc, prefix)?;
    text.push(b'\n')?;
    text.extend_from_slice(candidate.as_bytes())?;
    reading_of(alloc, text.as_slice())
}

fn reading_of(alloc: Global, text: &[u8]) -> Result<Reading, NoMemory> {
    match lex(alloc, text) {
        Ok(tokens) => reading_by(alloc, &tokens),
        Err(LexFault::NoMemory) => Err(NoMemory),
        Err(_) => Ok(Reading::Broken),
    }
}

fn reading_by(alloc: Global, tokens: &Tokens) -> Result<Reading, NoMemory> {
    match parse(alloc, tokens) {
        Ok(_) => Ok(Reading::Script),
        Err(ParseFault::Syntax(token)) if token < tokens.len() => Ok(Reading::Broken),
        Err(ParseFault::NoMemory) => Err(NoMemory),
        Err(_) => Ok(Reading::Begun),
    }
}

pub(crate) fn has(words: &[&'static str], word: &str) -> bool {
    is_among(words, word.as_bytes())
}

/// Returns whether a process may begin here. Where an expression may begin, a lower-case name (`x`) is expected too.
pub(crate) fn begins_process(expected: &[&'static str]) -> bool {
    has(expected, "tau") && !has(expected, "x")
}

/// A construct that may begin here, and the candidates that it represents.
#[derive(Clone, Copy)]
struct Construct {
    name: &'static str,
    words: &'static [&'static str],
}

/// Returns the construct that may begin here, or a construct without a name if none may.
fn construct_of(expected: &[&'static str]) -> Construct {
    if begins_process(expected) {
        return Construct {
            name: "a process (an atom, a call, `(`, `let` or `if`)",
            words: PROCESS.as_slice(),
        };
    }
    if has(expected, "0") {
        return Construct {
            name: "an expression",
            words: EXPRESSION.as_slice(),
        };
    }
    if has(expected, "x") {
        return Construct {
            name: "a name that begins with a lower-case letter",
            words: NAME.as_slice(),
        };
    }
    if has(expected, "bool") {
        return Construct {
            name: "a type (`bool`, `int`, `str`, `list` or `term`)",
            words: NAME.as_slice(),
        };
    }
    Construct {
        name: "",
        words: &[],
    }
}

fn shown(word: &'static str) -> &'static str {
    text_of(UNQUOTED.as_slice(), word.as_bytes()).unwrap_or(word)
}

/// Returns the template for this name. A name of several words isn't quoted.
fn template_of(name: &str) -> &'static str {
    for byte in name.as_bytes() {
        if *byte == b' ' {
            return "%";
        }
    }
    "`%`"
}

/// Says that the brackets or the body at this token are too deep.
pub(crate) fn say_deep(said: &mut Said, token: usize) {
    if said.source.is(token, "process") {
        said.say("the body of this process has more than 400 levels", &[]);
        said.help(
            "a step has one level; each `.`, `+`, `||`, `>>`, `*`, `let` and `if` has one more than its deepest part",
            &[],
        );
        return said.help("split it into several processes", &[]);
    }
    said.say(
        "128 of `(`, `[`, `let` and `if` are open before this one, and no more can be",
        &[],
    );
    said.help("move an inner part to a process of its own", &[]);
}
