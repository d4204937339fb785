//! Help about a token at which the source can't be parsed.

use crate::syntax::{begins_process, has};
use std::alloc::Global;
use tb_hint_parts::{
    Near, Said, Source, head_of, is_lower, is_upper, say_assigned_operator, say_form,
    say_functions, signature_of, text_of,
};
use tb_syntax::{atom_word, is_reserved, is_time_word};
use tb_terms::NoMemory;

/// The reserved words, which are never names.
static RESERVED: [&str; 11] = [
    "process", "is", "tool", "toolbus", "let", "in", "endlet", "if", "then", "else", "fi",
];

/// The words with which a time begins.
static TIMES: [&str; 4] = ["delay", "timeout", "abs-delay", "abs-timeout"];

/// The word in the braces of a tool.
static COMMAND: [&str; 1] = ["command"];

/// The help about a definition after `toolbus(..)`, by its first word. A `%` is replaced by this word.
static AFTER_END: [(&str, &str); 3] = [
    (
        "process",
        "`toolbus(..)` is the last part of a script: move this `%` before it",
    ),
    (
        "tool",
        "`toolbus(..)` is the last part of a script: move this `%` before it",
    ),
    (
        "toolbus",
        "a script has one `toolbus(..)`: name all processes that start in it",
    ),
];

/// Adds help about the token that is found, or about the end of the script. `expected` has the tokens that may come here.
pub(crate) fn cure(said: &mut Said, expected: &[&'static str], token: usize) {
    if said.source.word(token).is_empty() {
        cure_end(said, expected);
    } else {
        cure_token(said, expected, token);
    }
}

/// Adds help about a script that ends too early.
fn cure_end(said: &mut Said, expected: &[&'static str]) {
    if has(expected, "toolbus") {
        said.help(
            "a script ends with `toolbus(..)`, which names the processes that start",
            &[],
        );
    }
}

fn cure_token(said: &mut Said, expected: &[&'static str], token: usize) {
    let source = said.source;
    let found = source.word(token);
    if expected.is_empty() {
        cure_after_end(said, found);
    } else if is_lower(found) || is_upper(found) {
        cure_word(said, expected, token);
    } else if source.is(token, "=") && has(expected, ":=") {
        said.help("did you mean `:=`?", &[]);
    } else if source.is(token, ")") && has(expected, "0") {
        cure_parentheses(said, token);
    } else if source.is(token, ")") && has(expected, ",") {
        cure_create(said, token);
    } else {
        cure_operator(said, expected, token);
    }
}

/// Adds help that shows the form of `create`, if this token is directly within the brackets of a `create`.
fn cure_create(said: &mut Said, token: usize) {
    let source = said.source;
    if let Some(head) = head_of(&source, token) {
        if source.is(head.token, "create") {
            say_form(said, b"create");
        }
    }
}

/// Adds help that names the function to write in place of the operator at this token or before it.
fn cure_operator(said: &mut Said, expected: &[&'static str], token: usize) {
    let source = said.source;
    if begins_process(expected) {
        say_assigned_operator(said, token);
    } else if is_behind_expression(&source, expected, token) && !is_placeholder(&source, token) {
        say_functions(said, source.word(token));
    }
}

/// Returns whether an expression ends before this token. The type of a variable or of a parameter isn't an expression.
fn is_behind_expression(source: &Source, expected: &[&'static str], token: usize) -> bool {
    let is_behind = has(expected, "then")
        || has(expected, "?")
        || has(expected, ",")
        || source.has_before(token, 2, ":=");
    is_behind && !has(expected, "in") && !is_among_parameters(source, token)
}

/// Returns whether this token is between the word `process` and the `is` of its definition.
fn is_among_parameters(source: &Source, token: usize) -> bool {
    for position in (0..token).rev() {
        if source.is(position, "process") {
            return true;
        }
        if source.is(position, "is") || source.is(position, "toolbus") {
            return false;
        }
    }
    false
}

/// Returns whether a placeholder such as `<int>` begins at this token.
fn is_placeholder(source: &Source, token: usize) -> bool {
    source.is(token, "<") && source.is(token.saturating_add(2), ">")
}

/// Adds help that says that nothing can follow `toolbus(..)`.
fn cure_after_end(said: &mut Said, found: &[u8]) {
    let help = text_of(AFTER_END.as_slice(), found);
    said.help(
        help.unwrap_or("`toolbus(..)` is the last part of a script"),
        &[found],
    );
}

/// Adds help about a word that is misspelt, or that begins with a letter of the wrong case.
fn cure_word(said: &mut Said, expected: &[&'static str], token: usize) {
    let source = said.source;
    let found = source.word(token);
    if begins_process(expected) && is_time_word(found) {
        return said.help("a time stands behind an atom, as in `tau %(..)`", &[found]);
    }
    let mut near = Near::to(said.alloc, found);
    offer_expected(&mut near, expected);
    if begins_process(expected) && !is_reserved(found) {
        near.offer_definitions(&source, "process");
        near.offer_known(&source, token);
    }
    near.ask(said);
    if !near.has_found() {
        cure_case(said, expected, found);
    }
}

/// Offers the fixed words of the language that may come here.
fn offer_expected(near: &mut Near, expected: &[&'static str]) {
    for word in RESERVED.as_slice() {
        if has(expected, *word) {
            near.offer_word(*word);
        }
    }
    if has(expected, "x") {
        return;
    }
    if begins_process(expected) {
        near.offer_atoms();
    }
    if has(expected, "delay") {
        near.offer_words(TIMES.as_slice());
    }
    if has(expected, "command") {
        near.offer_words(COMMAND.as_slice());
    }
}

/// Adds help about a name that begins with a letter of the wrong case.
fn cure_case(said: &mut Said, expected: &[&'static str], found: &[u8]) {
    if has(expected, "X") && !has(expected, "x") && is_lower(found) && !is_reserved(found) {
        said.help(
            "the names of processes and variables begin with an upper-case letter",
            &[],
        );
        if !begins_process(expected) {
            say_other_case(said, found);
        }
    } else if has(expected, "x") && !has(expected, "X") && is_upper(found) {
        said.help(
            "the names of types and tools begin with a lower-case letter",
            &[],
        );
        say_other_case(said, found);
    }
}

/// Adds help that shows the name with its first letter in the other case.
fn say_other_case(said: &mut Said, name: &[u8]) {
    match with_other_case(said.alloc, name) {
        Ok(other) => say_instead(said, other.as_slice()),
        Err(NoMemory) => said.lack(),
    }
}

fn say_instead(said: &mut Said, name: &[u8]) {
    if !is_reserved(name) {
        said.help("write `%`, here and where it is used", &[name]);
    }
}

/// Returns the name with its first letter in the other case.
fn with_other_case(alloc: Global, name: &[u8]) -> Result<Vec<u8>, NoMemory> {
    let mut other = Vec::new(alloc);
    if let [first, rest @ ..] = name {
        other.push(*first ^ 0x20)?;
        other.extend_from_slice(rest)?;
    }
    Ok(other)
}

/// Adds help about a call, an atom or a term with empty parentheses, which end at this token.
fn cure_parentheses(said: &mut Said, token: usize) {
    let source = said.source;
    if !source.has_before(token, 1, "(") {
        return;
    }
    let word = source.word(token.saturating_sub(2));
    if stands_alone(said, word) {
        said.help("without arguments write `%`", &[word]);
    } else {
        say_form(said, word);
    }
}

/// Returns whether a call, an atom or a term of this name can be written without arguments.
fn stands_alone(said: &mut Said, word: &[u8]) -> bool {
    match atom_word(word) {
        Some(atom) => atom.fewest() == 0,
        None => !is_time_word(word) && signature_of(said, word).is_none(),
    }
}
