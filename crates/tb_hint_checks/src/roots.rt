//! The sentence about an argument of `toolbus(..)` that has no value, or a value of a wrong type.

use crate::given::{is_no_call, say_given};
use crate::names::ask_function;
use std::alloc::Global;
use tb_hint_parts::{Said, scope_of};
use tb_lex::{Tokens, lex};
use tb_parse::parse;
use tb_syntax::{Ast, Call};
use tb_terms::{NoMemory, Term, write_term};
use tb_types::closed_value;

/// The greatest length of the text of a value. A longer text isn't written.
const MOST_BYTES: usize = 60;

/// An argument of a root, if one begins at a token, and its value.
#[derive(Drop)]
pub(crate) enum Argument {
    /// No argument of a root begins at the token.
    Absent,
    /// The argument has no value.
    Without,
    /// The argument has this value.
    With(Term),
}

/// Returns the argument of a root that begins at this token, with its value.
pub(crate) fn argument_at(said: &Said, token: usize) -> Result<Argument, NoMemory> {
    if scope_of(&said.source, token).is_some() {
        return Ok(Argument::Absent);
    }
    evaluated(said.alloc, said.source.text, token)
}

fn evaluated(alloc: Global, text: &[u8], token: usize) -> Result<Argument, NoMemory> {
    match lex(alloc, text) {
        Ok(tokens) => parsed(alloc, &tokens, token),
        Err(_) => Err(NoMemory),
    }
}

fn parsed(alloc: Global, tokens: &Tokens, token: usize) -> Result<Argument, NoMemory> {
    match parse(alloc, tokens) {
        Ok(script) => found(alloc, script.roots.as_slice(), token),
        Err(_) => Err(NoMemory),
    }
}

fn found(alloc: Global, roots: &[Call], token: usize) -> Result<Argument, NoMemory> {
    match argument_of(roots, token) {
        Some(argument) => value_of(alloc, argument),
        None => Ok(Argument::Absent),
    }
}

fn value_of(alloc: Global, argument: &Ast) -> Result<Argument, NoMemory> {
    match closed_value(alloc, argument) {
        Ok(Some(value)) => Ok(Argument::With(value)),
        Ok(None) => Ok(Argument::Without),
        Err(NoMemory) => Err(NoMemory),
    }
}

fn argument_of(roots: &[Call], token: usize) -> Option<&Ast> {
    for root in roots {
        if let Some(argument) = beginning_at(root.actuals.as_slice(), token) {
            return Some(argument);
        }
    }
    None
}

fn beginning_at(arguments: &[Ast], token: usize) -> Option<&Ast> {
    for argument in arguments {
        if argument.token == token {
            return Some(argument);
        }
    }
    None
}

/// Says that the argument of a root at this token has no value.
pub(crate) fn say_no_value(said: &mut Said, token: usize) {
    let source = said.source;
    if source.is(token.saturating_add(1), "(") {
        said.say("`%(..)` has no value", &[source.word(token)]);
    } else {
        said.say("this argument has no value", &[]);
    }
    said.help(
        "the arguments of `toolbus(..)` are computed before the start",
        &[],
    );
    said.help(
        "a division by 0, a member that a list doesn't have, a number beyond 64 bits and a term that is too large have no value",
        &[],
    );
}

/// Says which value the argument of a root at this token has, if the value is of a wrong type.
pub(crate) fn say_value(said: &mut Said, token: usize, value: &Term) {
    let source = said.source;
    if !source.is(token.saturating_add(1), "(") {
        return say_given(said, token);
    }
    if is_no_call(said, token) {
        say_given(said, token);
        let _asks = ask_function(said, source.word(token));
        return;
    }
    let mut text = Vec::new(said.alloc);
    if write_term(value, &mut text).is_err() {
        said.lack();
    }
    let word = source.word(token);
    if text.len() > MOST_BYTES {
        said.say("the value of `%(..)` has another type", &[word]);
    } else {
        said.say("the value of `%(..)` is `%`", &[word, text.as_slice()]);
    }
}
