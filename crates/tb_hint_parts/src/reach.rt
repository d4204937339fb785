//! The variables that are known at a token.

use crate::said::{Said, joint};
use crate::scan::{declaration_of, first_declared, push_type, scope_of};
use crate::source::{Source, is_upper};
use std::alloc::Global;
use tb_terms::NoMemory;

/// The greatest number of variables that are listed.
const MOST_LISTED: usize = 8;

/// Adds help that lists the variables that are known at this token, with their types. If there are none, adds nothing.
pub fn say_known(said: &mut Said, token: usize) {
    let source = said.source;
    let listed = match known_at(said.alloc, &source, token) {
        Ok(known) => push_known(&source, known.as_slice(), &mut said.rest),
        Err(NoMemory) => Err(NoMemory),
    };
    if listed.is_err() {
        said.lack();
    }
}

/// Returns the tokens that declare the variables known at this token, in the order of the script. If there are more than `MOST_LISTED`,
/// the variables of inner scopes take precedence.
fn known_at(alloc: Global, source: &Source, token: usize) -> Result<Vec<usize>, NoMemory> {
    let mut known = Vec::new(alloc);
    let mut inner = token;
    for _turn in 0..source.tokens.len() {
        let Some(scope) = scope_of(source, inner) else {
            break;
        };
        add_declared(source, scope, token, &mut known)?;
        inner = scope;
    }
    known.sort()?;
    Ok(known)
}

/// Adds the tokens at which this `let` or `process` declares variables that are known at `token`.
fn add_declared(
    source: &Source,
    scope: usize,
    token: usize,
    known: &mut Vec<usize>,
) -> Result<(), NoMemory> {
    for position in first_declared(source, scope)..source.tokens.len() {
        if source.is(position, "in") || source.is(position, "is") {
            return Ok(());
        }
        if known.len() < MOST_LISTED && is_known(source, position, token) {
            known.push(position)?;
        }
    }
    Ok(())
}

/// Returns whether the variable that is declared at `declared` is known at `token`.
fn is_known(source: &Source, declared: usize, token: usize) -> bool {
    let name = source.word(declared);
    match declaration_of(source, token, name) {
        Some(position) => position == declared && is_upper(name),
        None => false,
    }
}

fn push_known(source: &Source, known: &[usize], into: &mut Vec<u8>) -> Result<(), NoMemory> {
    let begin = match known.len() {
        0 => return Ok(()),
        1 => "\nhelp: the only variable here is ",
        _ => "\nhelp: variables here are ",
    };
    into.extend_from_slice(begin.as_bytes())?;
    for (position, declared) in known.iter().enumerate() {
        into.extend_from_slice(joint(position, known.len(), ", ").as_bytes())?;
        push_variable(source, *declared, into)?;
    }
    Ok(())
}

fn push_variable(source: &Source, declared: usize, into: &mut Vec<u8>) -> Result<(), NoMemory> {
    into.push(b'`')?;
    into.extend_from_slice(source.word(declared))?;
    into.extend_from_slice(b" : ")?;
    push_type(source, declared, into)?;
    into.push(b'`')?;
    Ok(())
}
