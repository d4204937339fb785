//! Reading of arguments, and writing of answers.
//!
//! In this crate, a function that makes a term, a script, or another value with many forms lends the value to another function, and returns
//! the answer of that function. If a fault passes through while a function holds such a value, the function's proof needs a case for each
//! form.

use crate::fault::Fault;
use std::alloc::Global;
use tb_read::{TermFault, read_term};
use tb_terms::{Items, NoMemory, Term, Terms, write_term};

/// Checks that there are no further arguments.
pub(crate) fn none(args: &[Vec<u8>]) -> Result<(), Fault> {
    if args.is_empty() {
        Ok(())
    } else {
        Err(Fault::Line)
    }
}

/// Returns the only argument.
pub(crate) fn one(args: &[Vec<u8>]) -> Result<&[u8], Fault> {
    match args {
        [text] => Ok(text.as_slice()),
        _ => Err(Fault::Line),
    }
}

/// Returns both arguments.
pub(crate) fn two(args: &[Vec<u8>]) -> Result<(&[u8], &[u8]), Fault> {
    match args {
        [first, second] => Ok((first.as_slice(), second.as_slice())),
        _ => Err(Fault::Line),
    }
}

/// Returns the first argument, and the arguments after it.
pub(crate) fn first(args: &[Vec<u8>]) -> Result<(&[u8], &[Vec<u8>]), Fault> {
    match args {
        [first, others @ ..] => Ok((first.as_slice(), others)),
        _ => Err(Fault::Line),
    }
}

pub(crate) fn utf8(bytes: &[u8]) -> Result<&str, Fault> {
    match str::from_utf8(bytes) {
        Ok(text) => Ok(text),
        Err(_) => Err(Fault::Argument),
    }
}

pub(crate) fn number(bytes: &[u8]) -> Result<u64, Fault> {
    match utf8(bytes)?.parse::<u64>() {
        Ok(number) => Ok(number),
        Err(_) => Err(Fault::Argument),
    }
}

pub(crate) fn term(alloc: Global, bytes: &[u8]) -> Result<Term, Fault> {
    match read_term(alloc, bytes) {
        Ok(term) => Ok(term),
        Err(TermFault::NoMemory) => Err(Fault::NoMemory),
        Err(_) => Err(Fault::Argument),
    }
}

/// Returns the terms that the arguments represent.
pub(crate) fn terms(alloc: Global, args: &[Vec<u8>]) -> Result<Terms, Fault> {
    let mut terms = Items::new(alloc);
    for arg in args {
        terms.push(term(alloc, arg.as_slice())?)?;
    }
    Ok(terms)
}

/// Returns this text as an answer.
pub(crate) fn said(alloc: Global, text: &str) -> Result<Vec<u8>, Fault> {
    Ok(Vec::from_slice(alloc, text.as_bytes())?)
}

pub(crate) fn yes_or_no(alloc: Global, holds: bool) -> Result<Vec<u8>, Fault> {
    said(alloc, if holds { "yes" } else { "no" })
}

pub(crate) fn term_text(alloc: Global, term: &Term) -> Result<Vec<u8>, Fault> {
    let mut text = Vec::new(alloc);
    write_term(term, &mut text)?;
    Ok(text)
}

/// Returns the text of the found value, or `no value` if there is none.
pub(crate) fn found(
    alloc: Global,
    value: Result<Option<Term>, NoMemory>,
) -> Result<Vec<u8>, Fault> {
    match value {
        Ok(Some(term)) => term_text(alloc, &term),
        Ok(None) => said(alloc, "no value"),
        Err(NoMemory) => Err(Fault::NoMemory),
    }
}
