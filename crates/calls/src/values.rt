//! Calls of the libraries of terms and of functions.

use crate::fault::Fault;
use crate::texts::{first, found, number, one, said, term, term_text, terms, two, yes_or_no};
use std::alloc::Global;
use tb_func::{apply, function, printf_text};
use tb_read::{Limits, TermFault, read_term, read_within};
use tb_terms::{Func, Ident, Name, Term, Text, depth, is_ident_bytes, is_name_bytes, same, size};

pub(crate) fn answer(
    alloc: Global,
    name: &str,
    args: &[Vec<u8>],
) -> Result<Option<Vec<u8>>, Fault> {
    let found = match name {
        "read_term" => read(alloc, args),
        "read_within" => read_in(alloc, args),
        "measure" => measure(alloc, args),
        "is_name" => is_name(alloc, args),
        "is_ident" => is_ident(alloc, args),
        "is_string" => is_string(alloc, args),
        "apply" => applied(alloc, args),
        "printf_text" => printed(alloc, args),
        "same" => are_same(alloc, args),
        _ => return Ok(None),
    };
    Ok(Some(found?))
}

fn fault_text(alloc: Global, fault: TermFault) -> Result<Vec<u8>, Fault> {
    let (word, position) = match fault {
        TermFault::Syntax(position) => ("syntax", position),
        TermFault::Real(position) => ("real", position),
        TermFault::IntRange(position) => ("integer", position),
        TermFault::TooLarge => return said(alloc, "too large"),
        TermFault::TooDeep => return said(alloc, "too deep"),
        TermFault::NoMemory => return Err(Fault::NoMemory),
    };
    let text = format!(in alloc; "{word} {position}")?;
    said(alloc, text.as_str())
}

/// Returns the text of the parsed term. The text must parse as the same term.
fn read(alloc: Global, args: &[Vec<u8>]) -> Result<Vec<u8>, Fault> {
    match read_term(alloc, one(args)?) {
        Ok(read) => read_again(alloc, &read),
        Err(fault) => fault_text(alloc, fault),
    }
}

fn read_again(alloc: Global, read: &Term) -> Result<Vec<u8>, Fault> {
    let text = term_text(alloc, read)?;
    if is_text_of(alloc, text.as_slice(), read)? {
        return Ok(text);
    }
    said(alloc, "another term")
}

/// Returns whether the text parses as this term.
fn is_text_of(alloc: Global, text: &[u8], wanted: &Term) -> Result<bool, Fault> {
    let read = term(alloc, text)?;
    Ok(same(&read, wanted))
}

/// Returns the text of the term that is parsed within a size and a depth.
fn read_in(alloc: Global, args: &[Vec<u8>]) -> Result<Vec<u8>, Fault> {
    let (of_size, others) = first(args)?;
    let (of_levels, text) = two(others)?;
    let (of_size, of_levels) = (number(of_size)?, number(of_levels)?);
    if of_size > 65_536 || of_levels > 64 {
        return Err(Fault::Argument);
    }
    let limits = Limits {
        size: of_size as usize,
        levels: of_levels as usize,
    };
    match read_within(alloc, text, limits) {
        Ok(term) => term_text(alloc, &term),
        Err(fault) => fault_text(alloc, fault),
    }
}

/// Returns the size and the depth of a term's copy. The copy must be the same term.
fn measure(alloc: Global, args: &[Vec<u8>]) -> Result<Vec<u8>, Fault> {
    let read = term(alloc, one(args)?)?;
    measure_copy(alloc, &read)
}

fn measure_copy(alloc: Global, read: &Term) -> Result<Vec<u8>, Fault> {
    let copy = read.copy(alloc)?;
    measured(alloc, &copy, same(read, &copy))
}

fn measured(alloc: Global, copy: &Term, is_same: bool) -> Result<Vec<u8>, Fault> {
    if !is_same {
        return said(alloc, "another term");
    }
    let text = format!(in alloc; "{} {}", size(copy), depth(copy))?;
    said(alloc, text.as_str())
}

/// Returns whether the bytes are a name. Three calls must agree on this.
fn is_name(alloc: Global, args: &[Vec<u8>]) -> Result<Vec<u8>, Fault> {
    let bytes = one(args)?;
    let (copied, shared) = match Name::from_bytes(alloc, bytes)? {
        Some(name) => (true, name.share()?.as_bytes() == bytes),
        None => (false, false),
    };
    agreed(alloc, [copied, shared, is_name_bytes(bytes)])
}

/// Returns whether the bytes are an identifier. Three calls must agree on this.
fn is_ident(alloc: Global, args: &[Vec<u8>]) -> Result<Vec<u8>, Fault> {
    let bytes = one(args)?;
    let copied = Ident::from_bytes(alloc, bytes)?.is_some();
    let moved = match Ident::from_vec(Vec::from_slice(alloc, bytes)?) {
        Some(ident) => ident.into_vec().as_slice() == bytes,
        None => false,
    };
    agreed(alloc, [copied, moved, is_ident_bytes(bytes)])
}

/// Returns the answer on which three calls must agree. If they don't agree, returns `Fault::Argument`.
fn agreed(alloc: Global, say: [bool; 3]) -> Result<Vec<u8>, Fault> {
    let [copied, moved, looked_at] = say;
    if moved != copied || looked_at != copied {
        return Err(Fault::Argument);
    }
    yes_or_no(alloc, copied)
}

/// Returns whether the bytes are a string from which the same bytes can be taken back.
fn is_string(alloc: Global, args: &[Vec<u8>]) -> Result<Vec<u8>, Fault> {
    let bytes = one(args)?;
    let is_given = match Text::from_vec(Vec::from_slice(alloc, bytes)?) {
        Some(text) => text.into_vec().as_slice() == bytes,
        None => false,
    };
    yes_or_no(alloc, is_given)
}

/// Returns the value of the function with this name for these arguments.
fn applied(alloc: Global, args: &[Vec<u8>]) -> Result<Vec<u8>, Fault> {
    let (word, others) = first(args)?;
    match func(alloc, word)? {
        Some(func) => applied_to(alloc, func, others),
        None => said(alloc, "no function"),
    }
}

fn func(alloc: Global, word: &[u8]) -> Result<Option<Func>, Fault> {
    match Name::from_bytes(alloc, word)? {
        Some(name) => Ok(function(&name)),
        None => Err(Fault::Argument),
    }
}

fn applied_to(alloc: Global, func: Func, args: &[Vec<u8>]) -> Result<Vec<u8>, Fault> {
    let terms = terms(alloc, args)?;
    found(alloc, apply(alloc, func, &terms))
}

fn printed(alloc: Global, args: &[Vec<u8>]) -> Result<Vec<u8>, Fault> {
    let terms = terms(alloc, args)?;
    found(alloc, printf_text(alloc, &terms))
}

fn are_same(alloc: Global, args: &[Vec<u8>]) -> Result<Vec<u8>, Fault> {
    let (text, other) = two(args)?;
    let wanted = term(alloc, text)?;
    is_same_as(alloc, other, &wanted)
}

fn is_same_as(alloc: Global, text: &[u8], wanted: &Term) -> Result<Vec<u8>, Fault> {
    yes_or_no(alloc, is_text_of(alloc, text, wanted)?)
}
