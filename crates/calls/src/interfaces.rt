//! Calls of the library of interfaces.

use crate::fault::Fault;
use crate::texts::{term, yes_or_no};
use std::alloc::Global;
use tb_body::Program;
use tb_iface::{Interface, interface};
use tb_match::match_term;
use tb_script::load;
use tb_terms::{Name, Patterns, Term};

pub(crate) fn answer(
    alloc: Global,
    name: &str,
    args: &[Vec<u8>],
) -> Result<Option<Vec<u8>>, Fault> {
    match name {
        "told" | "heard" => Ok(Some(listed(alloc, name, args)?)),
        _ => Ok(None),
    }
}

/// Returns whether a line matches one of the patterns that the interface of a script's tool lists.
fn listed(alloc: Global, name: &str, args: &[Vec<u8>]) -> Result<Vec<u8>, Fault> {
    match args {
        [script, tool, line] => match load(alloc, script.as_slice()) {
            Ok(program) => listed_in(alloc, name, &program, tool.as_slice(), line.as_slice()),
            Err(_) => Err(Fault::Argument),
        },
        _ => Err(Fault::Line),
    }
}

fn listed_in(
    alloc: Global,
    name: &str,
    program: &Program,
    tool: &[u8],
    line: &[u8],
) -> Result<Vec<u8>, Fault> {
    match Name::from_bytes(alloc, tool)? {
        Some(tool) => match interface(alloc, program, &tool) {
            Ok(interface) => listed_by(alloc, name, &interface, line),
            Err(_) => Err(Fault::Argument),
        },
        None => Err(Fault::Argument),
    }
}

fn listed_by(
    alloc: Global,
    name: &str,
    interface: &Interface,
    line: &[u8],
) -> Result<Vec<u8>, Fault> {
    let patterns = if name == "told" {
        &interface.to
    } else {
        &interface.from
    };
    let line = term(alloc, line)?;
    yes_or_no(alloc, matches_one(alloc, patterns, &line)?)
}

fn matches_one(alloc: Global, patterns: &Patterns, line: &Term) -> Result<bool, Fault> {
    for pattern in patterns.as_slice() {
        if match_term(alloc, pattern, line)?.is_some() {
            return Ok(true);
        }
    }
    Ok(false)
}
