//! Makes the calls of the files that `index` names, and prints each call whose answer isn't the expected one. Each line of a file has the
//! name of a call, its arguments, `->`, and the expected answer.
#![tactic(auto)]

mod fault;
mod interfaces;
mod logs;
mod offers;
mod scripts;
mod shared;
mod texts;
mod values;
mod walkers;

use fault::Fault;
use std::alloc::Global;
use std::{fs, io};
use tb_cases::{Tally, meant};

fn main(rt: HostRuntime) -> io::Result<()> {
    let mut tally = Tally::new();
    let index = fs::read_to_string(&rt, "index")?;
    for name in index.lines() {
        run_file(&rt, name, &mut tally)?;
    }
    println!(rt; "{} passed, {} failed", tally.passed, tally.failed)
}

/// Makes each call of a file.
fn run_file(rt: &HostRuntime, file: &str, tally: &mut Tally) -> io::Result<()> {
    let text = fs::read_to_string(rt, file)?;
    for line in text.lines() {
        if line.is_empty() || line.starts_with('#') {
            continue;
        }
        match difference(rt.alloc(), line) {
            Ok(None) => tally.count(true),
            Ok(Some(found)) => {
                println!(rt; "{file}: {line}\n    found: {found}")?;
                tally.count(false);
            }
            Err(fault) => {
                println!(rt; "{file}: {line}\n    {}", fault.word())?;
                tally.count(false);
            }
        }
    }
    Ok(())
}

/// Returns the answer of a line's call, if it isn't the expected one. If the line has several answers, each of them is right.
fn difference(alloc: Global, line: &str) -> Result<Option<String>, Fault> {
    let (call, wanted) = line.rsplit_once(" ->").ok_or(Fault::Line)?;
    let found = called(alloc, call)?;
    other_than(alloc, wanted, found.as_slice())
}

/// Returns the found answer, if it is none of the expected ones.
fn other_than(alloc: Global, wanted: &str, found: &[u8]) -> Result<Option<String>, Fault> {
    for one in wanted.split(" or ") {
        if is_meant(alloc, one, found)? {
            return Ok(None);
        }
    }
    let found = str::from_utf8(found).unwrap_or("(no text)");
    Ok(Some(String::from_str(alloc, found)?))
}

/// Returns whether the text represents these bytes.
fn is_meant(alloc: Global, text: &str, bytes: &[u8]) -> Result<bool, Fault> {
    let one = meant_by(alloc, text)?;
    Ok(one.as_slice() == bytes)
}

/// Returns the answer of a call.
fn called(alloc: Global, call: &str) -> Result<Vec<u8>, Fault> {
    let (name, rest) = call.split_once(' ').unwrap_or((call, ""));
    let args = args_of(alloc, rest)?;
    answered(alloc, name, args.as_slice())
}

/// Returns the bytes that the arguments of a call represent.
fn args_of(alloc: Global, text: &str) -> Result<Vec<Vec<u8>>, Fault> {
    let mut args = Vec::new(alloc);
    for arg in text.split(" | ") {
        args.push(meant_by(alloc, arg)?)?;
    }
    Ok(args)
}

/// Returns the bytes that an argument or an answer represents. Whitespace around it doesn't count.
fn meant_by(alloc: Global, text: &str) -> Result<Vec<u8>, Fault> {
    meant(alloc, text.trim())?.ok_or(Fault::Line)
}

/// Returns the answer of the call with this name.
fn answered(alloc: Global, name: &str, args: &[Vec<u8>]) -> Result<Vec<u8>, Fault> {
    if let Some(answer) = values::answer(alloc, name, args)? {
        return Ok(answer);
    }
    if let Some(answer) = scripts::answer(alloc, name, args)? {
        return Ok(answer);
    }
    if let Some(answer) = logs::answer(alloc, name, args)? {
        return Ok(answer);
    }
    if let Some(answer) = interfaces::answer(alloc, name, args)? {
        return Ok(answer);
    }
    offers::answer(alloc, name, args)?.ok_or(Fault::Line)
}
