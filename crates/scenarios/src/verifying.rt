//! A case that verifies the log of a simulation or a run: the log must be a trace of the script.

use crate::case::{Case, Named};
use std::alloc::Global;
use tb_cli::{Command, read_words};
use tb_terms::{NoMemory, Text, Texts};

/// The name of the log's file. Any name would do.
const LOG: &str = "the log";

/// Returns the case that verifies this log, if the arguments of the other case ask for a simulation or a run.
pub(crate) fn verifying(alloc: Global, case: &Case, log: &[u8]) -> Result<Option<Case>, NoMemory> {
    match read_words(alloc, &case.words) {
        Ok(command) => verifying_of(alloc, case, &command, log),
        Err(_) => Ok(None),
    }
}

fn verifying_of(
    alloc: Global,
    case: &Case,
    command: &Command,
    log: &[u8],
) -> Result<Option<Case>, NoMemory> {
    match command {
        Command::Sim {
            script,
            connects,
            ..
        } => Ok(Some(case_of(alloc, case, script, connects, log)?)),
        Command::Run {
            script,
            connects,
            ..
        } => Ok(Some(case_of(alloc, case, script, connects, log)?)),
        _ => Ok(None),
    }
}

fn case_of(
    alloc: Global,
    case: &Case,
    script: &Text,
    connects: &Texts,
    log: &[u8],
) -> Result<Case, NoMemory> {
    let mut verified = Case::new(alloc, case.name.as_str())?;
    add_word(alloc, "verify", &mut verified)?;
    add_word(alloc, script.as_str(), &mut verified)?;
    add_word(alloc, LOG, &mut verified)?;
    for command in connects.as_slice() {
        add_word(alloc, "--connect", &mut verified)?;
        add_word(alloc, command.as_str(), &mut verified)?;
    }
    let text = case.held(script.as_str()).unwrap_or(b"");
    add_file(alloc, script.as_str(), text, &mut verified)?;
    add_file(alloc, LOG, log, &mut verified)?;
    verified.out.extend_from_slice(b"trace\n")?;
    Ok(verified)
}

fn add_word(alloc: Global, word: &str, case: &mut Case) -> Result<(), NoMemory> {
    case.words.push(String::from_str(alloc, word)?)?;
    Ok(())
}

fn add_file(alloc: Global, name: &str, bytes: &[u8], case: &mut Case) -> Result<(), NoMemory> {
    let name = String::from_str(alloc, name)?;
    let bytes = Vec::from_slice(alloc, bytes)?;
    case.files.push(Named { name, bytes })?;
    Ok(())
}
