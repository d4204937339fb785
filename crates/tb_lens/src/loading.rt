//! Functions that read the files of commands.
ghost use Rattle.std.specs.Prelude.{◌≡◌, ◌++◌, ◌∷◌, [], IfOk, IfErr};
ghost use Rattle.tb_edge.specs.Faults.{Rose};
ghost use Rattle.tb_edge.specs.FilesHeld.{AsksSome};
ghost use Rattle.tb_lens.specs.Loads.{IsHeld, IsReasonOfOne};

use crate::at::MOST_BYTES;
use crate::naming::names_of;
use crate::status::Trouble;
use std::alloc::Global;
use tb_body::Program;
use tb_edge::{Bytes, Files, FilesFault, Loaded};
use tb_log_plain::Names;
use tb_script::{ScriptFault, load};
use tb_source_map::all_places;
use tb_terms::{Items, NoMemory, Text, Texts};

/// The greatest number of bytes of a log. A longer file is rejected.
const MOST_LOG_BYTES: usize = 67_108_864;

/// The program of a script, and the names of its processes with the places of their atoms.
#[derive(Drop)]
pub(crate) struct Loading {
    pub program: Program,
    pub names: Names,
}

/// Reads the script in the file of this name.
pub(crate) fn load_script<F: Files>(
    alloc: Global,
    name: &str,
    files: &mut F,
) -> Result<Loading, Trouble> {
    let bytes = load_source(alloc, name, files)?;
    read_script(alloc, name, bytes.as_slice())
}

/// Returns the program and the names of a script with these bytes. If the script is rejected, the error has the name of its file.
pub(crate) fn read_script(alloc: Global, name: &str, bytes: &[u8]) -> Result<Loading, Trouble> {
    match loaded(alloc, bytes) {
        Ok(loading) => Ok(loading),
        Err(ScriptFault::NoMemory) => Err(Trouble::NoMemory),
        Err(_) => Err(Trouble::Script(String::from_str(alloc, name)?)),
    }
}

/// Reads the bytes of the script in the file of this name.
pub(crate) fn load_source<F: Files>(
    alloc: Global,
    name: &str,
    files: &mut F,
) -> Result<Bytes, Trouble> {
    load_bytes(alloc, name, MOST_BYTES, files)
}

/// Returns the program and the names of a script with these bytes, or the error of the script.
fn loaded(alloc: Global, bytes: &[u8]) -> Result<Loading, ScriptFault> {
    let program = load(alloc, bytes)?;
    let places = all_places(alloc, bytes)?;
    let names = names_of(alloc, bytes, &places)?;
    Ok(Loading { program, names })
}

/// Reads the log in the file of this name.
pub(crate) fn load_log<F: Files>(alloc: Global, name: &str, files: &mut F) -> Result<Bytes, Trouble>
    ensures held { IfOk result (IsHeld MOST_LOG_BYTES (F.held files.old name.now)) }
    ensures asks { IfOk result (λ bytes. F.asked files.new ≡ F.asked files.old ++ name.now ∷ []) }
    ensures asks_some { IfErr result (λ trouble. AsksSome (name.now ∷ [])
        (F.asked files.old) (F.asked files.new)) }
    ensures reason { IfErr result (IsReasonOfOne MOST_LOG_BYTES (F.held files.old name.now)
        name.now (Rose (F.faults files.old) (F.faults files.new)) ⊥) }
{
    load_bytes(alloc, name, MOST_LOG_BYTES, files)
}

/// Reads the file of this name. If the file has more than `most` bytes, returns `TooLong`.
fn load_bytes<F: Files>(
    alloc: Global,
    name: &str,
    most: usize,
    files: &mut F,
) -> Result<Bytes, Trouble>
    ensures held { IfOk result (IsHeld most (F.held files.old name.now)) }
    ensures asks { IfOk result (λ bytes. F.asked files.new ≡ F.asked files.old ++ name.now ∷ []) }
    ensures asks_some { IfErr result (λ trouble. AsksSome (name.now ∷ [])
        (F.asked files.old) (F.asked files.new)) }
    ensures reason { IfErr result (IsReasonOfOne most (F.held files.old name.now)
        name.now (Rose (F.faults files.old) (F.faults files.new)) ⊥) }
{
    match files.load(alloc, name, most) {
        Ok(Loaded::Bytes(bytes)) => Ok(bytes),
        Ok(Loaded::TooLong(_)) => Err(Trouble::TooLong(String::from_str(alloc, name)?)),
        Err(FilesFault::Failed) => Err(Trouble::File(String::from_str(alloc, name)?)),
        Err(FilesFault::NoMemory) => Err(Trouble::NoMemory),
    }
}

/// Returns the commands to connect, in order. Returns `None` if one of them isn't a text.
pub(crate) fn connects_of(alloc: Global, commands: &[&str]) -> Result<Option<Texts>, NoMemory> {
    let mut texts = Items::new(alloc);
    for command in commands {
        match Text::from_str(alloc, command)? {
            Some(text) => texts.push(text)?,
            None => return Ok(None),
        }
    }
    Ok(Some(texts))
}
