//! Loads the program of the script in a file.
ghost use Rattle.std.specs.Prelude.{◌≡◌, ◌≤◌, [], ◌∷◌, IfOk, IfErr, Err};
ghost use Rattle.tb_edge.specs.Faults.{Rose};
ghost use Rattle.tb_script.specs.Findings.{IsFound, Program'};
ghost use Rattle.tb_load.specs.Loading.{HasProgram, IsUnloaded};
ghost use Rattle.tb_load.specs.Helpers.Parts.{AsksFor, IsRefusedBy};

use crate::fault::LoadFault;
use std::alloc::Global;
use tb_body::Program;
use tb_edge::{Files, FilesFault, Loaded};
use tb_script::{ScriptFault, load};

/// The largest size of a script's file, in bytes. A larger file is rejected.
pub const MOST_BYTES: usize = 1_048_576;

/// Loads the program of the script in the file of this name.
pub fn load_script<F: Files>(alloc: Global, name: &str, files: &mut F) -> Result<Program, LoadFault>
    ensures ok { IfOk result (HasProgram (F.held files.old name.now)) }
    ensures err { IfErr result (IsUnloaded (F.held files.old name.now)) }
    ensures asks { AsksFor (name.now ∷ []) (F.asked files.old) (F.asked files.new) result }
    ensures held_stays { F.held files.new ≡ F.held files.old }
    ensures rose { result ≡ Err LoadFault.File → Rose (F.faults files.old) (F.faults files.new) }
    ensures never_falls { F.faults files.old ≤ F.faults files.new }
{
    match files.load(alloc, name, MOST_BYTES) {
        Ok(Loaded::Bytes(bytes)) => load_bytes(alloc, bytes.as_slice()),
        Ok(Loaded::TooLong(len)) => Err(LoadFault::Script(ScriptFault::TooLong(len))),
        Err(FilesFault::Failed) => Err(LoadFault::File),
        Err(FilesFault::NoMemory) => Err(LoadFault::NoMemory),
    }
}

/// Returns the program of the script with these bytes.
fn load_bytes(alloc: Global, bytes: &[u8]) -> Result<Program, LoadFault>
    ensures ok { IfOk result (λ program. IsFound bytes.now (Program' program)) }
    ensures err { IfErr result (IsRefusedBy bytes.now) }
{
    match load(alloc, bytes) {
        Ok(program) => Ok(program),
        Err(ScriptFault::NoMemory) => Err(LoadFault::NoMemory),
        Err(fault) => Err(LoadFault::Script(fault)),
    }
}
