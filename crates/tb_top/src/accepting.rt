//! Checks whether the script in a file is accepted.
ghost use Rattle.std.specs.Prelude.{◌≡◌, ◌≤◌, [], ◌∷◌, IfErr, OnOk, Err};
ghost use Rattle.tb_body.specs.declared.program.Program.{Program};
ghost use Rattle.tb_edge.specs.Faults.{Rose};
ghost use Rattle.tb_script.specs.Findings.{IsFound, Program'};
ghost use Rattle.tb_load.specs.Loading.{IsAccepted};
ghost use Rattle.tb_top.specs.Loading.{IsUnloaded};
ghost use Rattle.tb_top.specs.Helpers.Parts.{AsksFor, IsRefusedBy};

use crate::fault::Fault;
use std::alloc::Global;
use tb_edge::{Files, FilesFault, Loaded};
use tb_load::MOST_BYTES;
use tb_script::{ScriptFault, accept};

/// Checks whether the script in the file of this name is accepted, without making its program.
pub fn accept_script<F: Files>(alloc: Global, name: &str, files: &mut F) -> Result<(), Fault>
    ensures ok { OnOk result (IsAccepted (F.held files.old name.now)) }
    ensures err { IfErr result (IsUnloaded (F.held files.old name.now)) }
    ensures asks { AsksFor (name.now ∷ []) (F.asked files.old) (F.asked files.new) result }
    ensures rose { result ≡ Err Fault.File → Rose (F.faults files.old) (F.faults files.new) }
{
    match files.load(alloc, name, MOST_BYTES) {
        Ok(Loaded::Bytes(bytes)) => accept_bytes(alloc, bytes.as_slice()),
        Ok(Loaded::TooLong(len)) => Err(Fault::Script(ScriptFault::TooLong(len))),
        Err(FilesFault::Failed) => Err(Fault::File),
        Err(FilesFault::NoMemory) => Err(Fault::NoMemory),
    }
}

/// Checks whether these bytes are an accepted script.
fn accept_bytes(alloc: Global, bytes: &[u8]) -> Result<(), Fault>
    ensures ok { OnOk result ((program : Program) × IsFound bytes.now (Program' program)) }
    ensures err { IfErr result (IsRefusedBy bytes.now) }
{
    match accept(alloc, bytes) {
        Ok(()) => Ok(()),
        Err(ScriptFault::NoMemory) => Err(Fault::NoMemory),
        Err(fault) => Err(Fault::Script(fault)),
    }
}
