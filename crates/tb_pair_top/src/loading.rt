//! Loads the two scripts of a pair.
ghost use Rattle.std.specs.Prelude.{◌≡◌, ◌≤◌, [], ◌∷◌, ◌++◌, IfOk, IfErr, OnOk, Err};
ghost use Rattle.tb_edge.specs.Faults.{Rose};
ghost use Rattle.tb_load.specs.Loading.{HasProgram, IsUnloaded};
ghost use Rattle.tb_load.specs.Helpers.Parts.{AsksFor};
ghost use Rattle.tb_pair_top.specs.Loading.{AsksBoth};
ghost use Rattle.tb_pair_top.specs.Helpers.Parts.{AreUnloaded, HavePrograms};

use std::alloc::Global;
use tb_body::Program;
use tb_edge::Files;
use tb_load::{LoadFault, load_script};

/// The programs of the two scripts.
#[derive(Drop)]
pub struct Programs {
    /// The program of the first script.
    pub first: Program,
    /// The program of the second script.
    pub second: Program,
}

/// Loads the programs of the scripts in the files of these names. The second file is requested only after the first script is accepted.
pub fn load_both<F: Files>(
    alloc: Global,
    first: &str,
    second: &str,
    files: &mut F,
) -> Result<Programs, LoadFault>
    ensures ok { IfOk result (HavePrograms (F.held files.old) first.now second.now) }
    ensures asks { OnOk result
        (AsksBoth first.now second.now (F.asked files.old) (F.asked files.new)) }
    ensures err { IfErr result (AreUnloaded (F.held files.old) first.now second.now
        (F.asked files.old) (F.asked files.new)) }
    ensures rose { result ≡ Err LoadFault.File → Rose (F.faults files.old) (F.faults files.new) }
{
    match load_script(alloc, first, files) {
        Ok(program) => load_second(alloc, program, second, files),
        Err(fault) => Err(fault),
    }
}

/// Loads the program of the second script, and returns it with the first program.
fn load_second<F: Files>(
    alloc: Global,
    first: Program,
    second: &str,
    files: &mut F,
) -> Result<Programs, LoadFault>
    ensures ok { IfOk result (λ both. (both.first ≡ first)
        × HasProgram (F.held files.old second.now) both.second) }
    ensures err { IfErr result (IsUnloaded (F.held files.old second.now)) }
    ensures asks { AsksFor (second.now ∷ []) (F.asked files.old) (F.asked files.new) result }
    ensures rose { result ≡ Err LoadFault.File → Rose (F.faults files.old) (F.faults files.new) }
{
    match load_script(alloc, second, files) {
        Ok(second) => Ok(Programs { first, second }),
        Err(fault) => Err(fault),
    }
}
