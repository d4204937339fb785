//! Makes the program of a source.
ghost use Rattle.std.specs.Prelude.{◌≡◌, ℕ, List};
ghost use Rattle.tb_types.specs.Conditions.{Proper};
ghost use Rattle.tb_script.specs.Loading.{HasLoaded};
ghost use Rattle.tb_script.specs.Helpers.Making.{AreExpansions, IsOnlyScript, of_check, of_expand};

use crate::ScriptFault;
use crate::expanding::bodies_of;
use crate::program::program_of;
use crate::reading::read_script;
use std::alloc::Global;
use tb_body::{Bodies, Program};
use tb_expand::ExpandFault;
use tb_syntax::Script;
use tb_types::{CheckFault, Names, proper_names};

/// Returns the program of a script that is accepted. If the script is rejected, returns the first error in the order of the checks.
/// The call reads any number of bytes.
pub fn load(alloc: Global, bytes: &[u8]) -> Result<Program, ScriptFault>
    // Unless memory runs out, the result is the only finding of the source. If there are several cycles of calls, it may name any of
    // them.
    ensures { HasLoaded bytes.now result }
{
    match read_script(alloc, bytes) {
        Ok(script) => load_script(alloc, &script),
        Err(fault) => Err(fault),
    }
}

fn load_script(alloc: Global, script: &Script) -> Result<Program, ScriptFault>
    ensures { (text : List ℕ) → IsOnlyScript text script.now → HasLoaded text result }
{
    match proper_names(alloc, script) {
        Ok(names) => load_proper(alloc, &names),
        Err(fault) => Err(of_check(fault)),
    }
}

/// Returns the program of a well-formed script with these names.
fn load_proper(alloc: Global, names: &Names) -> Result<Program, ScriptFault>
    requires { Proper names.now.script.now }
    ensures { (text : List ℕ) → IsOnlyScript text names.now.script.now → HasLoaded text result }
{
    match bodies_of(alloc, names) {
        Ok(bodies) => load_expanded(alloc, names, bodies),
        Err(fault) => Err(of_expand(fault)),
    }
}

pub(crate) fn of_check(fault: CheckFault) -> ScriptFault
    ensures { result ≡ of_check fault }
{
    match fault {
        CheckFault::NoMemory => ScriptFault::NoMemory,
        fault => ScriptFault::Check(fault),
    }
}

pub(crate) fn of_expand(fault: ExpandFault) -> ScriptFault
    ensures { result ≡ of_expand fault }
{
    match fault {
        ExpandFault::NoMemory => ScriptFault::NoMemory,
        fault => ScriptFault::Expand(fault),
    }
}

fn load_expanded(alloc: Global, names: &Names, bodies: Bodies) -> Result<Program, ScriptFault>
    requires proper { Proper names.now.script.now }
    requires expanded { AreExpansions names.now.script.now bodies }
    ensures { (text : List ℕ) → IsOnlyScript text names.now.script.now → HasLoaded text result }
{
    match program_of(alloc, names, bodies) {
        Ok(program) => Ok(program),
        Err(fault) => Err(fault),
    }
}
