//! Checks whether a script is accepted, without making its program.
ghost use Rattle.std.specs.Prelude.{ℕ, List};
ghost use Rattle.tb_body.specs.declared.body.Body.{Body};
ghost use Rattle.tb_types.specs.Conditions.{Proper};
ghost use Rattle.tb_script.specs.Loading.{HasAccepted};
ghost use Rattle.tb_script.specs.Helpers.Making.{AreExpansions, IsOnlyScript};

use crate::ScriptFault;
use crate::expanding::check_bodies;
use crate::loading::{of_check, of_expand};
use crate::reading::read_script;
use std::alloc::Global;
use tb_body::MOST_ROOTS;
use tb_syntax::Script;
use tb_types::{Names, proper_names};

/// Checks whether a script is accepted, so that `load` returns its program. If the script is rejected, returns the first error in the
/// order of the checks. The call makes no program.
pub fn accept(alloc: Global, bytes: &[u8]) -> Result<(), ScriptFault>
    ensures { HasAccepted bytes.now result }
{
    match read_script(alloc, bytes) {
        Ok(script) => accept_script(alloc, &script),
        Err(fault) => Err(fault),
    }
}

fn accept_script(alloc: Global, script: &Script) -> Result<(), ScriptFault>
    ensures { (text : List ℕ) → IsOnlyScript text script.now → HasAccepted text result }
{
    match proper_names(alloc, script) {
        Ok(names) => accept_proper(alloc, &names),
        Err(fault) => Err(of_check(fault)),
    }
}

/// Checks whether a well-formed script with these names is accepted.
fn accept_proper(alloc: Global, names: &Names) -> Result<(), ScriptFault>
    requires { Proper names.now.script.now }
    ensures { (text : List ℕ) → IsOnlyScript text names.now.script.now → HasAccepted text result }
{
    match check_bodies(alloc, names) {
        Ok(()) => accept_roots(names),
        Err(fault) => Err(of_expand(fault)),
    }
}

/// Checks that a script whose processes have bodies doesn't have too many roots.
fn accept_roots(names: &Names) -> Result<(), ScriptFault>
    requires proper { Proper names.now.script.now }
    requires expanded { (bodies : List Body) × AreExpansions names.now.script.now bodies }
    ensures { (text : List ℕ) → IsOnlyScript text names.now.script.now → HasAccepted text result }
{
    let count = names.script.roots.len();
    if count > MOST_ROOTS {
        return Err(ScriptFault::Roots(count));
    }
    Ok(())
}
