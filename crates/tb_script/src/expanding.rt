//! Makes or checks the bodies of the processes of a script.
ghost use Rattle.tb_types.specs.Conditions.{Proper};
ghost use Rattle.tb_expand.specs.Faults.{HasNoCycle};
ghost use Rattle.tb_script.specs.Helpers.Making.{HasBodies, MayHaveBodies};

use std::alloc::Global;
use tb_body::Bodies;
use tb_expand::{ExpandFault, Expansions};
use tb_terms::Items;
use tb_types::Names;

/// Returns the bodies of the processes of a well-formed script with these names, in order of definition.
pub(crate) fn bodies_of(alloc: Global, names: &Names) -> Result<Bodies, ExpandFault>
    requires { Proper names.now.script.now }
    ensures { HasBodies names.now.script.now result }
{
    match Expansions::of(alloc, names) {
        Ok(expansions) => all_bodies(alloc, &expansions),
        Err(fault) => Err(fault),
    }
}

fn all_bodies(alloc: Global, expansions: &Expansions) -> Result<Bodies, ExpandFault>
    requires { HasNoCycle expansions.now.script.now }
    ensures { HasBodies expansions.now.script.now result }
{
    let mut bodies = Items::new(alloc);
    for position in 0..expansions.script.procs.len() {
        match expansions.body(alloc, position) {
            Ok(body) => bodies.push(body)?,
            Err(fault) => return Err(fault),
        }
    }
    Ok(bodies)
}

/// Checks whether the processes of a well-formed script with these names have bodies. The call builds no body.
pub(crate) fn check_bodies(alloc: Global, names: &Names) -> Result<(), ExpandFault>
    requires { Proper names.now.script.now }
    ensures { MayHaveBodies names.now.script.now result }
{
    match Expansions::of(alloc, names) {
        Ok(expansions) => check_all(alloc, &expansions),
        Err(fault) => Err(fault),
    }
}

fn check_all(alloc: Global, expansions: &Expansions) -> Result<(), ExpandFault>
    requires { HasNoCycle expansions.now.script.now }
    ensures { MayHaveBodies expansions.now.script.now result }
{
    for position in 0..expansions.script.procs.len() {
        match expansions.check_body(alloc, position) {
            Ok(()) => {}
            Err(fault) => return Err(fault),
        }
    }
    Ok(())
}
