//! Makes the program of a script from its names and bodies.
ghost use Rattle.std.specs.Prelude.{◌≡◌, IfOk, map};
ghost use Rattle.tb_types.specs.Conditions.{Proper};
ghost use Rattle.tb_script.specs.Programs.{declared_tool};
ghost use Rattle.tb_script.specs.Helpers.Making.{AreExpansions, HasJoined};

use crate::ScriptFault;
use crate::roots::roots_of;
use std::alloc::Global;
use tb_body::{Bodies, MOST_ROOTS, Program, Tool, Tools};
use tb_syntax::ToolDef;
use tb_terms::{Items, NoMemory};
use tb_types::Names;

/// Returns the program of a well-formed script with these names and bodies.
pub(crate) fn program_of(
    alloc: Global,
    names: &Names,
    bodies: Bodies,
) -> Result<Program, ScriptFault>
    requires proper { Proper names.now.script.now }
    requires expanded { AreExpansions names.now.script.now bodies }
    ensures { HasJoined names.now.script.now result }
{
    let script = names.script;
    if script.roots.len() > MOST_ROOTS {
        return Err(ScriptFault::Roots(script.roots.len()));
    }
    let roots = roots_of(alloc, names)?;
    let tools = tools_of(alloc, script.tools.as_slice())?;
    Ok(Program {
        bodies,
        roots,
        tools,
    })
}

fn tools_of(alloc: Global, defs: &[ToolDef]) -> Result<Tools, NoMemory>
    ensures { IfOk result (λ tools. tools ≡ map declared_tool defs.now) }
{
    let mut tools = Items::new(alloc);
    for def in defs {
        tools.push(tool_of(alloc, def)?)?;
    }
    Ok(tools)
}

fn tool_of(alloc: Global, def: &ToolDef) -> Result<Tool, NoMemory>
    ensures { IfOk result (λ tool. tool ≡ declared_tool def.now) }
{
    let name = def.name.share()?;
    let command = match &def.command {
        Some(command) => Some(command.copy(alloc)?),
        None => None,
    };
    Ok(Tool { name, command })
}
