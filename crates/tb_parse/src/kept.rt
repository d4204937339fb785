//! The definitions that were read so far.

ghost use Rattle.std.specs.Prelude.{◌≡◌, [], None, Some, OnOk};
ghost use Rattle.tb_syntax.specs.declared.proc.Proc.{Proc};
ghost use Rattle.tb_parse.specs.Helpers.Heights.{built};
ghost use Rattle.tb_parse.specs.Helpers.Defining.{added, first_position, made_of, whole_of};

use crate::ParseFault;
use crate::built::Built;
use std::alloc::Global;
use tb_syntax::{Calls, Formals, ProcDef, ProcDefs, Script, ToolDefs};
use tb_terms::{Ident, Items, NoMemory};

/// The definitions so far. `procs` has the processes that aren't too high; `too_high` is the position of the first process that is.
#[derive(Drop)]
pub(crate) struct Kept {
    pub(crate) procs: ProcDefs,
    pub(crate) tools: ToolDefs,
    pub(crate) too_high: Option<usize>,
}

/// The definition of a process that was read.
#[derive(Drop)]
pub(crate) enum Made {
    Low(ProcDef),
    /// The definition at this position has a body that is too high.
    TooHigh(usize),
}

/// Returns the definition with these parts at this position, or only the position if its body is too high.
#[tactic(auto, using(crate::proofs::KeptRows::made_low, crate::proofs::KeptRows::made_high))]
pub(crate) fn definition(name: Ident, formals: Formals, body: Built, token: usize) -> Made
    ensures { (p : Proc) → body ≡ built p
        → result ≡ made_of (record { name = name; formals = formals; body = p; token = token }) }
{
    match body {
        Built::Tree(body, _) => Made::Low(ProcDef {
            name,
            formals,
            body: body.into_inner(),
            token,
        }),
        Built::TooHigh => Made::TooHigh(token),
    }
}

pub(crate) fn nothing(alloc: Global) -> Kept
    ensures { result ≡ record { procs = []; tools = []; too_high = None } }
{
    Kept {
        procs: Items::new(alloc),
        tools: Items::new(alloc),
        too_high: None,
    }
}

/// Adds one more definition.
pub(crate) fn add(found: &mut Kept, made: Made) -> Result<(), NoMemory>
    ensures { OnOk result (found.new ≡ added made found.old) }
{
    match made {
        Made::Low(definition) => {
            found.procs.push(definition)?;
            Ok(())
        }
        Made::TooHigh(position) => {
            found.too_high = first_position(found.too_high, position);
            Ok(())
        }
    }
}

fn first_position(so_far: Option<usize>, position: usize) -> Option<usize>
    ensures { result ≡ first_position so_far (Some position) }
{
    match so_far {
        Some(first) => Some(first),
        None => Some(position),
    }
}

/// Returns the script of these parts. If a body is too high, the error is the first such definition's position.
pub(crate) fn whole(found: Kept, roots: Calls) -> Result<Script, ParseFault>
    ensures { result ≡ whole_of found.too_high found roots }
{
    let Kept {
        procs,
        tools,
        too_high,
    } = found;
    match too_high {
        Some(position) => Err(ParseFault::TooDeep(position)),
        None => Ok(Script {
            procs,
            tools,
            roots,
        }),
    }
}
