//! Makes the roots of a script: the processes with which it starts, with the values of their arguments.
ghost use Rattle.std.specs.Prelude.{◌≡◌, ◌<◌, IfOk, IsSome, All, Some, map, length};
ghost use Rattle.std.specs.List.{AllZip};
ghost use Rattle.tb_types.specs.Values.{closed_value};
ghost use Rattle.tb_expand.specs.Acts.{process_of};
ghost use Rattle.tb_script.specs.Programs.{IsRootOf};
ghost use Rattle.tb_script.specs.Helpers.Making.{HasValues, HaveValues};

use std::alloc::Global;
use tb_body::{Root, Roots};
use tb_syntax::{Ast, Call};
use tb_terms::{Items, NoMemory, Term, Terms};
use tb_types::{Names, closed_value};

/// Returns the roots of the script with these names, each with the values of its arguments.
pub(crate) fn roots_of(alloc: Global, names: &Names) -> Result<Roots, NoMemory>
    requires { HaveValues names.now.script.now.roots }
    ensures { IfOk result
        (λ roots. AllZip (IsRootOf names.now.script.now) names.now.script.now.roots roots) }
{
    Ok(all_roots(alloc, names, names.script.roots.as_slice())?)
}

fn all_roots(alloc: Global, names: &Names, calls: &[Call]) -> Result<Roots, NoMemory>
    requires { HaveValues calls.now }
    ensures { IfOk result (λ roots. AllZip (IsRootOf names.now.script.now) calls.now roots) }
{
    let mut roots = Items::new(alloc);
    for call in calls {
        roots.push(root_of(alloc, names, call)?)?;
    }
    Ok(roots)
}

fn root_of(alloc: Global, names: &Names, call: &Call) -> Result<Root, NoMemory>
    requires { HasValues call.now }
    ensures { IfOk result (IsRootOf names.now.script.now call.now) }
{
    let process = process_of(names, call.name.as_bytes())?;
    let actuals = values_of(alloc, call.actuals.as_slice())?;
    Ok(Root { process, actuals })
}

/// Returns the position of the process with this name. If there is none, returns the number of processes.
fn process_of(names: &Names, name: &[u8]) -> Result<u32, NoMemory>
    ensures { IfOk result (λ position. position ≡ process_of names.now.script.now name.now) }
{
    match u32::try_from(process_position(names, name)) {
        Ok(position) => Ok(position),
        Err(_) => Err(NoMemory),
    }
}

fn process_position(names: &Names, name: &[u8]) -> usize
    ensures { result ≡ process_of names.now.script.now name.now }
{
    match names.process_position(name) {
        Some(position) => position,
        None => names.script.procs.len(),
    }
}

fn values_of(alloc: Global, actuals: &[Ast]) -> Result<Terms, NoMemory>
    requires { All (λ e. IsSome (closed_value e)) actuals.now }
    ensures { IfOk result
        (λ values. map (λ value. Some value) values ≡ map closed_value actuals.now) }
{
    let mut values = Items::new(alloc);
    for actual in actuals {
        values.push(value_of(alloc, actual)?)?;
    }
    Ok(values)
}

fn value_of(alloc: Global, actual: &Ast) -> Result<Term, NoMemory>
    requires { IsSome (closed_value actual.now) }
    ensures { IfOk result (λ value. Some value ≡ closed_value actual.now) }
{
    match closed_value(alloc, actual)? {
        Some(value) => Ok(value),
        None => unreachable!(),
    }
}
