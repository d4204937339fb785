//! The violations of calls, `create` atoms, and roots.

ghost use Rattle.std.specs.Prelude.{◌≡◌, ◌++◌, OnOk, Some};
ghost use Rattle.std.specs.Option.{option_copied};
ghost use Rattle.tb_types.specs.Calls.{formal_expected_sort, formal_position, actual_position, actual_expected_sort, actuals_faults, found_call_faults, call_faults};
ghost use Rattle.tb_types.specs.ExpectedSorts.{expected_sort_of};
ghost use Rattle.tb_types.specs.Scopes.{visible};

use crate::expected_sorts::{ExpectedSort, Site, push_site};
use crate::names::{Names, process};
use crate::positions::Position;
use crate::scope::Scope;
use crate::violation::{Rule, Violation, note_if};
use sqlite_items::at;
use std::alloc::Global;
use tb_syntax::{Ast, Call, Formal, ProcDef};
use tb_terms::{Items, NoMemory, Sort};

/// The use of a process name with arguments.
#[derive(Clone, Copy, Debug, PartialEq, Eq)]
pub enum Manner {
    /// A call in a body.
    Called,
    /// A `create`.
    Made,
    /// A root.
    Rooted,
}

/// Adds all violations of a call, a `create`, or a root.
pub(crate) fn push_call(
    alloc: Global,
    names: &Names,
    scope: &Scope,
    manner: Manner,
    call: &Call,
    into: &mut Items<Violation>,
) -> Result<(), NoMemory>
    ensures { OnOk result (into.new ≡ into.old
        ++ call_faults names.now.script.now (visible scope.now) manner call.now) }
{
    match process(names, &call.name) {
        None => {
            note_if(true, Rule::NoProcess, call.token, into)?;
            let formals = Items::new(alloc);
            let actuals = call.actuals.as_slice();
            push_actuals(
                alloc,
                names,
                scope,
                manner,
                formals.as_slice(),
                actuals,
                into,
            )?;
            Ok(())
        }
        Some(definition) => {
            push_known_call(alloc, names, scope, manner, definition, call, into)?;
            Ok(())
        }
    }
}

/// Adds all violations of a call, a `create`, or a root that names this process.
fn push_known_call(
    alloc: Global,
    names: &Names,
    scope: &Scope,
    manner: Manner,
    definition: &ProcDef,
    call: &Call,
    into: &mut Items<Violation>,
) -> Result<(), NoMemory>
    ensures { OnOk result (into.new ≡ into.old ++ found_call_faults names.now.script.now
        (visible scope.now) manner (Some definition.now) call.now) }
{
    let is_wrong = call.actuals.len() != definition.formals.len();
    note_if(is_wrong, Rule::Arity, call.token, into)?;
    let formals = definition.formals.as_slice();
    let actuals = call.actuals.as_slice();
    push_actuals(alloc, names, scope, manner, formals, actuals, into)?;
    Ok(())
}

/// Adds the violations of the arguments. Each argument is checked with the parameter at its position.
fn push_actuals(
    alloc: Global,
    names: &Names,
    scope: &Scope,
    manner: Manner,
    formals: &[Formal],
    actuals: &[Ast],
    into: &mut Items<Violation>,
) -> Result<(), NoMemory>
    ensures { OnOk result (into.new ≡ into.old ++ actuals_faults names.now.script.now
        (visible scope.now) manner formals.now 0 actuals.now) }
{
    for (position, actual) in actuals.iter().enumerate() {
        let site = actual_site(manner, at(formals, position));
        push_site(alloc, names, scope, &site, actual, into)?;
    }
    Ok(())
}

fn actual_site(manner: Manner, formal: Option<&Formal>) -> Site<'_>
    ensures position { result.position ≡ actual_position manner (option_copied formal.entry) }
    ensures expected_sort { expected_sort_of result.expected_sort
        ≡ actual_expected_sort manner (option_copied formal.entry) }
{
    match formal {
        None => Site {
            position: Position::Sent,
            expected_sort: ExpectedSort::Plain,
        },
        Some(formal) => Site {
            position: formal_position(manner, formal.result),
            expected_sort: formal_expected_sort(manner, formal),
        },
    }
}

fn formal_position(manner: Manner, is_result: bool) -> Position
    ensures { result ≡ formal_position manner is_result }
{
    match manner {
        Manner::Called if is_result => Position::Taken,
        _ => Position::Sent,
    }
}

fn formal_expected_sort(manner: Manner, formal: &Formal) -> ExpectedSort<'_>
    ensures { expected_sort_of result ≡ formal_expected_sort manner formal.now }
{
    if formal.result {
        return ExpectedSort::Exact(&formal.sort);
    }
    match manner {
        Manner::Called | Manner::Made => ExpectedSort::OfSort(&formal.sort),
        Manner::Rooted => ExpectedSort::Rooted(&formal.sort),
    }
}
