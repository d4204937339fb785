//! The violations of definitions.

ghost use Rattle.std.specs.Prelude.{◌≡◌, ◌++◌, OnOk};
ghost use Rattle.std.specs.List.{flat_map};
ghost use Rattle.tb_types.specs.Violation.{noted_if};
ghost use Rattle.tb_types.specs.Definitions.{none_seen, or_seen, formal_repeats, var_repeats, tool_repeats, tool_faults, tools_faults, sort_faults, formal_faults, formals_faults, var_faults, vars_faults};

use crate::names::{Names, is_unknown_sort};
use crate::seen::{Seen, push_repeat};
use crate::violation::{Rule, Violation, note_if};
use std::alloc::Global;
use tb_syntax::{Formal, ToolDef, Var, is_sort_word};
use tb_terms::{Items, NoMemory, Sort};

/// Adds a violation for each tool whose name comes earlier, and one for each tool with the name of a built-in type.
pub(crate) fn push_tools(
    alloc: Global,
    tools: &[ToolDef],
    into: &mut Items<Violation>,
) -> Result<(), NoMemory>
    ensures { OnOk result (into.new ≡ into.old ++ tools_faults tools.now) }
{
    push_tool_repeats(alloc, tools, into)?;
    push_sort_words(tools, into)?;
    Ok(())
}

fn push_tool_repeats(
    alloc: Global,
    tools: &[ToolDef],
    into: &mut Items<Violation>,
) -> Result<(), NoMemory>
    ensures { OnOk result (into.new ≡ into.old ++ tool_repeats none_seen tools.now) }
{
    let mut seen = Seen::new(alloc);
    for tool in tools {
        push_repeat(&mut seen, tool.name.as_bytes(), tool.token, into)?;
    }
    Ok(())
}

fn push_sort_words(tools: &[ToolDef], into: &mut Items<Violation>) -> Result<(), NoMemory>
    ensures { OnOk result (into.new ≡ into.old ++ flat_map tool_faults tools.now) }
{
    for tool in tools {
        let is_word = is_sort_word(tool.name.as_bytes());
        note_if(is_word, Rule::Twice, tool.token, into)?;
    }
    Ok(())
}

/// Adds a violation for each parameter whose name comes earlier in the list, and one for each unknown type.
pub(crate) fn push_formals(
    alloc: Global,
    names: &Names,
    formals: &[Formal],
    into: &mut Items<Violation>,
) -> Result<(), NoMemory>
    ensures { OnOk result
        (into.new ≡ into.old ++ formals_faults names.now.script.now.tools formals.now) }
{
    if formals.is_empty() {
        return Ok(());
    }
    push_formal_repeats(alloc, formals, into)?;
    push_formal_sorts(names, formals, into)?;
    Ok(())
}

fn push_formal_repeats(
    alloc: Global,
    formals: &[Formal],
    into: &mut Items<Violation>,
) -> Result<(), NoMemory>
    ensures { OnOk result (into.new ≡ into.old ++ formal_repeats none_seen formals.now) }
{
    let mut seen = Seen::new(alloc);
    for formal in formals {
        push_repeat(&mut seen, formal.name.as_bytes(), formal.token, into)?;
    }
    Ok(())
}

fn push_formal_sorts(
    names: &Names,
    formals: &[Formal],
    into: &mut Items<Violation>,
) -> Result<(), NoMemory>
    ensures { OnOk result
        (into.new ≡ into.old ++ flat_map (formal_faults names.now.script.now.tools) formals.now) }
{
    for formal in formals {
        push_sort(names, &formal.sort, formal.sort_token, into)?;
    }
    Ok(())
}

/// Adds a violation for each variable of one `let` whose name comes earlier in this `let`, and one for each unknown type.
pub(crate) fn push_vars(
    alloc: Global,
    names: &Names,
    vars: &[Var],
    into: &mut Items<Violation>,
) -> Result<(), NoMemory>
    ensures { OnOk result (into.new ≡ into.old ++ vars_faults names.now.script.now.tools vars.now) }
{
    push_var_repeats(alloc, vars, into)?;
    push_var_sorts(names, vars, into)?;
    Ok(())
}

fn push_var_repeats(
    alloc: Global,
    vars: &[Var],
    into: &mut Items<Violation>,
) -> Result<(), NoMemory>
    ensures { OnOk result (into.new ≡ into.old ++ var_repeats none_seen vars.now) }
{
    let mut seen = Seen::new(alloc);
    for var in vars {
        push_repeat(&mut seen, var.name.as_bytes(), var.token, into)?;
    }
    Ok(())
}

fn push_var_sorts(names: &Names, vars: &[Var], into: &mut Items<Violation>) -> Result<(), NoMemory>
    ensures { OnOk result
        (into.new ≡ into.old ++ flat_map (var_faults names.now.script.now.tools) vars.now) }
{
    for var in vars {
        push_sort(names, &var.sort, var.sort_token, into)?;
    }
    Ok(())
}

fn push_sort(
    names: &Names,
    sort: &Sort,
    token: usize,
    into: &mut Items<Violation>,
) -> Result<(), NoMemory>
    ensures { OnOk result
        (into.new ≡ into.old ++ sort_faults names.now.script.now.tools sort.now token) }
{
    note_if(is_unknown_sort(names, sort), Rule::NoTool, token, into)?;
    Ok(())
}
