//! The names that a script defines.

ghost use Rattle.std.specs.Prelude.{◌≡◌, ◌++◌, ℕ, List, map, is_some, IfOk, OnOk};
ghost use Rattle.std.specs.Option.{option_copied};
ghost use Rattle.std.specs.Str.{bytes_eq};
ghost use Rattle.std.proofs.Props.{props};
ghost use Rattle.tb_types.specs.Definitions.{none_seen, process_repeats};
ghost use Rattle.tb_types.specs.Names.{process_named, tool_named, is_unknown_sort, applied};
ghost use Rattle.tb_types.specs.NamePositions.{position_in, position_of, kept, process_name, tool_name};

use crate::violation::{Rule, Violation, note_if};
use indexmap::IndexMap;
use sqlite_items::at;
use std::alloc::Global;
use tb_func::function;
use tb_syntax::{ProcDef, Script, ToolDef};
use tb_terms::{Func, Ident, Items, Name, NoMemory, Sort};

/// The names of a script, with the position of each process and tool among the definitions. If a name is defined twice, the position is
/// that of the first definition.
#[derive(Drop)]
pub struct Names<'a> {
    /// The script that defines the names.
    pub script: &'a Script,
    processes: IndexMap<&'a [u8], usize>,
    tools: IndexMap<&'a [u8], usize>,
    pub ghost knows_processes: { (name : List ℕ) → position_in processes name
        ≡ position_of (map process_name script.now.procs) name } by { Prim.hlevel props },
    pub ghost knows_tools: { (name : List ℕ) → position_in tools name
        ≡ position_of (map tool_name script.now.tools) name } by { Prim.hlevel props },
}

impl<'a> Names<'a> {
    /// Returns the names that a script defines.
    pub fn of(alloc: Global, script: &'a Script) -> Result<Names<'a>, NoMemory>
        ensures { IfOk result (λ names. names.script.now ≡ script.now) }
    {
        let mut repeats = Items::new(alloc);
        Ok(names_of(alloc, script, &mut repeats)?)
    }

    /// Returns the position, from 0, of the process with this name among the definitions, or `None` if there is no such process.
    pub fn process_position(&self, name: &[u8]) -> Option<usize>
        ensures { result ≡ position_of (map process_name self.now.script.now.procs) name.now }
    {
        match self.processes.get(name) {
            None => None,
            Some(position) => Some(*position),
        }
    }

    /// Returns the position, from 0, of the tool with this name among the definitions, or `None` if there is no such tool.
    pub fn tool_position(&self, name: &[u8]) -> Option<usize>
        ensures { result ≡ position_of (map tool_name self.now.script.now.tools) name.now }
    {
        match self.tools.get(name) {
            None => None,
            Some(position) => Some(*position),
        }
    }
}

/// Returns the names that a script defines, and adds a violation for each process whose name comes earlier.
pub(crate) fn names_of<'a>(
    alloc: Global,
    script: &'a Script,
    into: &mut Items<Violation>,
) -> Result<Names<'a>, NoMemory>
    ensures names { IfOk result (λ names. names.script.now ≡ script.now) }
    ensures noted { OnOk result
        (into.new ≡ into.old ++ process_repeats none_seen script.now.procs) }
{
    let processes = process_positions(alloc, script.procs.as_slice(), into)?;
    let tools = tool_positions(alloc, script.tools.as_slice())?;
    Ok(Names {
        script,
        processes,
        tools,
    })
}

/// Returns the positions of the processes by name, and adds a violation for each process whose name comes earlier.
fn process_positions<'a>(
    alloc: Global,
    processes: &'a [ProcDef],
    into: &mut Items<Violation>,
) -> Result<IndexMap<&'a [u8], usize>, NoMemory>
    ensures kept { IfOk result (λ positions. (name : List ℕ)
        → position_in positions name ≡ position_of (map process_name processes.now) name) }
    ensures noted { OnOk result (into.new ≡ into.old ++ process_repeats none_seen processes.now) }
{
    let mut positions = IndexMap::with_capacity(alloc, processes.len())?;
    for (position, process) in processes.iter().enumerate() {
        let stood = keep_position(&mut positions, process.name.as_bytes(), position)?;
        note_if(stood, Rule::Twice, process.token, into)?;
    }
    Ok(positions)
}

fn tool_positions<'a>(
    alloc: Global,
    tools: &'a [ToolDef],
) -> Result<IndexMap<&'a [u8], usize>, NoMemory>
    ensures { IfOk result (λ positions. (name : List ℕ)
        → position_in positions name ≡ position_of (map tool_name tools.now) name) }
{
    let mut positions = IndexMap::new(alloc);
    for (position, tool) in tools.iter().enumerate() {
        keep_position(&mut positions, tool.name.as_bytes(), position)?;
    }
    Ok(positions)
}

/// Keeps the position of a name that has none so far. Returns whether the name had one.
fn keep_position<'a>(
    positions: &mut IndexMap<&'a [u8], usize>,
    name: &'a [u8],
    position: usize,
) -> Result<bool, NoMemory>
    ensures stood { IfOk result (λ stood. stood ≡ is_some (position_in positions.old name.now)) }
    ensures kept { OnOk result ((other : List ℕ) → position_in positions.new other
        ≡ kept (position_in positions.old other) (bytes_eq name.now other) position) }
{
    match positions.insert(name, position)? {
        None => Ok(false),
        Some(first) => {
            positions.insert(name, first)?;
            Ok(true)
        }
    }
}

/// Returns the process with this name.
pub(crate) fn process<'a>(names: &Names<'a>, name: &Ident) -> Option<&'a ProcDef>
    ensures { option_copied result ≡ process_named names.now.script.now.procs name.now }
{
    match names.processes.get(name.as_bytes()) {
        None => None,
        Some(position) => at(names.script.procs.as_slice(), *position),
    }
}

/// Returns the tool with this name.
pub(crate) fn tool<'a>(names: &Names<'a>, name: &Name) -> Option<&'a ToolDef>
    ensures { option_copied result ≡ tool_named names.now.script.now.tools name.now }
{
    match names.tools.get(name.as_bytes()) {
        None => None,
        Some(position) => at(names.script.tools.as_slice(), *position),
    }
}

/// Returns whether the innermost name of a type is neither a built-in type nor a defined tool.
pub(crate) fn is_unknown_sort(names: &Names, sort: &Sort) -> bool
    ensures { result ≡ is_unknown_sort names.now.script.now.tools sort.now }
{
    match sort {
        Sort::Bool | Sort::Int | Sort::Str | Sort::Any => false,
        Sort::List(members) => is_unknown_sort(names, members.get()),
        Sort::Tool(name) => tool(names, name).is_none(),
    }
}

/// Returns the function that an application with this many parts applies.
pub(crate) fn applied(name: &Name, count: usize) -> Option<Func>
    ensures { result ≡ applied name.now count }
{
    if count == 0 { None } else { function(name) }
}
