//! How the interface of a tool is computed from a program.

ghost use Rattle.std.specs.Prelude.{◌≡◌, ◌∷◌, [], None, Some, Err, IfOk, OnOk, find, fold, map, option_to_list};
ghost use Rattle.std.specs.List.{flat_map, list_any};
ghost use Rattle.std.specs.Option.{option_copied};
ghost use Rattle.std.specs.Str.{bytes_eq};
ghost use Rattle.tb_iface.specs.Interfaces.{from_of, hears, interface_by, interface_of, is_same_pattern, last_lines, tells, to_of, with_new};

use crate::lines::{heard_line, last_line, told_line};
use crate::{IfaceFault, Interface};
use std::alloc::Global;
use tb_body::{Body, Program, Tool};
use tb_terms::{Items, Name, NoMemory, Pattern, Patterns};

/// Returns the interface of the tool of this name, from the atoms of all defined processes, whether or not the program uses
/// them. Returns `Stranger` if the program declares no such tool.
pub fn interface(alloc: Global, program: &Program, tool: &Name) -> Result<Interface, IfaceFault>
    ensures found { IfOk result (λ found. interface_of program.now tool.now ≡ Some found) }
    ensures stranger { result ≡ Err IfaceFault.Stranger → interface_of program.now tool.now ≡ None }
{
    match kind_named(program.tools.as_slice(), tool) {
        Some(kind) => Ok(interface_of_kind(alloc, program, tool, kind)?),
        None => Err(IfaceFault::Stranger),
    }
}

fn kind_named<'a>(kinds: &'a [Tool], name: &Name) -> Option<&'a Tool>
    ensures { option_copied result ≡ find (λ kind. bytes_eq kind.name name.now) kinds.now }
{
    for kind in kinds {
        if kind.name.as_bytes() == name.as_bytes() {
            return Some(kind);
        }
    }
    None
}

/// Returns the interface of the tool of this name. `kind` is its declaration.
fn interface_of_kind(
    alloc: Global,
    program: &Program,
    tool: &Name,
    kind: &Tool,
) -> Result<Interface, NoMemory>
    ensures { IfOk result
        (λ found. interface_by program.now tool.now (Some kind.now) ≡ Some found) }
{
    let command = match &kind.command {
        Some(command) => Some(command.copy(alloc)?),
        None => None,
    };
    let to = to_of(alloc, program, tool)?;
    let from = from_of(alloc, program, tool)?;
    Ok(Interface { command, to, from })
}

fn to_of(alloc: Global, program: &Program, tool: &Name) -> Result<Patterns, NoMemory>
    ensures { IfOk result (λ to. to ≡ to_of program.now tool.now) }
{
    let mut to = Items::new(alloc);
    for body in program.bodies.as_slice() {
        add_told(alloc, tool, body, &mut to)?;
    }
    add_last(alloc, &mut to)?;
    Ok(to)
}

/// Adds the lines that every tool may receive if the bus shuts down without a `shutdown` of the program, unless they are listed.
fn add_last(alloc: Global, to: &mut Patterns) -> Result<(), NoMemory>
    ensures { OnOk result (to.new ≡ fold with_new to.old last_lines) }
{
    add_new(last_line(alloc, b"finish")?, to)?;
    add_new(last_line(alloc, b"halt")?, to)?;
    Ok(())
}

/// Adds the patterns of the lines that the atoms of a body may send to the tool, unless they are listed.
fn add_told(alloc: Global, tool: &Name, body: &Body, to: &mut Patterns) -> Result<(), NoMemory>
    ensures { OnOk result (to.new ≡ fold with_new to.old
        (flat_map (λ atom. tells tool.now body.now.sorts atom.act) body.now.atoms)) }
{
    for atom in body.atoms.as_slice() {
        add_line(
            told_line(alloc, tool, body.sorts.as_slice(), &atom.act)?,
            to,
        )?;
    }
    Ok(())
}

fn from_of(alloc: Global, program: &Program, tool: &Name) -> Result<Patterns, NoMemory>
    ensures { IfOk result (λ from. from ≡ from_of program.now tool.now) }
{
    let mut from = Items::new(alloc);
    for body in program.bodies.as_slice() {
        add_heard(alloc, program.tools.as_slice(), tool, body, &mut from)?;
    }
    Ok(from)
}

/// Adds the patterns of the lines that the atoms of a body may take from the tool, unless they are listed.
fn add_heard(
    alloc: Global,
    kinds: &[Tool],
    tool: &Name,
    body: &Body,
    from: &mut Patterns,
) -> Result<(), NoMemory>
    ensures { OnOk result (from.new ≡ fold with_new from.old
        (flat_map (λ atom. hears kinds.now tool.now body.now.sorts atom.act) body.now.atoms)) }
{
    for atom in body.atoms.as_slice() {
        add_line(
            heard_line(alloc, kinds, tool, body.sorts.as_slice(), &atom.act)?,
            from,
        )?;
    }
    Ok(())
}

fn add_line(line: Option<Pattern>, patterns: &mut Patterns) -> Result<(), NoMemory>
    ensures { OnOk result (patterns.new ≡ fold with_new patterns.old (option_to_list line)) }
{
    match line {
        Some(pattern) => add_new(pattern, patterns),
        None => Ok(()),
    }
}

/// Adds a pattern, unless it is listed.
fn add_new(pattern: Pattern, patterns: &mut Patterns) -> Result<(), NoMemory>
    ensures { OnOk result (patterns.new ≡ with_new patterns.old pattern) }
{
    if !has_pattern(patterns.as_slice(), &pattern) {
        patterns.push(pattern)?;
    }
    Ok(())
}

fn has_pattern(patterns: &[Pattern], pattern: &Pattern) -> bool
    ensures { result ≡ list_any (is_same_pattern pattern.now) patterns.now }
{
    for other in patterns {
        if is_same(pattern, other) {
            return true;
        }
    }
    false
}

fn is_same(pattern: &Pattern, other: &Pattern) -> bool
    ensures { result ≡ is_same_pattern pattern.now other.now }
{
    pattern.is_same(other)
}
