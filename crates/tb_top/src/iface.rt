//! `iface`: writes the interface of a tool of a script.
ghost use Rattle.std.specs.Prelude.{◌≡◌, ◌≢◌, ℕ, List, [], Option, Err, IfErr, IfOk, IfSome, OnErr};
ghost use Rattle.std.specs.Prelude.{find};
ghost use Rattle.std.specs.Option.{option_copied};
ghost use Rattle.std.specs.Str.{bytes_eq};
ghost use Rattle.tb_edge.specs.Faults.{Rose};
ghost use Rattle.tb_iface.specs.PatternTexts.{interface_text};
ghost use Rattle.tb_top.specs.Asking.{AsksBeside};
ghost use Rattle.tb_top.specs.Iface.{HasInterface, IfaceOutcome};
ghost use Rattle.tb_load.specs.Loading.{HasProgram};
ghost use Rattle.tb_top.specs.Helpers.Parts.{HasNoInterface, IsBehindScript, IsInside};
ghost use Rattle.tb_top.specs.Helpers.Parts.{IsInterfaceText};

use crate::fault::Fault;
use crate::loading::load_script;
use std::alloc::Global;
use tb_body::{Program, Tool};
use tb_edge::{Failed, Files, Sink};
use tb_iface::{IfaceFault, Interface, interface, write_interface};
use tb_terms::{Name, NoMemory};

/// Writes the interface of the tool with the name `tool`, of the script in the file of the other name.
pub fn iface<F: Files, O: Sink>(
    alloc: Global,
    script: &str,
    tool: &str,
    files: &mut F,
    out: &mut O,
) -> Result<(), Fault>
    ensures outcome { IfaceOutcome (F.held files.old script.now) tool.now
        (O.taken out.old) (O.taken out.new) result }
    ensures asks { AsksBeside (F.held files.old script.now) script.now []
        (F.asked files.old) (F.asked files.new) result }
    ensures file_rose { result ≡ Err Fault.File → Rose (F.faults files.old) (F.faults files.new) }
    ensures inside { IfErr result IsInside }
    ensures out_rose { result ≡ Err Fault.Out → Rose (O.faults out.old) (O.faults out.new) }
{
    match load_script(alloc, script, files) {
        Ok(program) => iface_program(alloc, &program, tool, out),
        Err(fault) => Err(fault),
    }
}

/// Writes the interface of the tool with this name in the program.
fn iface_program<O: Sink>(
    alloc: Global,
    program: &Program,
    tool: &str,
    out: &mut O,
) -> Result<(), Fault>
    ensures outcome { (told : Option (List ℕ)) → HasProgram told program.now
        → IfaceOutcome told tool.now (O.taken out.old) (O.taken out.new) result }
    ensures behind { IfErr result IsBehindScript }
    ensures not_file { result ≢ Err Fault.File }
    ensures inside { IfErr result IsInside }
    ensures out_rose { result ≡ Err Fault.Out → Rose (O.faults out.old) (O.faults out.new) }
{
    match interface_of(alloc, program, tool) {
        Ok(text) => put_interface(text.as_slice(), out),
        Err(fault) => Err(fault),
    }
}

/// Returns the text of the interface of the tool with this name. If the argument isn't a name, no tool has it.
fn interface_of(alloc: Global, program: &Program, tool: &str) -> Result<Vec<u8>, Fault>
    ensures ok { IfOk result (λ text. IsInterfaceText program.now tool.now text.items) }
    ensures err { IfErr result (HasNoInterface program.now tool.now) }
{
    match tool_named(program.tools.as_slice(), tool) {
        Some(kind) => interface_of_name(alloc, program, &kind.name),
        None => Err(Fault::Stranger),
    }
}

/// Finds the tool with this name.
fn tool_named<'a>(tools: &'a [Tool], name: &str) -> Option<&'a Tool>
    ensures is { option_copied result ≡ find (λ tool. bytes_eq tool.name name.now) tools.now }
    ensures named { IfSome result (λ tool. tool.now.name ≡ name.now) }
{
    for tool in tools {
        if tool.name.as_bytes() == name.as_bytes() {
            return Some(tool);
        }
    }
    None
}

fn interface_of_name(alloc: Global, program: &Program, tool: &Name) -> Result<Vec<u8>, Fault>
    ensures ok { IfOk result (λ text. IsInterfaceText program.now tool.now text.items) }
    ensures err { IfErr result (HasNoInterface program.now tool.now) }
{
    match interface(alloc, program, tool) {
        Ok(found) => text_of(alloc, tool, &found),
        Err(IfaceFault::Stranger) => Err(Fault::Stranger),
        Err(IfaceFault::NoMemory) => Err(Fault::NoMemory),
    }
}

/// Returns the text of an interface.
fn text_of(alloc: Global, tool: &Name, found: &Interface) -> Result<Vec<u8>, Fault>
    ensures ok { IfOk result (λ text. text.items ≡ interface_text tool.now found.now) }
    ensures err { IfErr result (λ fault. fault ≡ Fault.NoMemory) }
{
    let mut text = Vec::new(alloc);
    match write_interface(tool, found, &mut text) {
        Ok(()) => Ok(text),
        Err(NoMemory) => Err(Fault::NoMemory),
    }
}

/// Writes the text of an interface.
fn put_interface<O: Sink>(text: &[u8], out: &mut O) -> Result<(), Fault>
    ensures outcome { (told : Option (List ℕ)) (tool : List ℕ) (found : Interface)
        → HasInterface told tool found → text.now ≡ interface_text tool found
        → IfaceOutcome told tool (O.taken out.old) (O.taken out.new) result }
    ensures behind { IfErr result IsBehindScript }
    ensures not_file { result ≢ Err Fault.File }
    ensures inside { IfErr result IsInside }
    ensures rose { OnErr result (Rose (O.faults out.old) (O.faults out.new)) }
{
    match out.put(text) {
        Ok(()) => Ok(()),
        Err(Failed) => Err(Fault::Out),
    }
}
