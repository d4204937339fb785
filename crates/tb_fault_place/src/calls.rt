//! Finds the tokens where a process calls another and where a process is defined.
ghost use Rattle.std.specs.Prelude.{◌≡◌, option_map};
ghost use Rattle.std.specs.Option.{option_copied};
ghost use Rattle.tb_types.specs.Names.{process_named};
ghost use Rattle.tb_fault_place.specs.Calls.{call_else, call_in, call_token, cycle_token, definition_token, first_call};

use tb_syntax::{Call, Proc, ProcDef, Script};
use tb_terms::{Boxed, Ident};

/// Returns the token of the first call with this name in a body.
#[cycle(calls)]
fn call_in(name: &[u8], body: &Proc) -> Option<usize>
    ensures { result ≡ call_in name.now body.now }
{
    match body {
        Proc::Atom(_) => None,
        Proc::Call(call) => call_token(name, call),
        Proc::Seq(x, y)
        | Proc::Alt(x, y)
        | Proc::Star(x, y)
        | Proc::Par(x, y)
        | Proc::Disrupt(x, y) => call_in(name, x.get()).or(call_in(name, y.get())),
        Proc::If(_, x, y) => call_in(name, x.get()).or(call_in_else(name, y)),
        Proc::Let(_, x) => call_in(name, x.get()),
    }
}

#[cycle(calls)]
fn call_in_else(name: &[u8], y: &Option<Boxed<Proc>>) -> Option<usize>
    ensures { result ≡ call_else (option_map (call_in name.now) y.now) }
{
    match y {
        None => None,
        Some(y) => call_in(name, y.get()),
    }
}

fn call_token(name: &[u8], call: &Call) -> Option<usize>
    ensures { result ≡ call_token name.now call.now }
{
    if call.name.as_bytes() == name {
        return Some(call.token);
    }
    None
}

/// Returns the first process with this name.
fn process_named<'a>(processes: &'a [ProcDef], name: &[u8]) -> Option<&'a ProcDef>
    ensures { option_copied result ≡ process_named processes.now name.now }
{
    for process in processes {
        if process.name.as_bytes() == name {
            return Some(process);
        }
    }
    None
}

/// Returns the token of the first call of process `called` in the body of process `caller`, or `None` if there is none.
pub fn first_call(script: &Script, caller: &[u8], called: &[u8]) -> Option<usize>
    ensures { result ≡ first_call script.now caller.now called.now }
{
    match process_named(script.procs.as_slice(), caller) {
        None => None,
        Some(process) => call_in(called, &process.body),
    }
}

/// Returns the token where the first of these processes calls the next one, or itself if it is the only one.
pub(crate) fn cycle_token(script: &Script, names: &[Ident]) -> Option<usize>
    ensures { result ≡ cycle_token script.now names.now }
{
    match names {
        [] => None,
        [only] => first_call(script, only.as_bytes(), only.as_bytes()),
        [first, second, ..] => first_call(script, first.as_bytes(), second.as_bytes()),
    }
}

/// Returns the token where the process with this name is defined.
pub(crate) fn definition_token(script: &Script, name: &[u8]) -> Option<usize>
    ensures { result ≡ definition_token script.now name.now }
{
    match process_named(script.procs.as_slice(), name) {
        None => None,
        Some(process) => Some(process.token),
    }
}
