//! The violations of a script and of the bodies of its processes.

ghost use Rattle.std.specs.Prelude.{◌≡◌, ◌++◌, [], IfOk, OnOk, map, option_map};
ghost use Rattle.std.specs.List.{flat_map};
ghost use Rattle.tb_types.specs.Bodies.{proc_faults, else_faults, process_faults, root_faults, script_faults};
ghost use Rattle.tb_types.specs.Definitions.{none_seen, process_repeats, vars_faults};
ghost use Rattle.tb_types.specs.Scopes.{visible, known_formal, known_var};

use crate::atoms::{push_atom, push_tested};
use crate::calls::{Manner, push_call};
use crate::definitions::{push_formals, push_tools, push_vars};
use crate::names::{Names, names_of};
use crate::scope::Scope;
use crate::violation::Violation;
use std::alloc::Global;
use tb_syntax::{Call, Proc, ProcDef, Script, Var};
use tb_terms::{Boxed, Items, NoMemory, Sort};

/// Adds all violations of a script, and returns the names that the script defines.
pub(crate) fn push_script<'a>(
    alloc: Global,
    script: &'a Script,
    into: &mut Items<Violation>,
) -> Result<Names<'a>, NoMemory>
    ensures names { IfOk result (λ names. names.script.now ≡ script.now) }
    ensures noted { OnOk result (into.new ≡ into.old ++ script_faults script.now) }
{
    push_tools(alloc, script.tools.as_slice(), into)?;
    let names = names_of(alloc, script, into)?;
    push_processes(alloc, &names, script.procs.as_slice(), into)?;
    push_roots(alloc, &names, script.roots.as_slice(), into)?;
    Ok(names)
}

fn push_processes(
    alloc: Global,
    names: &Names,
    processes: &[ProcDef],
    into: &mut Items<Violation>,
) -> Result<(), NoMemory>
    ensures { OnOk result
        (into.new ≡ into.old ++ flat_map (process_faults names.now.script.now) processes.now) }
{
    for process in processes {
        push_process(alloc, names, process, into)?;
    }
    Ok(())
}

fn push_process(
    alloc: Global,
    names: &Names,
    process: &ProcDef,
    into: &mut Items<Violation>,
) -> Result<(), NoMemory>
    ensures { OnOk result (into.new ≡ into.old ++ process_faults names.now.script.now process.now) }
{
    let formals = process.formals.as_slice();
    push_formals(alloc, names, formals, into)?;
    push_proc(alloc, names, &Scope::Formals(formals), &process.body, into)?;
    Ok(())
}

fn push_roots(
    alloc: Global,
    names: &Names,
    roots: &[Call],
    into: &mut Items<Violation>,
) -> Result<(), NoMemory>
    ensures { OnOk result
        (into.new ≡ into.old ++ flat_map (root_faults names.now.script.now) roots.now) }
{
    for root in roots {
        push_root(alloc, names, root, into)?;
    }
    Ok(())
}

/// Adds the violations of a root. No variable is known in a root.
fn push_root(
    alloc: Global,
    names: &Names,
    root: &Call,
    into: &mut Items<Violation>,
) -> Result<(), NoMemory>
    ensures { OnOk result (into.new ≡ into.old ++ root_faults names.now.script.now root.now) }
{
    let none = Items::new(alloc);
    let scope = Scope::Formals(none.as_slice());
    push_call(alloc, names, &scope, Manner::Rooted, root, into)?;
    Ok(())
}

#[cycle(procs)]
#[tactic(auto, using(crate::proofs::ProcFaults::faults_of_if, crate::proofs::ProcFaults::faults_of_let))]
fn push_proc(
    alloc: Global,
    names: &Names,
    scope: &Scope,
    proc: &Proc,
    into: &mut Items<Violation>,
) -> Result<(), NoMemory>
    ensures { OnOk result
        (into.new ≡ into.old ++ proc_faults names.now.script.now proc.now (visible scope.now)) }
{
    match proc {
        Proc::Atom(atom) => {
            push_atom(alloc, names, scope, atom, into)?;
            Ok(())
        }
        Proc::Call(call) => {
            push_call(alloc, names, scope, Manner::Called, call, into)?;
            Ok(())
        }
        Proc::Seq(x, y)
        | Proc::Alt(x, y)
        | Proc::Star(x, y)
        | Proc::Par(x, y)
        | Proc::Disrupt(x, y) => {
            push_both(alloc, names, scope, x.get(), y.get(), into)?;
            Ok(())
        }
        Proc::If(test, x, y) => {
            push_tested(alloc, names, scope, &Sort::Bool, test, into)?;
            push_proc(alloc, names, scope, x.get(), into)?;
            push_else(alloc, names, scope, y, into)?;
            Ok(())
        }
        Proc::Let(vars, x) => {
            push_let(alloc, names, scope, vars.as_slice(), x.get(), into)?;
            Ok(())
        }
    }
}

#[cycle(procs)]
fn push_both(
    alloc: Global,
    names: &Names,
    scope: &Scope,
    x: &Proc,
    y: &Proc,
    into: &mut Items<Violation>,
) -> Result<(), NoMemory>
    ensures { OnOk result (into.new ≡ into.old
        ++ (proc_faults names.now.script.now x.now (visible scope.now)
        ++ proc_faults names.now.script.now y.now (visible scope.now))) }
{
    push_proc(alloc, names, scope, x, into)?;
    push_proc(alloc, names, scope, y, into)?;
    Ok(())
}

#[cycle(procs)]
fn push_else(
    alloc: Global,
    names: &Names,
    scope: &Scope,
    y: &Option<Boxed<Proc>>,
    into: &mut Items<Violation>,
) -> Result<(), NoMemory>
    ensures { OnOk result (into.new ≡ into.old
        ++ else_faults (option_map (proc_faults names.now.script.now) y.now) (visible scope.now)) }
{
    match y {
        None => Ok(()),
        Some(y) => {
            push_proc(alloc, names, scope, y.get(), into)?;
            Ok(())
        }
    }
}

/// Adds the violations of a `let`. Its variables are known in its body.
#[cycle(procs)]
fn push_let(
    alloc: Global,
    names: &Names,
    scope: &Scope,
    vars: &[Var],
    x: &Proc,
    into: &mut Items<Violation>,
) -> Result<(), NoMemory>
    ensures { OnOk result (into.new ≡ into.old
        ++ (vars_faults names.now.script.now.tools vars.now
        ++ proc_faults names.now.script.now x.now (map known_var vars.now ++ visible scope.now))) }
{
    push_vars(alloc, names, vars, into)?;
    let inner = Scope::Inner(&*vars, &*scope);
    push_proc(alloc, names, &inner, x, into)?;
    Ok(())
}
