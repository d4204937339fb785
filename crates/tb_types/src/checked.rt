//! The check of a script, with its first error.

ghost use Rattle.std.specs.Prelude.{◌≡◌, IfOk, IfErr, OnOk};
ghost use Rattle.tb_types.specs.Conditions.{Proper, IsFault};
ghost use Rattle.tb_types.specs.Helpers.Faults.{fault_of};

use crate::CheckFault;
use crate::bodies::push_script;
use crate::first::first;
use crate::names::Names;
use crate::violation::{Rule, Violation};
use std::alloc::Global;
use tb_syntax::Script;
use tb_terms::Items;

/// Checks that a script is well-formed. An error other than `NoMemory` is the first of the nine conditions that fails, with the first
/// token at which it fails.
pub fn check(alloc: Global, s: &Script) -> Result<(), CheckFault>
    ensures proper { OnOk result (Proper s.now) }
    ensures fault { IfErr result (λ fault. IsFault s.now fault) }
{
    match proper_names(alloc, s) {
        Ok(_names) => Ok(()),
        Err(fault) => Err(fault),
    }
}

/// Returns the names of a well-formed script, for later lookups. Returns the same errors as `check`.
#[tactic(auto, using(crate::proofs::Firsts::first_none, crate::proofs::Firsts::first_some))]
pub fn proper_names(alloc: Global, s: &Script) -> Result<Names<'_>, CheckFault>
    ensures names { IfOk result (λ names. names.script.now ≡ s.now) }
    ensures proper { OnOk result (Proper s.now) }
    ensures fault { IfErr result (λ fault. IsFault s.now fault) }
{
    let mut violation = Items::new(alloc);
    let Ok(names) = push_script(alloc, s, &mut violation) else {
        return Err(CheckFault::NoMemory);
    };
    match first(violation.as_slice()) {
        None => Ok(names),
        Some(first) => Err(fault_of(first)),
    }
}

fn fault_of(violation: Violation) -> CheckFault
    ensures { result ≡ fault_of violation }
{
    let token = violation.token;
    match violation.rule {
        Rule::Twice => CheckFault::Twice(token),
        Rule::NoProcess => CheckFault::NoProcess(token),
        Rule::NoTool => CheckFault::NoTool(token),
        Rule::NoFunction => CheckFault::NoFunction(token),
        Rule::Arity => CheckFault::Arity(token),
        Rule::Undeclared => CheckFault::Undeclared(token),
        Rule::ResultInSend => CheckFault::ResultInSend(token),
        Rule::NotResult => CheckFault::NotResult(token),
        Rule::TypeClash => CheckFault::TypeClash(token),
    }
}
