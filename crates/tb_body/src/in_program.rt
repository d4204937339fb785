//! Checks that the processes and tools that acts and roots refer to are in the program.
ghost use Rattle.std.specs.Prelude.{◌≡◌, slice_get};
ghost use Rattle.std.specs.List.{list_all};
ghost use Rattle.tb_body.specs.Programs.{are_actuals, has_command, have_sorts, is_act_in_program, is_body_in_program, is_program_in_range, is_root_in_range, takes};

use crate::{Act, Atom, Body, Root, Tool};
use sqlite_items::at;
use tb_terms::{Sort, Term, are_within_limits, has_sort};

/// The greatest number of roots of a program.
pub const MOST_ROOTS: usize = 10_000;

/// Returns whether each body and each root refers only to processes and tools that exist and fit, and the roots are within their limit.
#[tactic(auto, unfolding(crate::specs::Programs::is_program_in_range))]
pub(crate) fn is_program_in_range(bodies: &[Body], roots: &[Root], tools: &[Tool]) -> bool
    ensures { result ≡ is_program_in_range bodies.now roots.now tools.now }
{
    are_bodies_in_program(bodies, tools)
        && roots.len() <= MOST_ROOTS
        && are_roots_in_range(bodies, roots)
}

fn are_bodies_in_program(bodies: &[Body], tools: &[Tool]) -> bool
    ensures { result ≡ list_all (is_body_in_program bodies.now tools.now) bodies.now }
{
    for body in bodies {
        if !are_acts_in_program(bodies, tools, body.atoms.as_slice()) {
            return false;
        }
    }
    true
}

fn are_acts_in_program(bodies: &[Body], tools: &[Tool], atoms: &[Atom]) -> bool
    ensures { result
        ≡ list_all (λ atom. is_act_in_program bodies.now tools.now atom.act) atoms.now }
{
    for atom in atoms {
        if !is_act_in_program(bodies, tools, &atom.act) {
            return false;
        }
    }
    true
}

/// Returns whether a created process takes the arguments, and a tool exists and has a command if the act starts it.
fn is_act_in_program(bodies: &[Body], tools: &[Tool], act: &Act) -> bool
    ensures { result ≡ is_act_in_program bodies.now tools.now act.now }
{
    match act {
        Act::Create {
            process,
            actuals,
            ..
        } => takes(bodies, *process, actuals.len()),
        Act::Execute { tool, .. } => has_command(tools, *tool),
        Act::RecConnect { tool, .. } | Act::RecDisconnectAny { tool, .. } => {
            (*tool as usize) < tools.len()
        }
        _ => true,
    }
}

fn takes(bodies: &[Body], process: u32, actuals: usize) -> bool
    ensures { result ≡ takes (slice_get bodies.now process) actuals }
{
    match at(bodies, process as usize) {
        Some(body) => body.formals as usize == actuals,
        None => false,
    }
}

fn has_command(tools: &[Tool], tool: u32) -> bool
    ensures { result ≡ has_command (slice_get tools.now tool) }
{
    match at(tools, tool as usize) {
        Some(tool) => tool.command.is_some(),
        None => false,
    }
}

fn are_roots_in_range(bodies: &[Body], roots: &[Root]) -> bool
    ensures { result ≡ list_all (is_root_in_range bodies.now) roots.now }
{
    for root in roots {
        if !is_root_in_range(bodies, root) {
            return false;
        }
    }
    true
}

fn is_root_in_range(bodies: &[Body], root: &Root) -> bool
    ensures { result ≡ is_root_in_range bodies.now root.now }
{
    match at(bodies, root.process as usize) {
        Some(body) => are_actuals(body, root.actuals.as_slice()),
        None => false,
    }
}

/// Returns whether these are arguments of the body: in number, in type, and within the limits of terms.
fn are_actuals(body: &Body, actuals: &[Term]) -> bool
    ensures { result ≡ are_actuals body.now actuals.now }
{
    actuals.len() == body.formals as usize
        && have_sorts(body.sorts.as_slice(), actuals)
        && are_within_limits(actuals)
}

/// Returns whether each term has the type at its position. There can be more types than terms.
fn have_sorts(sorts: &[Sort], terms: &[Term]) -> bool
    ensures { result ≡ have_sorts sorts.now terms.now }
{
    for (position, term) in terms.iter().enumerate() {
        match at(sorts, position) {
            Some(sort) => {
                if !has_sort(term, sort) {
                    return false;
                }
            }
            None => return false,
        }
    }
    true
}
