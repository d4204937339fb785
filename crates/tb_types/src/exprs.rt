//! The types that expressions fit, and the violations of expressions that don't depend on their places.

ghost use Rattle.std.specs.Prelude.{◌≡◌, ◌++◌, OnOk, IfOk, map};
ghost use Rattle.tb_terms.specs.declared.sort.Sort.{out-Sort};
ghost use Rattle.tb_func.specs.Fitting.{sort_of};
ghost use Rattle.tb_types.specs.Exprs.{judged, judged_kind, fits, expr_faults, all_fit, appl_fits, tool_fits, word_fits, application_faults, applied_faults, arguments_faults, argument_faults, parts_faults, has_wrong_count, variable_fits};
ghost use Rattle.tb_types.specs.Fitting.{is_list_of};
ghost use Rattle.tb_types.specs.Scopes.{visible, sort_in};

use crate::fitting::{
    goes_with, is_any, is_bool, is_int, is_str, is_tool_sort, is_truth_word, result_goes_with,
};
use crate::names::applied;
use crate::scope::{Scope, sort_of};
use crate::violation::{Rule, Violation, note_if};
use std::alloc::Global;
use tb_func::{Shape, Signature, signature};
use tb_syntax::{Ast, AstKind};
use tb_terms::{Boxed, Func, Ident, Items, Name, NoMemory, Sort};

/// Returns whether the expression fits the type.
#[cycle(fits)]
pub(crate) fn fits(scope: &Scope, expr: &Ast, sort: &Sort) -> bool
    ensures { result ≡ fits (visible scope.now) expr.now sort.now }
{
    kind_fits(scope, &expr.kind, sort)
}

#[cycle(fits)]
#[tactic(auto, using(crate::proofs::JudgedKinds::fits_of_appl, crate::proofs::JudgedKinds::fits_of_list))]
fn kind_fits(scope: &Scope, kind: &AstKind, sort: &Sort) -> bool
    ensures { result ≡ (judged_kind (visible scope.now) kind.now).fits sort.now }
{
    match kind {
        AstKind::Int(_) => is_any(sort) || is_int(sort),
        AstKind::Str(_) => is_any(sort) || is_str(sort),
        AstKind::Appl(name, parts) => {
            is_any(sort) || appl_fits(scope, name, parts.as_slice(), sort)
        }
        AstKind::Var(name) => is_any(sort) || variable_fits(scope, name, sort),
        AstKind::Result(_) => is_any(sort),
        AstKind::Hole(_) => is_any(sort),
        AstKind::List(parts) => is_any(sort) || list_fits(scope, parts.as_slice(), sort),
    }
}

#[cycle(fits)]
fn appl_fits(scope: &Scope, name: &Name, parts: &[Ast], sort: &Sort) -> bool
    ensures { result ≡ appl_fits name.now (map (judged (visible scope.now)) parts.now) sort.now }
{
    word_fits(name, parts.len(), sort)
        || result_goes_with(applied(name, parts.len()), sort)
        || tool_fits(scope, name, parts, sort)
}

fn word_fits(name: &Name, count: usize, sort: &Sort) -> bool
    ensures { result ≡ word_fits name.now count sort.now }
{
    count == 0 && is_truth_word(name) && is_bool(sort)
}

#[cycle(fits)]
fn tool_fits(scope: &Scope, name: &Name, parts: &[Ast], sort: &Sort) -> bool
    ensures { result ≡ tool_fits name.now (map (judged (visible scope.now)) parts.now) sort.now }
{
    match parts {
        [number] => is_tool_sort(name, sort) && fits(scope, number, &Sort::Int),
        _ => false,
    }
}

fn variable_fits(scope: &Scope, name: &Ident, sort: &Sort) -> bool
    ensures { result ≡ variable_fits (sort_in (visible scope.now) name.now) sort.now }
{
    match sort_of(scope, name) {
        None => false,
        Some(own) => goes_with(own, sort),
    }
}

#[cycle(fits)]
fn list_fits(scope: &Scope, parts: &[Ast], sort: &Sort) -> bool
    ensures { result
        ≡ is_list_of (all_fit (map (judged (visible scope.now)) parts.now)) (out-Sort sort.now) }
{
    match sort {
        Sort::List(members) => all_fit(scope, parts, members.get()),
        _ => false,
    }
}

#[cycle(fits)]
fn all_fit(scope: &Scope, parts: &[Ast], sort: &Sort) -> bool
    ensures { result ≡ all_fit (map (judged (visible scope.now)) parts.now) sort.now }
{
    for part in parts {
        if !fits(scope, part, sort) {
            return false;
        }
    }
    true
}

/// Adds the violations of the expression that don't depend on its place: functions with a wrong number of arguments or with arguments
/// that don't fit, and undeclared variables.
#[cycle(faults)]
pub(crate) fn push_expr(
    alloc: Global,
    scope: &Scope,
    expr: &Ast,
    into: &mut Items<Violation>,
) -> Result<(), NoMemory>
    ensures { OnOk result (into.new ≡ into.old ++ expr_faults (visible scope.now) expr.now) }
{
    push_kind(alloc, scope, &expr.kind, expr.token, into)?;
    Ok(())
}

#[cycle(faults)]
#[tactic(auto, using(crate::proofs::JudgedKinds::faults_of_appl, crate::proofs::JudgedKinds::faults_of_list))]
fn push_kind(
    alloc: Global,
    scope: &Scope,
    kind: &AstKind,
    token: usize,
    into: &mut Items<Violation>,
) -> Result<(), NoMemory>
    ensures { OnOk result
        (into.new ≡ into.old ++ (judged_kind (visible scope.now) kind.now).faults token) }
{
    match kind {
        AstKind::Int(_) => Ok(()),
        AstKind::Str(_) => Ok(()),
        AstKind::Appl(name, parts) => {
            push_application(alloc, scope, name, parts.as_slice(), token, into)?;
            Ok(())
        }
        AstKind::Var(name) => {
            note_if(
                sort_of(scope, name).is_none(),
                Rule::Undeclared,
                token,
                into,
            )?;
            Ok(())
        }
        AstKind::Result(name) => {
            note_if(
                sort_of(scope, name).is_none(),
                Rule::Undeclared,
                token,
                into,
            )?;
            Ok(())
        }
        AstKind::Hole(_) => Ok(()),
        AstKind::List(parts) => {
            push_parts(alloc, scope, parts.as_slice(), into)?;
            Ok(())
        }
    }
}

#[cycle(faults)]
fn push_application(
    alloc: Global,
    scope: &Scope,
    name: &Name,
    parts: &[Ast],
    token: usize,
    into: &mut Items<Violation>,
) -> Result<(), NoMemory>
    ensures { OnOk result (into.new ≡ into.old
        ++ application_faults name.now (map (judged (visible scope.now)) parts.now) token) }
{
    let func = applied(name, parts.len());
    note_if(has_wrong_count(func, parts.len()), Rule::Arity, token, into)?;
    push_applied(alloc, scope, func, parts, into)?;
    push_parts(alloc, scope, parts, into)?;
    Ok(())
}

#[cycle(faults)]
fn push_parts(
    alloc: Global,
    scope: &Scope,
    parts: &[Ast],
    into: &mut Items<Violation>,
) -> Result<(), NoMemory>
    ensures { OnOk result
        (into.new ≡ into.old ++ parts_faults (map (judged (visible scope.now)) parts.now)) }
{
    for part in parts {
        push_expr(alloc, scope, part, into)?;
    }
    Ok(())
}

fn has_wrong_count(func: Option<Func>, count: usize) -> bool
    ensures { result ≡ has_wrong_count func count }
{
    match func {
        None => false,
        Some(func) => count != signature(func).arity as usize,
    }
}

/// Adds a violation for each argument that doesn't fit the type of its position.
fn push_applied(
    alloc: Global,
    scope: &Scope,
    func: Option<Func>,
    parts: &[Ast],
    into: &mut Items<Violation>,
) -> Result<(), NoMemory>
    ensures { OnOk result
        (into.new ≡ into.old ++ applied_faults func (map (judged (visible scope.now)) parts.now)) }
{
    match func {
        None => Ok(()),
        Some(func) => {
            push_arguments(alloc, scope, signature(func), parts, into)?;
            Ok(())
        }
    }
}

fn push_arguments(
    alloc: Global,
    scope: &Scope,
    signature: Signature,
    parts: &[Ast],
    into: &mut Items<Violation>,
) -> Result<(), NoMemory>
    ensures { OnOk result (into.new
        ≡ into.old ++ arguments_faults signature (map (judged (visible scope.now)) parts.now)) }
{
    match parts {
        [] => Ok(()),
        [first] => {
            push_argument(alloc, scope, signature.first, first, into)?;
            Ok(())
        }
        [first, second, ..] => {
            push_argument(alloc, scope, signature.first, first, into)?;
            push_argument(alloc, scope, signature.second, second, into)?;
            Ok(())
        }
    }
}

fn push_argument(
    alloc: Global,
    scope: &Scope,
    shape: Shape,
    part: &Ast,
    into: &mut Items<Violation>,
) -> Result<(), NoMemory>
    ensures { OnOk result
        (into.new ≡ into.old ++ argument_faults shape (judged (visible scope.now) part.now)) }
{
    let sort = sort_of_shape(alloc, shape)?;
    note_if(!fits(scope, part, &sort), Rule::TypeClash, part.token, into)?;
    Ok(())
}

fn sort_of_shape(alloc: Global, shape: Shape) -> Result<Sort, NoMemory>
    ensures { IfOk result (λ sort. sort ≡ sort_of shape) }
{
    match shape {
        Shape::Bool => Ok(Sort::Bool),
        Shape::Int => Ok(Sort::Int),
        Shape::List => Ok(Sort::List(Boxed::new(alloc, Sort::Any)?)),
        Shape::Any => Ok(Sort::Any),
    }
}
