//! What a place requires of the expression there.

ghost use Rattle.std.specs.Prelude.{◌≡◌, ◌++◌, OnOk, IfOk, option_and_then};
ghost use Rattle.std.specs.Option.{option_copied};
ghost use Rattle.tb_syntax.specs.declared.ast.AstKind.{out-AstKind};
ghost use Rattle.tb_types.specs.ExpectedSorts.{expected_sort_of, name_alone, result_name, is_other_application, is_result, lacks_tool, lacks_function, lacks_result, taken_sort, is_refused_by, is_number_or_term, is_sort_of_tool, is_started_sort, clashes, site_faults};
ghost use Rattle.tb_types.specs.Fitting.{is_same_sort};
ghost use Rattle.tb_types.specs.Names.{has_command, tool_named};
ghost use Rattle.tb_types.specs.Scopes.{visible};

use crate::exprs::{fits, push_expr};
use crate::fitting::{is_any, is_any_tool, is_int, is_same_sort, is_tool_sort};
use crate::names::{Names, applied, tool};
use crate::positions::{Position, push_misplaced};
use crate::scope::{Scope, sort_of};
use crate::tools::fits_some_tool;
use crate::values::has_value_of;
use crate::violation::{Rule, Violation, note_if};
use std::alloc::Global;
use tb_syntax::{Ast, AstKind};
use tb_terms::{Ident, Items, Name, NoMemory, Sort};

/// What a place requires of the expression there.
#[derive(Clone, Copy)]
pub enum ExpectedSort<'a> {
    /// Any expression.
    Plain,
    /// An expression that fits this type.
    OfSort(&'a Sort),
    /// A test or a time value, which fits this type.
    Tested(&'a Sort),
    /// An argument of a root, which fits this type and has a value of it.
    Rooted(&'a Sort),
    /// The argument of a result parameter: a result variable of this type.
    Exact(&'a Sort),
    /// The variable of `create`.
    Made,
    /// The tool of `execute`.
    Command,
    /// The variable of `execute`, with the name of the tool if the first argument is a name without arguments.
    Started(Option<&'a Name>),
    /// The variable of `rec-connect`.
    Connected,
    /// The argument of `rec-disconnect`.
    Disconnected,
    /// The first argument of the other tool atoms.
    OfTool,
}

/// The place of an expression.
#[derive(Clone, Copy)]
pub struct Site<'a> {
    /// The kind of the place.
    pub position: Position,
    /// What the place requires of the expression.
    pub expected_sort: ExpectedSort<'a>,
}

/// Adds all violations of an expression at its place.
pub(crate) fn push_site(
    alloc: Global,
    names: &Names,
    scope: &Scope,
    site: &Site,
    expr: &Ast,
    into: &mut Items<Violation>,
) -> Result<(), NoMemory>
    ensures { OnOk result (into.new ≡ into.old ++ site_faults names.now.script.now
        (visible scope.now) site.now.position (expected_sort_of site.now.expected_sort) expr.now) }
{
    let token = expr.token;
    let expected_sort = &site.expected_sort;
    note_if(
        lacks_tool(names, expected_sort, expr),
        Rule::NoTool,
        token,
        into,
    )?;
    note_if(
        lacks_function(expected_sort, expr),
        Rule::NoFunction,
        token,
        into,
    )?;
    push_expr(alloc, scope, expr, into)?;
    push_misplaced(site.position, expr, into)?;
    note_if(
        lacks_result(expected_sort, expr),
        Rule::NotResult,
        token,
        into,
    )?;
    let clashes = clashes(alloc, names, scope, expected_sort, expr)?;
    note_if(clashes, Rule::TypeClash, token, into)?;
    Ok(())
}

/// Returns the name of an expression that is a name without arguments.
pub(crate) fn name_alone(kind: &AstKind) -> Option<&Name>
    ensures { option_copied result ≡ name_alone (out-AstKind kind.now) }
{
    match kind {
        AstKind::Appl(name, parts) if parts.is_empty() => Some(name),
        _ => None,
    }
}

fn result_name(kind: &AstKind) -> Option<&Ident>
    ensures { option_copied result ≡ result_name (out-AstKind kind.now) }
{
    match kind {
        AstKind::Result(name) => Some(name),
        _ => None,
    }
}

fn is_result(expr: &Ast) -> bool
    ensures { result ≡ is_result expr.now }
{
    result_name(&expr.kind).is_some()
}

fn is_other_application(kind: &AstKind) -> bool
    ensures { result ≡ is_other_application (out-AstKind kind.now) }
{
    match kind {
        AstKind::Appl(name, parts) => {
            !parts.as_slice().is_empty() && applied(name, parts.len()).is_none()
        }
        _ => false,
    }
}

fn lacks_tool(names: &Names, expected_sort: &ExpectedSort, expr: &Ast) -> bool
    ensures { result
        ≡ lacks_tool names.now.script.now (expected_sort_of expected_sort.now) expr.now }
{
    match expected_sort {
        ExpectedSort::Command => !is_command(names, &expr.kind),
        _ => false,
    }
}

/// Returns whether the expression is the name, without arguments, of a tool with a command.
fn is_command(names: &Names, kind: &AstKind) -> bool
    ensures { result ≡ has_command (option_and_then (tool_named names.now.script.now.tools)
        (name_alone (out-AstKind kind.now))) }
{
    match name_alone(kind) {
        None => false,
        Some(name) => match tool(names, name) {
            None => false,
            Some(tool) => tool.command.is_some(),
        },
    }
}

fn lacks_function(expected_sort: &ExpectedSort, expr: &Ast) -> bool
    ensures { result ≡ lacks_function (expected_sort_of expected_sort.now) expr.now }
{
    match expected_sort {
        ExpectedSort::Tested(_) => is_other_application(&expr.kind),
        _ => false,
    }
}

fn lacks_result(expected_sort: &ExpectedSort, expr: &Ast) -> bool
    ensures { result ≡ lacks_result (expected_sort_of expected_sort.now) expr.now }
{
    match expected_sort {
        ExpectedSort::Exact(_)
        | ExpectedSort::Made
        | ExpectedSort::Started(_)
        | ExpectedSort::Connected => !is_result(expr),
        _ => false,
    }
}

/// Returns the type of the expression if it is a result variable that is declared.
fn taken_sort<'a>(scope: &Scope<'a>, expr: &Ast) -> Option<&'a Sort>
    ensures { option_copied result ≡ taken_sort (visible scope.now) expr.now }
{
    match result_name(&expr.kind) {
        None => None,
        Some(name) => sort_of(scope, name),
    }
}

fn clashes(
    alloc: Global,
    names: &Names,
    scope: &Scope,
    expected_sort: &ExpectedSort,
    expr: &Ast,
) -> Result<bool, NoMemory>
    ensures { IfOk result (λ found. found ≡ clashes names.now.script.now (visible scope.now)
        (expected_sort_of expected_sort.now) expr.now) }
{
    match expected_sort {
        ExpectedSort::Plain | ExpectedSort::Command => Ok(false),
        ExpectedSort::OfSort(sort) | ExpectedSort::Tested(sort) => Ok(!fits(scope, expr, sort)),
        ExpectedSort::Rooted(sort) => {
            let has_value = has_value_of(alloc, expr, sort)?;
            Ok(!(fits(scope, expr, sort) && has_value))
        }
        ExpectedSort::Exact(sort) => Ok(exact_clashes(scope, sort, expr)),
        ExpectedSort::Made => Ok(made_clashes(scope, expr)),
        ExpectedSort::Started(name) => Ok(started_clashes(scope, *name, expr)),
        ExpectedSort::Connected => Ok(connected_clashes(scope, expr)),
        ExpectedSort::Disconnected => Ok(
            connected_clashes(scope, expr)
                || (!is_result(expr) && !fits_some_tool(names, scope, expr)),
        ),
        ExpectedSort::OfTool => Ok(!fits_some_tool(names, scope, expr)),
    }
}

fn exact_clashes(scope: &Scope, sort: &Sort, expr: &Ast) -> bool
    ensures { result
        ≡ is_refused_by (is_same_sort sort.now) (taken_sort (visible scope.now) expr.now) }
{
    match taken_sort(scope, expr) {
        None => false,
        Some(own) => !is_same_sort(sort, own),
    }
}

fn made_clashes(scope: &Scope, expr: &Ast) -> bool
    ensures { result ≡ is_refused_by is_number_or_term (taken_sort (visible scope.now) expr.now) }
{
    match taken_sort(scope, expr) {
        None => false,
        Some(own) => !(is_int(own) || is_any(own)),
    }
}

fn started_clashes(scope: &Scope, name: Option<&Name>, expr: &Ast) -> bool
    ensures { result ≡ is_refused_by (is_started_sort (option_copied name.entry))
        (taken_sort (visible scope.now) expr.now) }
{
    match taken_sort(scope, expr) {
        None => false,
        Some(own) => !is_started_sort(name, own),
    }
}

fn is_started_sort(name: Option<&Name>, sort: &Sort) -> bool
    ensures { result ≡ is_started_sort (option_copied name.entry) sort.now }
{
    match name {
        None => is_any(sort),
        Some(name) => is_any(sort) || is_tool_sort(name, sort),
    }
}

fn connected_clashes(scope: &Scope, expr: &Ast) -> bool
    ensures { result ≡ is_refused_by is_sort_of_tool (taken_sort (visible scope.now) expr.now) }
{
    match taken_sort(scope, expr) {
        None => false,
        Some(own) => !is_any_tool(own),
    }
}
