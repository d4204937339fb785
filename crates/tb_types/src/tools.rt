//! The tools whose types an expression fits.

ghost use Rattle.std.specs.Prelude.{◌≡◌, ℕ, List, map};
ghost use Rattle.tb_terms.specs.declared.sort.Sort.TheVariants as sorts;
ghost use Rattle.tb_types.specs.ExpectedSorts.{fits_some_tool};
ghost use Rattle.tb_types.specs.Exprs.{judged, judged_kind, appl_fits, variable_fits};
ghost use Rattle.tb_types.specs.Fitting.{goes_with, result_goes_with};
ghost use Rattle.tb_types.specs.Scopes.{visible, sort_in};
ghost use Rattle.tb_func.specs.Fitting.{sort_of};
ghost use Rattle.tb_types.specs.Helpers.Tools.{fitted_by, is_one_number};

use crate::exprs::fits;
use crate::names::{Names, applied, tool};
use crate::scope::{Scope, sort_of};
use tb_func::{Shape, signature};
use tb_syntax::{Ast, AstKind};
use tb_terms::{Func, Ident, Name, Sort};

/// The tools whose types an expression fits.
#[derive(Clone, Copy)]
pub enum Fitted<'a> {
    /// No tool.
    Nothing,
    /// Each tool.
    Every,
    /// Only the tool of this name.
    One(&'a Name),
}

/// Returns whether the expression fits the type of some tool that the script defines.
pub(crate) fn fits_some_tool(names: &Names, scope: &Scope, expr: &Ast) -> bool
    ensures { result ≡ fits_some_tool names.now.script.now.tools (visible scope.now) expr.now }
{
    match fitted_by_kind(scope, &expr.kind) {
        Fitted::Nothing => false,
        Fitted::Every => !names.script.tools.as_slice().is_empty(),
        Fitted::One(name) => tool(names, name).is_some(),
    }
}

fn fitted_by_kind<'a>(scope: &Scope<'a>, kind: &'a AstKind) -> Fitted<'a>
    ensures { (name : List ℕ) → (judged_kind (visible scope.now) kind.now).fits (sorts.Tool name)
        ≡ fitted_by result name }
{
    match kind {
        AstKind::Appl(name, parts) => fitted_by_application(scope, name, parts.as_slice()),
        AstKind::Var(name) => fitted_by_variable(scope, name),
        AstKind::Int(_) => Fitted::Nothing,
        AstKind::Str(_) => Fitted::Nothing,
        AstKind::Result(_) => Fitted::Nothing,
        AstKind::Hole(_) => Fitted::Nothing,
        AstKind::List(_) => Fitted::Nothing,
    }
}

fn fitted_by_variable<'a>(scope: &Scope<'a>, name: &Ident) -> Fitted<'a>
    ensures { (tool : List ℕ)
        → variable_fits (sort_in (visible scope.now) name.now) (sorts.Tool tool)
        ≡ fitted_by result tool }
{
    match sort_of(scope, name) {
        None => Fitted::Nothing,
        Some(own) => fitted_by_sort(own),
    }
}

fn fitted_by_sort(own: &Sort) -> Fitted<'_>
    ensures { (tool : List ℕ) → goes_with own.now (sorts.Tool tool) ≡ fitted_by result tool }
{
    match own {
        Sort::Bool => Fitted::Nothing,
        Sort::Int => Fitted::Nothing,
        Sort::Str => Fitted::Nothing,
        Sort::List(_) => Fitted::Nothing,
        Sort::Any => Fitted::Every,
        Sort::Tool(name) => Fitted::One(name),
    }
}

fn fitted_by_application<'a>(scope: &Scope, name: &'a Name, parts: &[Ast]) -> Fitted<'a>
    ensures { (tool : List ℕ)
        → appl_fits name.now (map (judged (visible scope.now)) parts.now) (sorts.Tool tool)
        ≡ fitted_by result tool }
{
    if gives_any(applied(name, parts.len())) {
        return Fitted::Every;
    }
    if is_one_number(scope, parts) {
        return Fitted::One(name);
    }
    Fitted::Nothing
}

/// Returns whether the function's result has the type `term`.
fn gives_any(func: Option<Func>) -> bool
    ensures { (tool : List ℕ) → result_goes_with func (sorts.Tool tool) ≡ result }
{
    match func {
        None => false,
        Some(func) => is_any_shape(signature(func).result),
    }
}

fn is_any_shape(shape: Shape) -> bool
    ensures { (tool : List ℕ) → goes_with (sort_of shape) (sorts.Tool tool) ≡ result }
{
    match shape {
        Shape::Bool => false,
        Shape::Int => false,
        Shape::List => false,
        Shape::Any => true,
    }
}

/// Returns whether there is exactly one part, and this part fits `int`.
fn is_one_number(scope: &Scope, parts: &[Ast]) -> bool
    ensures { result ≡ is_one_number (map (judged (visible scope.now)) parts.now) }
{
    match parts {
        [number] => fits(scope, number, &Sort::Int),
        _ => false,
    }
}
