//! The values of expressions without variables.

ghost use Rattle.std.specs.Prelude.{◌≡◌, IfOk, map};
ghost use Rattle.tb_types.specs.Values.{closed, closed_value, closed_kind, application, is_of_sort, has_value_of};

use crate::names::applied;
use std::alloc::Global;
use tb_func::{Store, eval};
use tb_syntax::{Ast, AstKind};
use tb_terms::{Expr, Exprs, Func, Items, Name, NoMemory, Sort, Term, has_sort};

/// Returns whether the expression has a value of this type if no variable is known.
pub(crate) fn has_value_of(alloc: Global, expr: &Ast, sort: &Sort) -> Result<bool, NoMemory>
    ensures { IfOk result (λ has. has ≡ has_value_of expr.now sort.now) }
{
    let value = closed_value(alloc, expr)?;
    Ok(is_of_sort(&value, sort))
}

/// Evaluates an expression if no variable is known, as for the argument of a root. Returns `None` if the expression has no value. A
/// variable, a result variable, and a placeholder have no value.
pub fn closed_value(alloc: Global, expr: &Ast) -> Result<Option<Term>, NoMemory>
    ensures { IfOk result (λ value. value ≡ closed_value expr.now) }
{
    let expr = closed(alloc, expr)?;
    let store = Store::fresh(alloc, &Items::new(alloc))?;
    Ok(eval(alloc, &expr, &store)?)
}

fn is_of_sort(value: &Option<Term>, sort: &Sort) -> bool
    ensures { result ≡ is_of_sort value.now sort.now }
{
    match value {
        None => false,
        Some(term) => has_sort(term, sort),
    }
}

/// Returns the expression with its functions resolved. Variables become placeholders, which have no value.
#[cycle(closed)]
fn closed(alloc: Global, expr: &Ast) -> Result<Expr, NoMemory>
    ensures { IfOk result (λ e. e ≡ closed expr.now) }
{
    closed_kind(alloc, &expr.kind)
}

#[cycle(closed)]
#[tactic(auto, using(crate::proofs::ClosedKinds::closed_of_appl, crate::proofs::ClosedKinds::closed_of_list))]
fn closed_kind(alloc: Global, kind: &AstKind) -> Result<Expr, NoMemory>
    ensures { IfOk result (λ e. e ≡ closed_kind kind.now) }
{
    match kind {
        AstKind::Int(number) => Ok(Expr::Int(*number)),
        AstKind::Str(text) => Ok(Expr::Str(text.copy(alloc)?)),
        AstKind::Appl(name, parts) => {
            let exprs = closed_parts(alloc, parts.as_slice())?;
            application(applied(name, parts.len()), name, exprs)
        }
        AstKind::Var(_) => Ok(Expr::Hole(Sort::Any)),
        AstKind::Result(_) => Ok(Expr::Hole(Sort::Any)),
        AstKind::Hole(sort) => Ok(Expr::Hole(sort.copy(alloc)?)),
        AstKind::List(parts) => Ok(Expr::List(closed_parts(alloc, parts.as_slice())?)),
    }
}

#[cycle(closed)]
fn closed_parts(alloc: Global, parts: &[Ast]) -> Result<Exprs, NoMemory>
    ensures { IfOk result (λ exprs. exprs ≡ map closed parts.now) }
{
    let mut exprs = Items::new(alloc);
    for part in parts {
        exprs.push(closed(alloc, part)?)?;
    }
    Ok(exprs)
}

fn application(func: Option<Func>, name: &Name, parts: Exprs) -> Result<Expr, NoMemory>
    ensures { IfOk result (λ e. e ≡ application func name.now parts) }
{
    match func {
        None => Ok(Expr::Appl(name.share()?, parts)),
        Some(func) => Ok(Expr::Call(func, parts)),
    }
}
