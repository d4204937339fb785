//! The expressions of a body that the expressions of a script become.

ghost use Rattle.std.specs.Prelude.{◌≡◌, IfOk};
ghost use Rattle.tb_expand.specs.Scopes.{of_blocks};
ghost use Rattle.tb_expand.specs.Exprs.{expr_of, exprs_of, kind_expr, named};

use crate::scope::{Blocks, slot_of};
use std::alloc::Global;
use tb_func::function;
use tb_syntax::{Ast, AstKind};
use tb_terms::{Expr, Exprs, Items, Name, NoMemory};

/// Returns the expression with its variables as slots and its applied functions as calls.
#[cycle(exprs)]
pub(crate) fn expr_of(alloc: Global, blocks: &Blocks, ast: &Ast) -> Result<Expr, NoMemory>
    ensures { IfOk result (λ e. e ≡ expr_of (of_blocks blocks.now) ast.now) }
{
    Ok(kind_expr(alloc, blocks, &ast.kind)?)
}

#[cycle(exprs)]
#[tactic(auto, using(crate::proofs::KindExprs::expr_of_appl, crate::proofs::KindExprs::expr_of_list))]
fn kind_expr(alloc: Global, blocks: &Blocks, kind: &AstKind) -> Result<Expr, NoMemory>
    ensures { IfOk result (λ e. e ≡ kind_expr (of_blocks blocks.now) kind.now) }
{
    match kind {
        AstKind::Int(number) => Ok(Expr::Int(*number)),
        AstKind::Str(text) => Ok(Expr::Str(text.copy(alloc)?)),
        AstKind::Appl(name, parts) => {
            let parts = exprs_of(alloc, blocks, parts.as_slice())?;
            Ok(named(name, parts)?)
        }
        AstKind::Var(name) => Ok(Expr::Var(slot_of(blocks, name.as_bytes()))),
        AstKind::Result(name) => Ok(Expr::Result(slot_of(blocks, name.as_bytes()))),
        AstKind::Hole(sort) => Ok(Expr::Hole(sort.copy(alloc)?)),
        AstKind::List(parts) => Ok(Expr::List(exprs_of(alloc, blocks, parts.as_slice())?)),
    }
}

/// Returns the expressions of the body, in the same order.
#[cycle(exprs)]
pub(crate) fn exprs_of(alloc: Global, blocks: &Blocks, asts: &[Ast]) -> Result<Exprs, NoMemory>
    ensures { IfOk result (λ exprs. exprs ≡ exprs_of (of_blocks blocks.now) asts.now) }
{
    let mut exprs = Items::new(alloc);
    for ast in asts {
        exprs.push(expr_of(alloc, blocks, ast)?)?;
    }
    Ok(exprs)
}

/// Returns a name with its arguments: a call if there are arguments and a function has this name, and a term otherwise.
fn named(name: &Name, parts: Exprs) -> Result<Expr, NoMemory>
    ensures { IfOk result (λ e. e ≡ named name.now parts) }
{
    if parts.is_empty() {
        return Ok(Expr::Appl(name.share()?, parts));
    }
    match function(name) {
        Some(func) => Ok(Expr::Call(func, parts)),
        None => Ok(Expr::Appl(name.share()?, parts)),
    }
}
