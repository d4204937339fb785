//! Which expressions are allowed as values, as patterns that notes are compared with, and as patterns that receive.
ghost use Rattle.std.specs.Prelude.{◌≡◌, map};
ghost use Rattle.std.specs.List.{list_all};
ghost use Rattle.tb_func.specs.Functions.{signature_of};
ghost use Rattle.tb_body.specs.Acts.{some_and_all};
ghost use Rattle.tb_body.specs.Exprs.{is_receiving, is_test, is_value, positions_of};

use tb_func::signature;
use tb_terms::{Expr, Func};

/// Returns how many arguments the function takes.
fn arity(func: Func) -> usize
    ensures { result ≡ (signature_of func).arity }
{
    signature(func).arity as usize
}

/// Returns whether the expression is allowed as a value over this many slots.
#[cycle(is_value)]
pub(crate) fn is_value(slots: usize, expr: &Expr) -> bool
    ensures { result ≡ is_value slots expr.now }
{
    match expr {
        Expr::Int(_) | Expr::Str(_) => true,
        Expr::Var(slot) => (*slot as usize) < slots,
        Expr::Result(_) | Expr::Hole(_) => false,
        Expr::Appl(_, parts) => are_values(slots, parts.as_slice()),
        Expr::List(parts) => are_values(slots, parts.as_slice()),
        Expr::Call(f, parts) => parts.len() == arity(*f) && are_values(slots, parts.as_slice()),
    }
}

#[cycle(is_value)]
fn are_values(slots: usize, parts: &[Expr]) -> bool
    ensures { result ≡ list_all (λ part. part.value) (map (positions_of slots) parts.now) }
{
    for part in parts {
        if !is_value(slots, part) {
            return false;
        }
    }
    true
}

/// Returns whether the expression is allowed as a pattern that notes are compared with, and that assigns no variable.
#[cycle(is_test)]
fn is_test(slots: usize, expr: &Expr) -> bool
    ensures { result ≡ is_test slots expr.now }
{
    match expr {
        Expr::Int(_) | Expr::Str(_) | Expr::Hole(_) => true,
        Expr::Var(slot) => (*slot as usize) < slots,
        Expr::Result(_) => false,
        Expr::Appl(_, parts) => are_tests(slots, parts.as_slice()),
        Expr::List(parts) => are_tests(slots, parts.as_slice()),
        Expr::Call(f, parts) => parts.len() == arity(*f) && are_values(slots, parts.as_slice()),
    }
}

#[cycle(is_test)]
fn are_tests(slots: usize, parts: &[Expr]) -> bool
    ensures { result ≡ list_all (λ part. part.test) (map (positions_of slots) parts.now) }
{
    for part in parts {
        if !is_test(slots, part) {
            return false;
        }
    }
    true
}

/// Returns whether the expression is allowed as a pattern that receives values.
#[cycle(is_receiving)]
pub(crate) fn is_receiving(slots: usize, expr: &Expr) -> bool
    ensures { result ≡ is_receiving slots expr.now }
{
    match expr {
        Expr::Int(_) | Expr::Str(_) | Expr::Hole(_) => true,
        Expr::Var(slot) | Expr::Result(slot) => (*slot as usize) < slots,
        Expr::Appl(_, parts) => are_receiving(slots, parts.as_slice()),
        Expr::List(parts) => are_receiving(slots, parts.as_slice()),
        Expr::Call(f, parts) => parts.len() == arity(*f) && are_values(slots, parts.as_slice()),
    }
}

#[cycle(is_receiving)]
fn are_receiving(slots: usize, parts: &[Expr]) -> bool
    ensures { result ≡ list_all (λ part. part.receiving) (map (positions_of slots) parts.now) }
{
    for part in parts {
        if !is_receiving(slots, part) {
            return false;
        }
    }
    true
}

pub(crate) fn all_values(slots: usize, exprs: &[Expr]) -> bool
    ensures { result ≡ list_all (is_value slots) exprs.now }
{
    for expr in exprs {
        if !is_value(slots, expr) {
            return false;
        }
    }
    true
}

fn all_tests(slots: usize, exprs: &[Expr]) -> bool
    ensures { result ≡ list_all (is_test slots) exprs.now }
{
    for expr in exprs {
        if !is_test(slots, expr) {
            return false;
        }
    }
    true
}

fn all_receiving(slots: usize, exprs: &[Expr]) -> bool
    ensures { result ≡ list_all (is_receiving slots) exprs.now }
{
    for expr in exprs {
        if !is_receiving(slots, expr) {
            return false;
        }
    }
    true
}

#[tactic(auto, using(crate::proofs::Some::some_and_all_is))]
pub(crate) fn some_values(slots: usize, exprs: &[Expr]) -> bool
    ensures { result ≡ some_and_all (is_value slots) exprs.now }
{
    exprs.len() > 0 && all_values(slots, exprs)
}

#[tactic(auto, using(crate::proofs::Some::some_and_all_is))]
pub(crate) fn some_tests(slots: usize, exprs: &[Expr]) -> bool
    ensures { result ≡ some_and_all (is_test slots) exprs.now }
{
    exprs.len() > 0 && all_tests(slots, exprs)
}

#[tactic(auto, using(crate::proofs::Some::some_and_all_is))]
pub(crate) fn some_receiving(slots: usize, exprs: &[Expr]) -> bool
    ensures { result ≡ some_and_all (is_receiving slots) exprs.now }
{
    exprs.len() > 0 && all_receiving(slots, exprs)
}
