//! The values of expressions.
ghost use Rattle.std.specs.Prelude.{◌≡◌, IfOk, map, option_and_then, option_map};
ghost use Rattle.tb_terms.specs.declared.term.Term.TheVariants as term;
ghost use Rattle.tb_func.specs.Apply.{apply_of};
ghost use Rattle.tb_func.specs.Limits.{limited};
ghost use Rattle.tb_func.specs.Stores.{value_at};
ghost use Rattle.tb_func.specs.Values.{value_of, all_of};

use crate::calls::apply_two;
use crate::measured::{Measured, MeasuredParts};
use crate::{Store, apply};
use std::alloc::Global;
use tb_terms::{Expr, Func, Items, Name, NoMemory, Term};

/// Returns the value of the expression in the store, or `None` if it has no value. A number or a variable alone isn't measured.
#[cycle(eval)]
pub fn eval(alloc: Global, e: &Expr, s: &Store) -> Result<Option<Term>, NoMemory>
    ensures { IfOk result (λ v. v ≡ value_of s.now e.now) }
{
    match e {
        Expr::Int(number) => Ok(Some(Term::Int(*number))),
        Expr::Var(slot) => variable(alloc, *slot, s),
        Expr::Call(func, parts) => eval_call(alloc, *func, parts.as_slice(), s),
        Expr::Result(_) | Expr::Hole(_) => Ok(None),
        Expr::Str(_) | Expr::Appl(_, _) | Expr::List(_) => Ok(term_in(eval_measured(alloc, e, s)?)),
    }
}

/// Returns the value of the function for the values of the expressions. Two values need no list of arguments.
#[cycle(eval)]
fn eval_call(alloc: Global, func: Func, exprs: &[Expr], s: &Store) -> Result<Option<Term>, NoMemory>
    ensures { IfOk result
        (λ v. v ≡ option_and_then (apply_of func) (all_of (map (value_of s.now) exprs.now))) }
{
    match exprs {
        [first, second] => match eval(alloc, first, s)? {
            Some(a) => match eval(alloc, second, s)? {
                Some(b) => apply_two(alloc, func, &a, &b),
                None => Ok(None),
            },
            None => Ok(None),
        },
        _ => {
            let values = eval_all(alloc, exprs, s)?;
            Ok(term_in(value_of_call(alloc, func, values)?))
        }
    }
}

/// Returns the term without its size and depth.
fn term_in(value: Option<Measured>) -> Option<Term>
    ensures { result ≡ option_map (λ m. m.term) value }
{
    match value {
        Some(value) => Some(value.term),
        None => None,
    }
}

/// Returns the value of the expression with its size and depth, or `None` if the expression has no value.
#[cycle(eval_measured)]
fn eval_measured(alloc: Global, e: &Expr, s: &Store) -> Result<Option<Measured>, NoMemory>
    ensures { IfOk result (λ v. option_map (λ m. m.term) v ≡ value_of s.now e.now) }
{
    match e {
        Expr::Int(number) => Ok(Some(Measured::number(*number))),
        Expr::Str(text) => Ok(Measured::string(text.copy(alloc)?).limited()),
        Expr::Var(slot) => Ok(measured(variable(alloc, *slot, s)?)),
        Expr::Result(_) | Expr::Hole(_) => Ok(None),
        Expr::Appl(name, parts) => {
            let values = eval_all(alloc, parts.as_slice(), s)?;
            application(name, values)
        }
        Expr::Call(func, parts) => {
            let values = eval_all(alloc, parts.as_slice(), s)?;
            value_of_call(alloc, *func, values)
        }
        Expr::List(parts) => Ok(list(eval_all(alloc, parts.as_slice(), s)?)),
    }
}

/// Returns the values of the expressions, or `None` if one has no value.
#[cycle(eval_measured)]
fn eval_all(alloc: Global, exprs: &[Expr], s: &Store) -> Result<Option<MeasuredParts>, NoMemory>
    ensures { IfOk result
        (λ v. option_map (λ p. p.terms.items) v ≡ all_of (map (value_of s.now) exprs.now)) }
{
    let mut values = MeasuredParts::new(alloc);
    for expr in exprs {
        match eval_measured(alloc, expr, s)? {
            Some(value) => values.push(value)?,
            None => return Ok(None),
        }
    }
    Ok(Some(values))
}

pub(crate) fn measured(value: Option<Term>) -> Option<Measured>
    ensures { option_map (λ m. m.term) result ≡ value }
{
    match value {
        Some(term) => Some(Measured::new(term)),
        None => None,
    }
}

pub(crate) fn variable(alloc: Global, slot: u32, s: &Store) -> Result<Option<Term>, NoMemory>
    ensures { IfOk result (λ v. v ≡ value_at s.now slot) }
{
    match s.get(slot) {
        Some(term) => Ok(Some(term.copy(alloc)?)),
        None => Ok(None),
    }
}

fn application(name: &Name, parts: Option<MeasuredParts>) -> Result<Option<Measured>, NoMemory>
    ensures { IfOk result (λ v. option_map (λ m. m.term) v
        ≡ option_and_then (λ ts. limited (term.Appl name.now ts))
        (option_map (λ p. p.terms.items) parts)) }
{
    match parts {
        Some(parts) => Ok(parts.application(name.share()?).limited()),
        None => Ok(None),
    }
}

pub(crate) fn value_of_call(
    alloc: Global,
    f: Func,
    args: Option<MeasuredParts>,
) -> Result<Option<Measured>, NoMemory>
    ensures { IfOk result (λ v. option_map (λ m. m.term) v
        ≡ option_and_then (apply_of f) (option_map (λ p. p.terms.items) args)) }
{
    match args {
        Some(args) => Ok(measured(apply(alloc, f, &Items::from_vec(args.terms))?)),
        None => Ok(None),
    }
}

fn list(parts: Option<MeasuredParts>) -> Option<Measured>
    ensures { option_map (λ m. m.term) result
        ≡ option_and_then (λ ts. limited (term.List ts)) (option_map (λ p. p.terms.items) parts) }
{
    match parts {
        Some(parts) => parts.list().limited(),
        None => None,
    }
}
