//! The results of tests and the values of an act, with a fast path for messages and notes.
ghost use Rattle.std.specs.Prelude.{◌≡◌, ◌∷◌, [], ◌++◌, Some, None, IfOk, map, option_map, if◌then◌else◌};
ghost use Rattle.std.specs.Option.{option_copied};
ghost use Rattle.tb_func.specs.Values.{all_of, value_of};
ghost use Rattle.tb_process_steps.specs.Atoms.{act_in, limited_together, sent_exprs, values_together};
ghost use Rattle.tb_process_steps.specs.Settings.{tested};

use crate::number::{comparison, number};
use crate::room::emptied;
use std::alloc::Global;
use tb_body::{Act, Atom};
use tb_func::{Store, eval};
use tb_process_steps::{sent_values, tested};
use tb_terms::{Expr, MOST_TERM_SIZE, NoMemory, Term, Terms, total_size};

/// Returns the truth value of the test in the store. Numbers are compared without a term.
pub(crate) fn says(alloc: Global, store: &Store, test: &Expr) -> Result<Option<bool>, NoMemory>
    ensures { IfOk result (λ says. says ≡ tested store.now test.now) }
{
    match comparison(test, store) {
        Some(is_true) => Ok(Some(is_true)),
        None => Ok(tested(alloc, store, test)?),
    }
}

/// Returns the values that the act sends or looks at, like `sent_values`. The values of messages and notes have a fast path for numbers,
/// and use the memory of `room`.
pub(crate) fn sent_terms(
    alloc: Global,
    store: &Store,
    atom: Option<&Atom>,
    room: Option<Terms>,
) -> Result<Option<Terms>, NoMemory>
    ensures { IfOk result (λ terms. terms
        ≡ values_together store.now (sent_exprs (act_in (option_copied atom.entry)))) }
{
    match atom {
        Some(one) => match &one.act {
            Act::SndMsg(exprs) | Act::SndNote(exprs) => {
                Ok(message(alloc, store, exprs.as_slice(), room)?)
            }
            _ => Ok(sent_values(alloc, store, atom)?),
        },
        None => Ok(sent_values(alloc, store, atom)?),
    }
}

fn message(
    alloc: Global,
    store: &Store,
    exprs: &[Expr],
    room: Option<Terms>,
) -> Result<Option<Terms>, NoMemory>
    ensures { IfOk result (λ terms. terms ≡ values_together store.now exprs.now) }
{
    match values(alloc, store, exprs, room)? {
        Some(terms) => Ok(limited_together(terms)),
        None => Ok(None),
    }
}

fn values(
    alloc: Global,
    store: &Store,
    exprs: &[Expr],
    room: Option<Terms>,
) -> Result<Option<Terms>, NoMemory>
    ensures { IfOk result (λ terms. terms ≡ all_of (map (value_of store.now) exprs.now)) }
{
    let mut terms = emptied(alloc, room, exprs.len())?;
    for expr in exprs {
        if !push_value(alloc, store, expr, &mut terms)? {
            return Ok(None);
        }
    }
    Ok(Some(terms))
}

/// Adds the value of an expression. Returns whether the expression has a value.
fn push_value(
    alloc: Global,
    store: &Store,
    expr: &Expr,
    terms: &mut Terms,
) -> Result<bool, NoMemory>
    ensures { IfOk result
        (λ is_there. option_map (λ value. terms.old ++ value ∷ []) (value_of store.now expr.now)
        ≡ (if is_there then Some terms.new else None)) }
{
    match number(expr, store) {
        Some(number) => {
            terms.push(Term::Int(number))?;
            Ok(true)
        }
        None => push_other(alloc, store, expr, terms),
    }
}

#[inline(never)]
fn push_other(
    alloc: Global,
    store: &Store,
    expr: &Expr,
    terms: &mut Terms,
) -> Result<bool, NoMemory>
    ensures { IfOk result
        (λ is_there. option_map (λ value. terms.old ++ value ∷ []) (value_of store.now expr.now)
        ≡ (if is_there then Some terms.new else None)) }
{
    match eval(alloc, expr, store)? {
        Some(value) => {
            terms.push(value)?;
            Ok(true)
        }
        None => Ok(false),
    }
}

/// Returns the terms, if their total size is within the limit of a term.
fn limited_together(terms: Terms) -> Option<Terms>
    ensures { result ≡ limited_together terms }
{
    if total_size(terms.as_slice()) <= MOST_TERM_SIZE {
        Some(terms)
    } else {
        None
    }
}
