//! The values, the patterns, and the binds of an act.
ghost use Rattle.std.specs.Prelude.{◌≡◌, ◌∷◌, ◌+◌, Some, IfOk, map, option_and_then, option_map};
ghost use Rattle.std.specs.Option.{option_copied};
ghost use Rattle.tb_func.specs.Patterns.{pattern_of};
ghost use Rattle.tb_func.specs.Values.{value_of, all_of};
ghost use Rattle.tb_process_steps.specs.Atoms.{act_in, sent_exprs, matched_exprs, limited_together, values_together, patterns_of, accepted};

use std::alloc::Global;
use std::slice;
use tb_body::{Act, Atom};
use tb_func::{Store, eval, pattern};
use tb_match::{Binds, match_list};
use tb_terms::{Expr, Items, MOST_TERM_SIZE, NoMemory, Patterns, Term, Terms, total_size};

/// Returns the values that the act sends or looks at. Returns `None` if an expression has no value, or if the total size exceeds the
/// limit of a term. Without an atom, there are no values.
pub fn sent_values(
    alloc: Global,
    store: &Store,
    atom: Option<&Atom>,
) -> Result<Option<Terms>, NoMemory>
    ensures { IfOk result (λ terms. terms
        ≡ values_together store.now (sent_exprs (act_in (option_copied atom.entry)))) }
{
    let Some(atom) = atom else {
        return Ok(Some(Items::new(alloc)));
    };
    match values_of(alloc, store, &atom.act)? {
        Some(terms) => Ok(limited_together(terms)),
        None => Ok(None),
    }
}

fn values_of(alloc: Global, store: &Store, act: &Act) -> Result<Option<Terms>, NoMemory>
    ensures { IfOk result
        (λ terms. terms ≡ all_of (map (value_of store.now) (sent_exprs act.now))) }
{
    match act {
        Act::RecDisconnect(one) | Act::Shutdown(one) | Act::RecValue(one, _) => {
            values_after(alloc, store, one, &[])
        }
        Act::Set { value, .. } => values_after(alloc, store, value, &[]),
        Act::RecEvent(tool, _) => values_after(alloc, store, tool, &[]),
        Act::SndEval(tool, expr) | Act::SndDo(tool, expr) | Act::SndTerminate(tool, expr) => {
            values_after(alloc, store, tool, slice::from_ref(expr))
        }
        Act::SndAckEvent(tool, exprs) => values_after(alloc, store, tool, exprs.as_slice()),
        Act::SndMsg(exprs) | Act::SndNote(exprs) | Act::Printf(exprs) => {
            eval_all(alloc, store, exprs.as_slice())
        }
        Act::Create { actuals, .. } => eval_all(alloc, store, actuals.as_slice()),
        _ => Ok(Some(Items::new(alloc))),
    }
}

/// Returns the value of the first expression, then the values of the others.
fn values_after(
    alloc: Global,
    store: &Store,
    first: &Expr,
    others: &[Expr],
) -> Result<Option<Terms>, NoMemory>
    ensures { IfOk result
        (λ terms. terms ≡ all_of (map (value_of store.now) (first.now ∷ others.now))) }
{
    let mut terms = Items::new(alloc);
    match eval(alloc, first, store)? {
        Some(value) => terms.push(value)?,
        None => return Ok(None),
    }
    match eval_all(alloc, store, others)? {
        Some(more) => terms.append(more)?,
        None => return Ok(None),
    }
    Ok(Some(terms))
}

fn eval_all(alloc: Global, store: &Store, exprs: &[Expr]) -> Result<Option<Terms>, NoMemory>
    ensures { IfOk result (λ terms. terms ≡ all_of (map (value_of store.now) exprs.now)) }
{
    let mut terms = Items::new(alloc);
    for expr in exprs {
        match eval(alloc, expr, store)? {
            Some(value) => terms.push(value)?,
            None => return Ok(None),
        }
    }
    Ok(Some(terms))
}

/// Returns the terms, if their total size is within the limit of a term.
fn limited_together(terms: Terms) -> Option<Terms>
    ensures { result ≡ limited_together terms }
{
    if total_size(terms.as_slice()) <= MOST_TERM_SIZE {
        Some(terms)
    } else {
        None
    }
}

/// Returns the patterns of an act that receives terms or looks at notes. Other acts have no patterns. Returns `None` if an expression
/// has no pattern.
pub fn matched_patterns(
    alloc: Global,
    store: &Store,
    atom: Option<&Atom>,
) -> Result<Option<Patterns>, NoMemory>
    ensures { IfOk result (λ patterns. patterns
        ≡ patterns_of store.now (matched_exprs (act_in (option_copied atom.entry)))) }
{
    match atom {
        Some(atom) => patterns_of_act(alloc, store, &atom.act),
        None => Ok(Some(Items::new(alloc))),
    }
}

fn patterns_of_act(alloc: Global, store: &Store, act: &Act) -> Result<Option<Patterns>, NoMemory>
    ensures { IfOk result (λ patterns. patterns ≡ patterns_of store.now (matched_exprs act.now)) }
{
    match act {
        Act::RecMsg(exprs) | Act::RecNote(exprs) | Act::NoNote(exprs) => {
            patterns_of(alloc, store, exprs.as_slice())
        }
        Act::Subscribe(exprs) | Act::Unsubscribe(exprs) => {
            patterns_of(alloc, store, exprs.as_slice())
        }
        Act::RecEvent(_, exprs) => patterns_of(alloc, store, exprs.as_slice()),
        Act::RecValue(_, expr) => patterns_of(alloc, store, slice::from_ref(expr)),
        _ => Ok(Some(Items::new(alloc))),
    }
}

fn patterns_of(alloc: Global, store: &Store, exprs: &[Expr]) -> Result<Option<Patterns>, NoMemory>
    ensures { IfOk result (λ patterns. patterns ≡ patterns_of store.now exprs.now) }
{
    let mut patterns = Items::new(alloc);
    for expr in exprs {
        match pattern(alloc, expr, store)? {
            Some(pattern) => patterns.push(pattern)?,
            None => return Ok(None),
        }
    }
    Ok(Some(patterns))
}

/// Returns the binds of the act for these terms. Returns `None` if an expression has no pattern or the terms don't match.
pub fn accepted_binds(
    alloc: Global,
    store: &Store,
    atom: Option<&Atom>,
    ts: &Terms,
) -> Result<Option<Binds>, NoMemory>
    ensures { IfOk result (λ binds. binds
        ≡ accepted store.now (matched_exprs (act_in (option_copied atom.entry))) ts.now) }
{
    match matched_patterns(alloc, store, atom)? {
        Some(patterns) => match_list(alloc, &patterns, ts),
        None => Ok(None),
    }
}
