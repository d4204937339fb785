//! The patterns of an act, with a fast path for messages and notes.
ghost use Rattle.std.specs.Prelude.{◌≡◌, ◌∷◌, [], ◌++◌, Some, None, IfOk, OnOk, option_map, if◌then◌else◌};
ghost use Rattle.std.specs.Option.{option_copied};
ghost use Rattle.tb_terms.specs.declared.pattern.Pattern.TheVariants as pattern;
ghost use Rattle.tb_terms.specs.declared.term.Term.TheVariants as term;
ghost use Rattle.tb_func.specs.Patterns.{pattern_of};
ghost use Rattle.tb_func.specs.Stores.{sort_at};
ghost use Rattle.tb_process_steps.specs.Atoms.{act_in, matched_exprs, patterns_of};

use crate::number::variable;
use crate::room::emptied;
use std::alloc::Global;
use tb_body::{Act, Atom};
use tb_func::{Store, pattern};
use tb_process_steps::matched_patterns;
use tb_terms::{Expr, NoMemory, Pattern, Patterns, Sort, Term};

/// Returns the patterns of an act, like `matched_patterns`. The patterns of messages and notes have a fast path for numbers, and use the
/// memory of `room`.
pub(crate) fn patterns_by(
    alloc: Global,
    store: &Store,
    atom: Option<&Atom>,
    room: Option<Patterns>,
) -> Result<Option<Patterns>, NoMemory>
    ensures { IfOk result (λ patterns. patterns
        ≡ patterns_of store.now (matched_exprs (act_in (option_copied atom.entry)))) }
{
    match atom {
        Some(one) => match &one.act {
            Act::RecMsg(exprs) | Act::RecNote(exprs) => {
                Ok(message(alloc, store, exprs.as_slice(), room)?)
            }
            _ => Ok(matched_patterns(alloc, store, atom)?),
        },
        None => Ok(matched_patterns(alloc, store, atom)?),
    }
}

fn message(
    alloc: Global,
    store: &Store,
    exprs: &[Expr],
    room: Option<Patterns>,
) -> Result<Option<Patterns>, NoMemory>
    ensures { IfOk result (λ patterns. patterns ≡ patterns_of store.now exprs.now) }
{
    let mut patterns = emptied(alloc, room, exprs.len())?;
    for expr in exprs {
        if !push_pattern(alloc, store, expr, &mut patterns)? {
            return Ok(None);
        }
    }
    Ok(Some(patterns))
}

/// Adds the pattern of an expression. Returns whether the expression has a pattern.
fn push_pattern(
    alloc: Global,
    store: &Store,
    expr: &Expr,
    patterns: &mut Patterns,
) -> Result<bool, NoMemory>
    ensures { IfOk result
        (λ is_there. option_map (λ one. patterns.old ++ one ∷ []) (pattern_of store.now expr.now)
        ≡ (if is_there then Some patterns.new else None)) }
{
    match expr {
        Expr::Int(number) => {
            push_number(*number, patterns)?;
            Ok(true)
        }
        Expr::Var(slot) => match variable(*slot, store) {
            Some(number) => {
                push_number(number, patterns)?;
                Ok(true)
            }
            None => push_other(alloc, store, expr, patterns),
        },
        Expr::Result(slot) => push_result(alloc, store, *slot, patterns),
        _ => push_other(alloc, store, expr, patterns),
    }
}

fn push_number(number: i64, patterns: &mut Patterns) -> Result<(), NoMemory>
    ensures { OnOk result (patterns.new ≡ patterns.old ++ pattern.Fixed (term.Int number) ∷ []) }
{
    patterns.push(Pattern::Fixed(Term::Int(number)))?;
    Ok(())
}

fn push_result(
    alloc: Global,
    store: &Store,
    slot: u32,
    patterns: &mut Patterns,
) -> Result<bool, NoMemory>
    ensures { IfOk result (λ is_there. option_map (λ one. patterns.old ++ one ∷ [])
        (option_map (pattern.Result slot) (sort_at store.now slot))
        ≡ (if is_there then Some patterns.new else None)) }
{
    match store.get_sort(slot) {
        Some(sort) => {
            push_sorted(alloc, slot, sort, patterns)?;
            Ok(true)
        }
        None => Ok(false),
    }
}

/// Adds the pattern of a result variable of this type. In most steps, the type is that of numbers, which needs no copy.
fn push_sorted(
    alloc: Global,
    slot: u32,
    sort: &Sort,
    patterns: &mut Patterns,
) -> Result<(), NoMemory>
    ensures { OnOk result (patterns.new ≡ patterns.old ++ pattern.Result slot sort.now ∷ []) }
{
    match sort {
        Sort::Int => {
            patterns.push(Pattern::Result(slot, Sort::Int))?;
            Ok(())
        }
        _ => push_copied(alloc, slot, sort, patterns),
    }
}

#[inline(never)]
fn push_copied(
    alloc: Global,
    slot: u32,
    sort: &Sort,
    patterns: &mut Patterns,
) -> Result<(), NoMemory>
    ensures { OnOk result (patterns.new ≡ patterns.old ++ pattern.Result slot sort.now ∷ []) }
{
    let sort = sort.copy(alloc)?;
    patterns.push(Pattern::Result(slot, sort))?;
    Ok(())
}

#[inline(never)]
fn push_other(
    alloc: Global,
    store: &Store,
    expr: &Expr,
    patterns: &mut Patterns,
) -> Result<bool, NoMemory>
    ensures { IfOk result
        (λ is_there. option_map (λ one. patterns.old ++ one ∷ []) (pattern_of store.now expr.now)
        ≡ (if is_there then Some patterns.new else None)) }
{
    match pattern(alloc, expr, store)? {
        Some(one) => {
            patterns.push(one)?;
            Ok(true)
        }
        None => Ok(false),
    }
}
