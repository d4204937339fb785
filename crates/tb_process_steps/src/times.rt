//! The check of whether the times of an atom hold.
ghost use Rattle.std.specs.Prelude.{◌≡◌, IfOk, option_and_then};
ghost use Rattle.tb_func.specs.Arguments.{int_of};
ghost use Rattle.tb_func.specs.Values.{value_of};
ghost use Rattle.tb_process_steps.specs.Atoms.{holds, holds_for, is_at_least, is_at_most, is_ready};

use std::alloc::Global;
use tb_body::{Time, TimeKind, Times};
use tb_func::{Store, eval, int_of};
use tb_terms::{Expr, NoMemory};

/// Returns whether all times hold for an atom of this age, at `now` ticks of the bus.
pub fn is_ready(
    alloc: Global,
    store: &Store,
    age: u64,
    now: u64,
    times: &Times,
) -> Result<bool, NoMemory>
    ensures { IfOk result (λ ready. ready ≡ is_ready store.now age now times.now) }
{
    for time in times.as_slice() {
        if !holds(alloc, store, age, now, time)? {
            return Ok(false);
        }
    }
    Ok(true)
}

fn holds(alloc: Global, store: &Store, age: u64, now: u64, time: &Time) -> Result<bool, NoMemory>
    ensures { IfOk result (λ it. it ≡ holds store.now age now time.now) }
{
    match number(alloc, store, &time.value)? {
        Some(value) => Ok(holds_for(time.kind, value, age, now)),
        None => Ok(false),
    }
}

fn number(alloc: Global, store: &Store, expr: &Expr) -> Result<Option<i64>, NoMemory>
    ensures { IfOk result
        (λ number. number ≡ option_and_then int_of (value_of store.now expr.now)) }
{
    match eval(alloc, expr, store)? {
        Some(value) => Ok(int_of(&value)),
        None => Ok(None),
    }
}

fn holds_for(kind: TimeKind, value: i64, age: u64, now: u64) -> bool
    ensures { result ≡ holds_for kind value age now }
{
    match kind {
        TimeKind::Delay => is_at_most(value, age),
        TimeKind::Timeout => is_at_least(value, age),
        TimeKind::AbsDelay => is_at_most(value, now),
        TimeKind::AbsTimeout => is_at_least(value, now),
    }
}

fn is_at_most(value: i64, most: u64) -> bool
    ensures { result ≡ is_at_most value most }
{
    value < 0 || value as u64 <= most
}

fn is_at_least(value: i64, least: u64) -> bool
    ensures { result ≡ is_at_least value least }
{
    value >= 0 && value as u64 >= least
}
