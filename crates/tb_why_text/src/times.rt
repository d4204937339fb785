//! The sentence about an atom whose times don't hold: for how long it still waits.

use crate::waits::Seen;
use std::alloc::Global;
use tb_body::{Atom, Time, TimeKind};
use tb_func::{Store, eval};
use tb_log_plain::{put, put_count};
use tb_terms::{Expr, Items, NoMemory, Term};
use tb_why::Offering;

/// The ticks at which the times of an atom hold: the first and the last of them, counted from now. A negative number is a tick that has
/// passed.
#[derive(Clone, Copy)]
struct Window {
    opens: i64,
    closes: i64,
    /// Whether each time has a value without the values of variables.
    known: bool,
}

/// Appends the sentence about an atom whose times don't hold.
pub(crate) fn put_times(
    alloc: Global,
    seen: &Seen,
    atom: &Atom,
    offer: &Offering,
    into: &mut Vec<u8>,
) -> Result<(), NoMemory> {
    let window = window_of(alloc, atom, offer.age, seen.now)?;
    if window.closes < from_now(0, offer.age) {
        put_over(window.closes.unsigned_abs(), into)?;
        return put(b", before it was offered", into);
    }
    if window.opens > window.closes {
        return put(
            b"its times never hold: no tick is after its delay and within its time-out",
            into,
        );
    }
    if window.closes < 0 {
        return put_over(window.closes.unsigned_abs(), into);
    }
    if window.opens <= 0 {
        return put(b"its times don't hold", into);
    }
    put_more(window, into)?;
    if seen.no_ticks {
        put(b", and no more ticks come", into)?;
    }
    Ok(())
}

fn put_over(ticks: u64, into: &mut Vec<u8>) -> Result<(), NoMemory> {
    put(b"its time ended ", into)?;
    put_count(ticks, b"tick", into)?;
    put(b" ago", into)
}

/// Appends the number of ticks until the window opens. If a time isn't known, writes `at least` before it.
fn put_more(window: Window, into: &mut Vec<u8>) -> Result<(), NoMemory> {
    if !window.known {
        put(b"at least ", into)?;
    }
    put_count(window.opens.unsigned_abs(), b"more tick", into)
}

/// Returns the window in which the times of an atom hold. The atom has been offered for `age` ticks, on a bus that has seen `now` ticks.
fn window_of(alloc: Global, atom: &Atom, age: u64, now: u64) -> Result<Window, NoMemory> {
    let mut window = Window {
        opens: from_now(0, age),
        closes: i64::MAX,
        known: true,
    };
    for time in atom.times.as_slice() {
        window = narrowed(alloc, window, time, age, now)?;
    }
    Ok(window)
}

/// Returns the part of the window in which this time holds, too. If the time has no known value, the bounds remain, and `known` becomes
/// false.
fn narrowed(
    alloc: Global,
    window: Window,
    time: &Time,
    age: u64,
    now: u64,
) -> Result<Window, NoMemory> {
    let Some(wanted) = number_of(alloc, &time.value)? else {
        return Ok(Window {
            known: false,
            ..window
        });
    };
    Ok(match time.kind {
        TimeKind::Delay => opened(window, from_now(wanted, age)),
        TimeKind::AbsDelay => opened(window, from_now(wanted, now)),
        TimeKind::Timeout => closed(window, from_now(wanted, age)),
        TimeKind::AbsTimeout => closed(window, from_now(wanted, now)),
    })
}

fn opened(window: Window, tick: i64) -> Window {
    Window {
        opens: window.opens.max(tick),
        ..window
    }
}

fn closed(window: Window, tick: i64) -> Window {
    Window {
        closes: window.closes.min(tick),
        ..window
    }
}

/// Returns the tick, counted from now, at which a count reaches `wanted`. The count is `passed` now.
fn from_now(wanted: i64, passed: u64) -> i64 {
    wanted.saturating_sub_unsigned(passed)
}

/// Returns the number to which an expression without variables evaluates, if it has one.
fn number_of(alloc: Global, expr: &Expr) -> Result<Option<i64>, NoMemory> {
    let store = Store::fresh(alloc, &Items::new(alloc))?;
    match eval(alloc, expr, &store)? {
        Some(Term::Int(number)) => Ok(Some(number)),
        _ => Ok(None),
    }
}
