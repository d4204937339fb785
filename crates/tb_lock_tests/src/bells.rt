//! Tests of bells, gates and yields, with threads.
use std::sync::Wait;
use std::sync::atomic::{AtomicU64, Ordering};
use std::thread::{join, yield_now};
use tb_bells::{Bell, Bells, Gate, Sleeper, Yields};

/// The number of rounds of each thread.
const ROUNDS: u64 = 1_000;

#[test]
fn a_ring_before_the_wait_is_not_lost(rt: HostRuntime) {
    let bell = Bell::new();
    bell.ring();
    let first = bell.wait_past(&rt, 0);
    bell.ring();
    bell.ring();
    let last = bell.wait_past(&rt, first);
    drop(bell);
    assert_eq!(rt; (first, last), (1, 3));
}

/// Sleepers, each with its number of rings.
static RUNG: [(Sleeper, u64); 6] = [
    (Sleeper::Stepper, 2),
    (Sleeper::Writer(1), 1),
    (Sleeper::Writer(2), 3),
    (Sleeper::Writer(3), 1),
    (Sleeper::Writer(16), 2),
    (Sleeper::Log, 1),
];

#[test]
fn a_ring_counts_for_one_sleeper(rt: HostRuntime) {
    let bells = Bells::new();
    bells.ring(Sleeper::Stepper);
    bells.ring(Sleeper::Writer(2));
    bells.ring(Sleeper::Writer(2));
    bells.ring(Sleeper::Writer(16));
    bells.ring_all();
    for (sleeper, rings) in RUNG {
        assert_eq!(rt; bells.wait_past(&rt, sleeper, 0), rings);
    }
}

/// In each round, enters the gate and adds one to a count. Between reading and writing the count, the thread yields to other threads.
fn count_inside<R: Wait>(rt: &R, gate: &Gate, count: &AtomicU64) {
    for _ in 0..ROUNDS {
        let guard = gate.enter(rt);
        let found = count.load(Ordering::SeqCst);
        yield_now();
        count.store(found.wrapping_add(1), Ordering::SeqCst);
        drop(guard);
    }
}

#[test]
fn a_gate_lets_one_in(rt: HostRuntime) {
    let gate = Gate::new();
    let count = AtomicU64::new(0);
    join(
        &rt,
        || count_inside(&rt, &gate, &count),
        || count_inside(&rt, &gate, &count),
    );
    drop(gate);
    assert_eq!(rt; count.load(Ordering::SeqCst), 2 * ROUNDS);
}

#[test]
fn looks_in_vain_are_made_once_in_a_while(rt: HostRuntime) {
    let bell = Bell::new();
    let yields = Yields::default();
    let at_first = bell.is_worth_a_look();
    bell.look_past(0, &yields);
    bell.look_past(0, &yields);
    let mut looks = 0_u32;
    for _ in 0..64 {
        if bell.is_worth_a_look() {
            looks = looks.saturating_add(1);
        }
    }
    bell.ring();
    let rings = bell.look_past(0, &yields);
    let at_last = bell.is_worth_a_look();
    drop(bell);
    drop(yields);
    assert_eq!(rt; (at_first, looks, rings, at_last), (true, 1, 1, true));
}

/// In each round, rings the other bell and waits for a ring of its own bell. Returns the last count of rings that it has seen.
fn answer<R: Wait>(rt: &R, own: &Bell, other: &Bell) -> u64 {
    let mut heard = 0;
    for round in 0..ROUNDS {
        other.ring();
        for _ in rt.forever() {
            if heard > round {
                break;
            }
            heard = own.wait_past(rt, heard);
        }
    }
    heard
}

#[test]
fn two_threads_hear_each_other(rt: HostRuntime) {
    let one = Bell::new();
    let other = Bell::default();
    let heard = join(
        &rt,
        || answer(&rt, &one, &other),
        || answer(&rt, &other, &one),
    );
    drop(one);
    drop(other);
    assert_eq!(rt; heard, (ROUNDS, ROUNDS));
}
