//! A gate that admits one thread at a time.
use crate::yields::Yields;
use std::hint::spin_loop;
use std::sync::{Mutex, MutexGuard, Wait};

/// The number of attempts to enter, after the first one, before a thread sleeps.
const LOOKS: u32 = 100;

/// The number of pauses of the processor (`spin_loop`) before each of these attempts.
const PAUSES: u32 = 30;

/// A gate that lets one thread in at a time. It keeps no order: a thread that finds the gate open enters, even if other threads sleep.
/// If it waited for a sleeping thread, no thread would do work while that one wakes.
#[derive(Drop)]
pub struct Gate {
    inside: Mutex<()>,
    yields: Yields,
}

impl Gate {
    /// Returns an open gate.
    pub fn new() -> Gate {
        Gate {
            inside: Mutex::new(()),
            yields: Yields::new(),
        }
    }

    /// Enters when no thread is inside. The gate is shut until the guard is dropped.
    pub fn enter<R: Wait>(&self, rt: &R) -> MutexGuard<'_, ()> {
        if let Some(guard) = self.inside.try_lock() {
            return guard;
        }
        let mut may_yield = self.yields.are_allowed();
        for _ in 0..LOOKS {
            pause();
            if may_yield {
                may_yield = self.yields.let_others_run();
            }
            if let Some(guard) = self.inside.try_lock() {
                return guard;
            }
        }
        self.inside.lock(rt)
    }
}

fn pause() {
    for _ in 0..PAUSES {
        spin_loop();
    }
}

impl Default for Gate {
    fn default() -> Gate {
        Gate::new()
    }
}
