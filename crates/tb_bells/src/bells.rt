//! The bells of a bus, and the threads that sleep on them.
use crate::bell::Bell;
use crate::yields::Yields;
use std::sync::Wait;
use std::sync::atomic::{AtomicU32, Ordering};
use std::time::Duration;

/// The greatest number of threads that look for a ring at the same time, each for some microseconds, before they sleep. If a tool
/// answers within this time, no thread must be woken. More looking threads would take the processors from the tools.
const LOOKERS: u32 = 2;

/// How long `pause` waits at most, in milliseconds.
const PAUSE: u64 = 2;

/// A thread with a bell of its own, on which it sleeps.
#[derive(Clone, Copy, Debug, PartialEq, Eq)]
pub enum Sleeper {
    /// The stepper, the thread that takes steps.
    Stepper,
    /// The writer of this lane, from 1 to 16: the thread that takes the items for the lane's tool. Other numbers count modulo 16.
    Writer(u8),
    /// The thread that writes the log.
    Log,
}

/// A bell for each thread that sleeps while the bus has no work for it. A ring for one sleeper counts for no other sleeper.
#[derive(Drop)]
pub struct Bells {
    stepper: Bell,
    writers: [Bell; 16],
    log: Bell,
    pause: Bell,
    lookers: AtomicU32,
    yields: Yields,
}

impl Bells {
    /// Returns bells with the count 0.
    pub fn new() -> Bells {
        Bells {
            stepper: Bell::new(),
            writers: sixteen(),
            log: Bell::new(),
            pause: Bell::new(),
            lookers: AtomicU32::new(0),
            yields: Yields::new(),
        }
    }

    /// Adds one ring for this sleeper, and wakes it. If it doesn't sleep, this makes no system call.
    pub fn ring(&self, sleeper: Sleeper) {
        self.of(sleeper).ring();
    }

    /// Adds one ring for each sleeper, wakes all of them, and ends each `pause`.
    pub fn ring_all(&self) {
        self.stepper.ring();
        for writer in &self.writers {
            writer.ring();
        }
        self.log.ring();
        self.pause.ring();
    }

    /// Waits two milliseconds, or until `ring_all`. The thread that writes the log pauses after a small piece. The entries of the
    /// pause then become one piece, and no thread wakes the log's writer for each entry.
    pub fn pause<R: Wait>(&self, rt: &R) {
        self.pause.sleep(rt, Duration::from_millis(PAUSE));
    }

    /// Sleeps while this sleeper's count is `seen`, then returns the new count. It first looks for a ring if a look is worthwhile.
    /// A thread passes 0 first, and then the last answer. So it doesn't sleep if a ring for it has come since that answer.
    pub fn wait_past<R: Wait>(&self, rt: &R, sleeper: Sleeper, seen: u64) -> u64 {
        let bell = self.of(sleeper);
        let rings = self.look_past(bell, seen);
        if rings != seen {
            return rings;
        }
        bell.wait_past(rt, seen)
    }

    /// Looks for a ring of this bell if yields are allowed, a look is worthwhile, and fewer than `LOOKERS` threads look. Returns the
    /// count at the last check, or `seen` if it doesn't look.
    fn look_past(&self, bell: &Bell, seen: u64) -> u64 {
        if !self.yields.are_allowed() || !bell.is_worth_a_look() {
            return seen;
        }
        let mut rings = seen;
        if self.lookers.fetch_add(1, Ordering::SeqCst) < LOOKERS {
            rings = bell.look_past(seen, &self.yields);
        }
        self.lookers.fetch_sub(1, Ordering::SeqCst);
        rings
    }

    fn of(&self, sleeper: Sleeper) -> &Bell {
        match sleeper {
            Sleeper::Stepper => &self.stepper,
            Sleeper::Writer(lane) => &self.writers[lane.wrapping_sub(1) as usize % 16],
            Sleeper::Log => &self.log,
        }
    }
}

fn sixteen() -> [Bell; 16] {
    [
        Bell::new(),
        Bell::new(),
        Bell::new(),
        Bell::new(),
        Bell::new(),
        Bell::new(),
        Bell::new(),
        Bell::new(),
        Bell::new(),
        Bell::new(),
        Bell::new(),
        Bell::new(),
        Bell::new(),
        Bell::new(),
        Bell::new(),
        Bell::new(),
    ]
}

impl Default for Bells {
    fn default() -> Bells {
        Bells::new()
    }
}
