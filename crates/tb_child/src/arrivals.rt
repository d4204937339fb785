//! The queue from the outlet of a lane to its inlet: the programs that were started, and the end of the lane.

use std::alloc::{AllocError, Global};
use std::process::ChildStdout;
use std::sync::atomic::{AtomicBool, Ordering};
use std::sync::{Condvar, Mutex, Wait};

/// The largest number of started programs that wait for the inlet of their lane.
const MOST_WAITING: usize = 64;

/// The result of a start.
#[derive(Drop)]
pub enum Arrival {
    /// The output of the program that was started.
    Output(ChildStdout),
    /// No program could be started.
    Nothing,
}

/// The queue between the two ends of a lane.
#[derive(Drop)]
pub struct Arrivals {
    waiting: Mutex<Vec<Arrival>>,
    changed: Condvar,
    closed: AtomicBool,
}

impl Arrivals {
    pub fn new(alloc: Global) -> Result<Arrivals, AllocError> {
        Ok(Arrivals {
            waiting: Mutex::new(Vec::with_capacity(alloc, MOST_WAITING)?),
            changed: Condvar::new(),
            closed: AtomicBool::new(false),
        })
    }

    /// Appends a result, and returns true. If too many results wait, returns false.
    pub fn push<R: Wait>(&self, rt: &R, arrival: Arrival) -> bool {
        let mut waiting = self.waiting.lock(rt);
        if waiting.len() >= MOST_WAITING {
            return false;
        }
        let pushed = waiting.push(arrival).is_ok();
        drop(waiting);
        self.changed.notify_all();
        pushed
    }

    /// Waits for the next result. At the end of the lane, returns `None`.
    pub fn next<R: Wait>(&self, rt: &R) -> Option<Arrival> {
        let mut waiting = self.waiting.lock(rt);
        for _ in rt.forever() {
            if self.is_closed() {
                return None;
            }
            if !waiting.is_empty() {
                return Some(waiting.remove(0));
            }
            waiting = self.changed.wait(rt, waiting);
        }
        unreachable!()
    }

    /// Ends the lane.
    pub fn close<R: Wait>(&self, rt: &R) {
        let waiting = self.waiting.lock(rt);
        self.closed.store(true, Ordering::SeqCst);
        drop(waiting);
        self.changed.notify_all();
    }

    pub fn is_closed(&self) -> bool {
        self.closed.load(Ordering::SeqCst)
    }
}
