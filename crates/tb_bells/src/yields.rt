//! Whether a waiting thread may yield its processor.
use libc::types::timespec;
use std::sync::atomic::{AtomicU32, Ordering};
use std::thread::yield_now;

/// The time, in nanoseconds, from which a yield is slow: another program had a time slice meanwhile.
const SLOW: u64 = 1_000_000;

/// The number of waits without yields after the first slow yield.
const FEWEST: u32 = 64;

/// The factor by which each further slow yield multiplies this number.
const FACTOR: u32 = 2;

/// The greatest number of waits without yields after a slow yield.
const MOST: u32 = 16_384;

/// The record of how quick yields were, which determines whether a waiting thread yields. If a machine has more work than processors,
/// a yield can take some milliseconds. After such a yield, threads don't yield during the next waits.
#[derive(Drop)]
pub struct Yields {
    /// The number of waits from now on that don't yield.
    left: AtomicU32,
    /// The number of waits that don't yield after the next slow yield.
    next: AtomicU32,
}

impl Yields {
    /// Returns a record without a slow yield.
    pub fn new() -> Yields {
        Yields {
            left: AtomicU32::new(0),
            next: AtomicU32::new(FEWEST),
        }
    }

    /// Returns whether a thread that waits now may yield. Each call counts as one wait.
    pub fn are_allowed(&self) -> bool {
        let left = self.left.load(Ordering::SeqCst);
        if left > 0 {
            self.left.store(left - 1, Ordering::SeqCst);
        }
        left == 0
    }

    /// Yields the processor to other threads, and returns whether the yield was quick.
    pub fn let_others_run(&self) -> bool {
        let begun = nanoseconds();
        yield_now();
        let is_quick = nanoseconds().saturating_sub(begun) < SLOW;
        self.note(is_quick);
        is_quick
    }

    /// Counts a yield. Of slow yields at the same time, only the first counts. If two threads count at once, one count can be lost,
    /// which does no harm.
    fn note(&self, is_quick: bool) {
        let next = self.next.load(Ordering::SeqCst);
        if is_quick {
            if next > FEWEST {
                self.next.store(next - 1, Ordering::SeqCst);
            }
        } else if self.left.load(Ordering::SeqCst) == 0 {
            self.left.store(next, Ordering::SeqCst);
            self.next
                .store(next.saturating_mul(FACTOR).min(MOST), Ordering::SeqCst);
        }
    }
}

/// Returns the time of a clock that never goes back, in nanoseconds, or 0 if the system has no such clock. It needs no handle of the
/// runtime, so a thread that has only the permission to wait can time its yields.
fn nanoseconds() -> u64 {
    let mut time = timespec {
        tv_sec: 0,
        tv_nsec: 0,
    };
    libc::clock_gettime(libc::CLOCK_MONOTONIC, &mut time);
    let seconds = time.tv_sec.unsigned_abs();
    seconds
        .wrapping_mul(1_000_000_000)
        .wrapping_add(time.tv_nsec.unsigned_abs())
}

impl Default for Yields {
    fn default() -> Yields {
        Yields::new()
    }
}
