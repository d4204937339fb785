//! A clock in memory that never waits and fails in given calls.
ghost use Rattle.std.specs.Prelude.{◌≡◌, ◌≤◌, false};
ghost use Rattle.tb_edge.specs.InMemory.{mem_beat, mem_clock_after};

use crate::fail_calls::fails_at;
use crate::{Beat, Clock, FailCalls};
use std::marker::Model;

/// A clock in memory, which never waits. It gives a number of ticks, and then ends. It fails in the calls with given numbers, and gives
/// no tick in these. After its end, no call fails.
#[derive(Drop)]
pub struct MemClock {
    ticks: u64,
    fails: FailCalls,
    gave: u64,
    ended: bool,
    calls: u64,
    faults: u64,
}

impl Model for MemClock {
    ghost use Rattle.tb_edge.specs.InMemory.{MemClockView};

    ghost Value = { MemClockView };

    ghost view = { λ clock. record {
      ticks = clock.ticks;
      fails = clock.fails;
      gave = clock.gave;
      ended = clock.ended;
      calls = clock.calls;
      faults = clock.faults;
    } };
}

impl MemClock {
    /// Makes a clock with this number of ticks left.
    pub fn new(ticks: u64, fails: FailCalls) -> MemClock
        ensures { result ≡ record {
          ticks = ticks;
          fails = fails;
          gave = 0;
          ended = false;
          calls = 0;
          faults = 0;
        } }
    {
        MemClock {
            ticks,
            fails,
            gave: 0,
            ended: false,
            calls: 0,
            faults: 0,
        }
    }

    /// Returns the number of failed calls so far.
    pub fn faults(&self) -> u64
        ensures { result ≡ self.now.faults }
    {
        self.faults
    }
}

impl Clock for MemClock {
    ghost use Rattle.std.specs.Prelude.{Some};

    ghost faults = { λ clock. clock.faults };

    ghost told = { λ clock. Some (record { ticks = clock.gave; ended = clock.ended }) };

    fn wait(&mut self) -> Beat
        ensures never_falls { self.old.faults ≤ self.new.faults }
        ensures answer { result ≡ mem_beat self.old }
        ensures after { self.new ≡ mem_clock_after self.old }
    {
        self.calls = self.calls.saturating_add(1);
        if self.ended {
            return Beat::End;
        }
        if fails_at(&self.fails, self.calls) {
            self.faults = self.faults.saturating_add(1);
            return Beat::Failed;
        }
        if self.gave < self.ticks {
            self.gave += 1;
            return Beat::Tick;
        }
        self.ended = true;
        Beat::End
    }
}
