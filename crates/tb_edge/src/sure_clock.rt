//! A clock in memory that never fails and never waits.
ghost use Rattle.std.specs.Prelude.{◌≡◌, false};
ghost use Rattle.tb_edge.specs.InMemory.{sure_beat, sure_clock_after};

use crate::{Beat, Clock};
use std::marker::Model;

/// A clock in memory that never fails and never waits. It gives a number of ticks, and then ends.
#[derive(Drop)]
pub struct SureClock {
    ticks: u64,
    gave: u64,
    ended: bool,
}

impl Model for SureClock {
    ghost use Rattle.tb_edge.specs.InMemory.{SureClockView};

    ghost Value = { SureClockView };

    ghost view = { λ clock. record {
      ticks = clock.ticks;
      gave = clock.gave;
      ended = clock.ended;
    } };
}

impl SureClock {
    /// Makes a clock with this number of ticks left.
    pub fn new(ticks: u64) -> SureClock
        ensures { result ≡ record { ticks = ticks; gave = 0; ended = false } }
    {
        SureClock {
            ticks,
            gave: 0,
            ended: false,
        }
    }

    /// Returns the number of failed calls, which is always 0.
    pub fn faults(&self) -> u64
        ensures { result ≡ 0 }
    {
        0
    }
}

impl Clock for SureClock {
    ghost use Rattle.std.specs.Prelude.{Some};

    ghost faults = { λ _. 0 };

    ghost told = { λ clock. Some (record { ticks = clock.gave; ended = clock.ended }) };

    fn wait(&mut self) -> Beat
        ensures answer { result ≡ sure_beat self.old }
        ensures after { self.new ≡ sure_clock_after self.old }
    {
        if self.ended || self.ticks <= self.gave {
            self.ended = true;
            return Beat::End;
        }
        self.gave += 1;
        Beat::Tick
    }
}
