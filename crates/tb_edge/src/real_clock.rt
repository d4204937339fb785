//! The clock of the runtime, whose ticks last 100 milliseconds at least.
ghost use Rattle.std.specs.Prelude.{◌≡◌};

use crate::{Beat, Clock};
use std::marker::Model;
use std::rt::Clock as HostClock;
use std::thread;
use std::time::Duration;

/// The shortest duration of a tick, in milliseconds.
const TICK: u64 = 100;

/// The clock of the runtime, which never ends and never fails. It doesn't report the ticks that it gave. Contracts see the runtime.
#[derive(Drop)]
pub struct RealClock<R> {
    rt: R,
}

impl<R> Model for RealClock<R> {
    ghost Value = { R };

    ghost view = { λ clock. clock.rt };
}

impl<R> RealClock<R> {
    pub fn new(rt: R) -> RealClock<R>
        ensures { result ≡ rt }
    {
        RealClock { rt }
    }

    /// Returns the number of failed calls, which is always 0.
    pub fn faults(&self) -> u64
        ensures { result ≡ 0 }
    {
        0
    }
}

impl<R: HostClock> Clock for RealClock<R> {
    ghost use Rattle.std.specs.Prelude.{None};

    ghost faults = { λ _. 0 };

    ghost told = { λ _. None };

    fn wait(&mut self) -> Beat
        ensures ticks { result ≡ Beat.Tick }
        ensures same { self.new ≡ self.old }
    {
        thread::sleep(&self.rt, Duration::from_millis(TICK));
        Beat::Tick
    }
}
