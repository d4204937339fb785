//! The trait of a clock, which gives ticks.
ghost use Rattle.std.specs.Prelude.{◌≡◌, ℕ, ◌^◌, ◌<◌, ◌≤◌, Option};
ghost use Rattle.tb_edge.specs.Faults.{Rose};
ghost use Rattle.tb_edge.specs.Ends.{ClockView, clock_after, has_ended, MayBeat, StaysAt};

/// The answer of a clock.
#[derive(Clone, Copy, Debug, PartialEq, Eq)]
pub enum Beat {
    /// A tick has passed.
    Tick,
    /// No more ticks come. Each later answer is `End` too.
    End,
    /// The clock failed, and no tick has passed. The next call may give a tick.
    Failed,
}

/// A source of ticks.
pub trait Clock {
    // The number of failed calls so far.
    ghost faults: { Self → ℕ };

    // The number of ticks so far, and whether the clock has ended, if the clock reports this.
    ghost told: { Self → Option ClockView };

    /// Waits for the next tick. If the clock has ended, the call returns at once.
    fn wait(&mut self) -> Beat
        ensures told { told self.new ≡ clock_after (told self.old) result }
        ensures over { MayBeat (told self.old) result }
        ensures stays { has_ended (told self.old) → faults self.new ≡ faults self.old }
        ensures rose { result ≡ Beat.Failed → Rose (faults self.old) (faults self.new) }
        ensures calm { StaysAt result (faults self.old) (faults self.new) }
        ensures never_falls { faults self.old ≤ faults self.new }
        ensures fits { faults self.old < 2 ^ 64 → faults self.new < 2 ^ 64 };
}
