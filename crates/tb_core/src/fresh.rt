//! Looks at processes again, so that the bus knows the ready actions of each. Makes resting processes sleep.

ghost use Rattle.std.specs.Prelude.{◌≡◌, ℕ, ◌<◌, ◌∷◌, List, length, OnOk, true, false};
ghost use Rattle.std.specs.List.{All};
ghost use Rattle.tb_search.specs.Candidates.{rows_of};
ghost use Rattle.tb_index.specs.Indexes.{is_receiver};
ghost use Rattle.tb_search.specs.Indexed.{IsNextPlace};
ghost use Rattle.tb_core.specs.Helpers.LiveBuses.{AreSettled, IsSettledAt, IsSound, IsSetAt, StandsAs};
ghost use Rattle.tb_living.specs.Lives.{AreFresh, IsFreshOr};

use crate::bus::LiveBus;
use std::alloc::Global;
use tb_index::Mark;
use tb_living::{Buffers, TOOL_MARK, look, point_of, turn, update};
use tb_process_steps::Walker;
use tb_search::{all_rest, place_of};
use tb_terms::NoMemory;

impl<W: Walker> LiveBus<W> {
    /// Looks at the process at an index again, if it isn't fresh.
    #[inline(never)]
    fn freshen_at(
        &mut self,
        alloc: Global,
        at: usize,
        buffers: &mut Buffers,
    ) -> Result<(), NoMemory>
        requires sound { IsSound W.view self.old }
        requires within { at < length self.old.living.items }
        ensures same { StandsAs W.view self.old self.new }
        ensures set { IsSetAt self.old.living.items at
            (λ living. OnOk result (living.fresh ≡ true)) self.new.living.items }
        ensures stale { self.new.stale ≡ self.old.stale }
    {
        let living = self.living[at].get_mut();
        if living.fresh {
            return Ok(());
        }
        let program = &self.origin.program;
        let plan = &self.plans.as_slice()[living.body as usize];
        let body = &program.bodies.as_slice()[living.body as usize];
        look(alloc, plan, body, living, self.ticks, buffers)?;
        update(
            alloc,
            program,
            &self.bench,
            &mut self.index,
            &mut self.looked,
            living,
        )
    }

    /// Looks at the process with this number again, if it isn't fresh. If the process has ended, looks at the next one in its place.
    fn freshen_number(
        &mut self,
        alloc: Global,
        number: u32,
        buffers: &mut Buffers,
    ) -> Result<(), NoMemory>
        requires { IsSound W.view self.old }
        ensures same { StandsAs W.view self.old self.new }
        ensures stale { self.new.stale ≡ self.old.stale }
        ensures fresh { (others : List ℕ) → All (IsFreshOr (number ∷ others)) self.old.living.items
            → OnOk result (All (IsFreshOr others) self.new.living.items) }
    {
        let at = point_of(self.living.as_slice(), number);
        if at < self.living.len() {
            self.freshen_at(alloc, at, buffers)?;
        }
        Ok(())
    }

    /// Looks again at the processes in `stale`. If no tick has passed, all others are fresh.
    fn freshen_noted(&mut self, alloc: Global, buffers: &mut Buffers) -> Result<(), NoMemory>
        requires sound { IsSound W.view self.old }
        requires young { self.old.aged ≡ false }
        ensures same { StandsAs W.view self.old self.new }
        ensures fresh { OnOk result (AreFresh self.new.living.items) }
    {
        for index in 0..self.stale.len() {
            let number = self.stale[index];
            self.freshen_number(alloc, number, buffers)?;
        }
        Ok(())
    }

    /// Looks again at each process that isn't fresh.
    #[inline(never)]
    fn freshen_all(&mut self, alloc: Global, buffers: &mut Buffers) -> Result<(), NoMemory>
        requires { IsSound W.view self.old }
        ensures same { StandsAs W.view self.old self.new }
        ensures fresh { OnOk result (AreFresh self.new.living.items) }
    {
        for at in 0..self.living.len() {
            self.freshen_at(alloc, at, buffers)?;
        }
        Ok(())
    }

    /// Makes the process at an index sleep if all its ready actions rest, with its notes and the tools as they are now. Wakes it if not.
    /// Changes nothing if the process isn't fresh.
    fn settle_at(&mut self, alloc: Global, at: usize) -> Result<(), NoMemory>
        requires sound { IsSound W.view self.old }
        requires within { at < length self.old.living.items }
        ensures same { StandsAs W.view self.old self.new }
        ensures alone { self.new ≡ record self.old { index = self.new.index } }
        ensures settled { OnOk result (IsSettledAt self.old self.new at) }
    {
        let living = self.living[at].get();
        if !living.fresh {
            return Ok(());
        }
        let rest = all_rest(alloc, &self.origin.program, &self.bench, living)?;
        turn(&mut self.index, living.number, rest);
        Ok(())
    }

    /// Judges by `settle_at` whether the process with this number sleeps. If the process has ended, judges the next one in its place.
    #[inline(never)]
    fn settle_number(&mut self, alloc: Global, number: u32) -> Result<(), NoMemory>
        requires { IsSound W.view self.old }
        ensures same { StandsAs W.view self.old self.new }
        ensures alone { self.new ≡ record self.old { index = self.new.index } }
    {
        let at = point_of(self.living.as_slice(), number);
        if at < self.living.len() {
            self.settle_at(alloc, at)?;
        }
        Ok(())
    }

    /// Judges by `settle_at` whether the processes that notes and tools woke can sleep again.
    fn settle_roused(&mut self, alloc: Global) -> Result<(), NoMemory>
        requires { IsSound W.view self.old }
        ensures same { StandsAs W.view self.old self.new }
    {
        for index in 0..self.roused.len() {
            let number = self.roused[index];
            self.settle_number(alloc, number)?;
        }
        self.roused.clear();
        Ok(())
    }

    /// Returns the next process, from one index on, that the index names as a receiver of a mark.
    pub fn next_marked(&self, mark: Mark, from: usize) -> Option<usize>
        requires sound { IsSound W.view self.now }
        requires within { from < length self.now.living.items }
        ensures { IsNextPlace (is_receiver self.now.index mark)
            (rows_of self.now.living.items) from result }
    {
        let found = self
            .index
            .next_receiver(mark, self.living[from].get().number);
        place_of(self.living.as_slice(), from, found)
    }

    /// Judges by `settle_at` whether the processes that speak with tools sleep.
    #[inline(never)]
    fn settle_speakers(&mut self, alloc: Global) -> Result<(), NoMemory>
        requires { IsSound W.view self.old }
        ensures same { StandsAs W.view self.old self.new }
        ensures settled { OnOk result (AreSettled self.new) }
    {
        let mut at = 0;
        while at < self.living.len() {
            match self.next_marked(TOOL_MARK, at) {
                Some(place) => {
                    self.settle_at(alloc, place)?;
                    at = place + 1;
                }
                None => return Ok(()),
            }
        }
        Ok(())
    }

    /// Judges again which processes sleep: the processes in `roused`, and if a lane has changed, all that speak with tools. After this, no
    /// fresh process that sleeps can begin a move alone, with the notes and the tools as they are now.
    fn settle(&mut self, alloc: Global) -> Result<(), NoMemory>
        requires { IsSound W.view self.old }
        ensures same { StandsAs W.view self.old self.new }
        ensures settled { OnOk result (self.new.stirred ≡ false) }
    {
        self.settle_roused(alloc)?;
        if !self.stirred {
            return Ok(());
        }
        self.settle_speakers(alloc)?;
        self.stirred = false;
        Ok(())
    }

    /// Looks again at each process that isn't fresh: at those in `stale`, or after a tick, at all.
    #[inline(always)]
    fn look_anew(&mut self, alloc: Global, buffers: &mut Buffers) -> Result<(), NoMemory>
        requires { IsSound W.view self.old }
        ensures same { StandsAs W.view self.old self.new }
        ensures fresh { OnOk result (AreFresh self.new.living.items) }
    {
        if self.aged {
            self.freshen_all(alloc, buffers)?;
        } else {
            self.freshen_noted(alloc, buffers)?;
        }
        self.stale.clear();
        self.aged = false;
        Ok(())
    }

    /// Prepares a search: afterwards each process is fresh, and each sleeping process rests.
    #[inline(always)]
    pub fn freshen(&mut self, alloc: Global, buffers: &mut Buffers) -> Result<(), NoMemory>
        requires { IsSound W.view self.old }
        ensures same { StandsAs W.view self.old self.new }
        ensures fresh { OnOk result (AreFresh self.new.living.items) }
        ensures settled { OnOk result (self.new.stirred ≡ false) }
    {
        self.settle(alloc)?;
        self.look_anew(alloc, buffers)
    }
}
