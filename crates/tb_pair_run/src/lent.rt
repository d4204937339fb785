//! The ticker of a pair as a job, to which both buses and the clock are lent.

use std::sync::Wait;
use tb_edge::{Clock, Job};
use tb_pair::{TickedBus, pair_ticker};
use tb_process_steps::Walker;
use tb_run::WorkEnd;

/// The ticker of a pair, as a job. Both buses and the clock are lent to it.
#[derive(Drop)]
pub(crate) struct LentTicking<'b, 'a, W: Walker, C> {
    pub(crate) one: &'b mut TickedBus<'a, W>,
    pub(crate) other: &'b mut TickedBus<'a, W>,
    pub(crate) clock: &'b mut C,
    /// The greatest number of ticks.
    pub(crate) ticks: u64,
    /// Why the one bus ended, once the worker has.
    pub(crate) one_end: WorkEnd,
    /// Why the other bus ended, once the worker has.
    pub(crate) other_end: WorkEnd,
}

impl<'b, 'a, W: Walker, C: Clock> Job for LentTicking<'b, 'a, W, C> {
    ghost use Rattle.std.specs.Prelude.{◌≡◌, None};
    ghost use Rattle.tb_pair.specs.Ticking.{CanTick, TicksPair};

    ghost ready = { λ it. CanTick it.one.now.post.now.shared it.one.now.seat
        × (it.one.now.end ≡ None)
        × CanTick it.other.now.post.now.shared it.other.now.seat × (it.other.now.end ≡ None) };

    ghost done = { λ old new. (new.one.ghost_name ≡ old.one.ghost_name)
        × (new.other.ghost_name ≡ old.other.ghost_name)
        × (new.clock.ghost_name ≡ old.clock.ghost_name)
        × TicksPair old.ticks old.one.now.seat new.one.now.seat
        old.other.now.seat new.other.now.seat
        (C.told old.clock.now) (C.told new.clock.now) (C.faults old.clock.now)
        (C.faults new.clock.now) new.one_end new.other_end };

    fn work<R: Wait>(&mut self, rt: &R) {
        let (one_end, other_end) = pair_ticker(rt, self.one, self.other, self.clock, self.ticks);
        self.one_end = one_end;
        self.other_end = other_end;
    }
}
