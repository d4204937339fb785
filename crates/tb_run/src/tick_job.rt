//! The tick worker as a job.
use crate::ends::WorkEnd;
use crate::post::Post;
use crate::ticker::tick_worker;
use std::sync::Wait;
use tb_edge::{Clock, Job};
use tb_lock::Seat;
use tb_process_steps::Walker;

/// The tick worker. It borrows its clock, so it isn't in the list of jobs: the crew borrows the worker.
#[derive(Drop)]
pub struct TickJob<'a, W: Walker, C> {
    /// The parts that all workers of the bus share.
    pub post: &'a Post<W>,
    /// The seat, with the right to deliver ticks.
    pub seat: Seat,
    /// The clock that gives the ticks.
    pub clock: &'a mut C,
    /// The greatest number of ticks.
    pub ticks: u64,
    /// Why the worker ended, after it has ended.
    pub end: WorkEnd,
}

impl<'a, W: Walker, C: Clock> Job for TickJob<'a, W, C> {
    ghost use Rattle.std.specs.Prelude.{◌≡◌, true};
    ghost use Rattle.tb_lock.specs.Rights.{Ticks as ToTick, has};
    ghost use Rattle.tb_run.specs.Workers.{TicksBus};

    ghost ready = { λ it. (it.seat.bus ≡ it.post.now.shared) × (has it.seat.rights ToTick ≡ true) };

    ghost done = { λ old new. (new.clock.ghost_name ≡ old.clock.ghost_name)
        × TicksBus (λ count. count ≡ old.ticks) old.ticks old.seat new.seat (C.told old.clock.now)
        (C.told new.clock.now) (C.faults old.clock.now) (C.faults new.clock.now) new.end };

    fn work<R: Wait>(&mut self, rt: &R) {
        self.end = tick_worker(rt, self.post, &mut self.seat, self.clock, self.ticks);
        self.post.count_down();
    }
}
