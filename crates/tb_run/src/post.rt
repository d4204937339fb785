//! The parts that all workers of a bus share.
ghost use Rattle.std.specs.Prelude.{◌≡◌};

use std::alloc::Global;
use std::sync::atomic::{AtomicU32, Ordering};
use tb_bells::{Bells, Sleeper};
use tb_lock::Shared;
use tb_log::{Input, Out};
use tb_process_steps::Walker;

/// The parts that all workers of one bus share.
#[derive(Drop)]
pub struct Post<W: Walker> {
    /// The bus.
    pub shared: Shared<W>,
    /// The bells: one for each thread that sleeps while the bus has no work for it.
    pub bells: Bells,
    /// The number of workers that are still at work. The job that writes the log ends as `Over` only if this number is 0.
    pub left: AtomicU32,
    /// The allocator for lines, names, and entries of the log.
    pub alloc: Global,
}

impl<W: Walker> Post<W> {
    ghost use Rattle.std.specs.Prelude.{◌≡◌};

    /// Makes the post of a bus for `workers` workers. Its bells weren't rung yet.
    pub fn new(alloc: Global, shared: Shared<W>, workers: u32) -> Post<W>
        ensures { result.shared ≡ shared }
    {
        Post {
            shared,
            bells: Bells::new(),
            left: AtomicU32::new(workers),
            alloc,
        }
    }

    /// Lowers the number of workers by one, and wakes the job that writes the log.
    pub fn count_down(&self) {
        self.left.fetch_sub(1, Ordering::SeqCst);
        self.bells.ring(Sleeper::Log);
    }

    /// Returns whether no worker is at work any more.
    pub(crate) fn is_over(&self) -> bool {
        self.left.load(Ordering::SeqCst) == 0
    }

    /// Wakes the threads that can have work after an input: the job that writes the log, the stepper, and the writer of the input's lane
    /// if `calls_for` returns `true` for the lane. An input leaves no item on another lane.
    pub(crate) fn tell_input(&self, lane: Option<u8>) {
        self.bells.ring(Sleeper::Log);
        match lane {
            Some(lane) => self.tell_writer(lane),
            None => {}
        }
        self.bells.ring(Sleeper::Stepper);
    }

    /// Wakes the threads that can have work after a `cut`: the job that writes the log, and the writer of the lane, whose next item is the
    /// end of its tool.
    pub(crate) fn tell_cut(&self, lane: u8) {
        self.bells.ring(Sleeper::Log);
        self.tell_writer(lane);
    }

    /// Wakes the threads that can have work after steps: the job that writes the log, and the writer of each lane for which `calls_for`
    /// returns `true`.
    pub(crate) fn tell_steps(&self) {
        self.bells.ring(Sleeper::Log);
        for lane in 1..=16u8 {
            self.tell_writer(lane);
        }
    }

    /// Wakes the threads that can have work after this item was taken: the job that writes the log, and after an end the stepper. After an
    /// end, the lane can be free, and this can make a step possible.
    pub fn tell_taken(&self, out: &Out) {
        self.bells.ring(Sleeper::Log);
        match out {
            Out::End => self.bells.ring(Sleeper::Stepper),
            Out::Start(_) | Out::Line(_) => {}
        }
    }

    /// Wakes the writer of a lane if `calls_for` returns `true` for the lane.
    fn tell_writer(&self, lane: u8) {
        if self.shared.calls_for(lane) {
            self.bells.ring(Sleeper::Writer(lane));
        }
    }
}

/// Returns the lane of an input. An input about time has no lane.
pub(crate) fn lane_of(input: &Input) -> Option<u8> {
    match input {
        Input::Line(lane, _) | Input::Gone(lane) | Input::Cut(lane) => Some(*lane),
        Input::Tick | Input::NoTicks => None,
    }
}
