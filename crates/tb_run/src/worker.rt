//! The kinds of work, and the worker that does one of them as a job.
ghost use Rattle.tb_run.specs.Jobs.{IsReady, WorkDone};

use crate::buffer::Buffer;
use crate::ends::WorkEnd;
use crate::next::WakeOthers;
use crate::post::Post;
use crate::reader::read_lane;
use crate::stepper::step_worker;
use crate::writer::write_lane;
use std::sync::Wait;
use tb_edge::{Inlet, Job, Outlet};
use tb_lock::Seat;
use tb_process_steps::Walker;

/// The work of a worker.
#[derive(Drop)]
pub enum Work<I, O> {
    /// Delivering the items of a lane's inlet.
    Reads(u8, I),
    /// Writing the items that are sent on a lane to its outlet.
    Writes(u8, O),
    /// Making steps.
    Steps,
}

/// A worker of a bus, as a job.
#[derive(Drop)]
pub struct Worker<'a, W: Walker, I, O> {
    /// The parts that all workers of the bus share.
    pub post: &'a Post<W>,
    /// The seat, with the right for the work.
    pub seat: Seat,
    /// The buffer for the text of a line, before the outlet takes it.
    pub buffer: Buffer,
    /// The work.
    pub work: Work<I, O>,
    /// Why the worker ended, after it has ended.
    pub end: WorkEnd,
}

impl<'a, W: Walker, I: Inlet, O: Outlet> Job for Worker<'a, W, I, O> {
    ghost use Rattle.tb_run.specs.Jobs.{IsReady, WorkDone};

    ghost ready = { λ it. IsReady it.post.now.shared it.seat it.work };

    ghost done = { λ old new.
        WorkDone I.told O.told O.faults old.seat new.seat new.end old.work new.work };

    fn work<R: Wait>(&mut self, rt: &R) {
        let Worker {
            post,
            seat,
            buffer,
            work,
            end,
        } = self;
        *end = do_work(rt, post, seat, buffer, work);
        post.count_down();
    }
}

fn do_work<W: Walker, R: Wait, I: Inlet, O: Outlet>(
    rt: &R,
    post: &Post<W>,
    seat: &mut Seat,
    buffer: &mut Buffer,
    work: &mut Work<I, O>,
) -> WorkEnd
    requires { IsReady post.now.shared seat.old work.old }
    ensures { WorkDone I.told O.told O.faults seat.old seat.new result work.old work.new }
{
    match work {
        Work::Reads(lane, inlet) => {
            let mut line = Vec::new(post.alloc);
            read_lane(rt, post, &WakeOthers, seat, inlet, &mut line, *lane)
        }
        Work::Writes(lane, outlet) => {
            write_lane(rt, post, seat, outlet, &mut buffer.bytes, *lane)
        }
        Work::Steps => step_worker(rt, post, seat),
    }
}
