//! A worker as a job of a crew whose threads help one another at the desks of the stepper and of the writers.
ghost use Rattle.std.specs.Prelude.{◌≡◌, ◌≤◌, [], Some, IfSome, slice_get, map, vec_len, vec_capacity};
ghost use Rattle.std.specs.List.{All, filter_map};
ghost use Rattle.tb_run.specs.Jobs.{IsReady, WorkDone};
ghost use Rattle.tb_run.specs.Helpers.Desks.{begun};

use crate::at_desk::{EndedStepper, EndedWriter, step_at, write_at};
use crate::desks::{Begins, Places};
use crate::reader::read_lane;
use crate::worker::{Work, Worker};
use std::sync::Wait;
use tb_edge::{Inlet, Job, Outlet};
use tb_process_steps::Walker;

/// A worker of a bus, as a job that lets other threads help.
#[derive(Drop)]
pub(crate) struct HelpedJob<'a, K: Begins, W: Walker, I, O: Outlet> {
    /// The worker. The job takes it out, and puts it back at its end.
    pub(crate) worker: Option<Worker<'a, W, I, O>>,
    /// The index of the worker among all workers.
    pub(crate) at: usize,
    /// The places of the desks.
    pub(crate) places: &'a Places<K, O>,
}

impl<'a, K: Begins, W: Walker, I: Inlet, O: Outlet> Job for HelpedJob<'a, K, W, I, O> {
    ghost use Rattle.std.specs.Prelude.{◌≡◌, IfSome, MatchOption, Some, slice_get, ⊤};
    ghost use Rattle.tb_run.specs.Jobs.{IsReady, WorkDone};
    ghost use Rattle.tb_run.specs.Helpers.Desks.{begun};

    ghost ready = { λ it. IfSome it.worker (λ worker. (worker.post.now.shared ≡ K.bus)
        × IsReady K.bus worker.seat worker.work
        × (slice_get K.starts it.at ≡ Some (begun O.told O.faults worker.seat worker.work))) };

    ghost done = { λ old new. MatchOption old.worker ⊤ (λ before. MatchOption new.worker ⊥
        (λ after. WorkDone I.told O.told O.faults before.seat after.seat after.end
        before.work after.work)) };

    fn work<R: Wait>(&mut self, rt: &R) {
        match self.worker.take() {
            Some(worker) => {
                let post = worker.post;
                self.worker = Some(work_at(rt, self.places, self.at, worker));
                post.count_down();
            }
            None => {}
        }
    }
}

/// Does the work of the worker with this index.
fn work_at<'a, K: Begins, W: Walker, R: Wait, I: Inlet, O: Outlet>(
    rt: &R,
    places: &Places<K, O>,
    at: usize,
    worker: Worker<'a, W, I, O>,
) -> Worker<'a, W, I, O>
    requires bus { worker.post.now.shared ≡ K.bus }
    requires ready { IsReady K.bus worker.seat worker.work }
    requires begun { slice_get K.starts at
        ≡ Some (begun O.told O.faults worker.seat worker.work) }
    ensures { WorkDone I.told O.told O.faults worker.entry.seat result.seat result.end
        worker.entry.work result.work }
{
    let Worker {
        post,
        seat,
        buffer,
        work,
        end: _,
    } = worker;
    match work {
        Work::Reads(lane, inlet) => {
            let mut seat = seat;
            let mut inlet = inlet;
            let mut line = Vec::new(post.alloc);
            let end = read_lane(rt, post, places, &mut seat, &mut inlet, &mut line, lane);
            let work = Work::Reads(lane, inlet);
            Worker {
                post,
                seat,
                buffer,
                work,
                end,
            }
        }
        Work::Writes(lane, outlet) => {
            let EndedWriter {
                seat,
                outlet,
                buffer,
                end,
            } = write_at(rt, post, places, at, lane, seat, outlet, buffer);
            let work = Work::Writes(lane, outlet);
            Worker {
                post,
                seat,
                buffer,
                work,
                end,
            }
        }
        Work::Steps => {
            let EndedStepper { seat, end } = step_at(rt, post, places, at, seat);
            let work = Work::Steps;
            Worker {
                post,
                seat,
                buffer,
                work,
                end,
            }
        }
    }
}

/// Makes a job of each worker, in their order.
pub(crate) fn helped_jobs<'a, K: Begins, W: Walker, I: Inlet, O: Outlet>(
    places: &'a Places<K, O>,
    workers: Vec<Worker<'a, W, I, O>>,
    jobs: &mut Vec<HelpedJob<'a, K, W, I, O>>,
)
    requires none { jobs.old.items ≡ [] }
    requires room { vec_len workers ≤ vec_capacity jobs.old }
    requires posts { All (λ it. it.post.now.shared ≡ K.bus) workers.items }
    requires ready { All (λ it. IsReady it.post.now.shared it.seat it.work) workers.items }
    requires starts { map (λ it. begun O.told O.faults it.seat it.work) workers.items ≡ K.starts }
    ensures workers { map (λ it. it.worker) jobs.new.items ≡ map Some workers.entry.items }
    ensures ready { All (λ it. IfSome it.worker (λ worker. (worker.post.now.shared ≡ K.bus)
        × IsReady K.bus worker.seat worker.work
        × (slice_get K.starts it.at ≡ Some (begun O.told O.faults worker.seat worker.work))))
        jobs.new.items }
{
    for worker in workers {
        let at = jobs.len();
        jobs.push_reserved(HelpedJob {
            worker: Some(worker),
            at,
            places,
        });
    }
}

/// Returns the workers of the jobs, in their order.
pub(crate) fn workers_of<'a, K: Begins, W: Walker, I: Inlet, O: Outlet>(
    jobs: Vec<HelpedJob<'a, K, W, I, O>>,
    workers: Vec<Worker<'a, W, I, O>>,
) -> Vec<Worker<'a, W, I, O>>
    requires none { workers.items ≡ [] }
    requires room { vec_len jobs ≤ vec_capacity workers }
    ensures { result.items ≡ filter_map (λ it. it.worker) jobs.entry.items }
{
    let mut workers = workers;
    for job in jobs {
        match job.worker {
            Some(worker) => workers.push_reserved(worker),
            None => {}
        }
    }
    workers
}
