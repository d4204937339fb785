//! The workers of a pipe, as jobs.
ghost use Rattle.std.specs.Prelude.{◌≡◌, IfOk, IfErr, OnOk};
ghost use Rattle.std.specs.List.{All};
ghost use Rattle.tb_edge.specs.Faults.{Rose};
ghost use Rattle.tb_edge.specs.Jobs.{AllDone, FailsOnly, jobs_of};
ghost use Rattle.tb_pair.specs.Jobs.{IsReady, JobDone};

use crate::pipe::{PipeIn, PipeOut};
use crate::reader::pipe_reader;
use crate::writer::pipe_writer;
use std::sync::Wait;
use std::thread::Threads;
use tb_edge::{Crew, CrewFault, Job};
use tb_lock::Seat;
use tb_process_steps::Walker;
use tb_run::{Post, WorkEnd};

/// The worker that writes the pipe, as a job.
#[derive(Drop)]
pub struct PipeWriting<'a, W: Walker> {
    /// The bus that it works on.
    pub post: &'a Post<W>,
    /// Has both rights of lane 1.
    pub seat: Seat,
    /// The end that it writes.
    pub pipe: PipeIn<'a>,
    /// Why the worker ended, once it has.
    pub end: WorkEnd,
}

/// The worker that reads the pipe, as a job.
#[derive(Drop)]
pub struct PipeReading<'a, W: Walker> {
    /// The bus that it works on.
    pub post: &'a Post<W>,
    /// Has both rights of lane 1.
    pub seat: Seat,
    /// The end that it reads.
    pub pipe: PipeOut<'a>,
    /// Why the worker ended, once it has.
    pub end: WorkEnd,
}

/// One of the jobs of a pair.
#[derive(Drop)]
pub enum PairJob<'a, W: Walker, J> {
    /// A worker of one of the two buses. It knows nothing of the pipe.
    Other(J),
    /// The worker that writes the pipe.
    Writes(PipeWriting<'a, W>),
    /// The worker that reads the pipe.
    Reads(PipeReading<'a, W>),
}

impl<'a, W: Walker, J: Job> Job for PairJob<'a, W, J> {
    ghost use Rattle.tb_pair.specs.Jobs.{IsReady, JobDone};

    ghost ready = { λ it. IsReady J.ready it };

    ghost done = { λ old new. JobDone J.done old new };

    fn work<R: Wait>(&mut self, rt: &R) {
        match self {
            PairJob::Other(job) => job.work(rt),
            PairJob::Writes(job) => {
                job.end = pipe_writer(rt, job.post, &mut job.seat, &mut job.pipe);
            }
            PairJob::Reads(job) => {
                job.end = pipe_reader(rt, job.post, &mut job.seat, &mut job.pipe);
            }
        }
    }
}

/// Lets a crew do all jobs of a pair concurrently, as `beside` of `Crew` does, with the lent job and the caller's own job among them.
pub fn beside<
    'a,
    W: Walker + Send,
    R: Threads + Wait + Sync,
    P: Crew,
    J: Job + Send + Drop,
    L: Job + Send,
    K: Job,
>(
    rt: &R,
    crew: &mut P,
    jobs: Vec<PairJob<'a, W, J>>,
    lent: &mut L,
    own: &mut K,
) -> Result<Vec<PairJob<'a, W, J>>, CrewFault<PairJob<'a, W, J>>>
where
    W::Plan: Send,
    W::Taken: Send,
    requires jobs { All (IsReady J.ready) jobs.items }
    requires lent { L.ready lent.old }
    requires own { K.ready own.old }
    ensures ok { IfOk result (λ back. AllDone (JobDone J.done) jobs.entry.items back.items
        × L.done lent.old lent.new × K.done own.old own.new) }
    ensures err { IfErr result (λ fault. (jobs_of fault ≡ jobs.entry.items)
        × (lent.new ≡ lent.old) × (own.new ≡ own.old)) }
    ensures rose { IfErr result
        (λ fault. FailsOnly fault (Rose (P.faults crew.old) (P.faults crew.new))) }
    ensures calm { OnOk result (P.faults crew.new ≡ P.faults crew.old) }
{
    crew.beside(rt, jobs, lent, own)
}
