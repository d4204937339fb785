//! The trait of a crew, which does jobs concurrently in threads, and the calls that run these threads.
ghost use Rattle.std.specs.Prelude.{◌≡◌, ℕ, ◌^◌, ◌<◌, ◌≤◌, IfOk, IfErr, OnOk};
ghost use Rattle.std.specs.List.{All};
ghost use Rattle.std.specs.Bool.{OnFalse, OnTrue};
ghost use Rattle.std.specs.Thread.{IsSync};
ghost use Rattle.tb_edge.specs.Faults.{Rose};
ghost use Rattle.tb_edge.specs.Jobs.{AllDone, jobs_of, FailsOnly};

use crate::Job;
use std::sync::Wait;
use std::thread::{Threads, for_each_mut, join_mut};

/// Why no job was done. The jobs come back unchanged.
#[derive(Drop)]
pub enum CrewFault<J> {
    /// The crew failed: too few threads can start.
    Failed(Vec<J>),
    /// Out of memory.
    NoMemory(Vec<J>),
}

/// A thread group, which does jobs concurrently.
pub trait Crew {
    // The number of failed calls so far.
    ghost faults: { Self → ℕ };

    /// Returns whether there are enough threads for `count` jobs.
    fn ready<R: Threads + Wait + Sync>(&mut self, rt: &R, count: usize) -> bool
        requires { IsSync R.row }
        ensures rose { OnFalse result (Rose (faults self.old) (faults self.new)) }
        ensures calm { OnTrue result (faults self.new ≡ faults self.old) }
        ensures never_falls { faults self.old ≤ faults self.new }
        ensures fits { faults self.old < 2 ^ 64 → faults self.new < 2 ^ 64 };

    /// Does each job of `jobs` and the lent job in a thread of its own, and `own` in this thread. Returns when all jobs are done. If the
    /// crew isn't ready for that many jobs, the call fails before any job begins. If threads that `ready` has found can't start any
    /// more, the jobs are done one after another, and the call may never return.
    final fn beside<R: Threads + Wait + Sync, J: Job + Send, K: Job, L: Job + Send>(
        &mut self,
        rt: &R,
        jobs: Vec<J>,
        lent: &mut L,
        own: &mut K,
    ) -> Result<Vec<J>, CrewFault<J>>
        requires jobs { All J.ready jobs.items }
        requires lent { L.ready lent.old }
        requires own { K.ready own.old }
        ensures ok { IfOk result (λ done. AllDone J.done jobs.items done.items
            × L.done lent.old lent.new × K.done own.old own.new) }
        ensures err { IfErr result (λ fault. (jobs_of fault ≡ jobs.items)
            × (lent.new ≡ lent.old) × (own.new ≡ own.old)) }
        ensures rose { IfErr result
            (λ fault. FailsOnly fault (Rose (faults self.old) (faults self.new))) }
        ensures calm { OnOk result (faults self.new ≡ faults self.old) }
        ensures never_falls { faults self.old ≤ faults self.new }
        ensures fits { faults self.old < 2 ^ 64 → faults self.new < 2 ^ 64 }
    {
        let mut jobs = jobs;
        let count = jobs.len();
        if !self.ready(rt, count.saturating_add(1)) {
            return Err(CrewFault::Failed(jobs));
        }
        all_beside(rt, jobs.as_mut_slice(), lent, own);
        Ok(jobs)
    }
}

/// Does the lent job in a thread of its own, concurrently with all others.
fn all_beside<R: Threads + Wait + Sync, J: Job + Send, K: Job, L: Job + Send>(
    rt: &R,
    jobs: &mut [J],
    lent: &mut L,
    own: &mut K,
)
    requires jobs { All J.ready jobs.old }
    requires lent { L.ready lent.old }
    requires own { K.ready own.old }
    ensures jobs { AllDone J.done jobs.old jobs.new }
    ensures lent { L.done lent.old lent.new }
    ensures own { K.done own.old own.new }
{
    join_mut(
        rt,
        &mut || -> ()
            requires { IsSync R.row × L.ready lent.now }
            ensures { L.done lent.entry.now lent.exit.now }
        { lent.work(rt) },
        &mut || -> ()
            requires { IsSync R.row × K.ready own.now × All J.ready jobs.now }
            ensures { K.done own.entry.now own.exit.now
                × AllDone J.done jobs.entry.now jobs.exit.now }
        { jobs_beside(rt, jobs, own) },
    );
}

/// Does `own` in this thread, concurrently with the jobs.
fn jobs_beside<R: Threads + Wait + Sync, J: Job + Send, K: Job>(rt: &R, jobs: &mut [J], own: &mut K)
    requires jobs { All J.ready jobs.old }
    requires own { K.ready own.old }
    ensures jobs { AllDone J.done jobs.old jobs.new }
    ensures own { K.done own.old own.new }
{
    join_mut(
        rt,
        &mut || -> ()
            requires { IsSync R.row × All J.ready jobs.now }
            ensures { AllDone J.done jobs.entry.now jobs.exit.now }
        { each_beside(rt, jobs) },
        &mut || -> ()
            requires { IsSync R.row × K.ready own.now }
            ensures { K.done own.entry.now own.exit.now }
        { own.work(rt) },
    );
}

/// Does each job in a thread of its own.
fn each_beside<R: Threads + Wait + Sync, J: Job + Send>(rt: &R, jobs: &mut [J])
    requires { All J.ready jobs.old }
    ensures { AllDone J.done jobs.old jobs.new }
{
    let count = jobs.len().max(1);
    for_each_mut(
        rt,
        jobs,
        count,
        &|_: usize, job: &mut J|
            requires { IsSync R.row × J.ready job.now }
            ensures { J.done job.entry.now job.exit.now }
        { job.work(rt) },
    );
}
