//! The calls in which a crew does all jobs of a pair concurrently.
ghost use Rattle.std.specs.Prelude.{◌≡◌, ◌≤◌, ◌++◌, [], None, MatchOption, IfOk, IfErr, OnOk};
ghost use Rattle.std.specs.Prelude.{length, vec_capacity};
ghost use Rattle.std.specs.List.{All};
ghost use Rattle.tb_edge.specs.Faults.{Rose};
ghost use Rattle.tb_edge.specs.Jobs.{AllDone, FailsOnly, jobs_of};
ghost use Rattle.tb_run.specs.Jobs.{IsReady as IsReadyWorker, WorkDone};
ghost use Rattle.tb_run.specs.Running.{FailsFor};
ghost use Rattle.tb_pair.specs.Jobs.{CanServe, IsReady, JobDone};
ghost use Rattle.tb_pair.specs.Ticking.{CanTick, TicksPair};
ghost use Rattle.tb_pair_run.specs.Helpers.Teams.{CanBegin, IsTeam, TeamDone, TeamSame};
ghost use Rattle.tb_pair_run.specs.Helpers.Teams.{jobs_of as team_of};

use crate::apart::{put_together, take_apart};
use crate::idle::Idle;
use crate::lent::LentTicking;
use std::sync::Wait;
use std::thread::Threads;
use tb_edge::{Clock, Crew, CrewFault, Inlet, Outlet};
use tb_lock::Seat;
use tb_pair::{PairJob, PipeReading, PipeWriting, TickedBus, beside};
use tb_process_steps::Walker;
use tb_run::{RunWhy, WorkEnd, Worker, taken_back};

/// The jobs of a pair, except the ticker.
#[derive(Drop)]
pub(crate) struct Crowd<'a, W: Walker, I, O> {
    pub(crate) writing: PipeWriting<'a, W>,
    pub(crate) reading: PipeReading<'a, W>,
    /// The workers of the first bus.
    pub(crate) workers: Vec<Worker<'a, W, I, O>>,
    /// The workers of the second.
    pub(crate) others: Vec<Worker<'a, W, I, O>>,
}

/// The seats of the ticker after its work, and why it ended at each bus.
#[derive(Drop)]
pub(crate) struct Ticked {
    pub(crate) seat: Seat,
    pub(crate) end: WorkEnd,
    pub(crate) others_seat: Seat,
    pub(crate) others_end: WorkEnd,
}

/// The jobs after their work. If there was no crew, `failed` says why.
#[derive(Drop)]
pub(crate) struct Back<'a, W: Walker, I, O> {
    pub(crate) failed: Option<RunWhy>,
    pub(crate) crowd: Crowd<'a, W, I, O>,
    pub(crate) ticked: Ticked,
}

/// The lists for the joined jobs, and for the workers once they come back.
#[derive(Drop)]
pub(crate) struct Lists<'a, W: Walker, I, O> {
    pub(crate) jobs: Vec<PairJob<'a, W, Worker<'a, W, I, O>>>,
    pub(crate) workers: Vec<Worker<'a, W, I, O>>,
    pub(crate) others: Vec<Worker<'a, W, I, O>>,
    ghost for_jobs: { (jobs.items ≡ []) × (64 ≤ vec_capacity jobs) },
    ghost for_workers: { (workers.items ≡ []) × (31 ≤ vec_capacity workers) },
    ghost for_others: { (others.items ≡ []) × (31 ≤ vec_capacity others) },
}

/// Joins the jobs, lets the crew do them, and takes them apart again.
pub(crate) fn work<
    'a,
    W: Walker + Send,
    R: Threads + Wait + Sync,
    C: Clock + Send,
    P: Crew,
    I: Inlet + Send,
    O: Outlet + Send,
>(
    rt: &R,
    crowd: Crowd<'a, W, I, O>,
    lists: Lists<'a, W, I, O>,
    one: TickedBus<'a, W>,
    other: TickedBus<'a, W>,
    clock: &mut C,
    ticks: u64,
    crew: &mut P,
) -> Back<'a, W, I, O>
where
    W::Plan: Send,
    W::Taken: Send,
    requires writing { CanServe crowd.writing.post.now.shared crowd.writing.seat }
    requires reading { CanServe crowd.reading.post.now.shared crowd.reading.seat }
    requires workers { All (λ it. IsReadyWorker it.post.now.shared it.seat it.work)
        crowd.workers.items }
    requires others { All (λ it. IsReadyWorker it.post.now.shared it.seat it.work)
        crowd.others.items }
    requires counts { (length crowd.workers.items ≡ 31) × (length crowd.others.items ≡ 31) }
    requires one { CanTick one.post.now.shared one.seat × (one.end ≡ None) }
    requires other { CanTick other.post.now.shared other.seat × (other.end ≡ None) }
    ensures worked { MatchOption result.failed
        (TeamDone
        (λ old new. WorkDone I.told O.told O.faults old.seat new.seat new.end old.work new.work)
        crowd.entry.writing result.crowd.writing crowd.entry.reading result.crowd.reading
        crowd.entry.workers.items result.crowd.workers.items
        crowd.entry.others.items result.crowd.others.items
        × TicksPair ticks one.entry.seat result.ticked.seat
        other.entry.seat result.ticked.others_seat
        (C.told clock.old) (C.told clock.new) (C.faults clock.old) (C.faults clock.new)
        result.ticked.end result.ticked.others_end)
        (λ why. FailsFor why (P.faults crew.old) (P.faults crew.new)
        × TeamSame crowd.entry.writing result.crowd.writing
        crowd.entry.reading result.crowd.reading
        crowd.entry.workers.items result.crowd.workers.items
        crowd.entry.others.items result.crowd.others.items
        × ((result.ticked.seat ≡ one.entry.seat) × (result.ticked.others_seat ≡ other.entry.seat)
        × (C.told clock.new ≡ C.told clock.old))) }

    // A crew that does the jobs hasn't failed. If there was no crew, the clock hasn't failed either.
    ensures calm { MatchOption result.failed
        (P.faults crew.new ≡ P.faults crew.old)
        (λ why. C.faults clock.new ≡ C.faults clock.old) }
{
    let Crowd {
        writing,
        reading,
        workers,
        others,
    } = crowd;
    let Lists {
        jobs,
        workers: back,
        others: others_back,
    } = lists;
    let mut jobs = jobs;
    put_together(writing, reading, workers, others, &mut jobs);
    let (failed, jobs, ticked) = work_listed(rt, jobs, one, other, clock, ticks, crew);
    let crowd = part(jobs, back, others_back);
    Back {
        failed,
        crowd,
        ticked,
    }
}

/// Lets the crew do all jobs of the list, which come back in each case. The clock is lent to the ticker.
fn work_listed<
    'a,
    W: Walker + Send,
    R: Threads + Wait + Sync,
    C: Clock + Send,
    P: Crew,
    I: Inlet + Send,
    O: Outlet + Send,
>(
    rt: &R,
    jobs: Vec<PairJob<'a, W, Worker<'a, W, I, O>>>,
    one: TickedBus<'a, W>,
    other: TickedBus<'a, W>,
    clock: &mut C,
    ticks: u64,
    crew: &mut P,
) -> (
    Option<RunWhy>,
    Vec<PairJob<'a, W, Worker<'a, W, I, O>>>,
    Ticked,
)
where
    W::Plan: Send,
    W::Taken: Send,
    requires jobs { All
        (IsReady (λ it. IsReadyWorker it.post.now.shared it.seat it.work)) jobs.items }
    requires one { CanTick one.post.now.shared one.seat × (one.end ≡ None) }
    requires other { CanTick other.post.now.shared other.seat × (other.end ≡ None) }
    ensures worked { MatchOption result.0
        (AllDone (JobDone (λ old new.
        WorkDone I.told O.told O.faults old.seat new.seat new.end old.work new.work))
        jobs.entry.items result.1.items
        × TicksPair ticks one.entry.seat result.2.seat
        other.entry.seat result.2.others_seat
        (C.told clock.old) (C.told clock.new) (C.faults clock.old) (C.faults clock.new)
        result.2.end result.2.others_end)
        (λ why. FailsFor why (P.faults crew.old) (P.faults crew.new)
        × (result.1.items ≡ jobs.entry.items)
        × ((result.2.seat ≡ one.entry.seat) × (result.2.others_seat ≡ other.entry.seat)
        × (C.told clock.new ≡ C.told clock.old))) }
    ensures calm { MatchOption result.0
        (P.faults crew.new ≡ P.faults crew.old)
        (λ why. C.faults clock.new ≡ C.faults clock.old) }
{
    let mut one = one;
    let mut other = other;
    let mut ticking = LentTicking {
        one: &mut one,
        other: &mut other,
        clock,
        ticks,
        one_end: WorkEnd::Over,
        other_end: WorkEnd::Over,
    };
    let (failed, jobs) = crew_jobs(rt, crew, jobs, &mut ticking);
    let (end, others_end) = end_ticks(ticking);
    let ticked = ticked_of(one, other, end, others_end);
    (failed, jobs, ticked)
}

/// Returns why the ticker ended at each bus. The values that were lent to it stay as they are.
fn end_ticks<'b, 'c, W: Walker, C: Clock>(job: LentTicking<'b, 'c, W, C>) -> (WorkEnd, WorkEnd)
    ensures ends { (result.0 ≡ job.entry.one_end) × (result.1 ≡ job.entry.other_end) }
    ensures one { job.exit.0.now ≡ job.entry.one.now }
    ensures other { job.exit.1.0.now ≡ job.entry.other.now }
    ensures clock { job.exit.1.1.0.now ≡ job.entry.clock.now }
{
    let LentTicking {
        one_end,
        other_end,
        ..
    } = job;
    (one_end, other_end)
}

/// Returns the seats of the ticker for both buses, and why it ended at each.
fn ticked_of<'a, W: Walker>(
    one: TickedBus<'a, W>,
    other: TickedBus<'a, W>,
    end: WorkEnd,
    others_end: WorkEnd,
) -> Ticked
    ensures seat { result.seat ≡ one.entry.seat }
    ensures others_seat { result.others_seat ≡ other.entry.seat }
    ensures ends { (result.end ≡ end) × (result.others_end ≡ others_end) }
{
    let TickedBus { seat, .. } = one;
    let TickedBus {
        seat: others_seat,
        ..
    } = other;
    Ticked {
        seat,
        end,
        others_seat,
        others_end,
    }
}

/// Lets the crew do all jobs, which come back in each case.
fn crew_jobs<
    'a,
    'b,
    'c,
    W: Walker + Send,
    R: Threads + Wait + Sync,
    C: Clock + Send,
    P: Crew,
    I: Inlet + Send,
    O: Outlet + Send,
>(
    rt: &R,
    crew: &mut P,
    jobs: Vec<PairJob<'a, W, Worker<'a, W, I, O>>>,
    ticking: &mut LentTicking<'b, 'c, W, C>,
) -> (Option<RunWhy>, Vec<PairJob<'a, W, Worker<'a, W, I, O>>>)
where
    W::Plan: Send,
    W::Taken: Send,
    requires jobs { All
        (IsReady (λ it. IsReadyWorker it.post.now.shared it.seat it.work)) jobs.items }
    requires ticking { CanBegin ticking.old }
    ensures one { ticking.new.one.ghost_name ≡ ticking.old.one.ghost_name }
    ensures other { ticking.new.other.ghost_name ≡ ticking.old.other.ghost_name }
    ensures clock { ticking.new.clock.ghost_name ≡ ticking.old.clock.ghost_name }
    ensures done { MatchOption result.0
        (AllDone (JobDone (λ old new.
        WorkDone I.told O.told O.faults old.seat new.seat new.end old.work new.work))
        jobs.entry.items result.1.items
        × TicksPair ticking.old.ticks ticking.old.one.now.seat ticking.new.one.now.seat
        ticking.old.other.now.seat ticking.new.other.now.seat
        (C.told ticking.old.clock.now) (C.told ticking.new.clock.now)
        (C.faults ticking.old.clock.now) (C.faults ticking.new.clock.now)
        ticking.new.one_end ticking.new.other_end)
        (λ why. FailsFor why (P.faults crew.old) (P.faults crew.new)
        × (result.1.items ≡ jobs.entry.items) × (ticking.new ≡ ticking.old)) }
    ensures calm { MatchOption result.0
        (P.faults crew.new ≡ P.faults crew.old) (λ why. ticking.new ≡ ticking.old) }
{
    taken_back(crew_all(rt, crew, jobs, ticking))
}

/// Lets the crew do all jobs. The caller's own job does nothing.
fn crew_all<
    'a,
    'b,
    'c,
    W: Walker + Send,
    R: Threads + Wait + Sync,
    C: Clock + Send,
    P: Crew,
    I: Inlet + Send,
    O: Outlet + Send,
>(
    rt: &R,
    crew: &mut P,
    jobs: Vec<PairJob<'a, W, Worker<'a, W, I, O>>>,
    ticking: &mut LentTicking<'b, 'c, W, C>,
) -> Result<
    Vec<PairJob<'a, W, Worker<'a, W, I, O>>>,
    CrewFault<PairJob<'a, W, Worker<'a, W, I, O>>>,
>
where
    W::Plan: Send,
    W::Taken: Send,
    requires jobs { All
        (IsReady (λ it. IsReadyWorker it.post.now.shared it.seat it.work)) jobs.items }
    requires ticking { CanBegin ticking.old }
    ensures one { ticking.new.one.ghost_name ≡ ticking.old.one.ghost_name }
    ensures other { ticking.new.other.ghost_name ≡ ticking.old.other.ghost_name }
    ensures clock { ticking.new.clock.ghost_name ≡ ticking.old.clock.ghost_name }
    ensures ok { IfOk result (λ back. AllDone
        (JobDone (λ old new.
        WorkDone I.told O.told O.faults old.seat new.seat new.end old.work new.work))
        jobs.entry.items back.items
        × TicksPair ticking.old.ticks ticking.old.one.now.seat ticking.new.one.now.seat
        ticking.old.other.now.seat ticking.new.other.now.seat
        (C.told ticking.old.clock.now) (C.told ticking.new.clock.now)
        (C.faults ticking.old.clock.now) (C.faults ticking.new.clock.now)
        ticking.new.one_end ticking.new.other_end) }
    ensures err { IfErr result (λ fault. (jobs_of fault ≡ jobs.entry.items)
        × (ticking.new ≡ ticking.old)) }
    ensures rose { IfErr result
        (λ fault. FailsOnly fault (Rose (P.faults crew.old) (P.faults crew.new))) }
    ensures calm { OnOk result (P.faults crew.new ≡ P.faults crew.old) }
{
    let mut idle = Idle;
    beside(rt, crew, jobs, ticking, &mut idle)
}

/// Takes the jobs apart.
fn part<'a, W: Walker, I: Inlet, O: Outlet>(
    jobs: Vec<PairJob<'a, W, Worker<'a, W, I, O>>>,
    workers: Vec<Worker<'a, W, I, O>>,
    others: Vec<Worker<'a, W, I, O>>,
) -> Crowd<'a, W, I, O>
    requires team { IsTeam jobs.items }
    requires count { length jobs.items ≡ 64 }
    requires workers { (workers.items ≡ []) × (31 ≤ vec_capacity workers) }
    requires others { (others.items ≡ []) × (31 ≤ vec_capacity others) }
    ensures jobs { jobs.entry.items ≡ team_of result.writing result.reading
        (result.workers.items ++ result.others.items) }
    ensures count { length result.workers.items ≡ 31 }
{
    let mut workers = workers;
    let mut others = others;
    let (writing, reading) = take_apart(jobs, &mut workers, &mut others);
    Crowd {
        writing,
        reading,
        workers,
        others,
    }
}
