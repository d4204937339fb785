//! Runs all workers of a bus concurrently: splits the first seat among them, and joins the seats again at the end.
ghost use Rattle.std.specs.Prelude.{◌≡◌, ◌≤◌, ◌++◌, [], ◌∷◌, List, map, length, vec_len, vec_capacity, None, Some, MatchOption, IfOk, IfErr, OnOk, true, ◌+◌};
ghost use Rattle.std.specs.List.{All};
ghost use Rattle.tb_edge.specs.Faults.{Rose};
ghost use Rattle.tb_edge.specs.Jobs.{AllDone, jobs_of};
ghost use Rattle.tb_lock.specs.Rights.{Ticks as ToTick, has, no_rights, ticker_rights};
ghost use Rattle.tb_lock.specs.Seats.{first_seat, handed_on, kept_of};
ghost use Rattle.tb_run.specs.Jobs.{IsReady, WorkDone};
ghost use Rattle.tb_run.specs.Joining.{JoinsAll};
ghost use Rattle.tb_run.specs.Logging.{LogDone};
ghost use Rattle.tb_run.specs.Moving.{works_of, inlets_of, outlets_of};
ghost use Rattle.tb_run.specs.Views.{ends_seen};
ghost use Rattle.tb_run.specs.Parting.{left_after, parted};
ghost use Rattle.tb_run.specs.Parts.{job_rights};
ghost use Rattle.tb_run.specs.Reasons.{reason_of};
ghost use Rattle.tb_run.specs.Running.{HasCome, FailsFor, why_by};
ghost use Rattle.tb_run.specs.Workers.{TicksBus};
ghost use Rattle.tb_run.specs.Helpers.Desks.{begun, all_begun};

use crate::desks::{Begins, Places};
use crate::ending::reason_of;
use crate::ends::{LogEnd, RunWhy, WorkEnd};
use crate::helped_job::{helped_jobs, workers_of};
use crate::lanes::Lanes;
use crate::logger::LogJob;
use crate::moving::{end_all, works_of};
use crate::parts::hand_out;
use crate::post::Post;
use crate::room::{Ended, Room};
use crate::seats::join_all;
use crate::starting::begin_all;
use crate::tick_job::TickJob;
use crate::worker::Worker;
use std::mem;
use std::sync::Wait;
use std::thread::Threads;
use tb_bus::a_bus_that_is_down_stays_down;
use tb_edge::{Clock, Crew, CrewFault, Inlet, Outlet, Sink};
use tb_lock::{Seat, Shared, joins_keep_their_own};
use tb_process_steps::Walker;
use tb_write::LogWriter;

/// The workers of a run, with their seats.
#[derive(Drop)]
struct Team<'a, W: Walker, I, O> {
    workers: Vec<Worker<'a, W, I, O>>,
    tick_seat: Seat,
    log_seat: Seat,
}

/// The workers after their work, and the results of the tick worker and of the job that writes the log. If the crew didn't do the jobs,
/// `failed` is the reason.
#[derive(Drop)]
struct Back<'a, W: Walker, I, O> {
    failed: Option<RunWhy>,
    workers: Vec<Worker<'a, W, I, O>>,
    tick_seat: Seat,
    tick_end: WorkEnd,
    log_seat: Seat,
    log_end: LogEnd,
    writer: LogWriter,
}

/// Runs all workers concurrently. Returns why the run ends, and the writer of the log. Without places, nothing runs: memory ran out.
pub(crate) fn run_workers<
    'a,
    K: Begins + Send,
    W: Walker + Send,
    R: Threads + Wait + Sync,
    C: Clock + Send,
    P: Crew,
    S: Sink,
    I: Inlet + Send,
    O: Outlet + Send,
>(
    rt: &R,
    post: &'a Post<W>,
    places: Option<&'a Places<K, O>>,
    seat: &mut Seat,
    lanes: &mut Lanes<I, O>,
    room: Room<I, O>,
    clock: &mut C,
    ticks: u64,
    crew: &mut P,
    out: &mut S,
) -> (RunWhy, LogWriter)
where
    W::Plan: Send,
    W::Taken: Send,
    requires inlets { vec_len lanes.old.inlets ≡ 16 }
    requires outlets { vec_len lanes.old.outlets ≡ 16 }
    requires room { room.count ≡ 16 }
    requires first { seat.old ≡ first_seat post.now.shared seat.old.origin }
    requires bus { post.now.shared ≡ K.bus }
    requires starts { all_begun O.told O.faults (parted seat.old job_rights)
        (works_of 1 lanes.old.inlets.items lanes.old.outlets.items) ≡ K.starts }
    ensures come { let seen = ends_seen I.Inlet O.Outlet C.Clock P.Crew S.Sink in
        HasCome ticks (seen lanes.old.inlets.items lanes.old.outlets.items
        clock.old crew.old out.old)
        (seen lanes.new.inlets.items lanes.new.outlets.items clock.new crew.new out.new)
        seat.old seat.new result.1 result.0 }
    ensures inlets { vec_len lanes.new.inlets ≡ 16 }
    ensures outlets { vec_len lanes.new.outlets ≡ 16 }
{
    joins_keep_their_own();
    a_bus_that_is_down_stays_down();
    let Ok(workers) = Vec::with_capacity(post.alloc, 33) else {
        return (RunWhy::NoMemory, LogWriter::new(post.alloc));
    };
    let Some(places) = places else {
        return (RunWhy::NoMemory, LogWriter::new(post.alloc));
    };
    let (team, ended) = begin(post, seat, lanes, room, workers);
    let back = work(rt, post, places, team, clock, ticks, crew, out);
    let Back {
        failed,
        workers,
        tick_seat,
        tick_end,
        log_seat,
        log_end,
        writer,
    } = back;
    let ended = with_others(ended, log_seat, tick_seat);
    let ends = gather(&post.shared, seat, workers, lanes, ended);
    (why_of(failed, tick_end, ends.as_slice(), log_end), writer)
}

fn why_of(failed: Option<RunWhy>, tick_end: WorkEnd, ends: &[WorkEnd], log_end: LogEnd) -> RunWhy
    ensures { MatchOption failed
        (result ≡ reason_of tick_end ends.now log_end) (λ why. result ≡ why) }
{
    match failed {
        Some(why) => why,
        None => reason_of(tick_end, ends, log_end),
    }
}

/// Splits the seat, and makes the workers.
fn begin<'a, W: Walker, I: Inlet, O: Outlet>(
    post: &'a Post<W>,
    seat: &mut Seat,
    lanes: &mut Lanes<I, O>,
    room: Room<I, O>,
    workers: Vec<Worker<'a, W, I, O>>,
) -> (Team<'a, W, I, O>, Ended)
    requires inlets { vec_len lanes.old.inlets ≡ 16 }
    requires outlets { vec_len lanes.old.outlets ≡ 16 }
    requires room { room.count ≡ 16 }
    requires first { seat.old ≡ first_seat post.now.shared seat.old.origin }
    requires workers { (workers.items ≡ []) × (33 ≤ vec_capacity workers) }
    ensures seats { map (λ it. it.seat) result.0.workers.items ≡ parted seat.old job_rights }
    ensures works { map (λ it. it.work) result.0.workers.items
        ≡ works_of 1 lanes.old.inlets.items lanes.old.outlets.items }
    ensures ready { All (λ it. IsReady it.post.now.shared it.seat it.work) result.0.workers.items }
    ensures posts { All (λ it. it.post.now.shared ≡ post.now.shared) result.0.workers.items }
    ensures tick { result.0.tick_seat ≡ handed_on ticker_rights (left_after seat.old job_rights) }
    ensures log { result.0.log_seat
        ≡ handed_on no_rights (kept_of ticker_rights (left_after seat.old job_rights)) }
    ensures seat { seat.new
        ≡ kept_of no_rights (kept_of ticker_rights (left_after seat.old job_rights)) }
    ensures lanes { lanes.new ≡ room.lanes }
    ensures ended { result.1 ≡ room.ended }
{
    let Room {
        count: _,
        works,
        seats,
        buffers,
        lanes: no_lanes,
        ended,
    } = room;
    let mut works = works;
    let mut seats = seats;
    let mut workers = workers;
    let (tick_seat, log_seat) = hand_out(&post.shared, seat, &mut seats);
    works_of(1, mem::replace(lanes, no_lanes), &mut works);
    begin_all(post, seats, buffers, works, &mut workers);
    let team = Team {
        workers,
        tick_seat,
        log_seat,
    };
    (team, ended)
}

/// Runs all workers, the tick worker and the job that writes the log concurrently.
fn work<
    'a,
    K: Begins + Send,
    W: Walker + Send,
    R: Threads + Wait + Sync,
    C: Clock + Send,
    P: Crew,
    S: Sink,
    I: Inlet + Send,
    O: Outlet + Send,
>(
    rt: &R,
    post: &'a Post<W>,
    places: &'a Places<K, O>,
    team: Team<'a, W, I, O>,
    clock: &mut C,
    ticks: u64,
    crew: &mut P,
    out: &mut S,
) -> Back<'a, W, I, O>
where
    W::Plan: Send,
    W::Taken: Send,
    requires posts { All (λ it. it.post.now.shared ≡ K.bus) team.workers.items }
    requires ready { All (λ it. IsReady it.post.now.shared it.seat it.work) team.workers.items }
    requires starts { map (λ it. begun O.told O.faults it.seat it.work) team.workers.items
        ≡ K.starts }
    requires tick { (team.tick_seat.bus ≡ post.now.shared) × (has team.tick_seat.rights ToTick ≡ true) }
    requires log { team.log_seat.bus ≡ post.now.shared }
    ensures worked { MatchOption result.failed
        (AllDone
        (λ old new. WorkDone I.told O.told O.faults old.seat new.seat new.end old.work new.work)
        team.entry.workers.items result.workers.items
        × TicksBus (λ count. count ≡ ticks) ticks team.entry.tick_seat result.tick_seat
        (C.told clock.old) (C.told clock.new)
        (C.faults clock.old) (C.faults clock.new) result.tick_end
        × LogDone team.entry.log_seat result.log_seat result.writer
        (S.taken out.old) (S.taken out.new) (S.faults out.old) (S.faults out.new) result.log_end)
        (λ why. FailsFor why (P.faults crew.old) (P.faults crew.new)
        × (result.workers.items ≡ team.entry.workers.items)
        × (result.tick_seat ≡ team.entry.tick_seat) × (result.log_seat ≡ team.entry.log_seat)
        × (C.told clock.new ≡ C.told clock.old) × (S.taken out.new ≡ S.taken out.old)) }

    // If the crew does the jobs, its count of failures is unchanged. If not, the counts of the clock and the sink are unchanged.
    ensures calm { MatchOption result.failed
        (P.faults crew.new ≡ P.faults crew.old)
        (λ why. (C.faults clock.new ≡ C.faults clock.old) × (S.faults out.new ≡ S.faults out.old)) }
{
    let Team {
        workers,
        tick_seat,
        log_seat,
    } = team;
    let mut ticker = TickJob {
        post,
        seat: tick_seat,
        clock,
        ticks,
        end: WorkEnd::Over,
    };
    let mut logger = LogJob {
        post,
        seat: log_seat,
        out,
        writer: LogWriter::new(post.alloc),
        end: LogEnd::Over,
    };
    let (failed, workers) = beside(rt, crew, places, workers, &mut ticker, &mut logger);
    let (tick_seat, tick_end) = end_ticks(ticker);
    let (log_seat, writer, log_end) = end_log(logger);
    Back {
        failed,
        workers,
        tick_seat,
        tick_end,
        log_seat,
        log_end,
        writer,
    }
}

/// Lets the crew do the jobs of all workers, which help one another at the desks, concurrently with the jobs of the ticker and of the
/// log's writer. The crew borrows these two jobs, so that they keep their clock and their sink. Returns the workers, and the reason if
/// the crew didn't do the jobs.
fn beside<
    'a,
    'b,
    'c,
    K: Begins + Send,
    W: Walker + Send,
    R: Threads + Wait + Sync,
    C: Clock + Send,
    P: Crew,
    S: Sink,
    I: Inlet + Send,
    O: Outlet + Send,
>(
    rt: &R,
    crew: &mut P,
    places: &'a Places<K, O>,
    workers: Vec<Worker<'a, W, I, O>>,
    ticker: &mut TickJob<'b, W, C>,
    logger: &mut LogJob<'c, W, S, LogWriter>,
) -> (Option<RunWhy>, Vec<Worker<'a, W, I, O>>)
where
    W::Plan: Send,
    W::Taken: Send,
    requires posts { All (λ it. it.post.now.shared ≡ K.bus) workers.items }
    requires ready { All (λ it. IsReady it.post.now.shared it.seat it.work) workers.items }
    requires starts { map (λ it. begun O.told O.faults it.seat it.work) workers.items ≡ K.starts }
    requires tick { (ticker.old.seat.bus ≡ ticker.old.post.now.shared)
        × (has ticker.old.seat.rights ToTick ≡ true) }
    requires log { (logger.old.seat.bus ≡ logger.old.post.now.shared)
        × (logger.old.writer ≡ record { written = 0; held = [] }) }
    ensures clock { ticker.new.clock.ghost_name ≡ ticker.old.clock.ghost_name }
    ensures out { logger.new.out.ghost_name ≡ logger.old.out.ghost_name }
    ensures worked { MatchOption result.0
        (AllDone
        (λ old new. WorkDone I.told O.told O.faults old.seat new.seat new.end old.work new.work)
        workers.entry.items result.1.items
        × TicksBus (λ count. count ≡ ticker.old.ticks)
        ticker.old.ticks ticker.old.seat ticker.new.seat
        (C.told ticker.old.clock.now) (C.told ticker.new.clock.now)
        (C.faults ticker.old.clock.now) (C.faults ticker.new.clock.now) ticker.new.end
        × LogDone logger.old.seat logger.new.seat logger.new.writer
        (S.taken logger.old.out.now) (S.taken logger.new.out.now)
        (S.faults logger.old.out.now) (S.faults logger.new.out.now) logger.new.end)
        (λ why. FailsFor why (P.faults crew.old) (P.faults crew.new)
        × (result.1.items ≡ workers.entry.items)
        × (ticker.new ≡ ticker.old) × (logger.new ≡ logger.old)) }

    // If the crew does the jobs, its count of failures is unchanged.
    ensures calm { MatchOption result.0 (P.faults crew.new ≡ P.faults crew.old)
        (λ why. (ticker.new ≡ ticker.old) × (logger.new ≡ logger.old)) }
{
    let alloc = ticker.post.alloc;
    let Ok(jobs) = Vec::with_capacity(alloc, workers.len()) else {
        return (Some(RunWhy::NoMemory), workers);
    };
    let Ok(room) = Vec::with_capacity(alloc, workers.len()) else {
        return (Some(RunWhy::NoMemory), workers);
    };
    let mut jobs = jobs;
    helped_jobs(places, workers, &mut jobs);
    let (failed, jobs) = taken_back(crew.beside(rt, jobs, ticker, logger));
    (failed, workers_of(jobs, room))
}

/// Returns the seat of the tick worker after its work, and why the worker ended. The clock is unchanged.
fn end_ticks<'b, W: Walker, C: Clock>(job: TickJob<'b, W, C>) -> (Seat, WorkEnd)
    ensures seat { result.0 ≡ job.entry.seat }
    ensures end { result.1 ≡ job.entry.end }
    ensures clock { job.exit.1.1.0.now ≡ job.entry.clock.now }
{
    let TickJob { seat, end, .. } = job;
    (seat, end)
}

/// Returns the seat and the writer of the job that has written the log, and why the job ended. The sink is unchanged.
fn end_log<'b, W: Walker, S: Sink, L: Drop>(job: LogJob<'b, W, S, L>) -> (Seat, L, LogEnd)
    ensures seat { result.0 ≡ job.entry.seat }
    ensures writer { result.1 ≡ job.entry.writer }
    ensures end { result.2 ≡ job.entry.end }
    ensures out { job.exit.1.1.0.now ≡ job.entry.out.now }
{
    let LogJob {
        seat,
        writer,
        end,
        ..
    } = job;
    (seat, writer, end)
}

/// Returns the jobs, and the reason if the crew didn't do them.
pub fn taken_back<J: Drop>(answer: Result<Vec<J>, CrewFault<J>>) -> (Option<RunWhy>, Vec<J>)
    ensures ok { IfOk answer (λ jobs. (result.0 ≡ None) × (result.1.items ≡ jobs.items)) }
    ensures err { IfErr answer
        (λ fault. (result.0 ≡ Some (why_by fault)) × (result.1.items ≡ jobs_of fault)) }
{
    match answer {
        Ok(jobs) => (None, jobs),
        Err(CrewFault::Failed(jobs)) => (Some(RunWhy::Crew), jobs),
        Err(CrewFault::NoMemory(jobs)) => (Some(RunWhy::NoMemory), jobs),
    }
}

/// Adds the seats of two further jobs to the empty list, before the seats of the workers.
pub fn with_others(ended: Ended, one: Seat, other: Seat) -> Ended
    requires none { ended.seats.items ≡ [] }
    requires room { 2 ≤ vec_capacity ended.seats }
    ensures seats { result.seats.items ≡ one ∷ other ∷ [] }
    ensures room { vec_capacity result.seats ≡ vec_capacity ended.seats }
    ensures ends { result.ends ≡ ended.ends }
{
    let mut ended = ended;
    ended.seats.push_reserved(one);
    ended.seats.push_reserved(other);
    ended
}

/// Moves the ends of the lanes out of the workers, and joins all seats to `seat`: first the seats in `ended`, then the seats of the
/// workers. Returns why the workers ended, in their order.
pub fn gather<'a, W: Walker, I: Inlet, O: Outlet>(
    shared: &Shared<W>,
    seat: &mut Seat,
    workers: Vec<Worker<'a, W, I, O>>,
    lanes: &mut Lanes<I, O>,
    ended: Ended,
) -> Vec<WorkEnd>
    requires own { seat.old.bus ≡ shared.now }
    requires workers { All (λ it. it.seat.bus ≡ shared.now) workers.items }
    requires others { All (λ it. it.bus ≡ shared.now) ended.seats.items }
    requires seats { vec_len ended.seats + vec_len workers ≤ vec_capacity ended.seats }
    requires ends { (ended.ends.items ≡ []) × (vec_len workers ≤ vec_capacity ended.ends) }
    requires inlets { (lanes.old.inlets.items ≡ [])
        × (length (inlets_of (map (λ it. it.work) workers.items))
        ≤ vec_capacity lanes.old.inlets) }
    requires outlets { (lanes.old.outlets.items ≡ [])
        × (length (outlets_of (map (λ it. it.work) workers.items))
        ≤ vec_capacity lanes.old.outlets) }
    ensures joins { JoinsAll seat.old
        (ended.seats.items ++ map (λ it. it.seat) workers.entry.items) seat.new }
    ensures inlets { lanes.new.inlets.items ≡ inlets_of (map (λ it. it.work) workers.entry.items) }
    ensures outlets { lanes.new.outlets.items
        ≡ outlets_of (map (λ it. it.work) workers.entry.items) }
    ensures ends { result.items ≡ map (λ it. it.end) workers.entry.items }
{
    let mut ended = ended;
    end_all(workers, lanes, &mut ended);
    let Ended { seats, ends } = ended;
    join_all(shared, seat, seats);
    ends
}
