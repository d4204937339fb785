//! All workers of both buses, from the first seat of each until their seats are one again.
ghost use Rattle.std.specs.Prelude.{◌≡◌, ◌≤◌, ◌++◌, ◌∷◌, [], List, None, length, map, vec_capacity};
ghost use Rattle.std.specs.Prelude.{MatchOption};
ghost use Rattle.std.specs.List.{All};
ghost use Rattle.rtrb.specs.Ring.{IsPair, received, sent};
ghost use Rattle.tb_lock.specs.Seats.{first_seat};
ghost use Rattle.tb_run.specs.Jobs.{IsReady};
ghost use Rattle.tb_run.specs.Joining.{JoinsAll};
ghost use Rattle.tb_run.specs.Moving.{works_of, inlets_of, outlets_of};
ghost use Rattle.tb_run.specs.Parting.{parted};
ghost use Rattle.tb_pair.specs.declared.piece.Piece.{Piece};
ghost use Rattle.tb_pair_run.specs.Helpers.Parts.{lane_rights, pipe_seat_of, tick_seat_of, rest_of};
ghost use Rattle.tb_pair_run.specs.Helpers.Reasons.{bus_why, no_crew, pair_why};
ghost use Rattle.tb_pair_run.specs.Helpers.Running.{AreFifteen, CanFinish, CanGather, HasCome};
ghost use Rattle.tb_pair_run.specs.Helpers.Running.{ends_seen};

use crate::crewing::{Back, Crowd, Lists, work};
use crate::ending::{bus_why, no_crew, pair_why};
use crate::ends::PairWhy;
use crate::stock::{Ring, Side, Stock, make_stock};
use crate::team::{Done, Home, Team, begin, finish};
use rtrb::{Consumer, Producer};
use std::sync::Wait;
use std::sync::atomic::AtomicU32;
use std::thread::Threads;
use tb_bus::a_bus_that_is_down_stays_down;
use tb_core::a_full_log_is_at_its_limit;
use tb_edge::{Clock, Crew, Inlet, Outlet};
use tb_lock::{Seat, joins_keep_their_own};
use tb_pair::{Piece, PipeIn, PipeOut, PipeReading, PipeWriting, TickedBus, ends_meet};
use tb_process_steps::Walker;
use tb_run::{Lanes, Post, RunWhy, WorkEnd, Worker};

/// One of the two buses, before its workers begin.
#[derive(Drop)]
pub(crate) struct Bus<'a, W: Walker, I, O> {
    pub(crate) post: &'a Post<W>,
    pub(crate) seat: Seat,
    /// The ends of lanes 2 to 16.
    pub(crate) lanes: Lanes<I, O>,
}

/// One of the two buses, once its seats are joined to one again.
#[derive(Drop)]
pub(crate) struct Left<I, O> {
    pub(crate) seat: Seat,
    pub(crate) lanes: Lanes<I, O>,
}

/// The result of the work at both buses.
#[derive(Drop)]
pub(crate) struct Came<I, O> {
    pub(crate) why: PairWhy,
    pub(crate) one: Left<I, O>,
    pub(crate) other: Left<I, O>,
}

/// Lets all work concurrently. `over` is 0, and is lent to both ends of the pipe.
pub(crate) fn run_workers<
    'a,
    W: Walker + Send,
    R: Threads + Wait + Sync,
    C: Clock + Send,
    P: Crew,
    I: Inlet + Send,
    O: Outlet + Send,
>(
    rt: &R,
    one: Bus<'a, W, I, O>,
    other: Bus<'a, W, I, O>,
    over: &'a AtomicU32,
    clock: &mut C,
    ticks: u64,
    crew: &mut P,
) -> Came<I, O>
where
    W::Plan: Send,
    W::Taken: Send,
    requires inlets { AreFifteen one.lanes.inlets.items other.lanes.inlets.items }
    requires outlets { AreFifteen one.lanes.outlets.items other.lanes.outlets.items }
    requires one { one.seat ≡ first_seat one.post.now.shared one.seat.origin }
    requires other { other.seat ≡ first_seat other.post.now.shared other.seat.origin }
    ensures come { let seen = ends_seen I.Inlet O.Outlet C.Clock P.Crew in
        HasCome ticks
        (seen one.entry.lanes.inlets.items one.entry.lanes.outlets.items
        other.entry.lanes.inlets.items other.entry.lanes.outlets.items clock.old crew.old)
        (seen result.one.lanes.inlets.items result.one.lanes.outlets.items
        result.other.lanes.inlets.items result.other.lanes.outlets.items clock.new crew.new)
        one.entry.seat result.one.seat other.entry.seat result.other.seat result.why }
    ensures inlets { AreFifteen result.one.lanes.inlets.items result.other.lanes.inlets.items }
    ensures outlets { AreFifteen result.one.lanes.outlets.items result.other.lanes.outlets.items }
{
    let Bus { post, seat, lanes } = one;
    let Bus {
        post: others_post,
        seat: others_seat,
        lanes: others,
    } = other;
    let Ok(stock) = make_stock(post.alloc) else {
        return Came {
            why: PairWhy::NoMemory,
            one: Left { seat, lanes },
            other: Left {
                seat: others_seat,
                lanes: others,
            },
        };
    };
    let one = Bus { post, seat, lanes };
    let other = Bus {
        post: others_post,
        seat: others_seat,
        lanes: others,
    };
    run_stocked(rt, one, other, over, stock, clock, ticks, crew)
}

/// Lets all work concurrently, in memory that was taken before.
fn run_stocked<
    'a,
    W: Walker + Send,
    R: Threads + Wait + Sync,
    C: Clock + Send,
    P: Crew,
    I: Inlet + Send,
    O: Outlet + Send,
>(
    rt: &R,
    one: Bus<'a, W, I, O>,
    other: Bus<'a, W, I, O>,
    over: &'a AtomicU32,
    stock: Stock<'a, W, I, O>,
    clock: &mut C,
    ticks: u64,
    crew: &mut P,
) -> Came<I, O>
where
    W::Plan: Send,
    W::Taken: Send,
    requires inlets { AreFifteen one.lanes.inlets.items other.lanes.inlets.items }
    requires outlets { AreFifteen one.lanes.outlets.items other.lanes.outlets.items }
    requires one { one.seat ≡ first_seat one.post.now.shared one.seat.origin }
    requires other { other.seat ≡ first_seat other.post.now.shared other.seat.origin }
    ensures come { let seen = ends_seen I.Inlet O.Outlet C.Clock P.Crew in
        HasCome ticks
        (seen one.entry.lanes.inlets.items one.entry.lanes.outlets.items
        other.entry.lanes.inlets.items other.entry.lanes.outlets.items clock.old crew.old)
        (seen result.one.lanes.inlets.items result.one.lanes.outlets.items
        result.other.lanes.inlets.items result.other.lanes.outlets.items clock.new crew.new)
        one.entry.seat result.one.seat other.entry.seat result.other.seat result.why }
    ensures inlets { AreFifteen result.one.lanes.inlets.items result.other.lanes.inlets.items }
    ensures outlets { AreFifteen result.one.lanes.outlets.items result.other.lanes.outlets.items }
{
    joins_keep_their_own();
    a_bus_that_is_down_stays_down();
    a_full_log_is_at_its_limit();
    let post = one.post;
    let others_post = other.post;
    let Stock {
        one: side,
        other: others_side,
        jobs,
        pipe,
    } = stock;
    let started = start(one, side);
    let others_started = start(other, others_side);
    let Started {
        team,
        home,
        back: workers,
    } = started;
    let Started {
        team: others_team,
        home: others_home,
        back: others,
    } = others_started;
    let manned = man(post, others_post, team, others_team, pipe, over);
    let lists = Lists {
        jobs,
        workers,
        others,
    };
    let back = work(
        rt,
        manned.crowd,
        lists,
        manned.one,
        manned.other,
        clock,
        ticks,
        crew,
    );
    settle(post, others_post, home, others_home, back)
}

/// A bus whose workers were made.
#[derive(Drop)]
struct Started<'a, W: Walker, I, O> {
    team: Team<'a, W, I, O>,
    home: Home<I, O>,
    /// For the workers once they come back.
    back: Vec<Worker<'a, W, I, O>>,
}

/// Makes the workers of a bus.
fn start<'a, W: Walker, I: Inlet, O: Outlet>(
    bus: Bus<'a, W, I, O>,
    side: Side<'a, W, I, O>,
) -> Started<'a, W, I, O>
    requires inlets { length bus.lanes.inlets.items ≡ 15 }
    requires outlets { length bus.lanes.outlets.items ≡ 15 }
    requires first { bus.seat ≡ first_seat bus.post.now.shared bus.seat.origin }
    ensures seats { map (λ it. it.seat) result.team.workers.items
        ≡ parted bus.entry.seat lane_rights }
    ensures works { map (λ it. it.work) result.team.workers.items
        ≡ works_of 2 bus.entry.lanes.inlets.items bus.entry.lanes.outlets.items }
    ensures ready { All (λ it. IsReady it.post.now.shared it.seat it.work)
        result.team.workers.items }
    ensures count { length result.team.workers.items ≡ 31 }
    ensures pipe { result.team.pipe_seat ≡ pipe_seat_of bus.entry.seat }
    ensures tick { result.team.tick_seat ≡ tick_seat_of bus.entry.seat }
    ensures seat { result.home.seat ≡ rest_of bus.entry.seat }
    ensures room { CanGather result.home.lanes.inlets.items
        (vec_capacity result.home.lanes.inlets)
        result.home.lanes.outlets.items (vec_capacity result.home.lanes.outlets)
        result.home.ended.seats.items (vec_capacity result.home.ended.seats)
        result.home.ended.ends.items (vec_capacity result.home.ended.ends) }
    ensures back { (result.back.items ≡ []) × (31 ≤ vec_capacity result.back) }
{
    let Side {
        room,
        workers,
        back,
    } = side;
    let Bus { post, seat, lanes } = bus;
    let (team, home) = begin(post, seat, lanes, room, workers);
    Started { team, home, back }
}

/// All jobs of a pair.
#[derive(Drop)]
struct Manned<'a, W: Walker, I, O> {
    crowd: Crowd<'a, W, I, O>,
    one: TickedBus<'a, W>,
    other: TickedBus<'a, W>,
}

/// Makes the jobs of the pipe and the ticker's buses.
fn man<'a, W: Walker, I: Inlet, O: Outlet>(
    post: &'a Post<W>,
    others_post: &'a Post<W>,
    team: Team<'a, W, I, O>,
    others_team: Team<'a, W, I, O>,
    pipe: Ring,
    over: &'a AtomicU32,
) -> Manned<'a, W, I, O>
    ensures writing { (result.crowd.writing.seat ≡ team.entry.pipe_seat)
        × (result.crowd.writing.post.now.shared ≡ post.now.shared)
        × (result.crowd.writing.pipe.end ≡ pipe.writes) }
    ensures reading { (result.crowd.reading.seat ≡ others_team.entry.pipe_seat)
        × (result.crowd.reading.post.now.shared ≡ others_post.now.shared)
        × (result.crowd.reading.pipe.end ≡ pipe.reads) }
    ensures workers { result.crowd.workers.items ≡ team.entry.workers.items }
    ensures others { result.crowd.others.items ≡ others_team.entry.workers.items }
    ensures one { (result.one.seat ≡ team.entry.tick_seat)
        × (result.one.post.now.shared ≡ post.now.shared) × (result.one.end ≡ None) }
    ensures other { (result.other.seat ≡ others_team.entry.tick_seat)
        × (result.other.post.now.shared ≡ others_post.now.shared) × (result.other.end ≡ None) }
{
    let Team {
        workers,
        pipe_seat,
        tick_seat,
    } = team;
    let Team {
        workers: others,
        pipe_seat: others_pipe_seat,
        tick_seat: others_tick_seat,
    } = others_team;
    let Ring { writes, reads } = pipe;
    let writing = writing_of(post, others_post, pipe_seat, writes, over);
    let reading = reading_of(others_post, post, others_pipe_seat, reads, over);
    let crowd = Crowd {
        writing,
        reading,
        workers,
        others,
    };
    let one = TickedBus {
        post,
        seat: tick_seat,
        end: None,
    };
    let other = TickedBus {
        post: others_post,
        seat: others_tick_seat,
        end: None,
    };
    Manned { crowd, one, other }
}

/// Makes the job that writes the pipe.
fn writing_of<'a, W: Walker>(
    post: &'a Post<W>,
    others_post: &'a Post<W>,
    seat: Seat,
    end: Producer<Piece>,
    over: &'a AtomicU32,
) -> PipeWriting<'a, W>
    ensures seat { result.seat ≡ seat }
    ensures post { result.post.now.shared ≡ post.now.shared }
    ensures end { result.pipe.end ≡ end }
{
    PipeWriting {
        post,
        seat,
        pipe: PipeIn {
            end,
            flows: true,
            others: &others_post.bells,
            over,
        },
        end: WorkEnd::Over,
    }
}

/// Makes the job that reads the pipe.
fn reading_of<'a, W: Walker>(
    post: &'a Post<W>,
    others_post: &'a Post<W>,
    seat: Seat,
    end: Consumer<Piece>,
    over: &'a AtomicU32,
) -> PipeReading<'a, W>
    ensures seat { result.seat ≡ seat }
    ensures post { result.post.now.shared ≡ post.now.shared }
    ensures end { result.pipe.end ≡ end }
{
    PipeReading {
        post,
        seat,
        pipe: PipeOut {
            end,
            others: &others_post.bells,
            over,
        },
        end: WorkEnd::Over,
    }
}

/// Joins all seats of each bus to one again, lets the two ends of the pipe meet, and returns why the pair ended.
fn settle<'a, W: Walker, I: Inlet, O: Outlet>(
    post: &'a Post<W>,
    others_post: &'a Post<W>,
    home: Home<I, O>,
    others_home: Home<I, O>,
    back: Back<'a, W, I, O>,
) -> Came<I, O>
    requires one { CanFinish post.now.shared home.seat back.crowd.writing.seat back.ticked.seat
        (length back.crowd.workers.items)
        (length (inlets_of (map (λ it. it.work) back.crowd.workers.items)))
        (length (outlets_of (map (λ it. it.work) back.crowd.workers.items))) }
    requires workers { All (λ it. it.seat.bus ≡ post.now.shared) back.crowd.workers.items }
    requires other { CanFinish others_post.now.shared others_home.seat
        back.crowd.reading.seat back.ticked.others_seat (length back.crowd.others.items)
        (length (inlets_of (map (λ it. it.work) back.crowd.others.items)))
        (length (outlets_of (map (λ it. it.work) back.crowd.others.items))) }
    requires others { All (λ it. it.seat.bus ≡ others_post.now.shared) back.crowd.others.items }
    requires room { CanGather home.lanes.inlets.items (vec_capacity home.lanes.inlets)
        home.lanes.outlets.items (vec_capacity home.lanes.outlets)
        home.ended.seats.items (vec_capacity home.ended.seats)
        home.ended.ends.items (vec_capacity home.ended.ends) }
    requires others_room { CanGather others_home.lanes.inlets.items
        (vec_capacity others_home.lanes.inlets)
        others_home.lanes.outlets.items (vec_capacity others_home.lanes.outlets)
        others_home.ended.seats.items (vec_capacity others_home.ended.seats)
        others_home.ended.ends.items (vec_capacity others_home.ended.ends) }
    requires ends { IsPair back.crowd.writing.pipe.end back.crowd.reading.pipe.end }
    ensures joins { JoinsAll home.seat (back.entry.crowd.writing.seat ∷ back.entry.ticked.seat
        ∷ map (λ it. it.seat) back.entry.crowd.workers.items) result.one.seat }
    ensures others_joins { JoinsAll others_home.seat
        (back.entry.crowd.reading.seat ∷ back.entry.ticked.others_seat
        ∷ map (λ it. it.seat) back.entry.crowd.others.items) result.other.seat }
    ensures lanes { (result.one.lanes.inlets.items
        ≡ inlets_of (map (λ it. it.work) back.entry.crowd.workers.items))
        × (result.one.lanes.outlets.items
        ≡ outlets_of (map (λ it. it.work) back.entry.crowd.workers.items)) }
    ensures others_lanes { (result.other.lanes.inlets.items
        ≡ inlets_of (map (λ it. it.work) back.entry.crowd.others.items))
        × (result.other.lanes.outlets.items
        ≡ outlets_of (map (λ it. it.work) back.entry.crowd.others.items)) }
    ensures met { (known : List Piece) × (received back.entry.crowd.reading.pipe.end ++ known
        ≡ sent back.entry.crowd.writing.pipe.end) }
    ensures why { MatchOption back.entry.failed
        (result.why ≡ pair_why
        (bus_why back.entry.crowd.writing.end back.entry.ticked.end
        (map (λ it. it.end) back.entry.crowd.workers.items))
        (bus_why back.entry.crowd.reading.end back.entry.ticked.others_end
        (map (λ it. it.end) back.entry.crowd.others.items))
        back.entry.ticked.end back.entry.ticked.others_end)
        (λ it. result.why ≡ no_crew it) }
    ensures inlets { AreFifteen result.one.lanes.inlets.items result.other.lanes.inlets.items }
    ensures outlets { AreFifteen result.one.lanes.outlets.items result.other.lanes.outlets.items }
{
    let Back {
        failed,
        crowd,
        ticked,
    } = back;
    let Crowd {
        writing,
        reading,
        workers,
        others,
    } = crowd;
    let team = Team {
        workers,
        pipe_seat: writing.seat,
        tick_seat: ticked.seat,
    };
    let others_team = Team {
        workers: others,
        pipe_seat: reading.seat,
        tick_seat: ticked.others_seat,
    };
    let done = finish(&post.shared, home, team);
    let others_done = finish(&others_post.shared, others_home, others_team);
    ends_meet(writing.pipe, reading.pipe);
    let why = bus_why(writing.end, ticked.end, done.ends.as_slice());
    let others_why = bus_why(reading.end, ticked.others_end, others_done.ends.as_slice());
    Came {
        why: why_of(
            failed,
            pair_why(why, others_why, ticked.end, ticked.others_end),
        ),
        one: of_done(done),
        other: of_done(others_done),
    }
}

fn why_of(failed: Option<RunWhy>, why: PairWhy) -> PairWhy
    ensures { MatchOption failed (result ≡ why) (λ it. result ≡ no_crew it) }
{
    match failed {
        Some(it) => no_crew(it),
        None => why,
    }
}

fn of_done<I: Inlet, O: Outlet>(done: Done<I, O>) -> Left<I, O>
    ensures seat { result.seat ≡ done.seat }
    ensures lanes { result.lanes ≡ done.lanes }
{
    let Done { seat, lanes, .. } = done;
    Left { seat, lanes }
}
