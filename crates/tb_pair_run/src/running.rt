//! The run of two buses and of the pipe between them.
ghost use Rattle.std.specs.Prelude.{◌≡◌, ◌≤◌, ◌∷◌, [], length, false, IsTrue, map, vec_len};
ghost use Rattle.std.specs.Prelude.{vec_capacity};
ghost use Rattle.std.specs.List.{list_all};
ghost use Rattle.tb_log.specs.Proper.{is_proper_entry};
ghost use Rattle.tb_lock.specs.Calls.{Closes};
ghost use Rattle.tb_lock.specs.Rights.{all_rights};
ghost use Rattle.tb_lock.specs.Seats.{first_seat, most_seats};
ghost use Rattle.tb_pair_run.specs.Outcomes.{PairRuns};
ghost use Rattle.tb_pair_run.specs.Views.{pair_seen};
ghost use Rattle.tb_pair_run.specs.Helpers.Running.{AreFifteen, RunsFromTwo, ends_seen};

use crate::ends::PairWhy;
use crate::working::{Bus, Came, Left, run_workers};
use std::alloc::Global;
use std::mem;
use std::sync::Wait;
use std::sync::atomic::AtomicU32;
use std::thread::Threads;
use tb_core::Core;
use tb_edge::{Clock, Crew, Inlet, LanePair, Outlet};
use tb_lock::{Seat, Shared};
use tb_log::show_proper_log;
use tb_process_steps::Walker;
use tb_run::{AnyInlet, AnyOutlet, Boxes, Lanes, Post, make_boxes, pair_lanes, part_lanes};

/// How many workers a bus has, except the ticker that both share: those of lanes 2 to 16, the stepper, and the pipe's.
const JOBS: u32 = 32;

/// The result of the run of two buses over the ends of their lanes from 2 on.
#[derive(Drop)]
struct Ran<W: Walker, I, O> {
    why: PairWhy,
    core: Core<W>,
    others_core: Core<W>,
    lanes: Lanes<I, O>,
    others: Lanes<I, O>,
}

/// Runs two buses that were made, and closes them.
fn run_shared<
    W: Walker + Send,
    R: Threads + Wait + Sync,
    C: Clock + Send,
    P: Crew,
    I: Inlet + Send,
    O: Outlet + Send,
>(
    rt: &R,
    post: Post<W>,
    seat: Seat,
    others_post: Post<W>,
    others_seat: Seat,
    lanes: Lanes<I, O>,
    others: Lanes<I, O>,
    clock: &mut C,
    ticks: u64,
    crew: &mut P,
) -> Ran<W, I, O>
where
    W::Plan: Send,
    W::Taken: Send,
    requires inlets { AreFifteen lanes.inlets.items others.inlets.items }
    requires outlets { AreFifteen lanes.outlets.items others.outlets.items }
    requires one { seat ≡ first_seat post.shared seat.origin }
    requires other { others_seat ≡ first_seat others_post.shared others_seat.origin }
    ensures runs { let seen = ends_seen I.Inlet O.Outlet C.Clock P.Crew in
        RunsFromTwo ticks
        (seen lanes.inlets.items lanes.outlets.items
        others.inlets.items others.outlets.items clock.old crew.old)
        (seen result.lanes.inlets.items result.lanes.outlets.items
        result.others.inlets.items result.others.outlets.items clock.new crew.new)
        seat.origin others_seat.origin result.core result.others_core result.why }
    ensures inlets { AreFifteen result.lanes.inlets.items result.others.inlets.items }
    ensures outlets { AreFifteen result.lanes.outlets.items result.others.outlets.items }
{
    let over = AtomicU32::new(0);
    let one = Bus {
        post: &post,
        seat,
        lanes,
    };
    let other = Bus {
        post: &others_post,
        seat: others_seat,
        lanes: others,
    };
    let came = run_workers(rt, one, other, &over, clock, ticks, crew);
    let Came { why, one, other } = came;
    let Left { seat, lanes } = one;
    let Left {
        seat: others_seat,
        lanes: others,
    } = other;
    let core = close_bus(rt, post, seat);
    let others_core = close_bus(rt, others_post, others_seat);
    Ran {
        why,
        core,
        others_core,
        lanes,
        others,
    }
}

/// Makes the second bus, and runs both.
fn run_second<
    W: Walker + Send,
    R: Threads + Wait + Sync,
    C: Clock + Send,
    P: Crew,
    I: Inlet + Send,
    O: Outlet + Send,
>(
    rt: &R,
    post: Post<W>,
    seat: Seat,
    second: Core<W>,
    lanes: Lanes<I, O>,
    others: Lanes<I, O>,
    clock: &mut C,
    ticks: u64,
    crew: &mut P,
) -> Ran<W, I, O>
where
    W::Plan: Send,
    W::Taken: Send,
    requires inlets { AreFifteen lanes.inlets.items others.inlets.items }
    requires outlets { AreFifteen lanes.outlets.items others.outlets.items }
    requires one { seat ≡ first_seat post.shared seat.origin }
    requires log { second.log ≡ [] }
    requires running { second.stopped ≡ false }
    ensures runs { let seen = ends_seen I.Inlet O.Outlet C.Clock P.Crew in
        RunsFromTwo ticks
        (seen lanes.inlets.items lanes.outlets.items
        others.inlets.items others.outlets.items clock.old crew.old)
        (seen result.lanes.inlets.items result.lanes.outlets.items
        result.others.inlets.items result.others.outlets.items clock.new crew.new)
        seat.origin second.origin result.core result.others_core result.why }
    ensures inlets { AreFifteen result.lanes.inlets.items result.others.inlets.items }
    ensures outlets { AreFifteen result.lanes.outlets.items result.others.outlets.items }
{
    let alloc = post.alloc;
    match Shared::make(alloc, second) {
        Ok((shared, others_seat)) => {
            let others_post = Post::new(alloc, shared, JOBS);
            run_shared(
                rt,
                post,
                seat,
                others_post,
                others_seat,
                lanes,
                others,
                clock,
                ticks,
                crew,
            )
        }
        Err(refused) => Ran {
            why: PairWhy::NoMemory,
            core: close_bus(rt, post, seat),
            others_core: refused.core,
            lanes,
            others,
        },
    }
}

/// Makes both buses, and runs them.
fn run_ends<
    W: Walker + Send,
    R: Threads + Wait + Sync,
    C: Clock + Send,
    P: Crew,
    I: Inlet + Send,
    O: Outlet + Send,
>(
    rt: &R,
    alloc: Global,
    first: Core<W>,
    second: Core<W>,
    lanes: Lanes<I, O>,
    others: Lanes<I, O>,
    clock: &mut C,
    ticks: u64,
    crew: &mut P,
) -> Ran<W, I, O>
where
    W::Plan: Send,
    W::Taken: Send,
    requires inlets { AreFifteen lanes.inlets.items others.inlets.items }
    requires outlets { AreFifteen lanes.outlets.items others.outlets.items }
    requires log { first.log ≡ [] }
    requires other_log { second.log ≡ [] }
    requires running { first.stopped ≡ false }
    requires other_running { second.stopped ≡ false }
    ensures runs { let seen = ends_seen I.Inlet O.Outlet C.Clock P.Crew in
        RunsFromTwo ticks
        (seen lanes.inlets.items lanes.outlets.items
        others.inlets.items others.outlets.items clock.old crew.old)
        (seen result.lanes.inlets.items result.lanes.outlets.items
        result.others.inlets.items result.others.outlets.items clock.new crew.new)
        first.origin second.origin result.core result.others_core result.why }
    ensures inlets { AreFifteen result.lanes.inlets.items result.others.inlets.items }
    ensures outlets { AreFifteen result.lanes.outlets.items result.others.outlets.items }
{
    match Shared::make(alloc, first) {
        Ok((shared, seat)) => {
            let post = Post::new(alloc, shared, JOBS);
            run_second(rt, post, seat, second, lanes, others, clock, ticks, crew)
        }
        Err(refused) => Ran {
            why: PairWhy::NoMemory,
            core: refused.core,
            others_core: second,
            lanes,
            others,
        },
    }
}

/// Closes a bus. All entries of its log are well-formed.
fn close_bus<W: Walker, R: Wait>(rt: &R, post: Post<W>, seat: Seat) -> Core<W>
    requires own { seat.bus ≡ post.shared }
    requires rights { seat.rights ≡ all_rights }
    requires room { seat.room ≡ most_seats }
    ensures closes { Closes seat result }
    ensures within { length result.log ≤ result.origin.limit }
    ensures proper { IsTrue (list_all is_proper_entry result.log) }
{
    let Post { shared, .. } = post;
    let core = shared.close(rt, seat);
    show_proper_log(core.log());
    core
}

/// Takes the pair at place 1 out of a list, and the ends out of all others.
fn take_first(
    pairs: Vec<LanePair>,
    ends: Lanes<AnyInlet, AnyOutlet>,
) -> (LanePair, Lanes<AnyInlet, AnyOutlet>)
    requires count { vec_len pairs ≡ 16 }
    requires inlets { (ends.inlets.items ≡ []) × (16 ≤ vec_capacity ends.inlets) }
    requires outlets { (ends.outlets.items ≡ []) × (16 ≤ vec_capacity ends.outlets) }
    ensures inlets { map (λ pair. pair.inlet) pairs.items
        ≡ result.0.inlet ∷ result.1.inlets.items }
    ensures outlets { map (λ pair. pair.outlet) pairs.items
        ≡ result.0.outlet ∷ result.1.outlets.items }
    ensures count { (length result.1.inlets.items ≡ 15) × (length result.1.outlets.items ≡ 15) }
{
    let mut pairs = pairs;
    let mut ends = ends;
    let first = pairs.remove(0);
    part_lanes(pairs, &mut ends);
    (first, ends)
}

/// Closes the outlet of a pair that isn't used.
fn close_unused(pair: LanePair) -> LanePair
    ensures inlet { result.inlet ≡ pair.inlet }
    ensures took { ⟦<Box<dyn Outlet + Send> as Outlet>⟧.told result.outlet
        ≡ ⟦<Box<dyn Outlet + Send> as Outlet>⟧.told pair.outlet }
    ensures never_falls { ⟦<Box<dyn Outlet + Send> as Outlet>⟧.faults pair.outlet
        ≤ ⟦<Box<dyn Outlet + Send> as Outlet>⟧.faults result.outlet }
{
    let LanePair { inlet, outlet } = pair;
    let mut outlet = outlet;
    outlet.close();
    LanePair { inlet, outlet }
}

/// Adds the pair at place 1 again, and all others after it.
fn give_back(first: LanePair, ends: Lanes<AnyInlet, AnyOutlet>, pairs: &mut Vec<LanePair>)
    requires room { (pairs.old.items ≡ []) × (16 ≤ vec_capacity pairs.old) }
    requires count { (length ends.inlets.items ≡ 15) × (length ends.outlets.items ≡ 15) }
    ensures inlets { map (λ pair. pair.inlet) pairs.new.items
        ≡ first.inlet ∷ ends.inlets.items }
    ensures outlets { map (λ pair. pair.outlet) pairs.new.items
        ≡ first.outlet ∷ ends.outlets.items }
    ensures count { vec_len pairs.new ≡ 16 }
{
    pairs.push_reserved(first);
    pair_lanes(ends, pairs);
}

/// Runs two buses to their end, and the pipe between them. Lane 1 of each bus belongs to the pipe, so the pair at place 1 of each list
/// isn't used: its outlet is closed before the start. Each other lane has a reader and a writer, and each bus has a stepper, each in its
/// own thread. One ticker delivers the ticks to both buses, at most `ticks` of them. A worker that finds the log full or no memory stops
/// only its own bus. The cores come back with the whole logs, and the lanes in their order.
pub fn run_pair<W: Walker + Send, R: Threads + Wait + Sync, C: Clock + Send, P: Crew>(
    rt: &R,
    alloc: Global,
    first: Core<W>,
    second: Core<W>,
    lanes: &mut Vec<LanePair>,
    others: &mut Vec<LanePair>,
    clock: &mut C,
    ticks: u64,
    crew: &mut P,
) -> (PairWhy, Core<W>, Core<W>)
where
    W::Plan: Send,
    W::Taken: Send,
    requires lanes { vec_len lanes.old ≡ 16 }
    requires others { vec_len others.old ≡ 16 }
    requires log { first.log ≡ [] }
    requires other_log { second.log ≡ [] }
    requires running { first.stopped ≡ false }
    requires other_running { second.stopped ≡ false }
    ensures runs { let seen = pair_seen ⟦<Box<dyn Inlet + Send> as Inlet>⟧
        ⟦<Box<dyn Outlet + Send> as Outlet>⟧ C.Clock P.Crew in
        PairRuns ticks (seen lanes.old.items others.old.items clock.old crew.old)
        (seen lanes.new.items others.new.items clock.new crew.new)
        first.origin second.origin result.1 result.2 result.0 }
    ensures lanes { vec_len lanes.new ≡ 16 }
    ensures others { vec_len others.new ≡ 16 }
{
    let Ok(boxes) = make_boxes(alloc, 16) else {
        return (PairWhy::NoMemory, first, second);
    };
    let Ok(others_boxes) = make_boxes(alloc, 16) else {
        return (PairWhy::NoMemory, first, second);
    };
    let Boxes {
        count: _,
        pairs: no_pairs,
        lanes: ends,
    } = boxes;
    let Boxes {
        count: _,
        pairs: no_others,
        lanes: others_ends,
    } = others_boxes;
    let (unused, ends) = take_first(mem::replace(lanes, no_pairs), ends);
    let (others_unused, others_ends) = take_first(mem::replace(others, no_others), others_ends);
    let unused = close_unused(unused);
    let others_unused = close_unused(others_unused);
    let ran = run_ends(
        rt,
        alloc,
        first,
        second,
        ends,
        others_ends,
        clock,
        ticks,
        crew,
    );
    give_back(unused, ran.lanes, lanes);
    give_back(others_unused, ran.others, others);
    (ran.why, ran.core, ran.others_core)
}
