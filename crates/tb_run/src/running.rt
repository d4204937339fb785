//! The run of a bus: all its workers, and the log that is written at the same time.
ghost use Rattle.std.specs.Prelude.{◌≡◌, ◌≤◌, ◌+◌, ◌∷◌, [], map, drop, length, vec_len, vec_capacity, false, IfSome, OnOk, OnErr, IsErrOf, IsTrue};
ghost use Rattle.std.specs.List.{All, list_all};
ghost use Rattle.tb_edge.specs.Faults.{Rose};
ghost use Rattle.tb_edge.specs.Sinks.{Writes, WritesPrefix};
ghost use Rattle.tb_log.specs.LogText.{log_text_from};
ghost use Rattle.tb_log.specs.Proper.{is_proper_entry};
ghost use Rattle.tb_lock.specs.Seats.{first_seat};
ghost use Rattle.tb_run.specs.Outcomes.{Runs};
ghost use Rattle.tb_run.specs.Views.{ends_seen, outside_seen};
ghost use Rattle.tb_run.specs.Running.{IsAfterRest, GoesToRest};
ghost use Rattle.tb_run.specs.Moving.{works_of};
ghost use Rattle.tb_run.specs.Parting.{parted};
ghost use Rattle.tb_run.specs.Parts.{job_rights};
ghost use Rattle.tb_run.specs.Helpers.Desks.{all_begun};

use crate::desks::{Begins, Places};
use crate::ends::RunWhy;
use crate::lanes::Lanes;
use crate::moving::{pair_lanes, part_lanes};
use crate::post::Post;
use crate::room::{Boxes, Room, make_boxes, make_room};
use crate::working::run_workers;
use std::alloc::Global;
use std::marker::Brand;
use std::mem;
use std::sync::Wait;
use std::thread::Threads;
use tb_core::{Core, a_full_log_is_at_its_limit};
use tb_edge::{Clock, Crew, Inlet, LanePair, Outlet, Sink};
use tb_lock::{Seat, Shared};
use tb_log::{Log, show_proper_log};
use tb_process_steps::Walker;
use tb_write::{LogFault, LogWriter};

/// Runs a bus over the ends of sixteen lanes. After the call, `lanes` has these ends again.
fn run_ends<
    W: Walker + Send,
    R: Threads + Wait + Sync,
    C: Clock + Send,
    P: Crew,
    S: Sink,
    I: Inlet + Send,
    O: Outlet + Send,
>(
    rt: &R,
    alloc: Global,
    core: Core<W>,
    lanes: &mut Lanes<I, O>,
    clock: &mut C,
    ticks: u64,
    crew: &mut P,
    out: &mut S,
) -> (RunWhy, Core<W>)
where
    W::Plan: Send,
    W::Taken: Send,
    requires inlets { vec_len lanes.old.inlets ≡ 16 }
    requires outlets { vec_len lanes.old.outlets ≡ 16 }
    requires log { core.log ≡ [] }
    requires running { core.stopped ≡ false }
    ensures runs { let seen = ends_seen I.Inlet O.Outlet C.Clock P.Crew S.Sink in
        Runs ticks (seen lanes.old.inlets.items lanes.old.outlets.items
        clock.old crew.old out.old)
        (seen lanes.new.inlets.items lanes.new.outlets.items clock.new crew.new out.new)
        core.origin result.1 result.0 }
    ensures inlets { vec_len lanes.new.inlets ≡ 16 }
    ensures outlets { vec_len lanes.new.outlets ≡ 16 }
{
    let Ok(room) = make_room(alloc, 16) else {
        return (RunWhy::NoMemory, core);
    };
    match Shared::make(alloc, core) {
        Ok((shared, seat)) => {
            let post = Post::new(alloc, shared, 34);
            run_post::<Brand, W, R, C, P, S, I, O>(
                rt, post, seat, lanes, room, clock, ticks, crew, out,
            )
        }
        Err(refused) => (RunWhy::NoMemory, refused.core),
    }
}

/// Runs a bus from its first seat, closes it, and writes the rest of the log.
fn run_post<
    K: Begins + Send,
    W: Walker + Send,
    R: Threads + Wait + Sync,
    C: Clock + Send,
    P: Crew,
    S: Sink,
    I: Inlet + Send,
    O: Outlet + Send,
>(
    rt: &R,
    post: Post<W>,
    seat: Seat,
    lanes: &mut Lanes<I, O>,
    room: Room<I, O>,
    clock: &mut C,
    ticks: u64,
    crew: &mut P,
    out: &mut S,
) -> (RunWhy, Core<W>)
where
    W::Plan: Send,
    W::Taken: Send,
    requires inlets { vec_len lanes.old.inlets ≡ 16 }
    requires outlets { vec_len lanes.old.outlets ≡ 16 }
    requires room { room.count ≡ 16 }
    requires first { seat ≡ first_seat post.shared seat.origin }
    requires bus { post.shared ≡ K.bus }
    requires starts { all_begun O.told O.faults (parted seat job_rights)
        (works_of 1 lanes.old.inlets.items lanes.old.outlets.items) ≡ K.starts }
    ensures runs { let seen = ends_seen I.Inlet O.Outlet C.Clock P.Crew S.Sink in
        Runs ticks (seen lanes.old.inlets.items lanes.old.outlets.items
        clock.old crew.old out.old)
        (seen lanes.new.inlets.items lanes.new.outlets.items clock.new crew.new out.new)
        seat.origin result.1 result.0 }
    ensures inlets { vec_len lanes.new.inlets ≡ 16 }
    ensures outlets { vec_len lanes.new.outlets ≡ 16 }
{
    a_full_log_is_at_its_limit();
    let mut seat = seat;
    let places: Option<Places<K, O>> = Places::new(post.alloc).ok();
    let (why, writer) = run_workers(
        rt,
        &post,
        places.as_ref(),
        &mut seat,
        lanes,
        room,
        clock,
        ticks,
        crew,
        out,
    );
    let Post { shared, .. } = post;
    let core = shared.close(rt, seat);
    let why = put_rest(core.log(), why, writer, out);
    (why, core)
}

/// Writes the rest of a log, unless the crew or the sink failed or memory ran out. All entries of a log are well-formed.
fn put_rest<S: Sink>(log: &Log, why: RunWhy, writer: LogWriter, out: &mut S) -> RunWhy
    requires held { GoesToRest log.now.entries writer why }
    ensures rest { IsAfterRest log.now.entries writer why result (S.taken out.old)
        (S.taken out.new) (S.faults out.old) (S.faults out.new) }
    ensures proper { IsTrue (list_all is_proper_entry log.now.entries) }
{
    show_proper_log(log);
    match why {
        RunWhy::Ended | RunWhy::Clock | RunWhy::Events => match put_behind(log, writer, out) {
            Ok(()) => why,
            Err(LogFault::Out) => RunWhy::Out,
            Err(LogFault::NoMemory) => RunWhy::NoMemory,
        },
        RunWhy::Crew | RunWhy::Out | RunWhy::NoMemory => why,
    }
}

/// Writes the part of a log after the entries that the writer counts.
fn put_behind<S: Sink>(log: &Log, writer: LogWriter, out: &mut S) -> Result<(), LogFault>
    requires held { writer.held ≡ [] }
    requires within { writer.written ≤ length log.now.entries }
    ensures ok { OnOk result (Writes (S.taken out.old) (S.taken out.new)
        (log_text_from (writer.written + 1) (drop writer.written log.now.entries))) }
    ensures prefix { OnErr result (WritesPrefix (S.taken out.old) (S.taken out.new)
        (log_text_from (writer.written + 1) (drop writer.written log.now.entries))) }
    ensures rose { IsErrOf result LogFault.Out → Rose (S.faults out.old) (S.faults out.new) }
    ensures calm { OnOk result (S.faults out.new ≡ S.faults out.old) }
{
    let mut writer = writer;
    let written = writer.written() as usize;
    writer.put_behind_and_flush(log, written, out)
}

/// Runs a bus to its end: sixteen readers, sixteen writers, a stepper, and a ticker, each in its own thread, while this thread writes the
/// log to `out`. The ticker delivers at most `ticks` ticks. A worker stops the bus if the log is full or memory runs out. This thread
/// stops the bus if the sink fails or memory runs out. Returns why the run ended, and the core with the whole log. After the call, `lanes`
/// has the lanes in their order.
pub fn run<W: Walker + Send, R: Threads + Wait + Sync, C: Clock + Send, P: Crew, S: Sink>(
    rt: &R,
    alloc: Global,
    core: Core<W>,
    lanes: &mut Vec<LanePair>,
    clock: &mut C,
    ticks: u64,
    crew: &mut P,
    out: &mut S,
) -> (RunWhy, Core<W>)
where
    W::Plan: Send,
    W::Taken: Send,
    requires lanes { vec_len lanes.old ≡ 16 }
    requires log { core.log ≡ [] }
    requires running { core.stopped ≡ false }
    ensures runs { let seen = outside_seen ⟦<Box<dyn Inlet + Send> as Inlet>⟧
        ⟦<Box<dyn Outlet + Send> as Outlet>⟧ C.Clock P.Crew S.Sink in
        Runs ticks (seen lanes.old.items clock.old crew.old out.old)
        (seen lanes.new.items clock.new crew.new out.new) core.origin result.1 result.0 }
    ensures lanes { vec_len lanes.new ≡ 16 }
{
    let Ok(boxes) = make_boxes(alloc, 16) else {
        return (RunWhy::NoMemory, core);
    };
    let Boxes {
        count: _,
        pairs,
        lanes: ends,
    } = boxes;
    let mut ends = ends;
    part_lanes(mem::replace(lanes, pairs), &mut ends);
    let answer = run_ends(rt, alloc, core, &mut ends, clock, ticks, crew, out);
    pair_lanes(ends, lanes);
    answer
}
