//! The workers of one bus of a pair: their beginning, and what is left of them in the end.
ghost use Rattle.std.specs.Prelude.{◌≡◌, ◌≤◌, ◌+◌, ◌∷◌, [], map, length, vec_len, vec_capacity};
ghost use Rattle.std.specs.List.{All};
ghost use Rattle.tb_lock.specs.Seats.{first_seat};
ghost use Rattle.tb_run.specs.Jobs.{IsReady};
ghost use Rattle.tb_run.specs.Joining.{JoinsAll};
ghost use Rattle.tb_run.specs.Moving.{works_of, inlets_of, outlets_of};
ghost use Rattle.tb_run.specs.Parting.{parted};
ghost use Rattle.tb_pair_run.specs.Helpers.Parts.{lane_rights, pipe_seat_of, tick_seat_of, rest_of};

use crate::parts::hand_out;
use tb_edge::{Inlet, Outlet};
use tb_lock::{Seat, Shared};
use tb_process_steps::Walker;
use tb_run::{Ended, Lanes, Post, Room, WorkEnd, Worker, begin_all, gather, with_others, works_of};

/// The values that a bus keeps while its workers work.
#[derive(Drop)]
pub(crate) struct Home<I, O> {
    /// The rest of its first seat.
    pub(crate) seat: Seat,
    /// For the ends of the lanes once they come back.
    pub(crate) lanes: Lanes<I, O>,
    /// For the rest of the workers.
    pub(crate) ended: Ended,
}

/// The workers of a bus, with their seats.
#[derive(Drop)]
pub(crate) struct Team<'a, W: Walker, I, O> {
    /// Those of lanes 2 to 16, and the stepper.
    pub(crate) workers: Vec<Worker<'a, W, I, O>>,
    /// For the worker that serves the pipe.
    pub(crate) pipe_seat: Seat,
    /// For the ticker.
    pub(crate) tick_seat: Seat,
}

/// The values of a bus once its workers have ended.
#[derive(Drop)]
pub(crate) struct Done<I, O> {
    /// The one seat again.
    pub(crate) seat: Seat,
    /// The ends of lanes 2 to 16.
    pub(crate) lanes: Lanes<I, O>,
    /// Why the workers ended, except the pipe's and the ticker.
    pub(crate) ends: Vec<WorkEnd>,
}

/// Passes the seats on, and makes the workers.
pub(crate) fn begin<'a, W: Walker, I: Inlet, O: Outlet>(
    post: &'a Post<W>,
    seat: Seat,
    lanes: Lanes<I, O>,
    room: Room<I, O>,
    workers: Vec<Worker<'a, W, I, O>>,
) -> (Team<'a, W, I, O>, Home<I, O>)
    requires inlets { vec_len lanes.inlets ≡ 15 }
    requires outlets { vec_len lanes.outlets ≡ 15 }
    requires room { room.count ≡ 15 }
    requires first { seat ≡ first_seat post.now.shared seat.origin }
    requires workers { (workers.items ≡ []) × (31 ≤ vec_capacity workers) }
    ensures seats { map (λ it. it.seat) result.0.workers.items ≡ parted seat lane_rights }
    ensures works { map (λ it. it.work) result.0.workers.items
        ≡ works_of 2 lanes.inlets.items lanes.outlets.items }
    ensures ready { All (λ it. IsReady it.post.now.shared it.seat it.work) result.0.workers.items }
    ensures count { vec_len result.0.workers ≡ 31 }
    ensures pipe { result.0.pipe_seat ≡ pipe_seat_of seat }
    ensures tick { result.0.tick_seat ≡ tick_seat_of seat }
    ensures seat { result.1.seat ≡ rest_of seat }
    ensures lanes { result.1.lanes ≡ room.lanes }
    ensures ended { result.1.ended ≡ room.ended }
{
    let Room {
        count: _,
        works,
        seats,
        buffers,
        lanes: no_lanes,
        ended,
    } = room;
    let mut seat = seat;
    let mut works = works;
    let mut seats = seats;
    let mut workers = workers;
    let (pipe_seat, tick_seat) = hand_out(&post.shared, &mut seat, &mut seats);
    works_of(2, lanes, &mut works);
    begin_all(post, seats, buffers, works, &mut workers);
    let team = Team {
        workers,
        pipe_seat,
        tick_seat,
    };
    let home = Home {
        seat,
        lanes: no_lanes,
        ended,
    };
    (team, home)
}

/// Takes the ends of the lanes out of the workers, and joins all seats to one again.
pub(crate) fn finish<'a, W: Walker, I: Inlet, O: Outlet>(
    shared: &Shared<W>,
    home: Home<I, O>,
    team: Team<'a, W, I, O>,
) -> Done<I, O>
    requires own { home.seat.bus ≡ shared.now }
    requires workers { All (λ it. it.seat.bus ≡ shared.now) team.workers.items }
    requires pipe { team.pipe_seat.bus ≡ shared.now }
    requires tick { team.tick_seat.bus ≡ shared.now }
    requires count { vec_len team.workers ≡ 31 }
    requires ended { (home.ended.seats.items ≡ []) × (33 ≤ vec_capacity home.ended.seats) }
    requires ends { (home.ended.ends.items ≡ []) × (31 ≤ vec_capacity home.ended.ends) }
    requires inlets { (home.lanes.inlets.items ≡ [])
        × (length (inlets_of (map (λ it. it.work) team.workers.items))
        ≤ vec_capacity home.lanes.inlets) }
    requires outlets { (home.lanes.outlets.items ≡ [])
        × (length (outlets_of (map (λ it. it.work) team.workers.items))
        ≤ vec_capacity home.lanes.outlets) }
    ensures joins { JoinsAll home.seat
        (team.entry.pipe_seat ∷ team.entry.tick_seat
        ∷ map (λ it. it.seat) team.entry.workers.items) result.seat }
    ensures inlets { result.lanes.inlets.items
        ≡ inlets_of (map (λ it. it.work) team.entry.workers.items) }
    ensures outlets { result.lanes.outlets.items
        ≡ outlets_of (map (λ it. it.work) team.entry.workers.items) }
    ensures ends { result.ends.items ≡ map (λ it. it.end) team.entry.workers.items }
{
    let Home { seat, lanes, ended } = home;
    let Team {
        workers,
        pipe_seat,
        tick_seat,
    } = team;
    let mut seat = seat;
    let mut lanes = lanes;
    let ended = with_others(ended, pipe_seat, tick_seat);
    let ends = gather(shared, &mut seat, workers, &mut lanes, ended);
    Done { seat, lanes, ends }
}
