//! Moves lane ends and seats between pairs, works and workers.
ghost use Rattle.std.specs.Prelude.{◌≡◌, ◌≤◌, ◌+◌, ◌++◌, [], ◌∷◌, length, List, map, vec_len, vec_capacity};
ghost use Rattle.std.specs.List.{filter_map};
ghost use Rattle.tb_run.specs.declared.worker.Work.{Work};
ghost use Rattle.tb_run.specs.Moving.{works_of, readers, writers, inlets_of, outlets_of};

use crate::lanes::{AnyInlet, AnyOutlet, Lanes};
use crate::room::Ended;
use crate::worker::{Work, Worker};
use tb_edge::{Inlet, LanePair, Outlet};
use tb_process_steps::Walker;

/// Splits the pairs, and appends their ends to the lists of `lanes`.
pub fn part_lanes(pairs: Vec<LanePair>, lanes: &mut Lanes<AnyInlet, AnyOutlet>)
    requires inlets { vec_len lanes.old.inlets + vec_len pairs ≤ vec_capacity lanes.old.inlets }
    requires outlets { vec_len lanes.old.outlets + vec_len pairs ≤ vec_capacity lanes.old.outlets }
    ensures inlets { lanes.new.inlets.items
        ≡ lanes.old.inlets.items ++ map (λ pair. pair.inlet) pairs.items }
    ensures outlets { lanes.new.outlets.items
        ≡ lanes.old.outlets.items ++ map (λ pair. pair.outlet) pairs.items }
{
    for pair in pairs {
        let LanePair { inlet, outlet } = pair;
        lanes.inlets.push_reserved(inlet);
        lanes.outlets.push_reserved(outlet);
    }
}

/// Joins the ends to pairs again, and appends these to `pairs`.
pub fn pair_lanes(lanes: Lanes<AnyInlet, AnyOutlet>, pairs: &mut Vec<LanePair>)
    requires room { vec_len pairs.old + vec_len lanes.inlets ≤ vec_capacity pairs.old }
    requires same { vec_len lanes.outlets ≡ vec_len lanes.inlets }
    ensures inlets { map (λ pair. pair.inlet) pairs.new.items
        ≡ map (λ pair. pair.inlet) pairs.old.items ++ lanes.inlets.items }
    ensures outlets { map (λ pair. pair.outlet) pairs.new.items
        ≡ map (λ pair. pair.outlet) pairs.old.items ++ lanes.outlets.items }
{
    let Lanes { inlets, outlets } = lanes;
    let mut outlets = outlets.into_iter();
    for inlet in inlets {
        match outlets.next() {
            Some(outlet) => pairs.push_reserved(LanePair { inlet, outlet }),
            None => unreachable!(),
        }
    }
}

/// Takes the workers apart. Appends their lane ends to `lanes`, and their seats and the reasons why they ended to `ended`.
pub fn end_all<'a, W: Walker, I: Inlet, O: Outlet>(
    workers: Vec<Worker<'a, W, I, O>>,
    lanes: &mut Lanes<I, O>,
    ended: &mut Ended,
)
    requires inlets { vec_len lanes.old.inlets
        + length (inlets_of (map (λ it. it.work) workers.items)) ≤ vec_capacity lanes.old.inlets }
    requires outlets { vec_len lanes.old.outlets
        + length (outlets_of (map (λ it. it.work) workers.items))
        ≤ vec_capacity lanes.old.outlets }
    requires seats { vec_len ended.old.seats + vec_len workers ≤ vec_capacity ended.old.seats }
    requires ends { vec_len ended.old.ends + vec_len workers ≤ vec_capacity ended.old.ends }
    ensures inlets { lanes.new.inlets.items
        ≡ lanes.old.inlets.items ++ inlets_of (map (λ it. it.work) workers.entry.items) }
    ensures outlets { lanes.new.outlets.items
        ≡ lanes.old.outlets.items ++ outlets_of (map (λ it. it.work) workers.entry.items) }
    ensures seats { ended.new.seats.items
        ≡ ended.old.seats.items ++ map (λ it. it.seat) workers.entry.items }
    ensures ends { ended.new.ends.items
        ≡ ended.old.ends.items ++ map (λ it. it.end) workers.entry.items }
{
    for worker in workers {
        let Worker {
            post: _,
            seat,
            buffer: _,
            work,
            end,
        } = worker;
        ended.seats.push_reserved(seat);
        ended.ends.push_reserved(end);
        move_out(work, lanes);
    }
}

/// Appends the lane end of a work to `lanes`, if the work has one.
fn move_out<I: Inlet, O: Outlet>(work: Work<I, O>, lanes: &mut Lanes<I, O>)
    requires inlets { vec_len lanes.old.inlets + length (inlets_of (work ∷ []))
        ≤ vec_capacity lanes.old.inlets }
    requires outlets { vec_len lanes.old.outlets + length (outlets_of (work ∷ []))
        ≤ vec_capacity lanes.old.outlets }
    ensures inlets { (rest : List (Work I O)) → lanes.new.inlets.items ++ inlets_of rest
        ≡ lanes.old.inlets.items ++ inlets_of (work ∷ rest) }
    ensures outlets { (rest : List (Work I O)) → lanes.new.outlets.items ++ outlets_of rest
        ≡ lanes.old.outlets.items ++ outlets_of (work ∷ rest) }
    ensures inlets_room { (rest : List (Work I O))
        → vec_len lanes.old.inlets + length (inlets_of (work ∷ rest))
        ≤ vec_capacity lanes.old.inlets
        → vec_len lanes.new.inlets + length (inlets_of rest) ≤ vec_capacity lanes.new.inlets }
    ensures outlets_room { (rest : List (Work I O))
        → vec_len lanes.old.outlets + length (outlets_of (work ∷ rest))
        ≤ vec_capacity lanes.old.outlets
        → vec_len lanes.new.outlets + length (outlets_of rest) ≤ vec_capacity lanes.new.outlets }
{
    match work {
        Work::Reads(_, inlet) => lanes.inlets.push_reserved(inlet),
        Work::Writes(_, outlet) => lanes.outlets.push_reserved(outlet),
        Work::Steps => {}
    }
}

/// Makes the works for lanes that are numbered from `first` on: the works of their readers, of their writers, and of the stepper.
pub fn works_of<I: Inlet, O: Outlet>(first: u8, lanes: Lanes<I, O>, works: &mut Vec<Work<I, O>>)
    requires inlets { first + vec_len lanes.inlets ≤ 17 }
    requires outlets { vec_len lanes.outlets ≡ vec_len lanes.inlets }
    requires works { works.old.items ≡ [] }
    requires room { vec_len lanes.inlets + vec_len lanes.outlets + 1 ≤ vec_capacity works.old }
    ensures { works.new.items ≡ works_of first lanes.inlets.items lanes.outlets.items }
{
    let Lanes { inlets, outlets } = lanes;
    add_readers(first, inlets, works);
    add_writers(first, outlets, works);
    works.push_reserved(Work::Steps);
}

fn add_readers<I: Inlet, O: Outlet>(first: u8, inlets: Vec<I>, works: &mut Vec<Work<I, O>>)
    requires lanes { first + vec_len inlets ≤ 17 }
    requires room { vec_len works.old + vec_len inlets ≤ vec_capacity works.old }
    ensures works { works.new.items ≡ works.old.items ++ readers first inlets.items }
    ensures len { vec_len works.new ≡ vec_len works.old + vec_len inlets }
    ensures room { vec_capacity works.new ≡ vec_capacity works.old }
{
    let mut lane = first;
    for inlet in inlets {
        works.push_reserved(Work::Reads(lane, inlet));
        lane += 1;
    }
}

fn add_writers<I: Inlet, O: Outlet>(first: u8, outlets: Vec<O>, works: &mut Vec<Work<I, O>>)
    requires lanes { first + vec_len outlets ≤ 17 }
    requires room { vec_len works.old + vec_len outlets ≤ vec_capacity works.old }
    ensures works { works.new.items ≡ works.old.items ++ writers first outlets.items }
    ensures len { vec_len works.new ≡ vec_len works.old + vec_len outlets }
    ensures room { vec_capacity works.new ≡ vec_capacity works.old }
{
    let mut lane = first;
    for outlet in outlets {
        works.push_reserved(Work::Writes(lane, outlet));
        lane += 1;
    }
}
