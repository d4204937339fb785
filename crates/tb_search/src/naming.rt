//! The search for the candidate at two given places. The search asks only the processes at these places.

ghost use Rattle.std.specs.Prelude.{◌≡◌, ◌<◌, filter, length, IfOk, IsTrue};
ghost use Rattle.tb_bus.specs.Steps.{first, nowhere};
ghost use Rattle.tb_search.specs.Candidates.{all_candidates, ascend, partners, row_of, rows_of, scene_of};
ghost use Rattle.tb_search.specs.Named.{IsPlaceWith, candidates_to, candidates_with, is_at, is_partner_at, is_place, named_among, received_by, receptions_at};
ghost use Rattle.tb_search.specs.Helpers.Searches.{scene_searched};

use crate::apart::Apart;
use crate::candidate::{Candidate, Partner, Received};
use crate::living::{Living, Ready};
use crate::marks::Marks;
use crate::places::first_from;
use crate::receivers::receive;
use crate::search::{Searched, finding_of};
use std::alloc::Global;
use tb_body::Program;
use tb_bus::Action;
use tb_index::Index;
use tb_log::Place;
use tb_match::Binds;
use tb_terms::{NoMemory, Terms};
use tb_tools::Bench;

/// Returns the index of the process with this number.
fn place_with<W>(all: &[Apart<Living<W>>], number: u32) -> Option<usize>
    requires { IsTrue (ascend 0 (rows_of all.now)) }
    ensures { IsPlaceWith number (rows_of all.now) result }
{
    if all.is_empty() {
        return None;
    }
    let place = first_from(all, 0, number);
    if place >= all.len() {
        return None;
    }
    if all[place].get().number == number {
        Some(place)
    } else {
        None
    }
}

/// Returns whether a place is `nowhere`, the place of no process.
fn is_nowhere(to: Place) -> bool
    ensures { result ≡ is_place nowhere to }
{
    to.proc == 0 && to.atom == 0
}

/// Returns the index of an action and its binds, if the action has this atom and receives the terms.
fn receive_by(
    alloc: Global,
    index: usize,
    ready: &Ready,
    atom: u32,
    terms: &Terms,
    room: &mut Binds,
) -> Result<Option<Received>, NoMemory>
    ensures { IfOk result
        (λ found. found ≡ first (received_by atom terms.now index ready.now)) }
{
    if ready.atom == atom {
        receive(alloc, index, &ready.action, terms, room)
    } else {
        Ok(None)
    }
}

/// Returns the index and the binds of the first action that has this atom and receives the terms.
fn received_at(
    alloc: Global,
    actions: &[Ready],
    atom: u32,
    terms: &Terms,
    room: &mut Binds,
) -> Result<Option<Received>, NoMemory>
    ensures { IfOk result
        (λ found. found ≡ first (receptions_at atom terms.now 0 actions.now)) }
{
    for (index, ready) in actions.iter().enumerate() {
        match receive_by(alloc, index, ready, atom, terms, room)? {
            Some(received) => return Ok(Some(received)),
            None => {}
        }
    }
    Ok(None)
}

/// Returns the process that receives the terms at a place. It is never the process with this number, which sends.
fn partner_at<W>(
    alloc: Global,
    all: &[Apart<Living<W>>],
    number: u32,
    to: Place,
    terms: &Terms,
    room: &mut Binds,
) -> Result<Option<Partner>, NoMemory>
    requires ascend { IsTrue (ascend 0 (rows_of all.now)) }
    ensures { IfOk result (λ found. found ≡ first
        (filter (is_partner_at (rows_of all.now) to)
        (partners number terms.now 0 (rows_of all.now)))) }
{
    if to.proc == number {
        return Ok(None);
    }
    match place_with(all, to.proc) {
        Some(place) => {
            let actions = all[place].get().ready.as_slice();
            match received_at(alloc, actions, to.atom, terms, room)? {
                Some(received) => Ok(Some(Partner {
                    living: place,
                    received,
                })),
                None => Ok(None),
            }
        }
        None => Ok(None),
    }
}

/// Returns the first candidate of an action that is received at a place.
fn candidate_to<W>(
    alloc: Global,
    searched: &Searched<W>,
    at: usize,
    living: &Living<W>,
    index: usize,
    action: &Action,
    to: Place,
    room: &mut Binds,
) -> Result<Option<Candidate>, NoMemory>
    requires ascend { IsTrue (ascend 0 (rows_of searched.now.all.now)) }
    ensures { IfOk result (λ found. found ≡ first
        (candidates_to (scene_searched searched.now) to at (row_of living.now) index action.now)) }
{
    match action {
        Action::Own(own) => {
            if !is_nowhere(to) {
                return Ok(None);
            }
            match finding_of(alloc, searched, living, own)? {
                Some(finding) => Ok(Some(Candidate::Own(at, index, finding))),
                None => Ok(None),
            }
        }
        Action::Send(terms) => {
            match partner_at(alloc, searched.all, living.number, to, terms, room)? {
                Some(partner) => Ok(Some(Candidate::Handshake(at, index, partner))),
                None => Ok(None),
            }
        }
        Action::Receive(_) => Ok(None),
    }
}

/// Returns the first candidate of an action that is received at a place, if the action has this atom.
fn candidate_with<W>(
    alloc: Global,
    searched: &Searched<W>,
    at: usize,
    living: &Living<W>,
    index: usize,
    ready: &Ready,
    atom: u32,
    to: Place,
    room: &mut Binds,
) -> Result<Option<Candidate>, NoMemory>
    requires ascend { IsTrue (ascend 0 (rows_of searched.now.all.now)) }
    ensures { IfOk result (λ found. found ≡ first (candidates_with
        (scene_searched searched.now) atom to at (row_of living.now) index ready.now)) }
{
    if ready.atom == atom {
        candidate_to(alloc, searched, at, living, index, &ready.action, to, room)
    } else {
        Ok(None)
    }
}

/// Returns the first candidate, received at a place, among the actions of a process that have this atom.
fn named_of<W>(
    alloc: Global,
    searched: &Searched<W>,
    at: usize,
    living: &Living<W>,
    atom: u32,
    to: Place,
    room: &mut Binds,
) -> Result<Option<Candidate>, NoMemory>
    requires ascend { IsTrue (ascend 0 (rows_of searched.now.all.now)) }
    ensures { IfOk result (λ found. found ≡ first (named_among
        (scene_searched searched.now) atom to at (row_of living.now) 0 living.now.ready.items)) }
{
    for (index, ready) in living.ready.as_slice().iter().enumerate() {
        match candidate_with(alloc, searched, at, living, index, ready, atom, to, room)? {
            Some(found) => return Ok(Some(found)),
            None => {}
        }
    }
    Ok(None)
}

/// Returns the first of all candidates that begins at one place and is received at another. An action that a process does by
/// itself is received nowhere. The end of the bus has no place, so the call never returns it. The call asks only the processes at these
/// places. For a `snd-note`, it also asks all queues. `room` lends memory for the binds of a handshake, and can lose its content.
pub fn candidate_at<W>(
    alloc: Global,
    program: &Program,
    bench: &Bench,
    all: &[Apart<Living<W>>],
    marks: Marks,
    index: &Index,
    from: Place,
    to: Place,
    room: &mut Binds,
) -> Result<Option<Candidate>, NoMemory>
    requires ascend { IsTrue (ascend 0 (rows_of all.now)) }
    ensures { IfOk result (λ found. found ≡ first
        (filter (is_at (rows_of all.now) from to) (all_candidates
        (scene_of program.now.bodies program.now.tools bench.now (rows_of all.now) marks) marks))) }
{
    if marks.down {
        return Ok(None);
    }
    let searched = Searched {
        program,
        bench,
        all,
        marks,
        index,
    };
    match place_with(all, from.proc) {
        Some(at) => named_of(alloc, &searched, at, all[at].get(), from.atom, to, room),
        None => Ok(None),
    }
}
