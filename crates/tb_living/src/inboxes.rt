//! Changes of the inboxes of processes, and the delivery of a note to each process that wants it.
ghost use Rattle.std.specs.Prelude.{◌≡◌, ◌<◌, ◌≢◌, ℕ, List, length, map, true, IfOk, IsTrue, OnOk, OnErr, slice_get, slice_index, Some};
ghost use Rattle.std.specs.List.{All};
ghost use Rattle.tb_terms.specs.declared.term.Term.{Term};
ghost use Rattle.tb_match.specs.Matches.{are_plain};
ghost use Rattle.tb_notes.specs.Inboxes.{HasRoom, subscribed, unsubscribed, with_note, without_note};
ghost use Rattle.tb_search.specs.Candidates.{all_take, rows_of, wanting};
ghost use Rattle.tb_living.specs.Holdings.{helds_of, held_at, spare_at, bares_of, IsHeldAt, HoldTheSame, CanTake, put_each, with_given};

use std::alloc::Global;
use tb_search::{Apart, Living};
use tb_terms::{NoMemory, Patterns, Terms, copy_terms};

/// Subscribes the process at an index to the notes that match these patterns. If out of memory, no inbox changes.
pub fn subscribe_at<W>(
    all: &mut Vec<Apart<Living<W>>>,
    at: usize,
    patterns: Patterns,
) -> Result<(), NoMemory>
    requires within { at < length all.old.items }
    requires plain { IsTrue (are_plain patterns) }
    ensures ok { OnOk result
        (IsHeldAt all.old.items at (subscribed patterns (held_at all.old.items at)) all.new.items) }
    ensures err { OnErr result (HoldTheSame all.old.items all.new.items) }
{
    all[at].get_mut().inbox.subscribe(patterns)
}

/// Removes the subscription of the process at an index to exactly these patterns.
pub fn unsubscribe_at<W>(all: &mut Vec<Apart<Living<W>>>, at: usize, patterns: &Patterns)
    requires { at < length all.old.items }
    ensures { IsHeldAt all.old.items at
        (unsubscribed patterns.now (held_at all.old.items at)) all.new.items }
{
    all[at].get_mut().inbox.unsubscribe(patterns);
}

/// Takes the note at a place (from 0) out of the queue of the process at an index, and returns the note.
pub fn take_note_at<W>(all: &mut Vec<Apart<Living<W>>>, at: usize, place: usize) -> Terms
    requires within { at < length all.old.items }
    requires place { place < length (held_at all.old.items at).notes }
    ensures note { slice_get (held_at all.old.items at).notes place ≡ Some result }
    ensures held { IsHeldAt all.old.items at
        (without_note place (held_at all.old.items at)) all.new.items }
{
    all[at].get_mut().inbox.take(place)
}

/// Gives a copy of a note to each process that wants the note: these are the processes at `indices`. If out of memory, no process
/// receives a copy.
pub fn hand_out<W>(
    alloc: Global,
    all: &mut Vec<Apart<Living<W>>>,
    indices: &[usize],
    note: &Terms,
) -> Result<(), NoMemory>
    requires wanting { indices.now ≡ wanting note.now 0 (rows_of all.old.items) }
    requires room { all_take note.now (rows_of all.old.items) ≡ true }
    ensures bares { bares_of all.new.items ≡ bares_of all.old.items }
    ensures ok { OnOk result
        (helds_of all.new.items ≡ map (with_given note.now) (helds_of all.old.items)) }
    ensures err { OnErr result (helds_of all.new.items ≡ helds_of all.old.items) }
{
    let copies = copies_of(alloc, note, indices.len())?;
    reserve_all(all, indices)?;
    put_all(all, indices, copies);
    Ok(())
}

/// Returns `many` copies of a note.
fn copies_of(alloc: Global, note: &Terms, many: usize) -> Result<Vec<Terms>, NoMemory>
    ensures many { IfOk result (λ copies. length copies.items ≡ many) }
    ensures copies { IfOk result (λ copies. All (λ copy. copy ≡ note.now) copies.items) }
{
    let mut copies = Vec::with_capacity(alloc, many)?;
    for _made in 0..many {
        copies.push(copy_terms(alloc, note)?)?;
    }
    Ok(copies)
}

/// Takes memory for one more note in the inbox of each process at these indices.
fn reserve_all<W>(all: &mut Vec<Apart<Living<W>>>, indices: &[usize]) -> Result<(), NoMemory>
    requires { All (λ at. at < length all.old.items) indices.now }
    ensures same { HoldTheSame all.old.items all.new.items }
    ensures ok { OnOk result (All (λ at. 0 < spare_at all.new.items at) indices.now) }
{
    for at in indices {
        reserve_at(all, *at)?;
    }
    Ok(())
}

/// Takes memory for one more note in the inbox of the process at an index.
fn reserve_at<W>(all: &mut Vec<Apart<Living<W>>>, at: usize) -> Result<(), NoMemory>
    requires { at < length all.old.items }
    ensures same { HoldTheSame all.old.items all.new.items }
    ensures ok { OnOk result (0 < spare_at all.new.items at) }
    ensures others { (other : ℕ) → other ≢ at
        → spare_at all.new.items other ≡ spare_at all.old.items other }
{
    all[at].get_mut().inbox.reserve()
}

/// Puts one copy of a note into the inbox of each process at these indices. This takes no memory.
fn put_all<W>(all: &mut Vec<Apart<Living<W>>>, indices: &[usize], mut copies: Vec<Terms>)
    requires many { length copies.items ≡ length indices.now }
    requires apart { (i j : ℕ) → i < j → j < length indices.now
        → slice_index indices.now i < slice_index indices.now j }
    requires can { All (CanTake all.old.items) indices.now }
    ensures bares { bares_of all.new.items ≡ bares_of all.old.items }
    ensures helds { (note : List Term) → All (λ copy. copy ≡ note) copies.items
        → helds_of all.new.items ≡ put_each note indices.now (helds_of all.old.items) }
{
    while let Some(note) = copies.pop() {
        put_at(all, indices[copies.len()], note);
    }
}

/// Puts a note into the inbox of the process at an index. This takes no memory.
fn put_at<W>(all: &mut Vec<Apart<Living<W>>>, at: usize, note: Terms)
    requires { CanTake all.old.items at }
    ensures held { IsHeldAt all.old.items at
        (with_note note (held_at all.old.items at)) all.new.items }
    ensures others { (other : ℕ) → other ≢ at
        → spare_at all.new.items other ≡ spare_at all.old.items other }
{
    all[at].get_mut().inbox.put(note);
}
