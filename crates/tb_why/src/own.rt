//! The reasons of atoms that need no tool and no message. `tools` and `partners` have the others.
//! Each check returns the reason of the first condition that fails, or `None` if all conditions hold.

ghost use Rattle.std.specs.Prelude.{◌≡◌, IfOk, None, slice_get, is_some};
ghost use Rattle.std.specs.Option.{option_copied};
ghost use Rattle.tb_process_steps.specs.Binds.{has_slot_sort};
ghost use Rattle.tb_bus.specs.Effects.{takes_note};
ghost use Rattle.tb_notes.specs.Inboxes.{oldest_match};
ghost use Rattle.tb_why.specs.Reasons.{create_reason, created_reason, end_reason, full_queue, full_reason, print_reason, set_reason, sorts_in, waits_reason, with_patterns, with_terms};
ghost use Rattle.tb_why.specs.Tools.{unless};
ghost use Rattle.tb_why.specs.Helpers.Scenes.{queues_in, scene_seen};

use crate::formats::format_fault;
use crate::reason::Reason;
use crate::scene::Sight;
use crate::tools::unless;
use sqlite_items::at;
use std::alloc::Global;
use tb_body::Body;
use tb_func::printf_text;
use tb_notes::Inbox;
use tb_search::{Apart, Living, fits_formals, fits_slot};
use tb_terms::{NoMemory, Patterns, Sort, Term, Terms, has_sort};

/// The greatest number of living processes.
const MOST_ALIVE: usize = 10_000;

/// Returns the type of a slot of a body, if the body has this slot.
fn sort_of(bodies: &[Body], body: u32, slot: u32) -> Option<&Sort>
    ensures { option_copied result ≡ sorts_in (slice_get bodies.now body) slot }
{
    match at(bodies, body as usize) {
        Some(body) => at(body.sorts.as_slice(), slot as usize),
        None => None,
    }
}

/// Checks the conditions of `:=`, which sets a variable to a value: the value exists, and has the type of the slot.
pub(crate) fn set_reason(
    bodies: &[Body],
    body: u32,
    slot: u32,
    sent: &Option<Terms>,
) -> Option<Reason>
    ensures { result
        ≡ with_terms (set_reason (sorts_in (slice_get bodies.now body) slot)) sent.now }
{
    let Some(values) = sent else {
        return Some(Reason::NoValue);
    };
    match values.as_slice() {
        [value] => unless(
            has_slot_sort(sort_of(bodies, body, slot), value),
            Reason::WrongSort,
        ),
        _ => Some(Reason::NoValue),
    }
}

/// Returns whether a value has the type of a slot; `false` if there is no such slot.
fn has_slot_sort(sort: Option<&Sort>, value: &Term) -> bool
    ensures { result ≡ has_slot_sort (option_copied sort.entry) value.now }
{
    match sort {
        Some(sort) => has_sort(value, sort),
        None => false,
    }
}

/// Checks the conditions of `printf`: its values exist, and give a text.
pub(crate) fn print_reason(alloc: Global, sent: &Option<Terms>) -> Result<Option<Reason>, NoMemory>
    ensures { IfOk result (λ reason. reason ≡ with_terms print_reason sent.now) }
{
    let Some(values) = sent else {
        return Ok(Some(Reason::NoValue));
    };
    let text = printf_text(alloc, values)?;
    let fault = format_fault(values.as_slice());
    Ok(unless(text.is_some(), Reason::NoText(fault)))
}

/// Checks the conditions of `snd-note`: its values exist, and each queue that wants the note has capacity for it.
pub(crate) fn full_reason<W>(all: &[Apart<Living<W>>], sent: &Option<Terms>) -> Option<Reason>
    ensures { result
        ≡ with_terms (λ note. full_reason (full_queue note (queues_in all.now))) sent.now }
{
    match sent {
        Some(note) => queue_reason(all, note),
        None => Some(Reason::NoValue),
    }
}

/// Returns `QueueFull` with the first process that wants the note and has no capacity for it, or `None` if there is none.
fn queue_reason<W>(all: &[Apart<Living<W>>], note: &Terms) -> Option<Reason>
    ensures { result ≡ full_reason (full_queue note.now (queues_in all.now)) }
{
    for living in all {
        let living = living.get();
        if !takes_note(&living.inbox, note) {
            return Some(Reason::QueueFull(living.number));
        }
    }
    None
}

/// Returns whether a queue doesn't bar a note: the queue doesn't want the note, or has capacity for it.
fn takes_note(inbox: &Inbox, note: &Terms) -> bool
    ensures { result ≡ takes_note note.now inbox.now.held }
{
    if inbox.wants(note) {
        inbox.room()
    } else {
        true
    }
}

/// Checks the conditions of `rec-note`: its patterns exist, and a note of the process's own queue matches.
pub(crate) fn note_reason(
    inbox: &Inbox,
    patterns: &Option<Patterns>,
) -> Result<Option<Reason>, NoMemory>
    ensures { IfOk result (λ reason. reason ≡ with_patterns (λ patterns.
        unless (is_some (oldest_match patterns inbox.now.held)) Reason.NoNote) patterns.now) }
{
    let Some(patterns) = patterns else {
        return Ok(Some(Reason::NoPattern));
    };
    let found = inbox.find(patterns)?;
    Ok(unless(found.is_some(), Reason::NoNote))
}

/// Checks the conditions of `no-note`: its patterns exist, and no note of the process's own queue matches.
pub(crate) fn waits_reason(
    inbox: &Inbox,
    patterns: &Option<Patterns>,
) -> Result<Option<Reason>, NoMemory>
    ensures { IfOk result (λ reason. reason ≡ with_patterns
        (λ patterns. waits_reason (oldest_match patterns inbox.now.held)) patterns.now) }
{
    let Some(patterns) = patterns else {
        return Ok(Some(Reason::NoPattern));
    };
    match inbox.find(patterns)? {
        Some(found) => Ok(Some(Reason::NoteWaits(found.place))),
        None => Ok(None),
    }
}

/// Checks the conditions of `create`: its values exist, another process may live, the arguments have the types of the parameters, and the
/// variable takes the number of the new process.
pub(crate) fn create_reason<W>(
    sight: &Sight<W>,
    creator: u32,
    process: u32,
    slot: u32,
    sent: &Option<Terms>,
) -> Option<Reason>
    ensures { result
        ≡ with_terms (create_reason (scene_seen sight.now) creator process slot) sent.now }
{
    let Some(actuals) = sent else {
        return Some(Reason::NoValue);
    };
    if sight.standings.len() >= MOST_ALIVE {
        return Some(Reason::TooMany);
    }
    created_reason(sight, creator, process, slot, actuals)
}

/// Checks the conditions of `create` on its arguments and its variable.
fn created_reason<W>(
    sight: &Sight<W>,
    creator: u32,
    process: u32,
    slot: u32,
    actuals: &Terms,
) -> Option<Reason>
    ensures { result ≡ created_reason (scene_seen sight.now) creator process slot actuals.now }
{
    let bodies = sight.program.bodies.as_slice();
    if !fits_formals(bodies, process, actuals.as_slice()) {
        return Some(Reason::WrongActuals);
    }
    let number = Term::Int(i64::from(sight.next_number));
    unless(fits_slot(bodies, creator, slot, &number), Reason::NoNumber)
}

/// Checks the conditions of `subscribe` and `unsubscribe`: the patterns exist.
pub(crate) fn pattern_reason(patterns: &Option<Patterns>) -> Option<Reason>
    ensures { result ≡ with_patterns (λ patterns. None) patterns.now }
{
    match patterns {
        Some(_) => None,
        None => Some(Reason::NoPattern),
    }
}

/// Checks the conditions of `shutdown`: its value exists.
pub(crate) fn end_reason(sent: &Option<Terms>) -> Option<Reason>
    ensures { result ≡ with_terms end_reason sent.now }
{
    let Some(values) = sent else {
        return Some(Reason::NoValue);
    };
    match values.as_slice() {
        [_] => None,
        _ => Some(Reason::NoValue),
    }
}
