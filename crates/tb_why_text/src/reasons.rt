//! Reasons as sentences.

use crate::near::{Wanted, put_nearest};
use crate::times::put_times;
use crate::waits::Seen;
use std::alloc::Global;
use tb_body::{Act, Atom};
use tb_log_plain::{put, put_at, put_number, put_process};
use tb_terms::{NoMemory, write_term};
use tb_tools::Stage;
use tb_why::{FormatFault, Offering, Partner, Reason};

/// The number of the last lane. The first lane has the number 1.
const LAST_LANE: u8 = 16;

/// An offered atom of a process.
#[derive(Clone, Copy)]
pub(crate) struct Place<'a> {
    pub number: u32,
    pub atom: &'a Atom,
    pub offer: &'a Offering,
}

/// Appends the sentence of a reason.
pub(crate) fn put_reason(
    alloc: Global,
    seen: &Seen,
    place: &Place,
    reason: Reason,
    into: &mut Vec<u8>,
) -> Result<(), NoMemory> {
    match reason {
        Reason::Times => put_times(alloc, seen, place.atom, place.offer, into),
        Reason::NoText(fault) => put_format(place.offer, fault, into),
        Reason::PartnerWaits(partner) => put_partner(seen, place, partner, into),
        Reason::NobodyReceives => put_nobody_receives(alloc, seen, place, into),
        Reason::NobodySends => put_nobody_sends(alloc, seen, place, into),
        Reason::QueueFull(number) => put_full(seen, number, into),
        Reason::NoteWaits(position) => put_note(position, into),
        Reason::NoneAt(stage) => put_none(stage, into),
        Reason::AtStage(lane, stage) => put_stage(lane, stage, into),
        Reason::EvalOpen(lane) => put_open(lane, into),
        Reason::AnswerWaits(lane) => put_answer_waits(lane, into),
        Reason::Ended(lane) => put_ended(lane, into),
        Reason::NotAsked(lane) => put_lane(b"no evaluation is open on lane ", lane, into),
        Reason::NotAnswered(lane) => put_lane(
            b"no answer, a line snd-value(..), has come on lane ",
            lane,
            into,
        ),
        Reason::AnswerDiffers(lane) => put_unmatched(seen, lane, into),
        Reason::NoEvent(lane) => put_lane(
            b"no event that matches, a line snd-event(..), waits on lane ",
            lane,
            into,
        ),
        Reason::NotReceived(lane) => put_lane(
            b"no event with these terms is received and not yet acknowledged on lane ",
            lane,
            into,
        ),
        _ => put(plain_reason(reason), into),
    }
}

/// Returns the sentence of a reason that needs no further data.
fn plain_reason(reason: Reason) -> &'static [u8] {
    match reason {
        Reason::Down => b"the bus has shut down",
        Reason::Never => b"it never happens",
        Reason::NoValue => b"an argument has no value, or they are together too large",
        Reason::NoPattern => b"an expression in its pattern has no value",
        Reason::WrongSort => b"the value hasn't the type of the variable",
        Reason::NoNote =>
            b"no note in its queue matches; a note that came before its subscribe isn't there",
        Reason::TooMany => b"10,000 processes are alive",
        Reason::WrongActuals => b"the values haven't the types of the parameters",
        Reason::NoNumber => b"the variable takes no number",
        Reason::NoCommand => b"the tool has no command",
        Reason::NoLane => b"no lane is free",
        Reason::ToolTooLarge => b"the term of the tool is too large",
        Reason::WrongTool => b"the variable doesn't take the tool",
        Reason::NoTool => b"no lane has this tool",
        _ => b"it can't happen",
    }
}

/// Appends the sentence about another process whose message matches, but whose times don't hold.
fn put_partner(
    seen: &Seen,
    place: &Place,
    partner: Partner,
    into: &mut Vec<u8>,
) -> Result<(), NoMemory> {
    let Partner {
        process,
        body,
        atom,
    } = partner;
    put_at(seen.names, process, body, atom, into)?;
    match place.atom.act {
        Act::SndMsg(_) => put(
            b" receives it, but its times don't hold (see its own line)",
            into,
        ),
        _ => put(
            b" sends what matches, but its times don't hold (see its own line)",
            into,
        ),
    }
}

fn put_nobody_receives(
    alloc: Global,
    seen: &Seen,
    place: &Place,
    into: &mut Vec<u8>,
) -> Result<(), NoMemory> {
    put(b"no other process receives it", into)?;
    match &place.offer.sent {
        Some(terms) => put_nearest(alloc, seen, place.number, Wanted::Receive(terms), into),
        None => Ok(()),
    }
}

fn put_nobody_sends(
    alloc: Global,
    seen: &Seen,
    place: &Place,
    into: &mut Vec<u8>,
) -> Result<(), NoMemory> {
    put(b"no other process sends what matches", into)?;
    match &place.offer.patterns {
        Some(patterns) => put_nearest(alloc, seen, place.number, Wanted::Send(patterns), into),
        None => Ok(()),
    }
}

/// Appends the sentence about an answer on a lane that doesn't match, with the answer. After a shutdown the answer is still there, since
/// no process takes it.
fn put_unmatched(seen: &Seen, lane: u8, into: &mut Vec<u8>) -> Result<(), NoMemory> {
    put_lane(
        b"an answer that doesn't match has come on lane ",
        lane,
        into,
    )?;
    if lane < 1 || lane > LAST_LANE {
        return Ok(());
    }
    match seen.bench.answer(lane) {
        Some(answer) => {
            put(b": ", into)?;
            write_term(answer, into)
        }
        None => Ok(()),
    }
}

fn put_open(lane: u8, into: &mut Vec<u8>) -> Result<(), NoMemory> {
    put_lane(b"an evaluation is open on lane ", lane, into)?;
    put(b"; rec-value closes it", into)
}

fn put_answer_waits(lane: u8, into: &mut Vec<u8>) -> Result<(), NoMemory> {
    put_lane(
        b"an evaluation is open until rec-value takes the answer that has come on lane ",
        lane,
        into,
    )
}

fn put_ended(lane: u8, into: &mut Vec<u8>) -> Result<(), NoMemory> {
    put_lane(b"the tool of lane ", lane, into)?;
    put(b" is leaving, and nothing that matches is left of it", into)
}

/// Appends a sentence that ends with the number of a lane.
fn put_lane(sentence: &[u8], lane: u8, into: &mut Vec<u8>) -> Result<(), NoMemory> {
    put(sentence, into)?;
    put_number(u64::from(lane), into)
}

/// Appends the sentence about a note that matches. `position` is its place in the queue, from 0.
fn put_note(position: usize, into: &mut Vec<u8>) -> Result<(), NoMemory> {
    put(b"note ", into)?;
    put_number((position as u64).saturating_add(1), into)?;
    put(b" of its queue matches", into)
}

/// Appends the sentence about the full queue of this process.
fn put_full(seen: &Seen, number: u32, into: &mut Vec<u8>) -> Result<(), NoMemory> {
    put(b"the queue of ", into)?;
    for other in seen.standings {
        if other.number == number {
            put_process(seen.names, number, other.body, into)?;
        }
    }
    put(b" is full", into)
}

fn put_none(stage: Stage, into: &mut Vec<u8>) -> Result<(), NoMemory> {
    match stage {
        Stage::Waiting => put(b"no tool of this name waits for rec-connect", into),
        Stage::Live => put(b"no tool of this name is live", into),
        Stage::Leaving => put(b"no tool of this name is leaving", into),
    }
}

fn put_stage(lane: u8, stage: Stage, into: &mut Vec<u8>) -> Result<(), NoMemory> {
    put_lane(b"the tool of lane ", lane, into)?;
    match stage {
        Stage::Waiting => put(b" waits for rec-connect", into),
        Stage::Live => put(b" isn't leaving", into),
        Stage::Leaving => put(b" is leaving", into),
    }
}

/// Appends the sentence that says why `printf` has no text.
fn put_format(offer: &Offering, fault: FormatFault, into: &mut Vec<u8>) -> Result<(), NoMemory> {
    put(b"printf has no text: ", into)?;
    match fault {
        FormatFault::NoFormat => put(b"the format is no string", into),
        FormatFault::NoDirective(letter) => {
            put_letter(letter, into)?;
            put(b" is no directive", into)
        }
        FormatFault::TooFew(letter) => {
            put_letter(letter, into)?;
            put(b" has no argument", into)
        }
        FormatFault::Differs(letter, number) => put_differs(offer, letter, number, into),
        FormatFault::Ends => put(b"the format ends with %", into),
        FormatFault::TooMany(number) => {
            put(b"nothing prints argument ", into)?;
            put_number(number as u64, into)
        }
        FormatFault::TooLong => put(b"it is too long", into),
    }
}

/// Appends a `%` with the letter after it. For a byte that isn't printable ASCII, appends its number.
fn put_letter(letter: u8, into: &mut Vec<u8>) -> Result<(), NoMemory> {
    if !letter.is_ascii_graphic() {
        put(b"% before byte ", into)?;
        return put_number(u64::from(letter), into);
    }
    put(b"%", into)?;
    into.push(letter)?;
    Ok(())
}

/// Appends what a directive takes, and the argument that it is given.
fn put_differs(
    offer: &Offering,
    letter: u8,
    number: usize,
    into: &mut Vec<u8>,
) -> Result<(), NoMemory> {
    put_letter(letter, into)?;
    put(taken_by(letter), into)?;
    put(b", but is given ", into)?;
    if let Some(terms) = &offer.sent {
        if let Some(term) = terms.get(number) {
            write_term(term, into)?;
        }
    }
    put(b" (%t takes any term)", into)
}

/// Returns what the directive with this letter takes.
fn taken_by(letter: u8) -> &'static [u8] {
    match letter {
        b'd' => b" takes a number",
        b's' => b" takes a string",
        _ => b" takes another argument",
    }
}
