//! The check that a process can begin nothing by itself now.

ghost use Rattle.std.specs.Prelude.{◌≡◌, IfOk, is_some, not};
ghost use Rattle.tb_bus.specs.Exchanges.{exchange_for, setting_by};
ghost use Rattle.tb_notes.specs.Inboxes.{oldest_match};
ghost use Rattle.tb_search.specs.Indexed.{all_rest, own_rests, rests};

use crate::exchanging::{Speaker, exchange_for};
use crate::living::Living;
use std::alloc::Global;
use tb_body::Program;
use tb_bus::{Action, OwnAction, ToolAction};
use tb_notes::Inbox;
use tb_terms::{NoMemory, Patterns};
use tb_tools::Bench;

/// Returns whether a note in the queue matches.
#[inline(never)]
fn has_note(inbox: &Inbox, patterns: &Patterns) -> Result<bool, NoMemory>
    ensures { IfOk result (λ there. there ≡ is_some (oldest_match patterns.now inbox.now.held)) }
{
    Ok(inbox.find(patterns)?.is_some())
}

/// Returns whether an action that speaks with a tool can't happen now.
#[inline(never)]
fn is_silent(
    alloc: Global,
    program: &Program,
    bench: &Bench,
    body: u32,
    does: &ToolAction,
) -> Result<bool, NoMemory>
    ensures { IfOk result (λ silent. silent ≡ not (is_some
        (exchange_for (setting_by program.now.bodies program.now.tools bench.now body) does.now))) }
{
    let speaker = Speaker {
        program,
        bench,
        body,
    };
    Ok(exchange_for(alloc, &speaker, does)?.is_none())
}

/// Returns whether an action that a process does by itself rests: its own queue or the lanes don't permit it now. The parts that take
/// memory are separate functions: on entry, a function pays for all values that it may hold.
fn own_rests<W>(
    alloc: Global,
    program: &Program,
    bench: &Bench,
    living: &Living<W>,
    own: &OwnAction,
) -> Result<bool, NoMemory>
    ensures { IfOk result (λ rest. rest
        ≡ own_rests (setting_by program.now.bodies program.now.tools bench.now living.now.body)
        living.now.inbox.held own.now) }
{
    match own {
        OwnAction::TakeNote(patterns) => Ok(!has_note(&living.inbox, patterns)?),
        OwnAction::NoNote(patterns) => has_note(&living.inbox, patterns),
        OwnAction::Speak(does) => is_silent(alloc, program, bench, living.body, does),
        OwnAction::Tau
        | OwnAction::Set(_, _)
        | OwnAction::Print(_)
        | OwnAction::Notify(_)
        | OwnAction::Subscribe(_)
        | OwnAction::Unsubscribe(_)
        | OwnAction::Create(_, _, _)
        | OwnAction::Shutdown(_) => Ok(false),
    }
}

/// Returns whether an action rests: it is a send or a receive, or the process's own queue or the lanes don't permit it now.
fn rests<W>(
    alloc: Global,
    program: &Program,
    bench: &Bench,
    living: &Living<W>,
    action: &Action,
) -> Result<bool, NoMemory>
    ensures { IfOk result (λ rest. rest
        ≡ rests (setting_by program.now.bodies program.now.tools bench.now living.now.body)
        living.now.inbox.held action.now) }
{
    match action {
        Action::Own(own) => own_rests(alloc, program, bench, living, own),
        Action::Send(_) | Action::Receive(_) => Ok(true),
    }
}

/// Returns whether each action that a process is ready for rests: it is a send or a receive, or the process's own queue or the lanes don't
/// permit it now. Then the process may sleep until another process, a note, or a tool wakes it.
#[inline(always)]
pub fn all_rest<W>(
    alloc: Global,
    program: &Program,
    bench: &Bench,
    living: &Living<W>,
) -> Result<bool, NoMemory>
    ensures { IfOk result (λ rest. rest
        ≡ all_rest (setting_by program.now.bodies program.now.tools bench.now living.now.body)
        living.now.inbox.held living.now.ready.items) }
{
    for ready in living.ready.as_slice() {
        if !rests(alloc, program, bench, living, &ready.action)? {
            return Ok(false);
        }
    }
    Ok(true)
}
