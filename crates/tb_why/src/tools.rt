//! The reasons of atoms that speak with a tool, or set a variable to a tool. Each check returns the reason of the first condition that
//! fails, or `None` if all conditions hold. If the atom's values or patterns don't exist, the reason is `NoValue` or `NoPattern`.

ghost use Rattle.std.specs.Prelude.{◌≡◌, IfOk, IsSome, slice_get, if◌then◌else◌};
ghost use Rattle.std.specs.Option.{ForSome};
ghost use Rattle.tb_log.specs.Shapes.{IsLane};
ghost use Rattle.tb_tools.specs.Acts.{answer_at};
ghost use Rattle.tb_tools.specs.Finding.{first_at, free_lane};
ghost use Rattle.tb_tools.specs.Inputs.{has_asked};
ghost use Rattle.tb_tools.specs.Lanes.{tool_at};
ghost use Rattle.tb_search.specs.Helpers.Searches.{setting_spoken};
ghost use Rattle.tb_why.specs.Reasons.{with_patterns, with_terms};
ghost use Rattle.tb_why.specs.Tools.{answer_reason, at_stage, event_reason, execute_reason, found_reason, idle_reason, kind_reason, lane_named, lane_reason, leaving_reason, live_reason, missing, open_reason, received_reason, fits_reason, tool_reason, unless, value_reason};

use crate::reason::Reason;
use sqlite_items::at;
use std::alloc::Global;
use tb_match::match_list;
use tb_search::{Speaker, behind, fits_slot, next_term};
use tb_terms::{Items, Name, NoMemory, Patterns, Term, Terms, is_within_limits};
use tb_tools::{Bench, Stage};

/// Returns the reason, or `None` if the condition holds.
pub(crate) fn unless(holds: bool, reason: Reason) -> Option<Reason>
    ensures { result ≡ unless holds reason }
{
    if holds { None } else { Some(reason) }
}

/// Returns the lane of the tool that is the first of these terms, if a lane has it.
pub(crate) fn lane_named(bench: &Bench, terms: &Terms) -> Option<u8>
    ensures lane { result ≡ lane_named bench.now terms.now }
    ensures within { ForSome result IsLane }
    ensures tool { ForSome result (λ lane. IsSome (tool_at lane bench.now)) }
{
    match terms.as_slice() {
        [] => None,
        [tool, ..] => bench.find_tool(tool),
    }
}

/// Returns the reason that the tool of a lane is at its present stage.
fn at_stage(bench: &Bench, lane: u8) -> Reason
    requires lane { IsLane lane }
    requires tool { IsSome (tool_at lane bench.now) }
    ensures { result ≡ at_stage bench.now lane }
{
    Reason::AtStage(lane, bench.stage(lane))
}

/// Checks the conditions of `rec-disconnect` of a given tool: the tool is on a lane, and is leaving.
pub(crate) fn leaving_reason(bench: &Bench, sent: &Option<Terms>) -> Option<Reason>
    ensures { result ≡ with_terms (λ terms. tool_reason (leaving_reason bench.now)
        (lane_named bench.now terms)) sent.now }
{
    let Some(terms) = sent else {
        return Some(Reason::NoValue);
    };
    match lane_named(bench, terms) {
        Some(lane) => unless(bench.can_leave(lane), at_stage(bench, lane)),
        None => Some(Reason::NoTool),
    }
}

/// Checks the conditions of `snd-terminate`: the tool is on a lane, and is live.
pub(crate) fn live_reason(bench: &Bench, sent: &Option<Terms>) -> Option<Reason>
    ensures { result ≡ with_terms (λ terms. tool_reason (live_reason bench.now)
        (lane_named bench.now terms)) sent.now }
{
    let Some(terms) = sent else {
        return Some(Reason::NoValue);
    };
    match lane_named(bench, terms) {
        Some(lane) => unless(bench.is_live(lane), at_stage(bench, lane)),
        None => Some(Reason::NoTool),
    }
}

/// Checks the conditions of `snd-eval` and `snd-do`: the tool is on a lane, and is live, and no evaluation is open.
pub(crate) fn idle_reason(bench: &Bench, sent: &Option<Terms>) -> Option<Reason>
    ensures { result ≡ with_terms (λ terms. tool_reason (idle_reason bench.now)
        (lane_named bench.now terms)) sent.now }
{
    let Some(terms) = sent else {
        return Some(Reason::NoValue);
    };
    match lane_named(bench, terms) {
        Some(lane) => {
            if bench.is_live(lane) {
                unless(bench.can_eval(lane), open_reason(bench, lane))
            } else {
                Some(at_stage(bench, lane))
            }
        }
        None => Some(Reason::NoTool),
    }
}

/// Returns why an evaluation is open: its answer hasn't come, or no process has received the answer.
fn open_reason(bench: &Bench, lane: u8) -> Reason
    requires { IsLane lane }
    ensures { result ≡ open_reason bench.now lane }
{
    match bench.answer(lane) {
        Some(_) => Reason::AnswerWaits(lane),
        None => Reason::EvalOpen(lane),
    }
}

/// Returns the reason if nothing that matches has come: `Ended` if the tool is leaving, and `reason` otherwise.
fn missing(bench: &Bench, lane: u8, reason: Reason) -> Reason
    requires { IsLane lane }
    ensures { result ≡ missing bench.now lane reason }
{
    if bench.can_leave(lane) {
        Reason::Ended(lane)
    } else {
        reason
    }
}

/// Checks the conditions of `rec-value`: the tool is on a lane, is live or leaving, and has answered, and the answer matches.
pub(crate) fn value_reason(
    alloc: Global,
    bench: &Bench,
    sent: &Option<Terms>,
    patterns: &Option<Patterns>,
) -> Result<Option<Reason>, NoMemory>
    ensures { IfOk result (λ reason. reason ≡ with_terms (λ terms. with_patterns (λ patterns.
        tool_reason (value_reason bench.now patterns) (lane_named bench.now terms)) patterns.now)
        sent.now) }
{
    let Some(terms) = sent else {
        return Ok(Some(Reason::NoValue));
    };
    let Some(patterns) = patterns else {
        return Ok(Some(Reason::NoPattern));
    };
    match lane_named(bench, terms) {
        Some(lane) => {
            if bench.is_taken(lane) {
                answer_reason(alloc, bench, lane, patterns)
            } else {
                Ok(Some(at_stage(bench, lane)))
            }
        }
        None => Ok(Some(Reason::NoTool)),
    }
}

/// Checks the condition of `rec-value` on the answer: the tool of this lane has answered, and the answer matches.
fn answer_reason(
    alloc: Global,
    bench: &Bench,
    lane: u8,
    patterns: &Patterns,
) -> Result<Option<Reason>, NoMemory>
    requires { IsLane lane }
    ensures { IfOk result (λ reason. reason
        ≡ answer_reason bench.now patterns.now lane (answer_at lane bench.now)) }
{
    match bench.answer(lane) {
        Some(value) => {
            let values = Items::from_vec(vec![in alloc; value.copy(alloc)?]?);
            let found = match_list(alloc, patterns, &values)?;
            Ok(unless(found.is_some(), Reason::AnswerDiffers(lane)))
        }
        None => Ok(Some(missing(bench, lane, unanswered(bench, lane)))),
    }
}

/// Returns why there is no answer: the tool hasn't answered, or no evaluation is open.
fn unanswered(bench: &Bench, lane: u8) -> Reason
    requires { IsLane lane }
    ensures { result ≡ (if has_asked (tool_at lane bench.now) then Reason.NotAnswered lane
        else Reason.NotAsked lane) }
{
    if bench.asked(lane) {
        Reason::NotAnswered(lane)
    } else {
        Reason::NotAsked(lane)
    }
}

/// Checks the conditions of `rec-event`: the tool is on a lane, and is live or leaving, and a waiting event of the tool matches.
pub(crate) fn event_reason(
    bench: &Bench,
    sent: &Option<Terms>,
    patterns: &Option<Patterns>,
) -> Result<Option<Reason>, NoMemory>
    ensures { IfOk result (λ reason. reason ≡ with_terms (λ terms. with_patterns (λ patterns.
        tool_reason (event_reason bench.now patterns) (lane_named bench.now terms)) patterns.now)
        sent.now) }
{
    let Some(terms) = sent else {
        return Ok(Some(Reason::NoValue));
    };
    let Some(patterns) = patterns else {
        return Ok(Some(Reason::NoPattern));
    };
    match lane_named(bench, terms) {
        Some(lane) => {
            if bench.is_taken(lane) {
                let found = bench.find_event(lane, patterns)?;
                let reason = missing(bench, lane, Reason::NoEvent(lane));
                Ok(unless(found.is_some(), reason))
            } else {
                Ok(Some(at_stage(bench, lane)))
            }
        }
        None => Ok(Some(Reason::NoTool)),
    }
}

/// Checks the conditions of `snd-ack-event`: the tool is on a lane, and is live, and an event with exactly these terms was received.
pub(crate) fn received_reason(
    alloc: Global,
    bench: &Bench,
    sent: &Option<Terms>,
) -> Result<Option<Reason>, NoMemory>
    ensures { IfOk result (λ reason. reason ≡ with_terms (λ terms. tool_reason
        (received_reason bench.now terms) (lane_named bench.now terms)) sent.now) }
{
    let Some(terms) = sent else {
        return Ok(Some(Reason::NoValue));
    };
    match lane_named(bench, terms) {
        Some(lane) => {
            if bench.is_live(lane) {
                let event = behind(alloc, terms)?;
                let found = bench.find_received(lane, &event);
                Ok(unless(found.is_some(), Reason::NotReceived(lane)))
            } else {
                Ok(Some(at_stage(bench, lane)))
            }
        }
        None => Ok(Some(Reason::NoTool)),
    }
}

/// Checks the conditions of `execute`: the tool has a command, a lane is free, and the variable takes the new tool.
pub(crate) fn execute_reason(
    alloc: Global,
    speaker: &Speaker,
    tool: u32,
    slot: u32,
) -> Result<Option<Reason>, NoMemory>
    ensures { IfOk result (λ reason. reason ≡ execute_reason (setting_spoken speaker.now) slot
        (slice_get (setting_spoken speaker.now).kinds tool)) }
{
    match at(speaker.program.tools.as_slice(), tool as usize) {
        Some(kind) => match kind.command {
            Some(_) => lane_reason(alloc, speaker, &kind.name, slot),
            None => Ok(Some(Reason::NoCommand)),
        },
        None => Ok(Some(Reason::NoCommand)),
    }
}

/// Checks the other conditions of `execute`, if the tool has a command.
fn lane_reason(
    alloc: Global,
    speaker: &Speaker,
    name: &Name,
    slot: u32,
) -> Result<Option<Reason>, NoMemory>
    ensures { IfOk result (λ reason. reason ≡ lane_reason (setting_spoken speaker.now) slot name.now
        (free_lane speaker.now.bench.now)) }
{
    match speaker.bench.free_lane() {
        Some(_) => {
            let tool = next_term(alloc, speaker.bench, name)?;
            Ok(fits_reason(speaker, slot, &tool))
        }
        None => Ok(Some(Reason::NoLane)),
    }
}

/// Checks the conditions of `rec-connect` (stage `Waiting`), and of `rec-disconnect` for a variable (stage `Leaving`): the bus has a
/// declared tool of this kind at this stage, and the variable takes it.
pub(crate) fn kind_reason(speaker: &Speaker, stage: Stage, tool: u32, slot: u32) -> Option<Reason>
    ensures { result ≡ kind_reason (setting_spoken speaker.now) stage slot
        (slice_get (setting_spoken speaker.now).kinds tool) }
{
    match at(speaker.program.tools.as_slice(), tool as usize) {
        Some(kind) => found_reason(speaker, stage, &kind.name, slot),
        None => Some(Reason::NoneAt(stage)),
    }
}

/// Checks the same conditions for a declared tool of this name.
fn found_reason(speaker: &Speaker, stage: Stage, name: &Name, slot: u32) -> Option<Reason>
    ensures { result ≡ found_reason (setting_spoken speaker.now) stage slot
        (first_at name.now stage speaker.now.bench.now) }
{
    match speaker.bench.first_at(name, stage) {
        Some(lane) => fits_reason(speaker, slot, speaker.bench.tool(lane)),
        None => Some(Reason::NoneAt(stage)),
    }
}

/// Checks whether a slot takes a tool: the tool's term is within the limits, and has the type of the slot.
fn fits_reason(speaker: &Speaker, slot: u32, tool: &Term) -> Option<Reason>
    ensures { result ≡ fits_reason (setting_spoken speaker.now) slot tool.now }
{
    if !is_within_limits(tool) {
        return Some(Reason::ToolTooLarge);
    }
    let bodies = speaker.program.bodies.as_slice();
    unless(
        fits_slot(bodies, speaker.body, slot, tool),
        Reason::WrongTool,
    )
}
