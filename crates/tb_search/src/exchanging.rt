//! The search for an exchange: how a process may speak with a tool.

ghost use Rattle.std.specs.Prelude.{◌≡◌, ◌&&◌, true, IfOk, IsSome, option_map, option_and_then, slice_get};
ghost use Rattle.std.specs.Option.{ForSome};
ghost use Rattle.tb_terms.specs.Sizes.{is_within_limits};
ghost use Rattle.tb_log.specs.Shapes.{IsLane};
ghost use Rattle.tb_tools.specs.Lanes.{tool_at, tool_term};
ghost use Rattle.tb_tools.specs.Acts.{is_taken_at, is_live_at};
ghost use Rattle.tb_bus.specs.Slots.{fits_slot};
ghost use Rattle.tb_search.specs.Helpers.Searches.{setting_spoken};
ghost use Rattle.tb_search.specs.Helpers.Needs.{meets};
ghost use Rattle.tb_bus.specs.Exchanges.{plain_on, bound_on, starting, taking_tool, first_of_kind, lane_of, value_on, event_on, received_on, behind, exchange_for};

use crate::slots::fits_slot;
use sqlite_items::at;
use std::alloc::Global;
use tb_body::Program;
use tb_bus::{Exchange, ToolAction};
use tb_match::{Bind, match_list};
use tb_terms::{Items, Name, NoMemory, Patterns, Term, Terms, is_within_limits};
use tb_tools::{Bench, Stage};

/// A process that may speak with tools: its program, its body, and the lanes of the tools.
#[derive(Clone, Copy)]
pub struct Speaker<'a> {
    /// The program, with the body and the kinds of tools.
    pub program: &'a Program,
    /// The lanes.
    pub bench: &'a Bench,
    /// The index of the body in the program.
    pub body: u32,
}

/// Returns the exchange by which an action may happen now, or `None` if the action can't happen.
pub(crate) fn exchange_for(
    alloc: Global,
    speaker: &Speaker,
    action: &ToolAction,
) -> Result<Option<Exchange>, NoMemory>
    ensures { IfOk result (λ found. found ≡ exchange_for (setting_spoken speaker.now) action.now) }
{
    let bench = speaker.bench;
    match action {
        ToolAction::Execute(tool, slot) => execute(alloc, speaker, *tool, *slot),
        ToolAction::Connect(tool, slot) => {
            first_of_kind(alloc, speaker, Stage::Waiting, *tool, *slot)
        }
        ToolAction::DisconnectAny(tool, slot) => {
            first_of_kind(alloc, speaker, Stage::Leaving, *tool, *slot)
        }
        ToolAction::Disconnect(terms) => Ok(plain_on(alloc, lane_of(bench, terms, Need::Leaving))),
        ToolAction::Eval(terms) => Ok(plain_on(alloc, lane_of(bench, terms, Need::Idle))),
        ToolAction::TakeValue(terms, patterns) => value_of(alloc, bench, terms, patterns),
        ToolAction::Do(terms) => Ok(plain_on(alloc, lane_of(bench, terms, Need::Idle))),
        ToolAction::TakeEvent(terms, patterns) => event_of(bench, terms, patterns),
        ToolAction::Acknowledge(terms) => received_of(alloc, bench, terms),
        ToolAction::Terminate(terms) => Ok(plain_on(alloc, lane_of(bench, terms, Need::Live))),
    }
}

/// Returns the lane of the tool that is the first of these terms, in whatever state the tool is.
fn tool_lane(bench: &Bench, terms: &Terms) -> Option<u8>
    ensures lane { result ≡ lane_of (λ lane state. true) bench.now terms.now }
    ensures within { ForSome result IsLane }
{
    match terms.as_slice() {
        [] => None,
        [tool, ..] => bench.find_tool(tool),
    }
}

/// The state of a tool that an action needs.
#[derive(Clone, Copy)]
enum Need {
    Leaving,
    /// Live, with no evaluation open.
    Idle,
    /// Live or leaving.
    Taken,
    Live,
}

/// Returns whether the tool of a lane meets the need.
fn meets(bench: &Bench, lane: u8, need: Need) -> bool
    requires { IsLane lane }
    ensures { result ≡ meets need lane bench.now }
{
    match need {
        Need::Leaving => bench.can_leave(lane),
        Need::Idle => bench.can_eval(lane),
        Need::Taken => bench.is_taken(lane),
        Need::Live => bench.is_live(lane),
    }
}

/// Returns the lane of the tool that is the first of these terms, if the tool meets the need.
fn lane_of(bench: &Bench, terms: &Terms, need: Need) -> Option<u8>
    ensures lane { result ≡ lane_of (meets need) bench.now terms.now }
    ensures within { ForSome result IsLane }
{
    let lane = tool_lane(bench, terms)?;
    if meets(bench, lane, need) {
        Some(lane)
    } else {
        None
    }
}

/// Returns the exchange on a lane without binds, or `None` if there is no lane.
fn plain_on(alloc: Global, lane: Option<u8>) -> Option<Exchange>
    ensures { result ≡ option_map plain_on lane }
{
    match lane {
        Some(lane) => Some(Exchange {
            lane,
            event: 0,
            binds: Items::new(alloc),
        }),
        None => None,
    }
}

/// Returns the exchange that takes the value of a tool. The tool is live or leaving, and its value has come and matches.
fn value_of(
    alloc: Global,
    bench: &Bench,
    terms: &Terms,
    patterns: &Patterns,
) -> Result<Option<Exchange>, NoMemory>
    ensures { IfOk result (λ found. found ≡ option_and_then (value_on patterns.now bench.now)
        (lane_of is_taken_at bench.now terms.now)) }
{
    match lane_of(bench, terms, Need::Taken) {
        Some(lane) => value_on(alloc, bench, lane, patterns),
        None => Ok(None),
    }
}

fn value_on(
    alloc: Global,
    bench: &Bench,
    lane: u8,
    patterns: &Patterns,
) -> Result<Option<Exchange>, NoMemory>
    requires { IsLane lane }
    ensures { IfOk result (λ found. found ≡ value_on patterns.now bench.now lane) }
{
    match bench.answer(lane) {
        Some(value) => {
            let values = Items::from_vec(vec![in alloc; value.copy(alloc)?]?);
            match match_list(alloc, patterns, &values)? {
                Some(binds) => Ok(Some(Exchange {
                    lane,
                    event: 0,
                    binds,
                })),
                None => Ok(None),
            }
        }
        None => Ok(None),
    }
}

/// Returns the exchange that takes an event of a tool that is live or leaving: the oldest waiting event that matches.
fn event_of(bench: &Bench, terms: &Terms, patterns: &Patterns) -> Result<Option<Exchange>, NoMemory>
    ensures { IfOk result (λ found. found ≡ option_and_then (event_on patterns.now bench.now)
        (lane_of is_taken_at bench.now terms.now)) }
{
    match lane_of(bench, terms, Need::Taken) {
        Some(lane) => event_on(bench, lane, patterns),
        None => Ok(None),
    }
}

fn event_on(bench: &Bench, lane: u8, patterns: &Patterns) -> Result<Option<Exchange>, NoMemory>
    requires { IsLane lane }
    ensures { IfOk result (λ found. found ≡ event_on patterns.now bench.now lane) }
{
    match bench.find_event(lane, patterns)? {
        Some(found) => Ok(Some(Exchange {
            lane,
            event: found.place,
            binds: found.binds,
        })),
        None => Ok(None),
    }
}

/// Returns the exchange that acknowledges an event of a live tool: the oldest received event with exactly the terms after the first one.
fn received_of(alloc: Global, bench: &Bench, terms: &Terms) -> Result<Option<Exchange>, NoMemory>
    ensures { IfOk result (λ found. found ≡ option_and_then
        (received_on (behind terms.now) bench.now) (lane_of is_live_at bench.now terms.now)) }
{
    match lane_of(bench, terms, Need::Live) {
        Some(lane) => {
            let event = behind(alloc, terms)?;
            Ok(received_on(alloc, bench, lane, &event))
        }
        None => Ok(None),
    }
}

fn received_on(alloc: Global, bench: &Bench, lane: u8, event: &Terms) -> Option<Exchange>
    requires { IsLane lane }
    ensures { result ≡ received_on event.now bench.now lane }
{
    match bench.find_received(lane, event) {
        Some(event) => Some(Exchange {
            lane,
            event,
            binds: Items::new(alloc),
        }),
        None => None,
    }
}

/// Copies the terms after the first one, which names the tool.
pub fn behind(alloc: Global, terms: &Terms) -> Result<Terms, NoMemory>
    ensures { IfOk result (λ event. event ≡ behind terms.now) }
{
    match terms.as_slice() {
        [] => Ok(Items::new(alloc)),
        [_, parts @ ..] => copies(alloc, parts),
    }
}

fn copies(alloc: Global, terms: &[Term]) -> Result<Terms, NoMemory>
    ensures { IfOk result (λ copies. copies ≡ terms.now) }
{
    let mut copies = Items::new(alloc);
    for term in terms {
        copies.push(term.copy(alloc)?)?;
    }
    Ok(copies)
}

/// Returns the exchange that starts a tool of a kind, if the kind has a command, a lane is free, and the slot takes the tool.
fn execute(
    alloc: Global,
    speaker: &Speaker,
    tool: u32,
    slot: u32,
) -> Result<Option<Exchange>, NoMemory>
    ensures { IfOk result (λ found. found
        ≡ exchange_for (setting_spoken speaker.now) (ToolAction.Execute tool slot)) }
{
    match at(speaker.program.tools.as_slice(), tool as usize) {
        Some(kind) => match kind.command {
            Some(_) => starting(alloc, speaker, &kind.name, slot),
            None => Ok(None),
        },
        None => Ok(None),
    }
}

/// Returns the exchange that starts the next tool on the first free lane, if there is one, and the slot takes the tool.
fn starting(
    alloc: Global,
    speaker: &Speaker,
    name: &Name,
    slot: u32,
) -> Result<Option<Exchange>, NoMemory>
    ensures { IfOk result (λ found. found ≡ starting (setting_spoken speaker.now) slot name.now) }
{
    match speaker.bench.free_lane() {
        Some(lane) => {
            let tool = next_term(alloc, speaker.bench, name)?;
            if takes(speaker, slot, &tool) {
                Ok(Some(bound_on(alloc, lane, slot, tool)?))
            } else {
                Ok(None)
            }
        }
        None => Ok(None),
    }
}

/// Returns the term that the next tool has, if its kind has this name.
pub fn next_term(alloc: Global, bench: &Bench, name: &Name) -> Result<Term, NoMemory>
    ensures { IfOk result (λ tool. tool ≡ tool_term name.now bench.now.next_tool) }
{
    let number = Term::Int(i64::from(bench.next_tool()));
    let parts = Items::from_vec(vec![in alloc; number]?);
    Ok(Term::Appl(name.share()?, parts))
}

/// Returns the exchange with a tool of a kind at a stage: the tool with the smallest number, if the slot takes it.
fn first_of_kind(
    alloc: Global,
    speaker: &Speaker,
    stage: Stage,
    tool: u32,
    slot: u32,
) -> Result<Option<Exchange>, NoMemory>
    ensures { IfOk result (λ found. found
        ≡ first_of_kind (setting_spoken speaker.now) stage tool slot) }
{
    match at(speaker.program.tools.as_slice(), tool as usize) {
        Some(kind) => match speaker.bench.first_at(&kind.name, stage) {
            Some(lane) => taking_tool(alloc, speaker, slot, lane),
            None => Ok(None),
        },
        None => Ok(None),
    }
}

/// Returns the exchange that binds the tool of a lane to the slot, if the slot takes the tool.
fn taking_tool(
    alloc: Global,
    speaker: &Speaker,
    slot: u32,
    lane: u8,
) -> Result<Option<Exchange>, NoMemory>
    requires lane { IsLane lane }
    requires tool { IsSome (tool_at lane speaker.now.bench.now) }
    ensures { IfOk result (λ found. found ≡ taking_tool (setting_spoken speaker.now) slot lane) }
{
    let tool = speaker.bench.tool(lane);
    if takes(speaker, slot, tool) {
        Ok(Some(bound_on(alloc, lane, slot, tool.copy(alloc)?)?))
    } else {
        Ok(None)
    }
}

/// Returns whether the term of a tool is within the limits, and the slot takes it.
fn takes(speaker: &Speaker, slot: u32, tool: &Term) -> bool
    ensures { result ≡ is_within_limits tool.now
        && fits_slot (slice_get speaker.now.program.now.bodies speaker.now.body) slot tool.now }
{
    is_within_limits(tool) && fits_slot(speaker.program.bodies.as_slice(), speaker.body, slot, tool)
}

/// Returns the exchange on a lane that binds the tool to the slot.
fn bound_on(alloc: Global, lane: u8, slot: u32, tool: Term) -> Result<Exchange, NoMemory>
    ensures { IfOk result (λ exchange. exchange ≡ bound_on slot lane tool) }
{
    let binds = Items::from_vec(vec![in alloc; Bind { slot, value: tool }]?);
    Ok(Exchange {
        lane,
        event: 0,
        binds,
    })
}
