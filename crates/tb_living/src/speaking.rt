//! The steps in which a process speaks with a tool.
ghost use Rattle.std.specs.Prelude.{◌≡◌, ◌≤◌, ◌++◌, [], IfOk, OnOk, OnErr, IsSome, IsTrue, List, min, slice_get, unwrap_or};
ghost use Rattle.std.specs.List.{list_any};
ghost use Rattle.std.specs.Str.{bytes_eq};
ghost use Rattle.std.below.core.specs.declared.int.usize.TheConstants.{MAX};
ghost use Rattle.tb_body.specs.declared.program.Tool.{Tool as ToolKind};
ghost use Rattle.tb_log.specs.Limits.{terms_size};
ghost use Rattle.tb_log.specs.Shapes.{IsLane};
ghost use Rattle.tb_tools.specs.Lanes.{most_tools};
ghost use Rattle.tb_tools.specs.Acts.{can_execute, can_take_event, can_take_value, event_at, events_at, executed, value_taken};
ghost use Rattle.tb_bus.specs.Effects.{speaking};
ghost use Rattle.tb_bus.specs.Exchanges.{behind, bench_after, kind_command, kind_name, terms_seen, values_in, values_on, with_told};
ghost use Rattle.tb_bus.specs.Traces.{declares};
ghost use Rattle.tb_living.specs.Spoken.{IsDone, CanSpeak, around};
ghost use Rattle.tb_living.specs.Helpers.Orders.{may_order, order_kind, ordered};

use crate::done::Done;
use std::alloc::Global;
use tb_body::Tool;
use tb_bus::{Exchange, ToolAction};
use tb_log::{LabelKind, ToolLine};
use tb_match::{Bind, Binds};
use tb_terms::{Items, Name, NoMemory, Term, Terms, size, total_size};
use tb_tools::Bench;

/// Executes an exchange with a tool that the search found. If out of memory, the lanes remain unchanged.
pub fn speak(
    alloc: Global,
    kinds: &[Tool],
    bench: &mut Bench,
    does: ToolAction,
    exchange: Exchange,
) -> Result<Done, NoMemory>
    requires found { CanSpeak kinds.now bench.old does exchange }
    requires tools { bench.old.next_tool ≤ most_tools }
    ensures done { IfOk result (IsDone (speaking (around kinds.now bench.old) does exchange)) }
    ensures ok { OnOk result (bench.new ≡ bench_after (around kinds.now bench.old) does exchange) }
    ensures err { OnErr result (bench.new ≡ bench.old) }
{
    let Exchange { lane, event, binds } = exchange;
    match does {
        ToolAction::Execute(tool, _) => {
            let done = bound(alloc, LabelKind::Execute, binds)?;
            execute(kinds, bench, tool, lane)?;
            Ok(done)
        }
        ToolAction::Connect(_, _) => {
            let done = bound(alloc, LabelKind::RecConnect, binds)?;
            bench.connect(lane);
            Ok(done)
        }
        ToolAction::DisconnectAny(_, _) => {
            let done = bound(alloc, LabelKind::RecDisconnect, binds)?;
            bench.leave(lane);
            Ok(done)
        }
        ToolAction::Disconnect(terms) => {
            bench.leave(lane);
            Ok(seen(LabelKind::RecDisconnect, terms, binds))
        }
        ToolAction::Eval(terms) => tell(alloc, bench, lane, Order::Eval, terms, binds),
        ToolAction::TakeValue(terms, _) => {
            let shown = with_value(terms, bench, lane)?;
            Ok(seen(LabelKind::RecValue, shown, binds))
        }
        ToolAction::Do(terms) => tell(alloc, bench, lane, Order::Do, terms, binds),
        ToolAction::TakeEvent(terms, _) => {
            let shown = with_event(alloc, terms, bench, lane, event)?;
            bench.event(lane, event)?;
            Ok(seen(LabelKind::RecEvent, shown, binds))
        }
        ToolAction::Acknowledge(terms) => {
            bench.ack(lane, event)?;
            Ok(seen(LabelKind::SndAckEvent, terms, binds))
        }
        ToolAction::Terminate(terms) => tell(alloc, bench, lane, Order::Terminate, terms, binds),
    }
}

/// Returns the result of a step with these parts.
fn seen(kind: LabelKind, shown: Terms, binds: Binds) -> Done
    ensures { result ≡ record { kind = kind; shown = shown; binds = binds } }
{
    Done { kind, shown, binds }
}

/// Returns the result of a step whose label shows the bound values: the identifier of the tool.
fn bound(alloc: Global, kind: LabelKind, binds: Binds) -> Result<Done, NoMemory>
    ensures { IfOk result
        (λ done. done ≡ record { kind = kind; shown = values_in binds; binds = binds }) }
{
    let mut shown = Items::new(alloc);
    for bind in binds.as_slice() {
        shown.push(bind.value.copy(alloc)?)?;
    }
    Ok(Done { kind, shown, binds })
}

/// Starts a new tool on a lane, with the command of its declared kind.
fn execute(kinds: &[Tool], bench: &mut Bench, tool: u32, lane: u8) -> Result<(), NoMemory>
    requires lane { IsLane lane }
    requires can { IsTrue (can_execute lane bench.old) }
    requires command { IsSome (kind_command (around kinds.now bench.old) tool) }
    requires tools { bench.old.next_tool ≤ most_tools }
    ensures ok { OnOk result (bench.new ≡ executed (kind_name (around kinds.now bench.old) tool)
        (unwrap_or (kind_command (around kinds.now bench.old) tool) []) lane bench.old) }
    ensures err { OnErr result (bench.new ≡ bench.old) }
{
    let kind = &kinds[tool as usize];
    match &kind.command {
        Some(command) => {
            bench.execute(lane, &kind.name, command)?;
            Ok(())
        }
        None => unreachable!(),
    }
}

/// An order to a tool, which carries a term.
#[derive(Clone, Copy)]
enum Order {
    Eval,
    Do,
    Terminate,
}

/// Returns the label kind of a step with this order.
fn order_kind(order: Order) -> LabelKind
    ensures { result ≡ order_kind order }
{
    match order {
        Order::Eval => LabelKind::SndEval,
        Order::Do => LabelKind::SndDo,
        Order::Terminate => LabelKind::SndTerminate,
    }
}

/// Gives an order with a term to the tool of a lane.
fn give_order(bench: &mut Bench, lane: u8, order: Order, term: Term) -> Result<(), NoMemory>
    requires lane { IsLane lane }
    requires can { IsTrue (may_order order lane bench.old) }
    ensures ok { OnOk result (bench.new ≡ ordered order term lane bench.old) }
    ensures err { OnErr result (bench.new ≡ bench.old) }
{
    match order {
        Order::Eval => bench.eval(lane, term),
        Order::Do => bench.do_action(lane, term),
        Order::Terminate => bench.terminate(lane, term),
    }
}

/// Gives an order with the second of these terms to the tool of a lane. The step's label shows all terms. If there is no second term,
/// the lanes remain unchanged.
fn tell(
    alloc: Global,
    bench: &mut Bench,
    lane: u8,
    order: Order,
    terms: Terms,
    binds: Binds,
) -> Result<Done, NoMemory>
    requires lane { IsLane lane }
    requires can { IsTrue (may_order order lane bench.old) }
    ensures done { IfOk result
        (λ done. done ≡ record { kind = order_kind order; shown = terms; binds = binds }) }
    ensures ok { OnOk result (bench.new ≡ with_told (ordered order) (behind terms) lane bench.old) }
    ensures err { OnErr result (bench.new ≡ bench.old) }
{
    if let Some(term) = second(alloc, &terms)? {
        give_order(bench, lane, order, term)?;
    }
    Ok(seen(order_kind(order), terms, binds))
}

/// Returns a copy of the second of these terms, if there is one.
fn second(alloc: Global, terms: &Terms) -> Result<Option<Term>, NoMemory>
    ensures { IfOk result (λ term. term ≡ slice_get (behind terms.now) 0) }
{
    match terms.get(1) {
        Some(term) => Ok(Some(term.copy(alloc)?)),
        None => Ok(None),
    }
}

/// Takes the value of the tool of a lane, and returns these terms followed by the value. If out of memory, the lane keeps the value.
fn with_value(mut terms: Terms, bench: &mut Bench, lane: u8) -> Result<Terms, NoMemory>
    requires lane { IsLane lane }
    requires can { IsTrue (can_take_value lane bench.old) }
    ensures shown { IfOk result (λ shown. shown ≡ terms ++ values_on lane bench.old) }
    ensures ok { OnOk result (bench.new ≡ value_taken lane bench.old) }
    ensures err { OnErr result (bench.new ≡ bench.old) }
{
    let last = terms.len();
    // The push of a number takes the memory for the value. Then the value replaces the number.
    terms.push(Term::Int(0))?;
    terms.set(last, bench.value(lane));
    Ok(terms)
}

/// Returns these terms followed by copies of the terms of an event on a lane. The event stays on the lane.
fn with_event(
    alloc: Global,
    mut terms: Terms,
    bench: &Bench,
    lane: u8,
    event: usize,
) -> Result<Terms, NoMemory>
    requires lane { IsLane lane }
    requires can { IsTrue (can_take_event event lane bench.now) }
    ensures { IfOk result (λ shown. shown ≡ terms ++ event_at event (events_at lane bench.now)) }
{
    if let Some(carried) = bench.events(lane).get(event) {
        for term in carried.as_slice() {
            terms.push(term.copy(alloc)?)?;
        }
    }
    Ok(terms)
}

/// Returns the total size of the terms in the label of a found exchange, at most `usize::MAX`.
pub fn seen_size(bench: &Bench, does: &ToolAction, exchange: &Exchange) -> usize
    requires { (kinds : List ToolKind) × CanSpeak kinds bench.now does.now exchange.now }
    ensures { result
        ≡ min (terms_size (terms_seen (around [] bench.now) does.now exchange.now)) MAX }
{
    match does {
        ToolAction::Execute(_, _) | ToolAction::Connect(_, _) | ToolAction::DisconnectAny(_, _) => {
            values_size(exchange.binds.as_slice())
        }
        ToolAction::Disconnect(terms)
        | ToolAction::Eval(terms)
        | ToolAction::Do(terms)
        | ToolAction::Acknowledge(terms)
        | ToolAction::Terminate(terms) => total_size(terms.as_slice()),
        ToolAction::TakeValue(terms, _) => {
            total_size(terms.as_slice()).saturating_add(answer_size(bench, exchange.lane))
        }
        ToolAction::TakeEvent(terms, _) => total_size(terms.as_slice()).saturating_add(event_size(
            bench,
            exchange.lane,
            exchange.event,
        )),
    }
}

/// Returns the total size of the values of these binds, at most `usize::MAX`.
fn values_size(binds: &[Bind]) -> usize
    ensures { result ≡ min (terms_size (values_in binds.now)) MAX }
{
    let mut total: usize = 0;
    for bind in binds {
        total = total.saturating_add(size(&bind.value));
    }
    total
}

/// Returns the size of the value that the tool of a lane has sent, or 0 if there is none.
fn answer_size(bench: &Bench, lane: u8) -> usize
    requires { IsLane lane }
    ensures { result ≡ min (terms_size (values_on lane bench.now)) MAX }
{
    match bench.answer(lane) {
        Some(value) => size(value),
        None => 0,
    }
}

/// Returns the total size of the terms of an event that waits on a lane, at most `usize::MAX`.
fn event_size(bench: &Bench, lane: u8, event: usize) -> usize
    requires lane { IsLane lane }
    requires can { IsTrue (can_take_event event lane bench.now) }
    ensures { result ≡ min (terms_size (event_at event (events_at lane bench.now))) MAX }
{
    match bench.events(lane).get(event) {
        Some(carried) => total_size(carried.as_slice()),
        None => 0,
    }
}

/// Returns whether a line is a connect request that names a declared kind of tools.
pub fn is_declared(kinds: &[Tool], line: &ToolLine) -> bool
    ensures { result ≡ declares kinds.now line.now }
{
    match line {
        ToolLine::Connect(name) => has_kind(kinds, name),
        ToolLine::Value(_) | ToolLine::Event(_) | ToolLine::Disconnect | ToolLine::Bad => false,
    }
}

/// Returns whether one of the kinds has this name.
fn has_kind(kinds: &[Tool], name: &Name) -> bool
    ensures { result ≡ list_any (λ (tool : ToolKind). bytes_eq tool.name name.now) kinds.now }
{
    for kind in kinds {
        if kind.name.as_bytes() == name.as_bytes() {
            return true;
        }
    }
    false
}
