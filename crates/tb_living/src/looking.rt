//! The ready actions of a running process, and its advance after one of them.
ghost use Rattle.std.specs.Prelude.{◌≡◌, ◌<◌, ◌++◌, ◌∷◌, ℕ, List, [], length, slice_get, IfOk, IsTrue, OnOk, OnErr, Some, is_some, option_and_then, option_map, true, false};
ghost use Rattle.std.specs.List.{All};
ghost use Rattle.std.specs.Option.{ForSome};
ghost use Rattle.tb_func.specs.declared.slot.Slot.{Slot};
ghost use Rattle.tb_process_steps.specs.Atoms.{act_of, times_of};
ghost use Rattle.tb_process_steps.specs.Binds.{takes_binds};
ghost use Rattle.tb_process_steps.specs.Offers.{Offered};
ghost use Rattle.tb_process_steps.specs.Walks.{fired, is_end, offers_of, seen, seen_offers, sorts_of};
ghost use Rattle.tb_func.specs.Printing.{printf_of};
ghost use Rattle.tb_bus.specs.Actions.{action_in, action_of, create_action, print_action, set_action, shutdown_action, speak_about};
ghost use Rattle.tb_search.specs.Candidates.{ascend, ready_one, readies, rows_of};
ghost use Rattle.tb_living.specs.Helpers.Parts.{message_by};
ghost use Rattle.tb_living.specs.Lives.{IsFreshFor, IsLiveOn, IsTimeless, IsWhere, proc_by};

use crate::buffers::Buffers;
use std::alloc::Global;
use tb_body::{Act, Atom, Body};
use tb_bus::{Action, OwnAction, ToolAction};
use tb_func::printf_text;
use tb_match::{Bind, Binds};
use tb_process_steps::{Offer, Walker};
use tb_search::{Apart, Living, Ready, has_slot_sort};
use tb_terms::{Items, NoMemory, Patterns, Sorts, Terms};

/// Returns the action that sets a slot. Returns `None` unless there is exactly one value, and it has the slot's type.
fn set_action(
    alloc: Global,
    sorts: &Sorts,
    slot: u32,
    values: Option<Terms>,
) -> Result<Option<Action>, NoMemory>
    ensures { (store : List Slot) → sorts_of store ≡ sorts.now
        → IfOk result (λ action. action ≡ option_and_then (set_action store slot) values) }
{
    let Some(values) = values else {
        return Ok(None);
    };
    if values.len() != 1 {
        return Ok(None);
    }
    let value = &values.as_slice()[0];
    if !has_slot_sort(sorts.as_slice(), slot, value) {
        return Ok(None);
    }
    let value = value.copy(alloc)?;
    let mut binds = Items::new(alloc);
    binds.push(Bind { slot, value })?;
    Ok(Some(Action::Own(OwnAction::Set(values, binds))))
}

/// Returns the action that prints the text of a format with its values, or `None` if there is no such text.
fn print_action(alloc: Global, values: Option<Terms>) -> Result<Option<Action>, NoMemory>
    ensures { IfOk result
        (λ action. action ≡ option_map print_action (option_and_then printf_of values)) }
{
    let Some(values) = values else {
        return Ok(None);
    };
    match printf_text(alloc, &values)? {
        Some(text) => Ok(Some(Action::Own(OwnAction::Print(text)))),
        None => Ok(None),
    }
}

/// Returns the action that creates a process with these arguments and binds its number to the slot, or `None` without arguments.
fn create_action(process: u32, actuals: Option<Terms>, slot: u32) -> Option<Action>
    ensures { result ≡ option_map (create_action process slot) actuals }
{
    Some(Action::Own(OwnAction::Create(process, actuals?, slot)))
}

/// Returns the action of a process that speaks with a tool.
fn speak(does: ToolAction) -> Action
    ensures { result ≡ Action.Own (OwnAction.Speak does) }
{
    Action::Own(OwnAction::Speak(does))
}

/// Returns the action that takes a tool's value, or `None` if the terms or the patterns are missing.
fn value_action(terms: Option<Terms>, patterns: Option<Patterns>) -> Option<Action>
    ensures { result ≡ option_and_then (speak_about ToolAction.TakeValue patterns) terms }
{
    Some(speak(ToolAction::TakeValue(terms?, patterns?)))
}

/// Returns the action that takes a tool's event, or `None` if the terms or the patterns are missing.
fn event_action(terms: Option<Terms>, patterns: Option<Patterns>) -> Option<Action>
    ensures { result ≡ option_and_then (speak_about ToolAction.TakeEvent patterns) terms }
{
    Some(speak(ToolAction::TakeEvent(terms?, patterns?)))
}

/// Returns the action that shuts down the bus, or `None` unless there is exactly one reason.
fn shutdown_action(reasons: Option<Terms>) -> Option<Action>
    ensures { result ≡ option_and_then shutdown_action reasons }
{
    let mut reasons = reasons?;
    let reason = reasons.pop()?;
    if reasons.is_empty() {
        Some(Action::Own(OwnAction::Shutdown(reason)))
    } else {
        None
    }
}

/// Appends an action to the ready actions.
fn push(offer: usize, atom: u32, action: Action, ready: &mut Vec<Ready>) -> Result<(), NoMemory>
    ensures { OnOk result (ready.new.items
        ≡ ready.old.items ++ record { offer = offer; atom = atom; action = action } ∷ []) }
{
    ready.push(Ready {
        offer,
        atom,
        action,
    })?;
    Ok(())
}

/// Returns the action of offer `k`, whose atom does `act`, or `None` if the atom has no action in the offered store.
#[inline(never)]
fn action_in<W: Walker>(
    alloc: Global,
    plan: &W::Plan,
    body: &Body,
    walker: &W,
    k: usize,
    act: &Act,
) -> Result<Option<Action>, NoMemory>
    requires on { W.view.is_on plan.now walker.now }
    requires fresh { IsTrue (is_some (W.view.seen walker.now)) }
    requires within { ForSome (W.view.seen walker.now) (λ offers. k < length offers) }
    requires body { W.view.body_of plan.now ≡ body.now }
    ensures { (offered : Offered)
        → slice_get (offers_of (W.view.walking plan.now walker.now)) k ≡ Some offered
        → act_of body.now.atoms offered.atom ≡ act.now → sorts_of offered.store ≡ body.now.sorts
        → IfOk result (λ action. action ≡ action_in offered.store act.now) }
{
    let sent = || walker.sent(alloc, plan, k, None);
    let patterns = || walker.patterns(alloc, plan, k, None);
    match act {
        Act::Delta => Ok(None),
        Act::Tau => Ok(Some(Action::Own(OwnAction::Tau))),
        Act::Set { slot, .. } => set_action(alloc, &body.sorts, *slot, sent()?),
        Act::Printf(_) => print_action(alloc, sent()?),
        Act::Create { process, slot, .. } => Ok(create_action(*process, sent()?, *slot)),
        Act::SndMsg(_) => Ok(sent()?.map(Action::Send)),
        Act::RecMsg(_) => Ok(patterns()?.map(Action::Receive)),
        Act::SndNote(_) => Ok(sent()?.map(OwnAction::Notify).map(Action::Own)),
        Act::RecNote(_) => Ok(patterns()?.map(OwnAction::TakeNote).map(Action::Own)),
        Act::NoNote(_) => Ok(patterns()?.map(OwnAction::NoNote).map(Action::Own)),
        Act::Subscribe(_) => Ok(patterns()?.map(OwnAction::Subscribe).map(Action::Own)),
        Act::Unsubscribe(_) => Ok(patterns()?.map(OwnAction::Unsubscribe).map(Action::Own)),
        &Act::Execute { tool, slot } => Ok(Some(speak(ToolAction::Execute(tool, slot)))),
        &Act::RecConnect { tool, slot } => Ok(Some(speak(ToolAction::Connect(tool, slot)))),
        &Act::RecDisconnectAny { tool, slot } => {
            Ok(Some(speak(ToolAction::DisconnectAny(tool, slot))))
        }
        Act::RecDisconnect(_) => Ok(sent()?.map(ToolAction::Disconnect).map(speak)),
        Act::SndEval(_, _) => Ok(sent()?.map(ToolAction::Eval).map(speak)),
        Act::RecValue(_, _) => Ok(value_action(sent()?, patterns()?)),
        Act::SndDo(_, _) => Ok(sent()?.map(ToolAction::Do).map(speak)),
        Act::RecEvent(_, _) => Ok(event_action(sent()?, patterns()?)),
        Act::SndAckEvent(_, _) => Ok(sent()?.map(ToolAction::Acknowledge).map(speak)),
        Act::SndTerminate(_, _) => Ok(sent()?.map(ToolAction::Terminate).map(speak)),
        Act::Shutdown(_) => Ok(shutdown_action(sent()?)),
    }
}

/// The side of an offered atom in a handshake.
#[derive(Clone, Copy)]
enum Part {
    Sends,
    Receives,
}

/// Appends the message of offer `k` to the ready actions, if its terms or patterns have values. This function and those below write the
/// message in place. A function that only passes the message on would cost as much as the function that finds it.
#[inline(always)]
fn push_message<W: Walker>(
    alloc: Global,
    plan: &W::Plan,
    walker: &W,
    k: usize,
    atom: u32,
    part: Part,
    buffers: &mut Buffers,
    ready: &mut Vec<Ready>,
) -> Result<(), NoMemory>
    requires on { W.view.is_on plan.now walker.now }
    requires fresh { IsTrue (is_some (W.view.seen walker.now)) }
    requires within { ForSome (W.view.seen walker.now) (λ offers. k < length offers) }
    ensures { (offered : Offered)
        → slice_get (offers_of (W.view.walking plan.now walker.now)) k ≡ Some offered
        → offered.atom ≡ atom
        → OnOk result (ready.new.items ≡ ready.old.items ++ ready_one k offered
        (message_by part (W.view.body_of plan.now).atoms offered)) }
{
    match part {
        Part::Sends => match walker.sent(alloc, plan, k, buffers.terms.pop())? {
            Some(terms) => {
                push(k, atom, Action::Send(terms), ready)?;
                Ok(())
            }
            None => Ok(()),
        },
        Part::Receives => match walker.patterns(alloc, plan, k, buffers.patterns.pop())? {
            Some(patterns) => {
                push(k, atom, Action::Receive(patterns), ready)?;
                Ok(())
            }
            None => Ok(()),
        },
    }
}

/// Appends the action of offer `k` to the ready actions, if the offer has one, whatever its atom is.
#[inline(never)]
fn push_any<W: Walker>(
    alloc: Global,
    plan: &W::Plan,
    body: &Body,
    walker: &W,
    k: usize,
    atom: &Atom,
    number: u32,
    ready: &mut Vec<Ready>,
) -> Result<(), NoMemory>
    requires on { W.view.is_on plan.now walker.now }
    requires fresh { IsTrue (is_some (W.view.seen walker.now)) }
    requires within { ForSome (W.view.seen walker.now) (λ offers. k < length offers) }
    requires body { W.view.body_of plan.now ≡ body.now }
    ensures { (offered : Offered)
        → slice_get (offers_of (W.view.walking plan.now walker.now)) k ≡ Some offered
        → offered.atom ≡ number → act_of body.now.atoms offered.atom ≡ atom.now.act
        → sorts_of offered.store ≡ body.now.sorts
        → OnOk result (ready.new.items
        ≡ ready.old.items ++ ready_one k offered (action_in offered.store atom.now.act)) }
{
    match action_in(alloc, plan, body, walker, k, &atom.act)? {
        Some(action) => {
            push(k, number, action, ready)?;
            Ok(())
        }
        None => Ok(()),
    }
}

/// Appends the action of offer `k` to the ready actions, if the offer has one. The times of its atom hold.
fn push_action<W: Walker>(
    alloc: Global,
    plan: &W::Plan,
    body: &Body,
    walker: &W,
    k: usize,
    atom: &Atom,
    number: u32,
    buffers: &mut Buffers,
    ready: &mut Vec<Ready>,
) -> Result<(), NoMemory>
    requires on { W.view.is_on plan.now walker.now }
    requires fresh { IsTrue (is_some (W.view.seen walker.now)) }
    requires within { ForSome (W.view.seen walker.now) (λ offers. k < length offers) }
    requires body { W.view.body_of plan.now ≡ body.now }
    ensures { (offered : Offered)
        → slice_get (offers_of (W.view.walking plan.now walker.now)) k ≡ Some offered
        → offered.atom ≡ number → act_of body.now.atoms offered.atom ≡ atom.now.act
        → sorts_of offered.store ≡ body.now.sorts
        → OnOk result (ready.new.items
        ≡ ready.old.items ++ ready_one k offered (action_in offered.store atom.now.act)) }
{
    match &atom.act {
        Act::Delta => Ok(()),
        Act::Tau => push(k, number, Action::Own(OwnAction::Tau), ready),
        Act::SndMsg(_) => {
            push_message(alloc, plan, walker, k, number, Part::Sends, buffers, ready)
        }
        Act::RecMsg(_) => {
            push_message(
                alloc,
                plan,
                walker,
                k,
                number,
                Part::Receives,
                buffers,
                ready,
            )
        }
        _ => push_any(alloc, plan, body, walker, k, atom, number, ready),
    }
}

/// Returns whether an atom has times, or `before` is true: an earlier atom has times.
fn any_times(before: bool, atom: &Atom) -> bool
    ensures { result ≡ false → (before ≡ false) × (atom.now.times ≡ []) }
{
    if before {
        return true;
    }
    !atom.times.is_empty()
}

/// Appends the action of offer `k` to the ready actions, if its times hold and it has one. Returns whether its atom or an earlier
/// atom (`before`) has times.
fn push_ready<W: Walker>(
    alloc: Global,
    plan: &W::Plan,
    body: &Body,
    walker: &W,
    k: usize,
    offer: Offer,
    before: bool,
    buffers: &mut Buffers,
    ready: &mut Vec<Ready>,
) -> Result<bool, NoMemory>
    requires on { W.view.is_on plan.now walker.now }
    requires fresh { IsTrue (is_some (W.view.seen walker.now)) }
    requires within { ForSome (W.view.seen walker.now) (λ offers. k < length offers) }
    requires body { W.view.body_of plan.now ≡ body.now }
    ensures ready { (now : ℕ) (offered : Offered)
        → slice_get (offers_of (W.view.walking plan.now walker.now)) k ≡ Some offered
        → offer ≡ seen body.now.atoms now offered → sorts_of offered.store ≡ body.now.sorts
        → OnOk result (ready.new.items
        ≡ ready.old.items ++ ready_one k offered (action_of body.now.atoms now offered)) }
    ensures timed { IfOk result
        (λ timed. timed ≡ false → (before ≡ false) × (times_of body.now.atoms offer.atom ≡ [])) }
{
    let place = (offer.atom as usize).saturating_sub(1);
    let Some(atom) = body.atoms.get(place) else {
        return Ok(before);
    };
    if !offer.ready {
        return Ok(any_times(before, atom));
    }
    push_action(
        alloc, plan, body, walker, k, atom, offer.atom, buffers, ready,
    )?;
    Ok(any_times(before, atom))
}

/// Drops the old ready actions of a process, and keeps their lists for later messages.
fn retire(ready: &mut Vec<Ready>, buffers: &mut Buffers)
    ensures { ready.new.items ≡ [] }
{
    while let Some(one) = ready.pop() {
        buffers.keep(one.action);
    }
}

/// Computes the ready actions of a walker that was looked at, in the order of its offers. Returns whether an offered atom has times.
fn fill<W: Walker>(
    alloc: Global,
    plan: &W::Plan,
    body: &Body,
    walker: &W,
    buffers: &mut Buffers,
    ready: &mut Vec<Ready>,
) -> Result<bool, NoMemory>
    requires on { W.view.is_on plan.now walker.now }
    requires fresh { IsTrue (is_some (W.view.seen walker.now)) }
    requires body { W.view.body_of plan.now ≡ body.now }
    requires sorts { sorts_of (W.view.walking plan.now walker.now).store ≡ body.now.sorts }
    ensures ready { (now : ℕ) → W.view.seen walker.now
        ≡ Some (seen_offers body.now.atoms now (W.view.walking plan.now walker.now))
        → OnOk result (ready.new.items
        ≡ readies body.now.atoms now 0 (offers_of (W.view.walking plan.now walker.now))) }
    ensures timed { (now : ℕ) → W.view.seen walker.now
        ≡ Some (seen_offers body.now.atoms now (W.view.walking plan.now walker.now))
        → IfOk result (λ timed. timed ≡ false
        → All (IsTimeless body.now.atoms) (offers_of (W.view.walking plan.now walker.now))) }
{
    retire(ready, buffers);
    let mut timed = false;
    for at in 0..walker.offer_count() {
        let offer = walker.offer(at);
        timed = push_ready(alloc, plan, body, walker, at, offer, timed, buffers, ready)?;
    }
    Ok(timed)
}

/// Returns the number of processes whose numbers are smaller. First tries the place that is right if no process between the first
/// process and the searched one has ended. This is the usual case.
pub fn point_of<W>(all: &[Apart<Living<W>>], number: u32) -> usize
    requires { IsTrue (ascend 0 (rows_of all.now)) }
    ensures { IsWhere number all.now result }
{
    if all.is_empty() {
        return 0;
    }
    let guess = number.saturating_sub(all[0].get().number) as usize;
    if guess < all.len() && all[guess].get().number == number {
        return guess;
    }
    all.partition_point(|living| living.get().number < number)
}

/// Computes the ready actions of a process again, on a bus that has seen `now` ticks. The process isn't fresh until `update` enters
/// these actions in the index.
pub fn look<W: Walker>(
    alloc: Global,
    plan: &W::Plan,
    body: &Body,
    living: &mut Living<W>,
    now: u64,
    buffers: &mut Buffers,
) -> Result<(), NoMemory>
    requires body { W.view.body_of plan.now ≡ body.now }
    requires live { IsLiveOn W.view plan.now now living.old }
    ensures live { IsLiveOn W.view plan.now now living.new }
    ensures same { proc_by W.view (Some plan.now) living.new
        ≡ proc_by W.view (Some plan.now) living.old }
    ensures looked { OnOk result (IsFreshFor (W.view.body_of plan.now) now
        (W.view.walking plan.now living.new.walker) living.new.timed living.new.ready.items) }
    ensures stale { living.new.fresh ≡ false }
    ensures marks { living.new.marks ≡ living.old.marks }
{
    living.fresh = false;
    living.walker.look(alloc, plan, now)?;
    living.timed = fill(
        alloc,
        plan,
        body,
        &living.walker,
        buffers,
        &mut living.ready,
    )?;
    Ok(())
}

/// Advances a process after the offer that was taken from its walker, with these binds. Returns whether the process has ended.
pub fn go_on<W: Walker>(
    plan: &W::Plan,
    living: &mut Living<W>,
    taken: W::Taken,
    binds: &mut Binds,
) -> bool
    requires on { W.view.is_on plan.now living.old.walker }
    requires taken { (offered : Offered) × W.view.leaves plan.now living.old.walker taken offered
        × IsTrue (takes_binds offered.store binds.old) }
    ensures on { W.view.is_on plan.now living.new.walker }
    ensures advanced { (offered : Offered) → W.view.leaves plan.now living.old.walker taken offered
        → W.view.walking plan.now living.new.walker
        ≡ fired binds.old (W.view.walking plan.now living.old.walker).ticks offered }
    ensures ended { result ≡ is_end (W.view.walking plan.now living.new.walker).term }
    ensures number { living.new.number ≡ living.old.number }
    ensures body { living.new.body ≡ living.old.body }
    ensures inbox { living.new.inbox ≡ living.old.inbox }
    ensures stale { living.new.fresh ≡ false }
    ensures marks { living.new.marks ≡ living.old.marks }
{
    living.fresh = false;
    living.walker.advance(plan, taken, binds);
    living.walker.is_done()
}
