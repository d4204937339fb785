//! Compares the parts of a found move with a label: its kind, its places, its terms. Copies nothing.

ghost use Rattle.std.specs.Prelude.{◌≡◌, ◌↔◌, ◌∷◌, ◌++◌, ℕ, [], List, IfSome, IsTrue, Some, length};
ghost use Rattle.std.specs.Option.{option_copied};
ghost use Rattle.tb_terms.specs.declared.term.Term.{Term as SeenTerm};
ghost use Rattle.tb_body.specs.declared.program.Tool.{Tool as ToolKind};
ghost use Rattle.tb_log.specs.Shapes.{IsLane};
ghost use Rattle.tb_notes.specs.Inboxes.{Held};
ghost use Rattle.tb_tools.specs.Acts.{can_take_event, event_at, events_at};
ghost use Rattle.tb_bus.specs.Exchanges.{Setting, kind_of, terms_seen, values_in, values_on};
ghost use Rattle.tb_search.specs.FoundEffects.{effect_by};
ghost use Rattle.tb_search.specs.declared.candidate.Finding.{Finding};
ghost use Rattle.tb_living.specs.Spoken.{CanSpeak, around};
ghost use Rattle.tb_core.specs.Helpers.Makings.{is_end};

use tb_bus::{Exchange, OwnAction, ToolAction};
use tb_log::{LabelKind, Out, Place, Reply};
use tb_match::Bind;
use tb_terms::{Term, same, same_all};
use tb_tools::Bench;

/// Returns whether this term is the only one in a list.
pub fn is_alone(term: &Term, terms: &[Term]) -> bool
    ensures { IsTrue result ↔ (term.now ∷ [] ≡ terms.now) }
{
    match terms {
        [one] => same(term, one),
        _ => false,
    }
}

/// Returns whether a step of this kind ends the bus without any process.
pub fn is_end(kind: LabelKind) -> bool
    ensures { result ≡ is_end kind }
{
    matches!(kind, LabelKind::Finish | LabelKind::Halt)
}

/// Returns whether two label kinds are the same.
pub fn same_kind(a: LabelKind, b: LabelKind) -> bool
    ensures { IsTrue result ↔ (a ≡ b) }
{
    a == b
}

/// Returns whether two replies are the same.
pub fn same_reply(a: Reply, b: Reply) -> bool
    ensures { IsTrue result ↔ (a ≡ b) }
{
    a == b
}

/// Returns whether two items for a lane are the same.
pub fn same_out(a: &Out, b: &Out) -> bool
    ensures { IsTrue result ↔ (a.now ≡ b.now) }
{
    match (a, b) {
        (Out::Start(one), Out::Start(other)) => one.is_same(other),
        (Out::Line(one), Out::Line(other)) => same(one, other),
        (Out::End, Out::End) => true,
        _ => false,
    }
}

/// Returns whether two places are the same.
pub fn same_place(a: Place, b: Place) -> bool
    ensures { IsTrue result ↔ (a ≡ b) }
{
    a.proc == b.proc && a.atom == b.atom
}

/// Returns the kind that a label shows for an action with a tool.
fn tool_kind(does: &ToolAction) -> LabelKind
    ensures { result ≡ kind_of does.now }
{
    match does {
        ToolAction::Execute(_, _) => LabelKind::Execute,
        ToolAction::Connect(_, _) => LabelKind::RecConnect,
        ToolAction::DisconnectAny(_, _) | ToolAction::Disconnect(_) => LabelKind::RecDisconnect,
        ToolAction::Eval(_) => LabelKind::SndEval,
        ToolAction::TakeValue(_, _) => LabelKind::RecValue,
        ToolAction::Do(_) => LabelKind::SndDo,
        ToolAction::TakeEvent(_, _) => LabelKind::RecEvent,
        ToolAction::Acknowledge(_) => LabelKind::SndAckEvent,
        ToolAction::Terminate(_) => LabelKind::SndTerminate,
    }
}

/// Returns the kind that a label shows for an own action of a process.
pub fn own_kind(own: &OwnAction) -> LabelKind
    ensures { (next : ℕ) (held : Held) (setting : Setting) (found : Finding)
        → result ≡ (effect_by next held setting own.now found).kind }
{
    match own {
        OwnAction::Tau => LabelKind::Tau,
        OwnAction::Set(_, _) => LabelKind::Set,
        OwnAction::Print(_) => LabelKind::Printf,
        OwnAction::Notify(_) => LabelKind::SndNote,
        OwnAction::TakeNote(_) => LabelKind::RecNote,
        OwnAction::NoNote(_) => LabelKind::NoNote,
        OwnAction::Subscribe(_) => LabelKind::Subscribe,
        OwnAction::Unsubscribe(_) => LabelKind::Unsubscribe,
        OwnAction::Create(_, _, _) => LabelKind::Create,
        OwnAction::Speak(does) => tool_kind(does),
        OwnAction::Shutdown(_) => LabelKind::Shutdown,
    }
}

/// Returns whether these terms are the values of the binds.
fn are_values(binds: &[Bind], terms: &[Term]) -> bool
    ensures { IsTrue result ↔ (values_in binds.now ≡ terms.now) }
{
    if binds.len() != terms.len() {
        return false;
    }
    for (position, bind) in binds.iter().enumerate() {
        if !same(&bind.value, &terms[position]) {
            return false;
        }
    }
    true
}

/// Returns whether a list has only the value that the tool of a lane has sent, or is empty if there is no value.
fn is_value(bench: &Bench, lane: u8, terms: &[Term]) -> bool
    requires { IsLane lane }
    ensures { IsTrue result ↔ (values_on lane bench.now ≡ terms.now) }
{
    match bench.answer(lane) {
        Some(value) => is_alone(value, terms),
        None => terms.is_empty(),
    }
}

/// Returns whether these are the terms of a waiting event of a lane.
fn is_event(bench: &Bench, lane: u8, event: usize, terms: &[Term]) -> bool
    requires lane { IsLane lane }
    requires can { IsTrue (can_take_event event lane bench.now) }
    ensures { IsTrue result ↔ (event_at event (events_at lane bench.now) ≡ terms.now) }
{
    match bench.events(lane).get(event) {
        Some(carried) => same_all(carried.as_slice(), terms),
        None => terms.is_empty(),
    }
}

/// Returns the rest of a list after these terms, if the list begins with these terms.
fn behind_front<'a>(front: &[Term], terms: &'a [Term]) -> Option<&'a [Term]>
    ensures parts { IfSome result (λ rest. front.now ++ rest.now ≡ terms.now) }
    ensures only { (rest : List SeenTerm) → front.now ++ rest ≡ terms.now
        → option_copied result ≡ Some rest }
{
    if terms.len() < front.len() {
        return None;
    }
    let (first, rest) = terms.split_at(front.len());
    if same_all(front, first) {
        Some(rest)
    } else {
        None
    }
}

/// Returns whether a label shows these terms for an exchange with a tool.
pub fn shows_exchange(bench: &Bench, does: &ToolAction, exchange: &Exchange, terms: &[Term]) -> bool
    requires { (kinds : List ToolKind) × CanSpeak kinds bench.now does.now exchange.now }
    ensures { IsTrue result
        ↔ (terms_seen (around [] bench.now) does.now exchange.now ≡ terms.now) }
{
    match does {
        ToolAction::Execute(_, _) | ToolAction::Connect(_, _) | ToolAction::DisconnectAny(_, _) => {
            are_values(exchange.binds.as_slice(), terms)
        }
        ToolAction::Disconnect(shown)
        | ToolAction::Eval(shown)
        | ToolAction::Do(shown)
        | ToolAction::Acknowledge(shown)
        | ToolAction::Terminate(shown) => same_all(shown.as_slice(), terms),
        ToolAction::TakeValue(shown, _) => match behind_front(shown.as_slice(), terms) {
            Some(rest) => is_value(bench, exchange.lane, rest),
            None => false,
        },
        ToolAction::TakeEvent(shown, _) => match behind_front(shown.as_slice(), terms) {
            Some(rest) => is_event(bench, exchange.lane, exchange.event, rest),
            None => false,
        },
    }
}
