//! The marks of the running processes, and the index with these marks.
ghost use Rattle.std.specs.Prelude.{◌≡◌, ◌≢◌, ◌<◌, ◌^◌, ◌++◌, ℕ, [], Bool, IfOk, OnOk, Some, not, true, false};
ghost use Rattle.std.specs.Option.{ForSome};
ghost use Rattle.tb_terms.specs.declared.term.Term.{out-Term};
ghost use Rattle.std.specs.List.{All};
ghost use Rattle.tb_index.specs.Indexes.{HasRoom, IsTurned};
ghost use Rattle.tb_search.specs.Indexed.{sent_by, sent_marks};
ghost use Rattle.tb_bus.specs.Exchanges.{setting_by};
ghost use Rattle.tb_living.specs.Indexes.{HasNothing, IsRested, IsRightFor, KeepsOf, found_by, found_marks, natural_in, number_among, number_in, number_mark, spoken_in, tool_marks};

use std::alloc::Global;
use std::mem;
use tb_body::Program;
use tb_bus::{Action, OwnAction, ToolAction};
use tb_index::{Index, Mark, Marks, received_mark, sent_mark};
use tb_search::{Living, Ready, all_rest};
use tb_terms::{NoMemory, Term};
use tb_tools::Bench;

/// The mark of all processes that are ready to speak with tools. No message has so many terms, so no message has this mark.
pub const TOOL_MARK: Mark = Mark {
    count: usize::MAX,
    head: 1,
};

/// Returns the mark of the processes that are ready to speak with the tool with this number.
pub fn number_mark(number: u32) -> Mark
    ensures { result ≡ number_mark number }
{
    mark_of(u64::from(number))
}

/// Returns the mark of `number_mark` for any number that a term can have.
fn mark_of(number: u64) -> Mark
    requires { number < 2 ^ 63 }
    ensures { result ≡ number_mark number }
{
    Mark {
        count: usize::MAX,
        head: 2 + number,
    }
}

/// Returns the number that a term is, or `None` if the term isn't a number, or is negative.
fn natural(part: &Term) -> Option<u64>
    ensures number { result ≡ natural_in (out-Term part.now) }
    ensures within { ForSome result (λ number. number < 2 ^ 63) }
{
    match part {
        Term::Int(number) => match u64::try_from(*number) {
            Ok(number) => Some(number),
            Err(_) => None,
        },
        Term::Str(_) | Term::Appl(_, _) | Term::List(_) => None,
    }
}

/// Returns the number of the tool that the first of these terms names, if it names one: the first argument of a name.
fn number_among(terms: &[Term]) -> Option<u64>
    ensures number { result ≡ number_among terms.now }
    ensures within { ForSome result (λ number. number < 2 ^ 63) }
{
    match terms.first() {
        Some(Term::Appl(_, parts)) => match parts.as_slice().first() {
            Some(part) => natural(part),
            None => None,
        },
        _ => None,
    }
}

/// Returns the number of the tool with which an action speaks, if the action names one.
fn number_in(does: &ToolAction) -> Option<u64>
    ensures number { result ≡ number_in does.now }
    ensures within { ForSome result (λ number. number < 2 ^ 63) }
{
    match does {
        ToolAction::Execute(_, _) | ToolAction::Connect(_, _) | ToolAction::DisconnectAny(_, _) => {
            None
        }
        ToolAction::Disconnect(terms)
        | ToolAction::Eval(terms)
        | ToolAction::TakeValue(terms, _)
        | ToolAction::Do(terms)
        | ToolAction::TakeEvent(terms, _)
        | ToolAction::Acknowledge(terms)
        | ToolAction::Terminate(terms) => number_among(terms.as_slice()),
    }
}

/// Returns empty lists of marks.
pub fn no_marks(alloc: Global) -> Marks
    ensures sends { result.sends.items ≡ [] }
    ensures receives { result.receives.items ≡ [] }
{
    Marks {
        sends: Vec::new(alloc),
        receives: Vec::new(alloc),
    }
}

/// Returns an index without any process, with capacity for the processes with these numbers.
pub fn index_of(alloc: Global, numbers: &[u32]) -> Result<Index, NoMemory>
    ensures nothing { IfOk result (λ index. (number : ℕ) → HasNothing index number) }
    ensures room { IfOk result (λ index. All (HasRoom index) numbers.now) }
{
    let mut index = Index::new(alloc);
    for number in numbers {
        index.make_room(*number)?;
    }
    Ok(index)
}

/// Appends the marks of an action that speaks with tools: `TOOL_MARK`, and the mark of the named tool, if one is named.
fn push_tool_marks(marks: &mut Vec<Mark>, does: &ToolAction) -> Result<(), NoMemory>
    ensures { OnOk result
        (marks.new.items ≡ marks.old.items ++ tool_marks (Some does.now)) }
{
    marks.push(TOOL_MARK)?;
    if let Some(number) = number_in(does) {
        marks.push(mark_of(number))?;
    }
    Ok(())
}

/// Appends the marks of an action that a process does alone. Only an action that speaks with tools has marks.
fn push_own_marks(marks: &mut Marks, own: &OwnAction) -> Result<(), NoMemory>
    ensures sends { marks.new.sends ≡ marks.old.sends }
    ensures receives { OnOk result
        (marks.new.receives.items ≡ marks.old.receives.items ++ tool_marks (spoken_in own.now)) }
{
    match own {
        OwnAction::Speak(does) => push_tool_marks(&mut marks.receives, does)?,
        OwnAction::Tau
        | OwnAction::Set(_, _)
        | OwnAction::Print(_)
        | OwnAction::Notify(_)
        | OwnAction::TakeNote(_)
        | OwnAction::NoNote(_)
        | OwnAction::Subscribe(_)
        | OwnAction::Unsubscribe(_)
        | OwnAction::Create(_, _, _)
        | OwnAction::Shutdown(_) => {}
    }
    Ok(())
}

/// Appends the marks of an action: the mark of its message, or its marks of tools.
fn push_mark(marks: &mut Marks, action: &Action) -> Result<(), NoMemory>
    ensures sends { OnOk result
        (marks.new.sends.items ≡ marks.old.sends.items ++ sent_by action.now) }
    ensures receives { OnOk result
        (marks.new.receives.items ≡ marks.old.receives.items ++ found_by action.now) }
{
    match action {
        Action::Send(terms) => marks.sends.push(sent_mark(terms))?,
        Action::Receive(patterns) => marks.receives.push(received_mark(patterns))?,
        Action::Own(own) => push_own_marks(marks, own)?,
    }
    Ok(())
}

/// Replaces `marks` by the marks of these actions.
fn fill_marks(marks: &mut Marks, actions: &[Ready]) -> Result<(), NoMemory>
    ensures sends { OnOk result (marks.new.sends.items ≡ sent_marks actions.now) }
    ensures receives { OnOk result (marks.new.receives.items ≡ found_marks actions.now) }
{
    marks.sends.clear();
    marks.receives.clear();
    for ready in actions {
        push_mark(marks, &ready.action)?;
    }
    Ok(())
}

/// Makes the process with a number sleep if all its actions rest, and wakes it up if not.
pub fn turn(index: &mut Index, number: u32, rest: bool)
    requires { HasRoom index.old number }
    ensures { IsTurned index.old index.new number (not rest) }
{
    if rest {
        index.let_sleep(number);
    } else {
        index.wake(number);
    }
}

/// Enters the ready actions of a process in the index: their marks, and whether all of them rest. Then the process is fresh.
/// `looked` only lends its memory for the new marks. If out of memory, the process isn't fresh.
pub fn update<W>(
    alloc: Global,
    program: &Program,
    bench: &Bench,
    index: &mut Index,
    looked: &mut Marks,
    living: &mut Living<W>,
) -> Result<(), NoMemory>
    requires right { IsRightFor index.old living.old }
    requires stale { living.old.fresh ≡ false }
    ensures right { IsRightFor index.new living.new }
    ensures rested { (stirred : Bool) → IsRested
        (setting_by program.now.bodies program.now.tools bench.now) stirred index.new living.new }
    ensures others { (other : ℕ) → other ≢ living.old.number → KeepsOf index.old index.new other }
    ensures same { living.new
        ≡ record living.old { marks = living.new.marks; fresh = living.new.fresh } }
    ensures fresh { OnOk result (living.new.fresh ≡ true) }
{
    let rest = all_rest(alloc, program, bench, living)?;
    fill_marks(looked, living.ready.as_slice())?;
    index.set(living.number, &living.marks, looked)?;
    turn(index, living.number, rest);
    mem::swap(&mut living.marks, looked);
    living.fresh = true;
    Ok(())
}
