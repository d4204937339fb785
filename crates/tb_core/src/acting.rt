//! The results of steps that print, create a process, or shut down the bus. Also the labels of steps that end the bus, the reasons for
//! its end, and the entry of a step in the log.
ghost use Rattle.std.specs.Prelude.{◌≡◌, ◌∷◌, [], IfOk};
ghost use Rattle.tb_bus.specs.Effects.{number_term};
ghost use Rattle.tb_bus.specs.Steps.{finish_reason, halt_reason, nowhere};
ghost use Rattle.tb_core.specs.Helpers.LiveBuses.{CanLog, IsLogged};

use std::alloc::Global;
use tb_living::Done;
use tb_log::{Label, LabelKind, Log, Place};
use tb_match::Bind;
use tb_terms::{Items, Name, NoMemory, Term, Terms};

/// The place in a label where no process takes part.
pub const NOWHERE: Place = Place { proc: 0, atom: 0 };

/// Returns the result of a step whose label has no terms, and that binds nothing.
pub fn kind_alone(alloc: Global, kind: LabelKind) -> Done
    ensures { result ≡ record { kind = kind; shown = []; binds = [] } }
{
    Done {
        kind,
        shown: Items::new(alloc),
        binds: Items::new(alloc),
    }
}

/// Returns the result of a step that printed a text.
pub fn printed(alloc: Global, text: Term) -> Result<Done, NoMemory>
    ensures { IfOk result
        (λ done. done ≡ record { kind = LabelKind.Printf; shown = text ∷ []; binds = [] }) }
{
    let mut done = kind_alone(alloc, LabelKind::Printf);
    done.shown.push(text)?;
    Ok(done)
}

/// Returns the result of a step that created the process with this number: the step binds the number to the slot.
pub fn created(alloc: Global, number: u32, slot: u32) -> Result<Done, NoMemory>
    ensures { IfOk result (λ done. done ≡ record {
      kind = LabelKind.Create;
      shown = number_term number ∷ [];
      binds = record { slot = slot; value = number_term number } ∷ [];
    }) }
{
    let mut done = kind_alone(alloc, LabelKind::Create);
    done.shown.push(number_term(number))?;
    done.binds.push(Bind {
        slot,
        value: number_term(number),
    })?;
    Ok(done)
}

/// Returns the term of a process number.
fn number_term(number: u32) -> Term
    ensures { result ≡ number_term number }
{
    Term::Int(i64::from(number))
}

/// Returns the result of a step that shuts down the bus for this reason.
pub fn shut_down(alloc: Global, reason: Term) -> Result<Done, NoMemory>
    ensures { IfOk result
        (λ done. done ≡ record { kind = LabelKind.Shutdown; shown = reason ∷ []; binds = [] }) }
{
    let mut done = kind_alone(alloc, LabelKind::Shutdown);
    done.shown.push(reason)?;
    Ok(done)
}

/// Returns the label of a step that ends the bus without a process.
pub fn end_label(alloc: Global, kind: LabelKind) -> Label
    ensures { result ≡ record { kind = kind; from = nowhere; to = nowhere; terms = [] } }
{
    Label {
        kind,
        from: NOWHERE,
        to: NOWHERE,
        terms: Items::new(alloc),
    }
}

/// Logs a step, and returns the emptied list of its terms. This takes no memory.
#[inline(always)]
pub fn put_label(log: &mut Log, label: Label) -> Terms
    requires { CanLog log.old label }
    ensures logged { IsLogged log.old label log.new }
    ensures emptied { result ≡ [] }
{
    let Label {
        kind,
        from,
        to,
        mut terms,
    } = label;
    log.push_step(kind, from, to, &mut terms);
    terms
}

/// Returns the reason `finish`, for which the bus shuts down if no process is left.
pub fn finish_reason(alloc: Global) -> Result<Term, NoMemory>
    ensures { IfOk result (λ reason. reason ≡ finish_reason) }
{
    Ok(Term::Appl(Name::new(alloc, b"finish")?, Items::new(alloc)))
}

/// Returns the reason `halt`, for which the bus shuts down if no process can do anything any more.
pub fn halt_reason(alloc: Global) -> Result<Term, NoMemory>
    ensures { IfOk result (λ reason. reason ≡ halt_reason) }
{
    Ok(Term::Appl(Name::new(alloc, b"halt")?, Items::new(alloc)))
}
