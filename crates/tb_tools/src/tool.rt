//! A tool on a lane.
ghost use Rattle.std.specs.Prelude.{◌≡◌, ◌↔◌, ◌<◌, ◌++◌, ◌∷◌, [], ◌||◌, length, remove, pos, Some, IfOk, OnOk, OnErr, IsSome, IsTrue};
ghost use Rattle.std.specs.Option.{option_copied};
ghost use Rattle.tb_terms.specs.Same.{is_same_term};
ghost use Rattle.tb_tools.specs.Lanes.{new_tool, term_of, tool_term, is_same_stage};
ghost use Rattle.tb_tools.specs.Inputs.{is_asked, departed};
ghost use Rattle.tb_tools.specs.Acts.{is_closed, answer_of, event_at, acknowledgement};
ghost use Rattle.tb_tools.specs.Finding.{is_at};
ghost use Rattle.tb_tools.specs.declared.stage.Stage.TheVariants as stage;
ghost use Rattle.tb_tools.specs.declared.stage.Eval.TheVariants as eval;

use crate::events::Events;
use crate::handout::KeptOut;
use crate::stage::{Eval, Stage};
use std::alloc::Global;
use std::marker::Model;
use std::mem;
use tb_log::Out;
use tb_terms::{Items, Name, NoMemory, Term, Terms};

/// A tool on a lane.
#[derive(Drop)]
pub(crate) struct LaneTool {
    number: u32,
    name: Name,
    /// The term of the tool: its name with its number.
    term: Term,
    stage: Stage,
    eval: Eval,
    events: Events,
    received: Events,
}

impl Model for LaneTool {
    ghost use Rattle.std.specs.Prelude.{◌≡◌};
    ghost use Rattle.std.specs.Coded.{codes};
    ghost use Rattle.tb_terms.specs.contracts.term.Term as term_data;
    ghost use Rattle.tb_tools.specs.Lanes.{Tool, tool_term};

    ghost Value = { Tool };

    ghost coded = { Prim.hlevel (codes, term_data.the_row.coded) };

    ghost view = { λ tool. record {
      number = tool.number;
      name = tool.name;
      stage = tool.stage;
      eval = tool.eval;
      events = tool.events;
      received = tool.received;
    } };

    ghost invariant = { λ tool. tool.term ≡ tool_term tool.name tool.number };
}

impl LaneTool {
    /// Makes a tool without an open evaluation and without events.
    pub fn new(alloc: Global, name: Name, number: u32, stage: Stage) -> Result<LaneTool, NoMemory>
        ensures { IfOk result (λ tool. tool ≡ new_tool name number stage) }
    {
        let mut parts = Items::new(alloc);
        parts.push(Term::Int(i64::from(number)))?;
        let term = Term::Appl(name.share()?, parts);
        Ok(LaneTool {
            number,
            name,
            term,
            stage,
            eval: Eval::Closed,
            events: Events::new(alloc),
            received: Events::new(alloc),
        })
    }

    /// Returns the number of the tool.
    pub fn number(&self) -> u32
        ensures { result ≡ self.now.number }
    {
        self.number
    }

    /// Returns the stage of the tool.
    pub fn stage(&self) -> Stage
        ensures { result ≡ self.now.stage }
    {
        self.stage
    }

    /// Returns the term of the tool: its name with its number.
    pub fn term(&self) -> &Term
        ensures { result.now ≡ term_of self.now }
    {
        &self.term
    }

    /// Returns whether this is the term of the tool.
    pub fn is_named(&self, term: &Term) -> bool
        ensures { result ≡ is_same_term term.now (term_of self.now) }
    {
        is_tool_term(term, &self.name, self.number)
    }

    /// Returns whether the tool has this name and is at this stage.
    pub fn is_at(&self, name: &Name, stage: Stage) -> bool
        ensures { result ≡ is_at name.now stage self.now }
    {
        self.name.as_bytes() == name.as_bytes() && self.stage == stage
    }

    /// Returns whether the tool is live.
    pub fn is_live(&self) -> bool
        ensures { result ≡ is_same_stage self.now.stage stage.Live }
    {
        matches!(self.stage, Stage::Live)
    }

    /// Returns whether the tool is live or leaving.
    pub fn is_taken(&self) -> bool
        ensures { result ≡ (is_same_stage self.now.stage stage.Live
            || is_same_stage self.now.stage stage.Leaving) }
    {
        matches!(self.stage, Stage::Live | Stage::Leaving)
    }

    /// Returns whether the tool is leaving.
    pub fn is_leaving(&self) -> bool
        ensures { result ≡ is_same_stage self.now.stage stage.Leaving }
    {
        matches!(self.stage, Stage::Leaving)
    }

    /// Returns whether no evaluation is open.
    pub fn is_closed(&self) -> bool
        ensures { result ≡ is_closed self.now.eval }
    {
        matches!(self.eval, Eval::Closed)
    }

    /// Returns whether the tool was asked to evaluate a term and hasn't answered.
    pub fn is_asked(&self) -> bool
        ensures { result ≡ is_asked self.now.eval }
    {
        matches!(self.eval, Eval::Asked)
    }

    /// Returns the tool's answer, if the tool has answered and no process has taken the answer yet.
    pub fn answer(&self) -> Option<&Term>
        ensures { option_copied result ≡ answer_of self.now.eval }
    {
        match &self.eval {
            Eval::Answered(value) => Some(value),
            _ => None,
        }
    }

    /// Returns the waiting events.
    pub fn events(&self) -> &Events
        ensures { result.now ≡ self.now.events }
    {
        &self.events
    }

    /// Returns the events that were received and not yet acknowledged.
    pub fn received(&self) -> &Events
        ensures { result.now ≡ self.now.received }
    {
        &self.received
    }

    /// Makes the tool live.
    pub fn connect(&mut self)
        ensures { self.new ≡ record self.old { stage = stage.Live } }
    {
        self.stage = Stage::Live;
    }

    /// Returns the tool after it departs: a live tool is leaving, a waiting tool is forgotten, and a leaving tool stays.
    pub fn depart(mut self) -> Option<LaneTool>
        ensures { result ≡ departed (Some self) }
    {
        match self.stage {
            Stage::Waiting => None,
            Stage::Live => {
                self.stage = Stage::Leaving;
                Some(self)
            }
            Stage::Leaving => Some(self),
        }
    }

    /// Records that the tool was asked to evaluate a term.
    pub fn ask(&mut self)
        ensures { self.new ≡ record self.old { eval = eval.Asked } }
    {
        self.eval = Eval::Asked;
    }

    /// Records that the tool has answered with this value.
    pub fn set_answer(&mut self, value: Term)
        ensures { self.new ≡ record self.old { eval = eval.Answered value } }
    {
        self.eval = Eval::Answered(value);
    }

    /// Takes the tool's answer. No evaluation is open any more.
    pub fn take_answer(&mut self) -> Term
        requires { IsSome (answer_of self.old.eval) }
        ensures value { answer_of self.old.eval ≡ Some result }
        ensures closed { self.new ≡ record self.old { eval = eval.Closed } }
    {
        match mem::replace(&mut self.eval, Eval::Closed) {
            Eval::Answered(value) => value,
            _ => unreachable!(),
        }
    }

    /// Adds the event at the end of the waiting events.
    pub fn push_event(&mut self, event: Terms) -> Result<(), NoMemory>
        ensures ok { OnOk result
            (self.new ≡ record self.old { events = self.old.events ++ event ∷ [] }) }
        ensures err { OnErr result (self.new ≡ self.old) }
    {
        self.events.push(event)
    }

    /// Moves the waiting event at this position to the end of the received events.
    pub fn receive(&mut self, place: usize) -> Result<(), NoMemory>
        requires { place < length self.old.events }
        ensures ok { OnOk result (self.new ≡ record self.old {
          events = remove self.old.events place;
          received = self.old.received ++ event_at place self.old.events ∷ [];
        }) }
        ensures err { OnErr result (self.new ≡ self.old) }
    {
        self.events.pass_on(place, &mut self.received)
    }

    /// Removes the received event at this position, and returns the line that acknowledges it.
    pub fn acknowledge(&mut self, alloc: Global, place: usize) -> Result<KeptOut, NoMemory>
        requires { place < length self.old.received }
        ensures line { IfOk result (λ line. line ≡ acknowledgement place self.old) }
        ensures ok { OnOk result
            (self.new ≡ record self.old { received = remove self.old.received place }) }
        ensures err { OnErr result (self.new ≡ self.old) }
    {
        let word = Name::new(alloc, b"rec-ack-event")?;
        let copy = Term::Appl(word.share()?, self.received.copy_at(alloc, place)?);
        let line = Term::Appl(word, self.received.remove(place));
        Ok(KeptOut::of(Out::Line(line), Out::Line(copy)))
    }
}

/// Returns whether a term is that of the tool with this name and number. Compares the number first, because tools of one name differ in
/// it.
fn is_tool_term(term: &Term, name: &Name, number: u32) -> bool
    ensures { IsTrue result ↔ (term.now ≡ tool_term name.now number) }
{
    match term {
        Term::Appl(named, parts) => is_number(parts.as_slice(), number) && named.is_same(name),
        Term::Int(_) | Term::Str(_) | Term::List(_) => false,
    }
}

/// Returns whether the only term is this number.
fn is_number(terms: &[Term], number: u32) -> bool
    ensures { IsTrue result ↔ (terms.now ≡ Term.Int (pos number) ∷ []) }
{
    match terms {
        [Term::Int(only)] => *only == i64::from(number),
        _ => false,
    }
}
