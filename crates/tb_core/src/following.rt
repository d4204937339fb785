//! Finds the move that a label names, by the numbers in the label. Nothing changes.

use crate::acting::NOWHERE;
use crate::bus::LiveBus;
use crate::comparing::{
    is_alone, is_end, own_kind, same_kind, same_out, same_place, shows_exchange,
};
use std::alloc::Global;
use tb_bus::{Action, OwnAction};
use tb_living::is_declared;
use tb_log::{Input, Label, LabelKind, Out, Place, Reply, Why};
use tb_match::Binds;
use tb_process_steps::Walker;
use tb_search::{Candidate, Finding, candidate_at};
use tb_terms::{NoMemory, Term, same_all};

/// What a label shows of a move, except its terms.
#[derive(Drop)]
struct Sight {
    kind: LabelKind,
    from: Place,
    to: Place,
}

impl<W: Walker> LiveBus<W> {
    ghost use Rattle.std.specs.Prelude.{◌≡◌, ◌↔◌, ◌<◌, filter, ◌∷◌, [], length, Contains, IfOk, IfSome, IsTrue, None, Some, option_map, false};
    ghost use Rattle.tb_log.specs.declared.entry.Entry.TheVariants.{Did as Made};
    ghost use Rattle.tb_terms.specs.declared.term.Term.{Term as SeenTerm};
    ghost use Rattle.tb_bus.specs.declared.origin.Origin.{Origin};
    ghost use Rattle.tb_bus.specs.Buses.{Bus};
    ghost use Rattle.tb_bus.specs.Reached.{Reaches};
    ghost use Rattle.tb_bus.specs.Steps.{Move, first, moves, label_of, step_of, steps};
    ghost use Rattle.tb_search.specs.Named.{is_at};
    ghost use Rattle.tb_bus.specs.Traces.{IsLegal, fed};
    ghost use Rattle.tb_log.specs.Shapes.{IsInputInShape, IsLane};
    ghost use Rattle.tb_tools.specs.Finding.{next_out};
    ghost use Rattle.tb_living.specs.Lives.{AreFresh};
    ghost use Rattle.tb_search.specs.Candidates.{all_candidates, row_at, rows_of};
    ghost use Rattle.tb_search.specs.Views.{IsCandidateIn, own_in, ready_at, sent_in};
    ghost use Rattle.tb_core.specs.Helpers.LiveBuses.{bus_of, move_in, scene_in, IsSound};
    ghost use Rattle.tb_core.specs.Helpers.Makings.{effect_in, finding_in};

    /// Returns the first move that begins and is received at the places of a label. If the label's kind is `finish` or `halt`, returns the
    /// first of all moves.
    fn named(
        &self,
        alloc: Global,
        label: &Label,
        room: &mut Binds,
    ) -> Result<Option<Candidate>, NoMemory>
        requires sound { IsSound W.view self.now }
        requires fresh { AreFresh self.now.living.items }
        requires settled { self.now.stirred ≡ false }
        ensures stands { IfOk result (λ found. IfSome found (IsCandidateIn (scene_in self.now))) }
        ensures member { IfOk result (λ found. IfSome found (λ candidate.
            Contains (moves (bus_of W.view self.now)) (move_in W.view self.now candidate))) }
        ensures only { (origin : Origin) (move : Move) → Reaches origin (bus_of W.view self.now)
            → Contains (moves (bus_of W.view self.now)) move → label_of move ≡ label.now
            → IfOk result (λ found. option_map (move_in W.view self.now) found ≡ Some move) }
    {
        if is_end(label.kind) {
            return self.first_candidate(alloc, room);
        }
        self.standing(alloc, label.from, label.to, room)
    }

    /// Returns the first of all moves that begins at one place and is received at another.
    fn standing(
        &self,
        alloc: Global,
        from: Place,
        to: Place,
        room: &mut Binds,
    ) -> Result<Option<Candidate>, NoMemory>
        requires sound { IsSound W.view self.now }
        ensures { IfOk result (λ found. found ≡ first (filter
            (is_at (rows_of self.now.living.items) from to)
            (all_candidates (scene_in self.now) self.now.marks))) }
    {
        candidate_at(
            alloc,
            &self.origin.program,
            &self.bench,
            self.living.as_slice(),
            self.marks,
            &self.index,
            from,
            to,
            room,
        )
    }

    /// Returns the reply of the bus to an input, without delivering the input.
    pub fn reply_to(&self, input: &Input) -> Reply
        requires { IsInputInShape input.now }
        ensures { result ≡ (fed (bus_of W.view self.now) input.now).reply }
    {
        if self.marks.down {
            return Reply::Dropped(Why::Down);
        }
        match input {
            Input::Tick | Input::NoTicks => Reply::Took,
            Input::Line(lane, line) => {
                let declared = is_declared(self.origin.program.tools.as_slice(), line);
                self.bench.reply_to(*lane, line, declared)
            }
            Input::Gone(lane) | Input::Cut(lane) => self.bench.reply_to_end(*lane),
        }
    }

    /// Returns whether this is the next item for a lane.
    pub fn hands_out(&self, lane: u8, out: &Out) -> bool
        requires { IsLane lane }
        ensures { IsTrue result ↔ (next_out lane self.now.bench ≡ Some out.now) }
    {
        match self.bench.next_out(lane) {
            Some(next) => same_out(next, out),
            None => false,
        }
    }

    /// Returns whether a label shows these terms for an own action of a process with its finding.
    fn shows_own(&self, at: usize, own: &OwnAction, finding: &Finding, terms: &[Term]) -> bool
        requires sound { IsSound W.view self.now }
        requires within { at < length self.now.living.items }
        requires found { finding_in self.now at own.now ≡ Some finding.now }
        ensures { IsTrue result
            ↔ ((effect_in self.now at own.now finding.now).shown ≡ terms.now) }
    {
        match own {
            OwnAction::Set(shown, _) | OwnAction::Notify(shown) => {
                same_all(shown.as_slice(), terms)
            }
            OwnAction::Print(text) | OwnAction::Shutdown(text) => is_alone(text, terms),
            OwnAction::Create(_, _, _) => {
                is_alone(&Term::Int(i64::from(self.marks.next_number)), terms)
            }
            OwnAction::TakeNote(_) => match finding {
                Finding::TakeNote(found) => {
                    let note = self.living[at].get().inbox.note(found.place);
                    same_all(note.as_slice(), terms)
                }
                _ => terms.is_empty(),
            },
            OwnAction::Speak(does) => match finding {
                Finding::Speak(exchange) => shows_exchange(&self.bench, does, exchange, terms),
                _ => terms.is_empty(),
            },
            OwnAction::Tau
            | OwnAction::NoNote(_)
            | OwnAction::Subscribe(_)
            | OwnAction::Unsubscribe(_) => terms.is_empty(),
        }
    }

    /// Returns whether a label shows these terms for a found move.
    fn shows_terms(&self, candidate: &Candidate, terms: &[Term]) -> bool
        requires sound { IsSound W.view self.now }
        requires fresh { AreFresh self.now.living.items }
        requires found { IsCandidateIn (scene_in self.now) candidate.now }
        ensures { IsTrue result
            ↔ ((label_of (move_in W.view self.now candidate.now)).terms ≡ terms.now) }
    {
        match candidate {
            Candidate::Own(at, index, finding) => {
                match &self.living[*at].get().ready[*index].action {
                    Action::Own(own) => self.shows_own(*at, own, finding, terms),
                    Action::Send(_) | Action::Receive(_) => unreachable!(),
                }
            }
            Candidate::Handshake(at, index, _) => {
                match &self.living[*at].get().ready[*index].action {
                    Action::Send(sent) => same_all(sent.as_slice(), terms),
                    Action::Own(_) | Action::Receive(_) => terms.is_empty(),
                }
            }
            Candidate::Finish | Candidate::Halt => terms.is_empty(),
        }
    }

    /// Returns the kind and the places that a label shows of a found move.
    fn sight(&self, candidate: &Candidate) -> Sight
        requires sound { IsSound W.view self.now }
        requires fresh { AreFresh self.now.living.items }
        requires found { IsCandidateIn (scene_in self.now) candidate.now }
        ensures kind { result.kind ≡ (label_of (move_in W.view self.now candidate.now)).kind }
        ensures from { result.from ≡ (label_of (move_in W.view self.now candidate.now)).from }
        ensures to { result.to ≡ (label_of (move_in W.view self.now candidate.now)).to }
    {
        match candidate {
            Candidate::Own(at, index, _) => Sight {
                kind: match &self.living[*at].get().ready[*index].action {
                    Action::Own(own) => own_kind(own),
                    Action::Send(_) | Action::Receive(_) => unreachable!(),
                },
                from: self.place_at(*at, *index),
                to: NOWHERE,
            },
            Candidate::Handshake(at, index, partner) => Sight {
                kind: LabelKind::Msg,
                from: self.place_at(*at, *index),
                to: self.place_at(partner.living, partner.received.action),
            },
            Candidate::Finish => Sight {
                kind: LabelKind::Finish,
                from: NOWHERE,
                to: NOWHERE,
            },
            Candidate::Halt => Sight {
                kind: LabelKind::Halt,
                from: NOWHERE,
                to: NOWHERE,
            },
        }
    }

    /// Returns whether a label is that of a found move.
    fn shows(&self, candidate: &Candidate, label: &Label) -> bool
        requires sound { IsSound W.view self.now }
        requires fresh { AreFresh self.now.living.items }
        requires found { IsCandidateIn (scene_in self.now) candidate.now }
        ensures { IsTrue result
            ↔ (label_of (move_in W.view self.now candidate.now) ≡ label.now) }
    {
        let sight = self.sight(candidate);
        same_kind(sight.kind, label.kind)
            && same_place(sight.from, label.from)
            && same_place(sight.to, label.to)
            && self.shows_terms(candidate, label.terms.as_slice())
    }

    /// Returns the move that a label shows, if there is one.
    pub fn seen_as(
        &self,
        alloc: Global,
        label: &Label,
        room: &mut Binds,
    ) -> Result<Option<Candidate>, NoMemory>
        requires sound { IsSound W.view self.now }
        requires fresh { AreFresh self.now.living.items }
        requires settled { self.now.stirred ≡ false }
        ensures stands { IfOk result (λ found. IfSome found (IsCandidateIn (scene_in self.now))) }
        ensures member { IfOk result (λ found. IfSome found (λ candidate.
            Contains (moves (bus_of W.view self.now)) (move_in W.view self.now candidate))) }
        ensures seen { IfOk result (λ found. IfSome found (λ candidate.
            label_of (move_in W.view self.now candidate) ≡ label.now)) }
        ensures only { IfOk result (λ found. found ≡ None → (origin : Origin) (next : Bus)
            → Reaches origin (bus_of W.view self.now)
            → IsLegal (bus_of W.view self.now) (Made label.now) next → ⊥) }
    {
        match self.named(alloc, label, room)? {
            Some(candidate) => {
                if self.shows(&candidate, label) {
                    Ok(Some(candidate))
                } else {
                    Ok(None)
                }
            }
            None => Ok(None),
        }
    }
}
