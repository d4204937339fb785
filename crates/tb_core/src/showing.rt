//! Measures the terms in the label of a move, before the bus makes the move.

ghost use Rattle.std.specs.Prelude.{◌≡◌, min, ◌<◌, length, Some};
ghost use Rattle.std.below.core.specs.declared.int.usize.TheConstants.{MAX};
ghost use Rattle.tb_log.specs.Limits.{terms_size};
ghost use Rattle.tb_search.specs.Views.{sent_in, IsCandidateIn};
ghost use Rattle.tb_bus.specs.Steps.{label_of};
ghost use Rattle.tb_core.specs.Helpers.Makings.{effect_in, finding_in};
ghost use Rattle.tb_core.specs.Helpers.LiveBuses.{scene_in, move_in, IsSound};
ghost use Rattle.tb_living.specs.Lives.{AreFresh};

use crate::bus::LiveBus;
use tb_bus::{Action, OwnAction};
use tb_living::seen_size;
use tb_process_steps::Walker;
use tb_search::{Candidate, Finding};
use tb_terms::{size, total_size};

impl<W: Walker> LiveBus<W> {
    /// Returns the total size of the terms in the label of a found move, at most `usize::MAX`.
    pub fn shown_size(&self, candidate: &Candidate) -> usize
        requires sound { IsSound W.view self.now }
        requires fresh { AreFresh self.now.living.items }
        requires found { IsCandidateIn (scene_in self.now) candidate.now }
        ensures { result
            ≡ min (terms_size (label_of (move_in W.view self.now candidate.now)).terms) MAX }
    {
        match candidate {
            Candidate::Own(at, index, finding) => {
                match &self.living[*at].get().ready[*index].action {
                    Action::Own(own) => self.own_size(*at, own, finding),
                    Action::Send(_) | Action::Receive(_) => 0,
                }
            }
            Candidate::Handshake(at, index, _) => {
                sent_size(&self.living[*at].get().ready[*index].action)
            }
            Candidate::Finish | Candidate::Halt => 0,
        }
    }

    /// Returns the total size of the terms in the label of an own action with its finding, at most `usize::MAX`.
    fn own_size(&self, at: usize, own: &OwnAction, finding: &Finding) -> usize
        requires sound { IsSound W.view self.now }
        requires within { at < length self.now.living.items }
        requires found { finding_in self.now at own.now ≡ Some finding.now }
        ensures { result ≡ min (terms_size (effect_in self.now at own.now finding.now).shown) MAX }
    {
        match own {
            OwnAction::Set(terms, _) | OwnAction::Notify(terms) => total_size(terms.as_slice()),
            OwnAction::Print(text) | OwnAction::Shutdown(text) => size(text),
            OwnAction::Create(_, _, _) => 1,
            OwnAction::TakeNote(_) => match finding {
                Finding::TakeNote(found) => {
                    total_size(self.living[at].get().inbox.note(found.place).as_slice())
                }
                _ => 0,
            },
            OwnAction::Speak(does) => match finding {
                Finding::Speak(exchange) => seen_size(&self.bench, does, exchange),
                _ => 0,
            },
            OwnAction::Tau
            | OwnAction::NoNote(_)
            | OwnAction::Subscribe(_)
            | OwnAction::Unsubscribe(_) => 0,
        }
    }
}

/// Returns the total size of the terms that an action sends, at most `usize::MAX`.
fn sent_size(action: &Action) -> usize
    ensures { result ≡ min (terms_size (sent_in action.now)) MAX }
{
    match action {
        Action::Send(terms) => total_size(terms.as_slice()),
        Action::Own(_) | Action::Receive(_) => 0,
    }
}
