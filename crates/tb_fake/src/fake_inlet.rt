//! An inlet that gives its cues.
ghost use Rattle.std.specs.Prelude.{◌≡◌, ◌≤◌, false, length, Some};
ghost use Rattle.tb_edge.specs.Ends.{inlet_after, MayGive};
ghost use Rattle.tb_fake.specs.Fakes.{IsGiving, IsNext, inlet_next, gave_by};

use crate::board::{Board, Sign};
use crate::{Cue, Cues};
use std::alloc::Global;
use std::marker::Model;
use std::sync::Arc;
use tb_edge::{Given, Got, Inlet, MOST_LINE};

/// An inlet that gives its cues in order, each after the watched outlet has taken the cue's number of items. After the last cue, the inlet
/// is over when its own outlet is closed. It is also over if it has looked for one of these 20,000,000 times. It never fails. Contracts see
/// its cues, the number of given cues, and whether it is over.
#[derive(Drop)]
pub struct FakeInlet {
    board: Arc<Board, Global>,
    lane: u8,
    cues: Cues,
    given: usize,
    over: bool,
}

impl Model for FakeInlet {
    ghost use Rattle.tb_fake.specs.Fakes.{FakeInletView};

    ghost Value = { FakeInletView };

    ghost view = { λ inlet. record {
      cues = inlet.cues;
      given = inlet.given;
      over = inlet.over;
    } };
}

impl FakeInlet {
    pub(crate) fn new(board: Arc<Board, Global>, lane: u8, cues: Cues) -> FakeInlet
        ensures { result ≡ record { cues = cues; given = 0; over = false } }
    {
        FakeInlet {
            board,
            lane,
            cues,
            given: 0,
            over: false,
        }
    }

    /// Returns the number of failed calls. The inlet never fails.
    pub fn faults(&self) -> u64
        ensures { result ≡ 0 }
    {
        0
    }

    /// Waits until the next cue is due. After the last cue, waits until the inlet's own outlet is closed. Returns whether this was seen.
    fn wait(&self) -> bool {
        self.board.wait_for(match self.cues.get(self.given) {
            Some(cue) => Sign::Took(cue.watch, cue.after),
            None => Sign::Closed(self.lane),
        })
    }
}

impl Inlet for FakeInlet {
    ghost use Rattle.std.specs.Prelude.{Some};
    ghost use Rattle.tb_fake.specs.Fakes.{gave_by};

    ghost faults = { λ _. 0 };

    ghost told = { λ inlet. Some (gave_by inlet) };

    #[tactic(auto, using(crate::proofs::Giving::tells, crate::proofs::Giving::may_give, crate::proofs::Giving::gives_short))]
    fn next(&mut self, line: &mut Vec<u8>) -> Got
        ensures told { Some (gave_by self.new)
            ≡ inlet_after (Some (gave_by self.old)) result line.new.items }
        ensures over { MayGive (Some (gave_by self.old)) result }
        ensures short { result ≡ Got.Line → length line.new.items ≤ 65536 }
        ensures next { IsNext self.old result line.new.items }
        ensures after { self.new ≡ inlet_next result self.old }
    {
        if self.over || !self.wait() || self.cues.len() <= self.given {
            self.over = true;
            return Got::Over;
        }
        match self.cues.get(self.given) {
            Some(cue) => {
                let got = give(cue, line);
                if got != Got::NoMemory {
                    self.given += 1;
                }
                got
            }
            None => {
                self.over = true;
                Got::Over
            }
        }
    }
}

/// Gives the item of the cue. If it is a line, its bytes replace the content of `line`.
fn give(cue: &Cue, line: &mut Vec<u8>) -> Got
    ensures { IsGiving cue.now result line.new.items }
{
    match &cue.gives {
        Given::Line(bytes) if bytes.len() <= MOST_LINE => {
            line.clear();
            match line.extend_from_slice(bytes.as_slice()) {
                Ok(()) => Got::Line,
                Err(_) => Got::NoMemory,
            }
        }
        Given::Line(_) | Given::Long => Got::Long,
        Given::End => Got::End,
    }
}
