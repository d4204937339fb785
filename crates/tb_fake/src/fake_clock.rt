//! A clock without ticks that ends after all outlets are closed.
ghost use Rattle.std.specs.Prelude.{◌≡◌, true};

use crate::board::{Board, Sign};
use std::alloc::Global;
use std::marker::Model;
use std::sync::Arc;
use tb_edge::{Beat, Clock};

/// A clock that gives no ticks and never fails. It ends after all sixteen outlets are closed, or after it has looked for this 20,000,000
/// times. Contracts see whether it has ended.
#[derive(Drop)]
pub struct FakeClock {
    pub(crate) board: Arc<Board, Global>,
    pub(crate) ended: bool,
}

impl Model for FakeClock {
    ghost use Rattle.std.specs.Prelude.{Bool};

    ghost Value = { Bool };

    ghost view = { λ clock. clock.ended };
}

impl FakeClock {
    /// Returns the number of failed calls. The clock never fails.
    pub fn faults(&self) -> u64
        ensures { result ≡ 0 }
    {
        0
    }
}

impl Clock for FakeClock {
    ghost use Rattle.std.specs.Prelude.{Some};

    ghost faults = { λ _. 0 };

    ghost told = { λ clock. Some (record { ticks = 0; ended = clock }) };

    fn wait(&mut self) -> Beat
        ensures answer { result ≡ Beat.End }
        ensures after { self.new ≡ true }
    {
        if !self.ended {
            self.board.wait_for(Sign::AllClosed);
        }
        self.ended = true;
        Beat::End
    }
}
