//! Operators with two parts, while the position of the second part isn't known yet.
ghost use Rattle.std.specs.Prelude.{◌≡◌};
ghost use Rattle.tb_code.specs.Helpers.Twos.{frame_of_first, op_of};

use crate::Op;
use tb_terms::Expr;

/// An operator with two parts. The position of its second part isn't known yet.
#[derive(Drop)]
pub(crate) enum Two {
    Seq,
    Alt,
    Star,
    Par,
    If(Expr),
}

impl Two {
    /// Returns the frame of the first part, if the operator is at position `here` and has this frame.
    pub(crate) fn frame_of_first(&self, here: usize, frame: Option<usize>) -> Option<usize>
        ensures { result ≡ frame_of_first self.now here frame }
    {
        match self {
            Two::Seq => Some(here),
            Two::Alt => frame,
            Two::Star => Some(here),
            Two::Par => frame,
            Two::If(_) => frame,
        }
    }

    /// Returns the operator whose second part is at position `right`.
    pub(crate) fn op(self, right: usize) -> Op
        ensures { result ≡ op_of self right }
    {
        match self {
            Two::Seq => Op::Seq(right),
            Two::Alt => Op::Alt(right),
            Two::Star => Op::Star(right),
            Two::Par => Op::Par(right),
            Two::If(test) => Op::If(test, right),
        }
    }
}
