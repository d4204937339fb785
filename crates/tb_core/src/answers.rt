//! The answers of a core, and the reasons why it rejects a call.
ghost use Rattle.std.specs.Prelude.{◌≡◌};
ghost use Rattle.tb_core.specs.declared.answers.CoreFault.TheVariants.{NoMemory as OutOfMemory};

use std::alloc::AllocError;
use tb_log::Out;
use tb_terms::NoMemory;

/// The answer of `Core::step`.
#[derive(Clone, Copy, Debug, PartialEq, Eq)]
pub enum Stepped {
    /// The core made the first of the possible steps.
    Did,
    /// No step is possible, and the bus hasn't shut down.
    Quiet,
    /// The bus has shut down.
    Down,
}

/// The answer of `Core::take_out`.
#[derive(Drop)]
pub enum TakeOut {
    /// The next item that was queued on the lane.
    Out(Out),
    /// No item is queued, and the bus hasn't shut down.
    Nothing,
    /// No item is queued, and the bus has shut down: no more items come.
    Closed,
}

/// The reason why a core rejects a call. After a rejected call, only the spare memory may have grown.
#[derive(Clone, Copy, Debug, PartialEq, Eq)]
pub enum CoreFault {
    /// The log has no capacity for the entry that the call would add.
    Full,
    /// The call ran out of memory.
    NoMemory,
    /// The core was stopped.
    Stopped,
}

impl From<NoMemory> for CoreFault {
    ghost from_gives = { λ _ fault. fault ≡ OutOfMemory };

    fn from(_refused: NoMemory) -> CoreFault {
        CoreFault::NoMemory
    }
}

impl From<AllocError> for CoreFault {
    ghost from_gives = { λ _ fault. fault ≡ OutOfMemory };

    fn from(_refused: AllocError) -> CoreFault {
        CoreFault::NoMemory
    }
}
