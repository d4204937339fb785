//! The errors of a source.
use std::alloc::{AllocError, AllocFailed};
use tb_terms::NoMemory;

/// Why a source isn't a term within the limits. Positions count the bytes from 0.
#[derive(Clone, Copy, Debug, PartialEq, Eq)]
pub enum TermFault {
    /// The position of the first byte that can't continue a term, or the length of the source if the source ends too early.
    Syntax(usize),
    /// The position of a number that a point and a digit follow directly.
    Real(usize),
    /// The position of a number that 64 bits can't hold.
    IntRange(usize),
    /// The source parses as a term whose size is over the limit (65,536 by default).
    TooLarge,
    /// The source parses as a term whose size is within the limit, but whose depth is over the limit (64 levels by default).
    TooDeep,
    /// Out of memory. This error makes no claim about the source.
    NoMemory,
}

impl From<NoMemory> for TermFault {
    ghost use Rattle.std.specs.Prelude.{◌≡◌};
    ghost use Rattle.tb_read.specs.declared.fault.TermFault.TheVariants.{NoMemory};

    ghost from_gives = { λ _ fault. fault ≡ NoMemory };

    fn from(_refused: NoMemory) -> TermFault {
        TermFault::NoMemory
    }
}

impl From<AllocError> for TermFault {
    ghost use Rattle.std.specs.Prelude.{◌≡◌};
    ghost use Rattle.tb_read.specs.declared.fault.TermFault.TheVariants.{NoMemory};

    ghost from_gives = { λ _ fault. fault ≡ NoMemory };

    fn from(_refused: AllocError) -> TermFault {
        TermFault::NoMemory
    }
}

impl<T: Drop> From<AllocFailed<T>> for TermFault {
    ghost use Rattle.std.specs.Prelude.{◌≡◌};
    ghost use Rattle.tb_read.specs.declared.fault.TermFault.TheVariants.{NoMemory};

    ghost from_gives = { λ _ fault. fault ≡ NoMemory };

    fn from(_refused: AllocFailed<T>) -> TermFault {
        TermFault::NoMemory
    }
}
