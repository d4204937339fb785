//! The verdict on a log, and the errors of `verify`.
use tb_terms::NoMemory;

/// The verdict on a log of a program.
#[derive(Clone, Copy, Debug, PartialEq, Eq)]
pub enum Verdict {
    /// The log is a trace of the program.
    Trace,
    /// The first line, counted from 1, at which the log isn't a trace of the program.
    Line(u64),
}

/// The reason why there is no verdict.
#[derive(Clone, Copy, Debug, PartialEq, Eq)]
pub enum VerifyFault {
    /// An entry that can come next passes the limits of a log.
    Full,
    /// Out of memory. This makes no claim about the log.
    NoMemory,
}

impl From<NoMemory> for VerifyFault {
    ghost use Rattle.std.specs.Prelude.{◌≡◌};
    ghost use Rattle.tb_verify.specs.declared.verdict.VerifyFault.TheVariants.{NoMemory};

    ghost from_gives = { λ _ fault. fault ≡ NoMemory };

    fn from(_refused: NoMemory) -> VerifyFault {
        VerifyFault::NoMemory
    }
}
