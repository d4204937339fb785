//! The errors of `why`.

use tb_terms::NoMemory;

/// The reason why a log couldn't be followed to its end.
#[derive(Clone, Copy)]
pub enum WhyFault {
    /// The bytes aren't the text of a trace of the program.
    NoTrace,
    /// An entry that can come next passes the limits of a log.
    Full,
    /// Out of memory. This makes no claim about the log.
    NoMemory,
}

impl From<NoMemory> for WhyFault {
    ghost use Rattle.std.specs.Prelude.{◌≡◌};
    ghost use Rattle.tb_why.specs.declared.fault.WhyFault.TheVariants.{NoMemory};

    ghost from_gives = { λ _ fault. fault ≡ NoMemory };

    fn from(_refused: NoMemory) -> WhyFault {
        WhyFault::NoMemory
    }
}
