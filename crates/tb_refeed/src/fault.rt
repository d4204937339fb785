//! The errors of `refeed`.
use std::alloc::AllocError;
use tb_log_read::LogFault;
use tb_terms::NoMemory;

/// The reason why there is no feed.
#[derive(Clone, Copy, Debug, PartialEq, Eq)]
pub enum RefeedFault {
    /// The first line, counted from 1, that isn't the line of a log entry with this number.
    Line(u64),
    /// The number of the first entry with a tool's line whose text is too long for a feed: it has more than 65,536 bytes.
    TooLong(u64),
    /// Out of memory. This makes no claim about the log.
    NoMemory,
}

impl From<LogFault> for RefeedFault {
    ghost use Rattle.tb_refeed.specs.Feeding.{fault_of};
    ghost use Rattle.std.specs.Prelude.{◌≡◌};

    ghost from_gives = { λ refused fault. fault ≡ fault_of refused };

    fn from(refused: LogFault) -> RefeedFault {
        match refused {
            LogFault::Line(number) => RefeedFault::Line(number),
            LogFault::NoMemory => RefeedFault::NoMemory,
        }
    }
}

impl From<NoMemory> for RefeedFault {
    ghost use Rattle.std.specs.Prelude.{◌≡◌};
    ghost use Rattle.tb_refeed.specs.declared.fault.RefeedFault.TheVariants.{NoMemory};

    ghost from_gives = { λ _ fault. fault ≡ NoMemory };

    fn from(_refused: NoMemory) -> RefeedFault {
        RefeedFault::NoMemory
    }
}

impl From<AllocError> for RefeedFault {
    ghost use Rattle.std.specs.Prelude.{◌≡◌};
    ghost use Rattle.tb_refeed.specs.declared.fault.RefeedFault.TheVariants.{NoMemory};

    ghost from_gives = { λ _ fault. fault ≡ NoMemory };

    fn from(_refused: AllocError) -> RefeedFault {
        RefeedFault::NoMemory
    }
}
