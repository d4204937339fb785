//! The reasons why there is no chart.
use std::alloc::AllocFailed;
use tb_terms::NoMemory;

/// Why there is no chart.
#[derive(Clone, Copy)]
pub enum ChartFault {
    /// The line, counted from 1, of the first entry that is wrong, or is an `execute` for which no lane is free.
    Line(u64),
    /// Out of memory. This says nothing of the log.
    NoMemory,
}

impl From<NoMemory> for ChartFault {
    ghost use Rattle.std.specs.Prelude.{◌≡◌};
    ghost use Rattle.tb_chart.specs.declared.fault.ChartFault.TheVariants.{NoMemory};

    ghost from_gives = { λ _ fault. fault ≡ NoMemory };

    fn from(_refused: NoMemory) -> ChartFault {
        ChartFault::NoMemory
    }
}

impl<T: Drop> From<AllocFailed<T>> for ChartFault {
    ghost use Rattle.std.specs.Prelude.{◌≡◌};
    ghost use Rattle.tb_chart.specs.declared.fault.ChartFault.TheVariants.{NoMemory};

    ghost from_gives = { λ _ fault. fault ≡ NoMemory };

    fn from(_refused: AllocFailed<T>) -> ChartFault {
        ChartFault::NoMemory
    }
}
