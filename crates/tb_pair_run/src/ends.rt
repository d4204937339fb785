//! The reasons why a pair or one of its buses ended.

/// Why one bus of a pair ended.
#[derive(Clone, Copy, Debug, PartialEq, Eq)]
pub enum BusWhy {
    /// The bus has shut down, and all queued items were taken.
    Ended,
    /// Its log was full.
    Events,
    /// Memory ran out.
    NoMemory,
}

/// Why a pair ended.
#[derive(Clone, Copy, Debug, PartialEq, Eq)]
pub enum PairWhy {
    /// Both buses have shut down, and all queued items were taken.
    Ended,
    /// The crew failed.
    Crew,
    /// The clock failed.
    Clock,
    /// The log of a bus was full.
    Events,
    /// Memory ran out.
    NoMemory,
}
