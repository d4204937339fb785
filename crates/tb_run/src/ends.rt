//! The reasons why workers and runs end.

/// Why a worker ended.
#[derive(Clone, Copy, Debug, PartialEq, Eq)]
pub enum WorkEnd {
    /// The inlet or the clock has ended, or the limit of ticks is reached.
    Over,
    /// The bus has shut down.
    Down,
    /// The bus was stopped.
    Stopped,
    /// The log was full.
    Full,
    /// The clock failed.
    Failed,
    /// Memory ran out.
    NoMemory,
}

/// Why a run ended.
#[derive(Clone, Copy, Debug, PartialEq, Eq)]
pub enum RunWhy {
    /// The bus has shut down, and all queued items were sent.
    Ended,
    /// The crew failed.
    Crew,
    /// The clock failed.
    Clock,
    /// The sink failed.
    Out,
    /// The log was full.
    Events,
    /// Memory ran out.
    NoMemory,
}

/// Why the job that writes the log ended.
#[derive(Clone, Copy, Debug, PartialEq, Eq)]
pub enum LogEnd {
    /// All workers have ended.
    Over,
    /// The sink failed.
    Out,
    /// Memory ran out.
    NoMemory,
}
