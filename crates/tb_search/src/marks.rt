//! The values that a bus keeps in addition to its processes.

/// The values that a bus keeps in addition to its processes.
#[derive(Clone, Copy, Debug, PartialEq, Eq)]
pub struct Marks {
    /// The number of the process that began the last step of a process; 0 before the first such step.
    pub last_starter: u32,
    /// The number of the next process that is created.
    pub next_number: u32,
    /// Whether no more ticks come.
    pub no_ticks: bool,
    /// Whether the bus has shut down.
    pub down: bool,
}
