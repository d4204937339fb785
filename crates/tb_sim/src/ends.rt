//! How a simulation ends, and its progress.

/// The end of a simulation.
#[derive(Clone, Copy, Debug, PartialEq, Eq)]
pub enum SimEnd {
    /// The bus shut down.
    Down,
    /// The limit of steps was reached, and another step was possible.
    Steps,
    /// The log had no capacity for the next entry.
    Events,
}

/// The progress of a simulation.
#[derive(Clone, Copy)]
pub struct Progress {
    /// The number of taken steps.
    pub steps: u64,
    /// The number of delivered inputs of the feed.
    pub inputs: usize,
}

/// The result of one iteration of the code, which makes one or two turns.
#[derive(Clone, Copy)]
pub enum Turned {
    /// The simulation goes on, with this progress.
    On(Progress),
    /// The simulation has ended.
    End(SimEnd),
}
