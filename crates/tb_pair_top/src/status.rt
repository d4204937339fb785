//! The statuses with which the program of a pair ends.
use tb_cli::WordFault;
use tb_script::ScriptFault;

/// The part of the environment that failed.
#[derive(Clone, Copy, Debug, PartialEq, Eq)]
pub enum PairEdge {
    /// A file.
    File,
    /// The sink of the logs.
    Out,
    /// Standard error.
    Err,
    /// The clock.
    Clock,
    /// The crew: there are too few threads.
    Crew,
}

/// The status with which the program ends. If memory runs out in any part, the status is `NoMemory`.
#[derive(Debug, Drop)]
pub enum PairStatus {
    /// The pair ended well.
    Ended,
    /// One of the two scripts was rejected. Out of memory is never a reason for this.
    Script(ScriptFault),
    /// The arguments were rejected. Out of memory is never a reason for this.
    Words(WordFault),
    /// A part of the environment failed.
    Outside(PairEdge),
    /// One of the two logs had no capacity for the next entry.
    Limit,
    /// Memory ran out.
    NoMemory,
}

impl PairStatus {
    ghost use Rattle.std.specs.Prelude.{◌≡◌};
    ghost use Rattle.tb_pair_top.specs.Statuses.{status_number};

    /// Returns the exit status of the program.
    pub fn number(&self) -> u8
        ensures { result ≡ status_number self.now }
    {
        match self {
            PairStatus::Ended => 0,
            PairStatus::Script(_) => 1,
            PairStatus::Words(_) => 2,
            PairStatus::Outside(_) => 3,
            PairStatus::Limit => 4,
            PairStatus::NoMemory => 5,
        }
    }
}
