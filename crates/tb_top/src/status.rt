//! The statuses with which the program ends.
use tb_cli::WordFault;
use tb_feed::FeedFault;
use tb_script::ScriptFault;

/// The part of the environment that failed.
#[derive(Clone, Copy, Debug, PartialEq, Eq)]
pub enum Edge {
    /// A file.
    File,
    /// The sink of the output.
    Out,
    /// Standard error.
    Err,
    /// The clock.
    Clock,
    /// The crew: there are too few threads.
    Crew,
}

/// The limit that was reached.
#[derive(Clone, Copy, Debug, PartialEq, Eq)]
pub enum Bound {
    /// The limit of steps was reached, and another step was possible.
    Steps,
    /// The log had no capacity for the next entry.
    Events,
}

/// Why a log was rejected.
#[derive(Clone, Copy, Debug, PartialEq, Eq)]
pub enum LogWrong {
    /// The lines before the line of this number, from 1, are a trace. With this line they aren't.
    Line(u64),
    /// The file of the log has this number of bytes, which is too large.
    TooLong(usize),
}

/// The status with which the program ends. If memory runs out in any part, the status is `NoMemory`.
#[derive(Debug, Drop)]
pub enum Status {
    /// The command ended well.
    Ended,
    /// The script was rejected. Out of memory is never a reason for this.
    Script(ScriptFault),
    /// The feed was rejected. Out of memory is never a reason for this.
    Feed(FeedFault),
    /// The arguments were rejected. Out of memory is never a reason for this.
    Words(WordFault),
    /// A part of the environment failed.
    Outside(Edge),
    /// A limit was reached.
    Limit(Bound),
    /// Memory ran out.
    NoMemory,
    /// The log isn't a trace of the script, or is too long to be checked.
    Log(LogWrong),
    /// The script has no tool of the requested name.
    Stranger,
}

impl Status {
    ghost use Rattle.std.specs.Prelude.{◌≡◌};
    ghost use Rattle.tb_top.specs.Statuses.{status_number};

    /// Returns the exit status of the program.
    pub fn number(&self) -> u8
        ensures { result ≡ status_number self.now }
    {
        match self {
            Status::Ended => 0,
            Status::Script(_) => 1,
            Status::Feed(_) => 1,
            Status::Words(_) => 2,
            Status::Outside(_) => 3,
            Status::Limit(_) => 4,
            Status::NoMemory => 5,
            Status::Log(_) => 6,
            Status::Stranger => 7,
        }
    }
}
