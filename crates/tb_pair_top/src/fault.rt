//! The errors of a pair.
use crate::status::{PairEdge, PairStatus};
use tb_cli::WordFault;
use tb_message::Message;
use tb_script::ScriptFault;

/// The error of a pair. If the error's line can't be written, the program ends with another `PairStatus`: `Outside(Err)`.
#[derive(Drop)]
pub enum PairFault {
    /// One of the two scripts was rejected. Out of memory is never a reason for this.
    Script(ScriptFault),
    /// The arguments were rejected. Out of memory is never a reason for this.
    Words(WordFault),
    /// A file could not be read.
    File,
    /// The logs could not be written.
    Out,
    /// The clock failed. The rest of the run is complete.
    Clock,
    /// There are too few threads.
    Crew,
    /// One of the two logs had no capacity for the next entry.
    Limit,
    /// Memory ran out.
    NoMemory,
}

impl PairFault {
    ghost use Rattle.std.specs.Prelude.{◌≡◌};
    ghost use Rattle.tb_message.specs.Messages.{message_text};
    ghost use Rattle.tb_pair_top.specs.Lines.{fault_words};
    ghost use Rattle.tb_pair_top.specs.Statuses.{status_of};

    /// Returns the status with which the program ends.
    pub fn status(self) -> PairStatus
        ensures { result ≡ status_of self }
    {
        match self {
            PairFault::Script(fault) => PairStatus::Script(fault),
            PairFault::Words(fault) => PairStatus::Words(fault),
            PairFault::File => PairStatus::Outside(PairEdge::File),
            PairFault::Out => PairStatus::Outside(PairEdge::Out),
            PairFault::Clock => PairStatus::Outside(PairEdge::Clock),
            PairFault::Crew => PairStatus::Outside(PairEdge::Crew),
            PairFault::Limit => PairStatus::Limit,
            PairFault::NoMemory => PairStatus::NoMemory,
        }
    }

    /// Returns the message of the error's line on standard error.
    pub fn message(&self) -> Message<'_>
        ensures { message_text result ≡ fault_words self.now }
    {
        match self {
            PairFault::Script(fault) => fault.message(),
            PairFault::Words(fault) => fault.message(),
            PairFault::File => Message::plain(b"outside: file"),
            PairFault::Out => Message::plain(b"outside: out"),
            PairFault::Clock => Message::plain(b"outside: clock"),
            PairFault::Crew => Message::plain(b"outside: crew"),
            PairFault::Limit => Message::plain(b"limit: events"),
            PairFault::NoMemory => Message::plain(b"no memory"),
        }
    }
}
