//! The errors of a command.
ghost use Rattle.std.specs.Prelude.{◌≡◌};
ghost use Rattle.tb_message.specs.Messages.{message_text};
ghost use Rattle.tb_top.specs.Lines.{bound_words, log_words};
ghost use Rattle.tb_top.specs.Helpers.Parts.{EndsAs};

use crate::status::{Bound, Edge, LogWrong, Status};
use tb_cli::WordFault;
use tb_feed::FeedFault;
use tb_message::Message;
use tb_script::ScriptFault;
use tb_sim::SimEnd;

/// The error of a command. If the error's line can't be written, the program ends with another `Status`: `Outside(Err)`.
#[derive(Drop)]
pub enum Fault {
    /// The script was rejected. Out of memory is never a reason for this.
    Script(ScriptFault),
    /// The feed was rejected. Out of memory is never a reason for this.
    Feed(FeedFault),
    /// The arguments were rejected. Out of memory is never a reason for this.
    Words(WordFault),
    /// A file could not be read.
    File,
    /// The output could not be written.
    Out,
    /// The clock failed. The rest of the run is complete.
    Clock,
    /// There are too few threads.
    Crew,
    /// A limit was reached.
    Limit(Bound),
    /// Memory ran out.
    NoMemory,
    /// The log was rejected.
    Log(LogWrong),
    /// The script has no such tool.
    Stranger,
}

impl Fault {
    ghost use Rattle.std.specs.Prelude.{◌≡◌};
    ghost use Rattle.tb_message.specs.Messages.{message_text};
    ghost use Rattle.tb_top.specs.Lines.{fault_words, bound_words, log_words};
    ghost use Rattle.tb_top.specs.Statuses.{status_of};

    /// Returns the status with which the program ends.
    pub fn status(self) -> Status
        ensures { result ≡ status_of self }
    {
        match self {
            Fault::Script(fault) => Status::Script(fault),
            Fault::Feed(fault) => Status::Feed(fault),
            Fault::Words(fault) => Status::Words(fault),
            Fault::File => Status::Outside(Edge::File),
            Fault::Out => Status::Outside(Edge::Out),
            Fault::Clock => Status::Outside(Edge::Clock),
            Fault::Crew => Status::Outside(Edge::Crew),
            Fault::Limit(bound) => Status::Limit(bound),
            Fault::NoMemory => Status::NoMemory,
            Fault::Log(wrong) => Status::Log(wrong),
            Fault::Stranger => Status::Stranger,
        }
    }

    /// Returns the message of the error's line on standard error.
    pub fn message(&self) -> Message<'_>
        ensures { message_text result ≡ fault_words self.now }
    {
        match self {
            Fault::Script(fault) => fault.message(),
            Fault::Feed(fault) => fault.message(),
            Fault::Words(fault) => fault.message(),
            Fault::File => Message::plain(b"outside: file"),
            Fault::Out => Message::plain(b"outside: out"),
            Fault::Clock => Message::plain(b"outside: clock"),
            Fault::Crew => Message::plain(b"outside: crew"),
            Fault::Limit(bound) => bound_line(*bound),
            Fault::NoMemory => Message::plain(b"no memory"),
            Fault::Log(wrong) => log_line(*wrong),
            Fault::Stranger => Message::plain(b"tool: stranger"),
        }
    }
}

fn bound_line(bound: Bound) -> Message<'static>
    ensures { message_text result ≡ bound_words bound }
{
    match bound {
        Bound::Steps => Message::plain(b"limit: steps"),
        Bound::Events => Message::plain(b"limit: events"),
    }
}

fn log_line(wrong: LogWrong) -> Message<'static>
    ensures { message_text result ≡ log_words wrong }
{
    match wrong {
        LogWrong::Line(number) => Message::numbered(b"log: line ", number as usize),
        LogWrong::TooLong(len) => Message::numbered(b"log: too long ", len),
    }
}

/// Returns the result of the command after a simulation with this end, if the whole output was written.
pub fn after_end(end: SimEnd) -> Result<(), Fault>
    ensures { EndsAs end result }
{
    match end {
        SimEnd::Down => Ok(()),
        SimEnd::Steps => Err(Fault::Limit(Bound::Steps)),
        SimEnd::Events => Err(Fault::Limit(Bound::Events)),
    }
}
