//! The reasons why a text is no feed.
ghost use Rattle.std.specs.Prelude.{◌≡◌};
ghost use Rattle.tb_message.specs.Messages.{message_text};
ghost use Rattle.tb_feed.specs.Lines.{feed_line};

use std::alloc::{AllocError, AllocFailed};
use tb_message::Message;
use tb_terms::NoMemory;

/// Why a text is no feed.
#[derive(Clone, Copy, Debug, PartialEq, Eq)]
pub enum FeedFault {
    /// The number of the first line, from 1, that isn't empty and has no input.
    Line(u64),
    /// The text has this number of bytes, which is too large. The caller that reads the file reports this, and no call of this crate.
    TooLong(usize),
    /// Out of memory. This says nothing of the text.
    NoMemory,
}

impl FeedFault {
    /// Returns the message of the line on standard error.
    pub fn message(&self) -> Message<'static>
        ensures { message_text result ≡ feed_line self.now }
    {
        match self {
            FeedFault::Line(number) => Message::numbered(b"feed: line ", *number as usize),
            FeedFault::TooLong(bytes) => Message::numbered(b"feed: too long ", *bytes),
            FeedFault::NoMemory => Message::plain(b"no memory"),
        }
    }
}

impl From<NoMemory> for FeedFault {
    ghost use Rattle.std.specs.Prelude.{◌≡◌};
    ghost use Rattle.tb_feed.specs.declared.fault.FeedFault.TheVariants.{NoMemory};

    ghost from_gives = { λ _ fault. fault ≡ NoMemory };

    fn from(_refused: NoMemory) -> FeedFault {
        FeedFault::NoMemory
    }
}

impl From<AllocError> for FeedFault {
    ghost use Rattle.std.specs.Prelude.{◌≡◌};
    ghost use Rattle.tb_feed.specs.declared.fault.FeedFault.TheVariants.{NoMemory};

    ghost from_gives = { λ _ fault. fault ≡ NoMemory };

    fn from(_refused: AllocError) -> FeedFault {
        FeedFault::NoMemory
    }
}

impl<T: Drop> From<AllocFailed<T>> for FeedFault {
    ghost use Rattle.std.specs.Prelude.{◌≡◌};
    ghost use Rattle.tb_feed.specs.declared.fault.FeedFault.TheVariants.{NoMemory};

    ghost from_gives = { λ _ fault. fault ≡ NoMemory };

    fn from(_refused: AllocFailed<T>) -> FeedFault {
        FeedFault::NoMemory
    }
}
