//! The errors of a source that can't be tokenized.
ghost use Rattle.std.specs.Prelude.{◌≡◌};
ghost use Rattle.tb_message.specs.Messages.{message_text};
ghost use Rattle.tb_lex.specs.Lines.{lex_line};

use std::alloc::{AllocError, AllocFailed};
use tb_message::Message;
use tb_terms::NoMemory;
use thiserror::Error;

/// The first error, from the left, of a source that can't be tokenized. Positions are bytes counted from 0.
#[derive(Clone, Copy, Debug, Drop, Error, PartialEq, Eq)]
pub enum LexFault {
    /// The position of a byte that begins no token, or that can't continue a string. If a backslash in a string begins no escape,
    /// this is the backslash's position.
    #[error("byte {0}")]
    BadByte(usize),
    /// The position of the opening quote of a string that isn't closed before the end of its line or of the source.
    #[error("open string {0}")]
    OpenString(usize),
    /// The position of the first byte of a number that a point and a digit follow directly.
    #[error("real {0}")]
    Real(usize),
    /// The position of the first byte of a number that doesn't fit in 64 bits, and that no point and digit follow directly.
    #[error("integer {0}")]
    IntRange(usize),
    /// Something other than whitespace and comments follows 200,000 tokens.
    #[error("too many tokens")]
    TooMany,
    /// The call ran out of memory. This error makes no claim about the source.
    #[error("no memory")]
    NoMemory,
}

impl LexFault {
    /// Returns the message of the error: one line without its end.
    pub fn message(&self) -> Message<'static>
        ensures { message_text result ≡ lex_line self.now }
    {
        match self {
            LexFault::BadByte(at) => Message::numbered(b"script: byte ", *at),
            LexFault::OpenString(at) => Message::numbered(b"script: open string ", *at),
            LexFault::Real(at) => Message::numbered(b"script: real ", *at),
            LexFault::IntRange(at) => Message::numbered(b"script: integer ", *at),
            LexFault::TooMany => Message::plain(b"script: too many tokens"),
            LexFault::NoMemory => Message::plain(b"no memory"),
        }
    }
}

impl From<NoMemory> for LexFault {
    ghost use Rattle.std.specs.Prelude.{◌≡◌};
    ghost use Rattle.tb_lex.specs.declared.fault.LexFault.TheVariants.{NoMemory};

    ghost from_gives = { λ _ fault. fault ≡ NoMemory };

    fn from(_refused: NoMemory) -> LexFault {
        LexFault::NoMemory
    }
}

impl From<AllocError> for LexFault {
    ghost use Rattle.std.specs.Prelude.{◌≡◌};
    ghost use Rattle.tb_lex.specs.declared.fault.LexFault.TheVariants.{NoMemory};

    ghost from_gives = { λ _ fault. fault ≡ NoMemory };

    fn from(_refused: AllocError) -> LexFault {
        LexFault::NoMemory
    }
}

impl<T: Drop> From<AllocFailed<T>> for LexFault {
    ghost use Rattle.std.specs.Prelude.{◌≡◌};
    ghost use Rattle.tb_lex.specs.declared.fault.LexFault.TheVariants.{NoMemory};

    ghost from_gives = { λ _ fault. fault ≡ NoMemory };

    fn from(_refused: AllocFailed<T>) -> LexFault {
        LexFault::NoMemory
    }
}
