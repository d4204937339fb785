//! The errors of tokens that aren't a script within the limits.

ghost use Rattle.std.specs.Prelude.{◌≡◌};
ghost use Rattle.tb_message.specs.Messages.{message_text};
ghost use Rattle.tb_parse.specs.Lines.{parse_line};

use std::alloc::{AllocError, AllocFailed};
use tb_message::Message;
use tb_terms::NoMemory;
use thiserror::Error;

/// The error of tokens that aren't a script within the limits. Positions are tokens counted from 0.
#[derive(Clone, Copy, Debug, Drop, Error, PartialEq, Eq)]
pub enum ParseFault {
    /// The tokens spell no script: the position of the first token that can't continue a script. If all tokens are the beginning of
    /// a script, this is the number of tokens.
    #[error("syntax at token {0}")]
    Syntax(usize),
    /// The position of the first token after which more than 128 of `(`, `[`, `let`, and `if` are open. If no such token exists and
    /// the tokens spell a script, this is the first token of the first definition whose body is higher than 400.
    #[error("too deep at token {0}")]
    TooDeep(usize),
    /// The call ran out of memory. This error makes no claim about the tokens.
    #[error("no memory")]
    NoMemory,
}

impl ParseFault {
    /// Returns the message of the error: one line without its end.
    pub fn message(&self) -> Message<'static>
        ensures { message_text result ≡ parse_line self.now }
    {
        match self {
            ParseFault::Syntax(token) => Message::numbered(b"script: syntax at token ", *token),
            ParseFault::TooDeep(token) => Message::numbered(b"script: too deep at token ", *token),
            ParseFault::NoMemory => Message::plain(b"no memory"),
        }
    }
}

impl From<NoMemory> for ParseFault {
    ghost use Rattle.std.specs.Prelude.{◌≡◌};
    ghost use Rattle.tb_parse.specs.declared.fault.ParseFault.TheVariants.{NoMemory};

    ghost from_gives = { λ _ fault. fault ≡ NoMemory };

    fn from(_refused: NoMemory) -> ParseFault {
        ParseFault::NoMemory
    }
}

impl From<AllocError> for ParseFault {
    ghost use Rattle.std.specs.Prelude.{◌≡◌};
    ghost use Rattle.tb_parse.specs.declared.fault.ParseFault.TheVariants.{NoMemory};

    ghost from_gives = { λ _ fault. fault ≡ NoMemory };

    fn from(_refused: AllocError) -> ParseFault {
        ParseFault::NoMemory
    }
}

impl<T: Drop> From<AllocFailed<T>> for ParseFault {
    ghost use Rattle.std.specs.Prelude.{◌≡◌};
    ghost use Rattle.tb_parse.specs.declared.fault.ParseFault.TheVariants.{NoMemory};

    ghost from_gives = { λ _ fault. fault ≡ NoMemory };

    fn from(_refused: AllocFailed<T>) -> ParseFault {
        ParseFault::NoMemory
    }
}
