//! The reasons why a source has no program.
ghost use Rattle.std.specs.Prelude.{◌≡◌};
ghost use Rattle.tb_message.specs.Messages.{message_text};
ghost use Rattle.tb_script.specs.Lines.{script_line};

use std::alloc::{AllocError, AllocFailed};
use tb_expand::ExpandFault;
use tb_lex::LexFault;
use tb_message::Message;
use tb_parse::ParseFault;
use tb_terms::NoMemory;
use tb_types::CheckFault;

/// The reason why a source has no program. Each part of the loader reports out of memory as `NoMemory`.
#[derive(Debug, Drop)]
pub enum ScriptFault {
    /// The source has no tokens within the limit. The error inside is never `NoMemory`.
    Lex(LexFault),
    /// The tokens don't parse as a script within the limits. The error inside is never `NoMemory`.
    Parse(ParseFault),
    /// The script fails one of the nine conditions. The error inside is never `NoMemory`.
    Check(CheckFault),
    /// Calls form a cycle, or an expansion is too large. The error inside is never `NoMemory`.
    Expand(ExpandFault),
    /// The script has this many roots, more than 10,000.
    Roots(usize),
    /// The source has this many bytes, more than 1,048,576. `load` never returns this error, since it reads any number of bytes.
    TooLong(usize),
    /// The script has a form that isn't implemented. The number is the position of its first token, from 0. `load` never returns this
    /// error, since each form is implemented.
    NotBuilt(usize),
    /// Memory ran out. This states nothing about the script.
    NoMemory,
}

impl ScriptFault {
    /// Returns the text of the error's line.
    pub fn message(&self) -> Message<'_>
        ensures { message_text result ≡ script_line self.now }
    {
        match self {
            ScriptFault::Lex(fault) => fault.message(),
            ScriptFault::Parse(fault) => fault.message(),
            ScriptFault::Check(fault) => fault.message(),
            ScriptFault::Expand(fault) => fault.message(),
            ScriptFault::Roots(count) => Message::numbered(b"script: too many processes ", *count),
            ScriptFault::TooLong(bytes) => Message::numbered(b"script: too long ", *bytes),
            ScriptFault::NotBuilt(token) => Message::numbered(
                b"script: not built at token ",
                *token,
            ),
            ScriptFault::NoMemory => Message::plain(b"no memory"),
        }
    }
}

impl From<NoMemory> for ScriptFault {
    ghost use Rattle.std.specs.Prelude.{◌≡◌};
    ghost use Rattle.tb_script.specs.declared.fault.ScriptFault.TheVariants.{NoMemory};

    ghost from_gives = { λ _ fault. fault ≡ NoMemory };

    fn from(_refused: NoMemory) -> ScriptFault {
        ScriptFault::NoMemory
    }
}

impl From<AllocError> for ScriptFault {
    ghost use Rattle.std.specs.Prelude.{◌≡◌};
    ghost use Rattle.tb_script.specs.declared.fault.ScriptFault.TheVariants.{NoMemory};

    ghost from_gives = { λ _ fault. fault ≡ NoMemory };

    fn from(_refused: AllocError) -> ScriptFault {
        ScriptFault::NoMemory
    }
}

impl<T: Drop> From<AllocFailed<T>> for ScriptFault {
    ghost use Rattle.std.specs.Prelude.{◌≡◌};
    ghost use Rattle.tb_script.specs.declared.fault.ScriptFault.TheVariants.{NoMemory};

    ghost from_gives = { λ _ fault. fault ≡ NoMemory };

    fn from(_refused: AllocFailed<T>) -> ScriptFault {
        ScriptFault::NoMemory
    }
}
