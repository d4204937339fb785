//! The reasons why a process has no expansion.

ghost use Rattle.std.specs.Prelude.{◌≡◌};
ghost use Rattle.tb_message.specs.Messages.{message_text};
ghost use Rattle.tb_expand.specs.Lines.{expand_line};

use std::alloc::{AllocError, AllocFailed};
use tb_message::Message;
use tb_terms::{Ident, Items, NoMemory};

/// A sequence of names of processes.
pub type Idents = Items<Ident>;

/// The reasons why a process has no expansion.
#[derive(Debug, Drop)]
pub enum ExpandFault {
    /// Calls form a cycle: each of these processes calls the next, and the last calls the first. The process that is defined first
    /// comes first. If there are several cycles, the error may name any of them.
    Recursion(Idents),
    /// The expansion of the process with this name has more than 20,000 atoms, or its tree has a depth of more than 1,000.
    TooLarge(Ident),
    /// The call ran out of memory. This error makes no claim about the script.
    NoMemory,
}

impl ExpandFault {
    /// Returns the message of the error.
    pub fn message(&self) -> Message<'_>
        ensures { message_text result ≡ expand_line self.now }
    {
        match self {
            ExpandFault::Recursion(names) => {
                Message::of_names(b"script: recursion ", names.as_slice())
            }
            ExpandFault::TooLarge(name) => Message::of_name(b"script: too large ", name),
            ExpandFault::NoMemory => Message::plain(b"no memory"),
        }
    }
}

impl From<NoMemory> for ExpandFault {
    ghost use Rattle.std.specs.Prelude.{◌≡◌};
    ghost use Rattle.tb_expand.specs.declared.fault.ExpandFault.TheVariants as fault;

    ghost from_gives = { λ _ fault_given. fault_given ≡ fault.NoMemory };

    fn from(_refused: NoMemory) -> ExpandFault {
        ExpandFault::NoMemory
    }
}

impl From<AllocError> for ExpandFault {
    ghost use Rattle.std.specs.Prelude.{◌≡◌};
    ghost use Rattle.tb_expand.specs.declared.fault.ExpandFault.TheVariants as fault;

    ghost from_gives = { λ _ fault_given. fault_given ≡ fault.NoMemory };

    fn from(_refused: AllocError) -> ExpandFault {
        ExpandFault::NoMemory
    }
}

impl<T: Drop> From<AllocFailed<T>> for ExpandFault {
    ghost use Rattle.std.specs.Prelude.{◌≡◌};
    ghost use Rattle.tb_expand.specs.declared.fault.ExpandFault.TheVariants as fault;

    ghost from_gives = { λ _ fault_given. fault_given ≡ fault.NoMemory };

    fn from(_refused: AllocFailed<T>) -> ExpandFault {
        ExpandFault::NoMemory
    }
}
