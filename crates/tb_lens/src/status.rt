//! The status of the program, and the reasons why a command fails.

use std::alloc::{AllocError, AllocFailed};
use tb_terms::NoMemory;

/// The status with which a call of the program ends.
#[derive(Clone, Copy, Debug, PartialEq, Eq)]
pub enum Status {
    /// The command was executed, and found no error.
    Fine,
    /// An error in an input was found and reported.
    Found,
    /// The arguments are wrong, or the command failed.
    Trouble,
}

impl Status {
    ghost use Rattle.std.specs.Prelude.{◌≡◌};
    ghost use Rattle.tb_lens.specs.Statuses.{status_number};

    /// Returns the exit status of the program.
    pub fn number(&self) -> u8
        ensures { result ≡ status_number self.now }
    {
        match self {
            Status::Fine => 0,
            Status::Found => 1,
            Status::Trouble => 2,
        }
    }
}

/// The reason why a command failed.
#[derive(Drop)]
pub enum Trouble {
    /// The file of this name can't be read.
    File(String),
    /// The file of this name is too long. For `why`, also a log that passes the limits of a log.
    TooLong(String),
    /// The script in the file of this name is rejected.
    Script(String),
    /// A command to connect isn't a text, or there are more than 16 commands.
    Connect,
    /// The standard input can't be read.
    Input,
    /// A write to the standard output failed.
    Out,
    /// Memory ran out.
    NoMemory,
}

impl From<NoMemory> for Trouble {
    ghost use Rattle.std.specs.Prelude.{◌≡◌};
    ghost use Rattle.tb_lens.specs.declared.status.Trouble.TheVariants.{NoMemory};

    ghost from_gives = { λ _ trouble. trouble ≡ NoMemory };

    fn from(_refused: NoMemory) -> Trouble {
        Trouble::NoMemory
    }
}

impl From<AllocError> for Trouble {
    ghost use Rattle.std.specs.Prelude.{◌≡◌};
    ghost use Rattle.tb_lens.specs.declared.status.Trouble.TheVariants.{NoMemory};

    ghost from_gives = { λ _ trouble. trouble ≡ NoMemory };

    fn from(_refused: AllocError) -> Trouble {
        Trouble::NoMemory
    }
}

impl<T: Drop> From<AllocFailed<T>> for Trouble {
    ghost use Rattle.std.specs.Prelude.{◌≡◌};
    ghost use Rattle.tb_lens.specs.declared.status.Trouble.TheVariants.{NoMemory};

    ghost from_gives = { λ _ trouble. trouble ≡ NoMemory };

    fn from(_refused: AllocFailed<T>) -> Trouble {
        Trouble::NoMemory
    }
}
