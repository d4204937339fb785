//! The interface of a tool, and the errors of `interface`.

use tb_terms::{NoMemory, Patterns, Text};

/// The interface of a tool: the lines that the program may send to the tool or take from it.
#[derive(Drop)]
pub struct Interface {
    /// The command that starts the tool, if it has one.
    pub command: Option<Text>,
    /// The patterns of the lines that the tool may receive, each pattern once.
    pub to: Patterns,
    /// The patterns of the lines that a process may take from the tool, each pattern once.
    pub from: Patterns,
}

/// The reason why there is no interface.
#[derive(Clone, Copy, Debug, PartialEq, Eq)]
pub enum IfaceFault {
    /// The program declares no tool of this name.
    Stranger,
    /// Out of memory. This makes no claim about the program.
    NoMemory,
}

impl From<NoMemory> for IfaceFault {
    ghost use Rattle.std.specs.Prelude.{◌≡◌};
    ghost use Rattle.tb_iface.specs.declared.answer.IfaceFault.TheVariants.{NoMemory};

    ghost from_gives = { λ _ fault. fault ≡ NoMemory };

    fn from(_refused: NoMemory) -> IfaceFault {
        IfaceFault::NoMemory
    }
}
