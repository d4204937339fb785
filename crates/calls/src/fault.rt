//! The reasons why a call wasn't made.
use std::alloc::{AllocError, AllocFailed};
use tb_lex::LexFault;
use tb_parse::ParseFault;
use tb_terms::NoMemory;
use tb_types::CheckFault;

/// Why a call wasn't made.
#[derive(Clone, Copy)]
pub(crate) enum Fault {
    /// The line isn't a call.
    Line,
    /// An argument isn't valid for the call, or memory ran out while the argument was read.
    Argument,
    /// Memory ran out.
    NoMemory,
}

impl Fault {
    pub(crate) fn word(&self) -> &'static str {
        match self {
            Fault::Line => "no call",
            Fault::Argument => "no such argument",
            Fault::NoMemory => "no memory",
        }
    }
}

impl From<NoMemory> for Fault {
    fn from(_refused: NoMemory) -> Fault {
        Fault::NoMemory
    }
}

impl From<AllocError> for Fault {
    fn from(_refused: AllocError) -> Fault {
        Fault::NoMemory
    }
}

impl<T: Drop> From<AllocFailed<T>> for Fault {
    fn from(_refused: AllocFailed<T>) -> Fault {
        Fault::NoMemory
    }
}

impl From<LexFault> for Fault {
    fn from(_refused: LexFault) -> Fault {
        Fault::Argument
    }
}

impl From<ParseFault> for Fault {
    fn from(_refused: ParseFault) -> Fault {
        Fault::Argument
    }
}

impl From<CheckFault> for Fault {
    fn from(_refused: CheckFault) -> Fault {
        Fault::Argument
    }
}
