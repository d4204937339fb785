//! The trait of files, from which bytes are read by name.
ghost use Rattle.std.specs.Prelude.{◌≡◌, ℕ, ◌^◌, ◌<◌, ◌≤◌, List, Option, IfOk, IsErrOf};
ghost use Rattle.tb_edge.specs.Faults.{Rose};
ghost use Rattle.tb_edge.specs.FilesHeld.{IsWithin, IsOf, asked_after};

use sqlite_items::Items;
use std::alloc::{AllocError, AllocFailed, Global};
use tb_terms::NoMemory;

/// The bytes of a file. Contracts see a list of bytes.
pub type Bytes = Items<u8>;

/// The content of a file, or its length.
#[derive(Drop)]
pub enum Loaded {
    /// All bytes of the file.
    Bytes(Bytes),
    /// The number of bytes, which is above the limit of the call.
    TooLong(usize),
}

/// Why a file was not loaded.
#[derive(Clone, Copy, Debug, PartialEq, Eq)]
pub enum FilesFault {
    /// No file of this name could be read.
    Failed,
    /// Out of memory.
    NoMemory,
}

impl From<NoMemory> for FilesFault {
    ghost use Rattle.std.specs.Prelude.{◌≡◌};
    ghost use Rattle.tb_edge.specs.declared.files.FilesFault.TheVariants.{NoMemory};

    ghost from_gives = { λ _ fault. fault ≡ NoMemory };

    fn from(_refused: NoMemory) -> FilesFault {
        FilesFault::NoMemory
    }
}

impl From<AllocError> for FilesFault {
    ghost use Rattle.std.specs.Prelude.{◌≡◌};
    ghost use Rattle.tb_edge.specs.declared.files.FilesFault.TheVariants.{NoMemory};

    ghost from_gives = { λ _ fault. fault ≡ NoMemory };

    fn from(_refused: AllocError) -> FilesFault {
        FilesFault::NoMemory
    }
}

impl<T: Drop> From<AllocFailed<T>> for FilesFault {
    ghost use Rattle.std.specs.Prelude.{◌≡◌};
    ghost use Rattle.tb_edge.specs.declared.files.FilesFault.TheVariants.{NoMemory};

    ghost from_gives = { λ _ fault. fault ≡ NoMemory };

    fn from(_refused: AllocFailed<T>) -> FilesFault {
        FilesFault::NoMemory
    }
}

/// Files, each of which has a name.
pub trait Files {
    // The number of failed calls so far.
    ghost faults: { Self → ℕ };

    // The names of the files that were requested so far, in order.
    ghost asked: { Self → List (List ℕ) };

    // The bytes of the file with a name, if the files report them.
    ghost held: { Self → List ℕ → Option (List ℕ) };

    /// Reads the file with this name, if it has at most `most` bytes. Otherwise, returns its length.
    fn load(&mut self, alloc: Global, name: &str, most: usize) -> Result<Loaded, FilesFault>
        ensures within { IfOk result (IsWithin most) }
        ensures held { IfOk result (IsOf (held self.old name.now)) }
        ensures held_stays { held self.new ≡ held self.old }
        ensures asked { asked self.new ≡ asked_after result (asked self.old) name.now }
        ensures memory_stays { IsErrOf result FilesFault.NoMemory
            → faults self.new ≡ faults self.old }
        ensures rose { IsErrOf result FilesFault.Failed → Rose (faults self.old) (faults self.new) }
        ensures never_falls { faults self.old ≤ faults self.new }
        ensures fits { faults self.old < 2 ^ 64 → faults self.new < 2 ^ 64 };
}
