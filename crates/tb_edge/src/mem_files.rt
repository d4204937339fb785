//! Files in memory whose loads fail in given calls.
ghost use Rattle.std.specs.Prelude.{◌≡◌, ◌≤◌, []};
ghost use Rattle.tb_edge.specs.InMemory.{IsUnlessNoMemory, mem_answer, mem_files_after};

use crate::fail_calls::fails_at;
use crate::held_files::load_held;
use crate::{Bytes, FailCalls, Files, FilesFault, HeldFiles, Loaded};
use sqlite_items::Items;
use std::alloc::Global;
use std::marker::Model;

/// Files in memory. A call fails if its number is one of the given numbers, or if there is no file with its name. The number of a call
/// is one more than the number of names that were requested before. So a call that is out of memory has no number.
#[derive(Drop)]
pub struct MemFiles {
    held: HeldFiles,
    fails: FailCalls,
    asked: Items<Bytes>,
    faults: u64,
}

impl Model for MemFiles {
    ghost use Rattle.tb_edge.specs.InMemory.{MemFilesView};

    ghost Value = { MemFilesView };

    ghost view = { λ files. record {
      held = files.held;
      fails = files.fails;
      asked = files.asked;
      faults = files.faults;
    } };
}

impl MemFiles {
    pub fn new(alloc: Global, held: HeldFiles, fails: FailCalls) -> MemFiles
        ensures { result ≡ record { held = held; fails = fails; asked = []; faults = 0 } }
    {
        MemFiles {
            held,
            fails,
            asked: Items::new(alloc),
            faults: 0,
        }
    }

    /// Returns the number of failed calls so far.
    pub fn faults(&self) -> u64
        ensures { result ≡ self.now.faults }
    {
        self.faults
    }
}

impl Files for MemFiles {
    ghost use Rattle.tb_edge.specs.InMemory.{held_in};

    ghost faults = { λ files. files.faults };

    ghost asked = { λ files. files.asked };

    ghost held = { λ files name. held_in files.held name };

    fn load(&mut self, alloc: Global, name: &str, most: usize) -> Result<Loaded, FilesFault>
        ensures never_falls { self.old.faults ≤ self.new.faults }
        ensures answer { IsUnlessNoMemory result (mem_answer self.old name.now most) }
        ensures after { self.new ≡ mem_files_after result self.old name.now }
    {
        let loaded = load_held(alloc, &self.held, name, most)?;
        let asked = Bytes::from_slice(alloc, name.as_bytes())?;
        self.asked.push(asked)?;
        match loaded {
            Some(loaded) if !fails_at(&self.fails, self.asked.len() as u64) => Ok(loaded),
            _ => {
                self.faults = self.faults.saturating_add(1);
                Err(FilesFault::Failed)
            }
        }
    }
}
