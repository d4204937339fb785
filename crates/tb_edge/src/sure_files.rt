//! Files in memory that never fail.
ghost use Rattle.std.specs.Prelude.{◌≡◌, [], IsOkUnless, IfOk};
ghost use Rattle.tb_edge.specs.InMemory.{surely_held_in, loaded_of, sure_files_after};

use crate::held_files::{held_in, load_bytes};
use crate::{Bytes, Files, FilesFault, HeldFiles, Loaded};
use sqlite_items::Items;
use std::alloc::Global;
use std::marker::Model;

/// Files in memory that never fail. If no file has the requested name, a call loads no bytes.
#[derive(Drop)]
pub struct SureFiles {
    held: HeldFiles,
    asked: Items<Bytes>,
}

impl Model for SureFiles {
    ghost use Rattle.tb_edge.specs.InMemory.{SureFilesView};

    ghost Value = { SureFilesView };

    ghost view = { λ files. record { held = files.held; asked = files.asked } };
}

impl SureFiles {
    pub fn new(alloc: Global, held: HeldFiles) -> SureFiles
        ensures { result ≡ record { held = held; asked = [] } }
    {
        SureFiles {
            held,
            asked: Items::new(alloc),
        }
    }

    /// Returns the number of failed calls, which is always 0.
    pub fn faults(&self) -> u64
        ensures { result ≡ 0 }
    {
        0
    }
}

impl Files for SureFiles {
    ghost use Rattle.std.specs.Prelude.{Some};
    ghost use Rattle.tb_edge.specs.InMemory.{surely_held_in};

    ghost faults = { λ _. 0 };

    ghost asked = { λ files. files.asked };

    ghost held = { λ files name. Some (surely_held_in files.held name) };

    fn load(&mut self, alloc: Global, name: &str, most: usize) -> Result<Loaded, FilesFault>
        ensures sure { IsOkUnless result FilesFault.NoMemory }
        ensures answer { IfOk result
            (λ loaded. loaded ≡ loaded_of most (surely_held_in self.old.held name.now)) }
        ensures after { self.new ≡ sure_files_after result self.old name.now }
    {
        let bytes = held_in(&self.held, name).unwrap_or(&[]);
        let loaded = load_bytes(alloc, bytes, most)?;
        let asked = Bytes::from_slice(alloc, name.as_bytes())?;
        self.asked.push(asked)?;
        Ok(loaded)
    }
}
