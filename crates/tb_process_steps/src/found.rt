//! The offers that a look found, each with the store that a `let` made for it, and copies of these offers.
ghost use Rattle.std.specs.Prelude.{◌≡◌, IfOk};
ghost use Rattle.tb_process_steps.specs.Helpers.Candidates.{offer_of};

use crate::Offer;
use std::alloc::Global;
use tb_func::Store;
use tb_terms::{Items, NoMemory};

/// An offer that a look found.
#[derive(Drop)]
pub struct Found {
    /// The number of the atom in the body, from 1.
    pub atom: u32,
    /// The number of ticks that the atom has waited.
    pub age: u64,
    /// Whether all times of the atom held at the look.
    pub ready: bool,
    /// The store that a `let` made for the offer; without one, its store is that of the process.
    pub own: Option<Store>,
}

impl Found {
    /// Returns a copy in its own memory.
    fn copy(&self, alloc: Global) -> Result<Found, NoMemory>
        ensures { IfOk result (λ copy. copy ≡ self.now) }
    {
        let own = copy_own(alloc, &self.own)?;
        Ok(Found {
            atom: self.atom,
            age: self.age,
            ready: self.ready,
            own,
        })
    }

    /// Returns the offer without its store.
    pub fn offer(&self) -> Offer
        ensures { result ≡ offer_of self.now }
    {
        Offer {
            atom: self.atom,
            age: self.age,
            ready: self.ready,
        }
    }
}

/// Returns a copy of the store, if there is one.
pub fn copy_own(alloc: Global, own: &Option<Store>) -> Result<Option<Store>, NoMemory>
    ensures { IfOk result (λ copy. copy ≡ own.now) }
{
    match own {
        Some(store) => Ok(Some(store.copy(alloc)?)),
        None => Ok(None),
    }
}

/// Returns copies of the found offers, in the same order.
pub fn copy_candidates(alloc: Global, candidates: &Items<Found>) -> Result<Items<Found>, NoMemory>
    ensures { IfOk result (λ copies. copies ≡ candidates.now) }
{
    let mut copies = Items::new(alloc);
    for found in candidates.as_slice() {
        copies.push(found.copy(alloc)?)?;
    }
    Ok(copies)
}
