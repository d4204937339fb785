//! The offers that a look found, and copies of these offers.
ghost use Rattle.std.specs.Prelude.{◌≡◌, IfOk};
ghost use Rattle.tb_walk.specs.Helpers.Sights.{offer_of};

use std::alloc::Global;
use tb_code::Behind;
use tb_func::Store;
use tb_process_steps::{Offer, copy_own};
use tb_terms::{Items, NoMemory};

/// An offer that a look found.
#[derive(Drop)]
pub struct Sight {
    /// The index of the branch whose part has the atom.
    pub branch: usize,
    /// The position of the atom in the code.
    pub position: usize,
    /// The number of ticks that the atom has waited.
    pub age: u64,
    /// The number of the atom in the body, from 1.
    pub atom: u32,
    /// Whether all times of the atom held at the look.
    pub ready: bool,
    /// The effect on the branch's part when the atom happens.
    pub behind: Behind,
    /// The store that a `let` made for the offer; without one, its store is that of the process.
    pub own: Option<Store>,
}

impl Sight {
    /// Returns a copy in its own memory.
    fn copy(&self, alloc: Global) -> Result<Sight, NoMemory>
        ensures { IfOk result (λ copy. copy ≡ self.now) }
    {
        let own = copy_own(alloc, &self.own)?;
        Ok(Sight {
            branch: self.branch,
            position: self.position,
            atom: self.atom,
            age: self.age,
            ready: self.ready,
            behind: self.behind,
            own,
        })
    }

    /// Returns the offer without its store, its branch, and its position.
    pub(crate) fn offer(&self) -> Offer
        ensures { result ≡ offer_of self.now }
    {
        Offer {
            atom: self.atom,
            age: self.age,
            ready: self.ready,
        }
    }
}

/// Returns copies of the found offers, in the same order.
pub(crate) fn copy_sights(alloc: Global, sights: &Items<Sight>) -> Result<Items<Sight>, NoMemory>
    ensures { IfOk result (λ copies. copies ≡ sights.now) }
{
    let mut copies = Items::new(alloc);
    for sight in sights.as_slice() {
        copies.push(sight.copy(alloc)?)?;
    }
    Ok(copies)
}
