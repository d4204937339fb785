//! The variables of a process.
ghost use Rattle.std.specs.Prelude.{◌≡◌, ◌<◌, Some, IsTrue, IfOk, length, map};
ghost use Rattle.std.specs.Option.{ForSome, option_copied};
ghost use Rattle.tb_terms.specs.Sorts.{has_sort};
ghost use Rattle.tb_func.specs.Stores.{are_well_sorted, fresh_slot, sort_at, value_at, with_value};

use crate::Slot;
use std::alloc::Global;
use std::marker::Model;
use tb_terms::{NoMemory, Sort, Sorts, Term, initial};

/// The variables of a process, by slot. Contracts see a store as the list of its slots.
#[derive(Drop)]
pub struct Store {
    slots: Vec<Slot>,
}

impl Model for Store {
    ghost use Rattle.std.specs.Prelude.{List, IsTrue};
    ghost use Rattle.tb_func.specs.declared.slot.Slot.{Slot};
    ghost use Rattle.tb_func.specs.Stores.{are_well_sorted};
    ghost use Rattle.std.specs.Coded.{codes};
    ghost use Rattle.tb_terms.specs.contracts.term.Term as term;
    ghost use Rattle.tb_terms.specs.contracts.sort.Sort as sort;

    ghost Value = { List Slot };

    ghost coded = { Prim.hlevel (codes, sort.the_row.coded, term.the_row.coded) };

    ghost view = { λ store. store.slots.items };

    ghost invariant = { λ store. IsTrue (are_well_sorted store.slots.items) };
}

impl Store {
    /// Returns a store with a slot for each of these types, in order. Each slot holds the initial value of its type.
    pub fn fresh(alloc: Global, sorts: &Sorts) -> Result<Store, NoMemory>
        ensures { IfOk result (λ store. store ≡ map fresh_slot sorts.now) }
    {
        let mut slots = Vec::new(alloc);
        for sort in sorts.as_slice() {
            let value = initial(alloc, sort)?;
            let sort = sort.copy(alloc)?;
            slots.push(Slot { sort, value })?;
        }
        Ok(Store { slots })
    }

    /// Returns the value at this slot.
    pub fn value(&self, slot: u32) -> &Term
        requires { slot < length self.now }
        ensures value { value_at self.now slot ≡ Some result.now }
        ensures well_sorted { IsTrue (are_well_sorted self.now) }
    {
        &self.slots[slot as usize].value
    }

    /// Returns the value at this slot, or `None` if the slot doesn't exist.
    pub fn get(&self, slot: u32) -> Option<&Term>
        ensures { option_copied result ≡ value_at self.now slot }
    {
        let position = slot as usize;
        if position < self.slots.len() {
            Some(&self.slots[position].value)
        } else {
            None
        }
    }

    /// Returns the type of this slot.
    pub fn sort(&self, slot: u32) -> &Sort
        requires { slot < length self.now }
        ensures { sort_at self.now slot ≡ Some result.now }
    {
        &self.slots[slot as usize].sort
    }

    /// Returns the type of this slot, or `None` if the slot doesn't exist.
    pub fn get_sort(&self, slot: u32) -> Option<&Sort>
        ensures { option_copied result ≡ sort_at self.now slot }
    {
        let position = slot as usize;
        if position < self.slots.len() {
            Some(&self.slots[position].sort)
        } else {
            None
        }
    }

    /// Replaces the value at this slot.
    pub fn set(&mut self, slot: u32, t: Term)
        requires in_range { slot < length self.old }
        requires well_sorted { ForSome (sort_at self.old slot) (λ sort. IsTrue (has_sort t sort)) }
        ensures { self.new ≡ with_value self.old slot t }
    {
        self.slots[slot as usize].value = t;
    }

    /// Returns the same store in memory of its own.
    pub fn copy(&self, alloc: Global) -> Result<Store, NoMemory>
        ensures { IfOk result (λ store. store ≡ self.now) }
    {
        let mut slots = Vec::new(alloc);
        for slot in &self.slots {
            let value = slot.value.copy(alloc)?;
            let sort = slot.sort.copy(alloc)?;
            slots.push(Slot { sort, value })?;
        }
        Ok(Store { slots })
    }
}
