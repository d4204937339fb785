//! Atoms of a body, and the conditions on the time at which they can happen.
ghost use Rattle.std.specs.Prelude.{◌≡◌, IfOk};

use crate::Act;
use std::alloc::Global;
use tb_terms::{Expr, Items, NoMemory};

/// The kind of a time condition: the count of ticks, and whether it is a lower or an upper bound.
#[derive(Clone, Copy, Debug, PartialEq, Eq)]
pub enum TimeKind {
    /// A lower bound: the atom has waited at least this many ticks.
    Delay,
    /// An upper bound: the atom has waited at most this many ticks.
    Timeout,
    /// A lower bound: the bus has counted at least this many ticks.
    AbsDelay,
    /// An upper bound: the bus has counted at most this many ticks.
    AbsTimeout,
}

/// A condition on the time at which an atom can happen. The value is a number of ticks.
#[derive(Drop)]
pub struct Time {
    /// The kind of the condition.
    pub kind: TimeKind,
    /// The number of ticks.
    pub value: Expr,
}

/// Time conditions that must all hold.
pub type Times = Items<Time>;

/// An atom of a body: its action and its time conditions.
#[derive(Drop)]
pub struct Atom {
    /// The action of the atom.
    pub act: Act,
    /// The time conditions of the atom.
    pub times: Times,
}

/// The atoms of a body. The atom with number n is at position n - 1.
pub type Atoms = Items<Atom>;

impl Time {
    /// Returns an equal time condition in memory of its own.
    pub fn copy(&self, alloc: Global) -> Result<Time, NoMemory>
        ensures { IfOk result (λ copy. copy ≡ self.now) }
    {
        let value = self.value.copy(alloc)?;
        Ok(Time {
            kind: self.kind,
            value,
        })
    }
}

impl Atom {
    /// Returns an equal atom in memory of its own.
    pub fn copy(&self, alloc: Global) -> Result<Atom, NoMemory>
        ensures { IfOk result (λ copy. copy ≡ self.now) }
    {
        let times = copy_times(alloc, &self.times)?;
        let act = self.act.copy(alloc)?;
        Ok(Atom { act, times })
    }
}

fn copy_times(alloc: Global, times: &Times) -> Result<Times, NoMemory>
    ensures { IfOk result (λ copies. copies ≡ times.now) }
{
    let mut copies = Items::new(alloc);
    for time in times.as_slice() {
        copies.push(time.copy(alloc)?)?;
    }
    Ok(copies)
}

/// Returns a copy of these atoms, in the same order.
pub fn copy_atoms(alloc: Global, atoms: &Atoms) -> Result<Atoms, NoMemory>
    ensures { IfOk result (λ copies. copies ≡ atoms.now) }
{
    let mut copies = Items::new(alloc);
    for atom in atoms.as_slice() {
        copies.push(atom.copy(alloc)?)?;
    }
    Ok(copies)
}
