//! The entries of processes and of their offers.

use crate::reason::Reason;
use tb_terms::Items;

/// The entry of an offer: an atom that a process can do next, with the reason why it can't happen.
#[derive(Clone, Copy)]
pub struct Stall {
    /// The number of the atom in the body, from 1.
    pub atom: u32,
    /// The condition of the atom that fails; `None` if no condition fails.
    pub reason: Option<Reason>,
}

/// The entry of a living process.
#[derive(Drop)]
pub struct Waiter {
    /// The number of the process.
    pub number: u32,
    /// The index of its body, from 0.
    pub body: u32,
    /// An entry for each offer, in text order. There is no offer if each way to an atom is barred: by a test that has no value or is false
    /// without an `else`, or by a call with an argument that has no value of the type of its parameter.
    pub stalls: Items<Stall>,
}
