//! The offers of a process.

use tb_terms::{Items, Patterns, Terms};

/// An offer: an atom that a process can do next, as far as the process alone determines this.
#[derive(Drop)]
pub struct Offering {
    /// The number of the atom in the body, from 1.
    pub atom: u32,
    /// The number of ticks that the atom has waited.
    pub age: u64,
    /// Whether all times of the atom hold.
    pub ready: bool,
    /// The values of the atom's expressions. `None` if an expression has no value, or if all values together are too large.
    pub sent: Option<Terms>,
    /// The patterns with which the atom receives or looks for terms. `None` if a part of a pattern has no value.
    pub patterns: Option<Patterns>,
}

/// A living process with its offers.
#[derive(Drop)]
pub struct Standing {
    /// The number of the process.
    pub number: u32,
    /// The index of its body, from 0.
    pub body: u32,
    /// The offers, in text order.
    pub offers: Items<Offering>,
}
