//! An offer as a look finds it: its atom, its age, and whether it is ready.

/// An atom that a process can do next.
#[derive(Clone, Copy, Debug, PartialEq, Eq)]
pub struct Offer {
    /// The number of the atom in the body, from 1.
    pub atom: u32,
    /// The number of ticks that the atom has waited.
    pub age: u64,
    /// Whether all times of the atom held at the look.
    pub ready: bool,
}
