//! The entries of a list: the atoms that can be next at a position, and the gates.
use crate::Behind;

/// An entry of a list: an atom that can be next, or a gate.
#[derive(Clone, Copy)]
pub struct Entry {
    /// The position of the atom or the gate.
    pub position: usize,
    /// The atom, or a gate.
    pub what: What,
    /// The effect on the part of the list when the atom happens. For a gate: the effect when an atom of the gate happens and the gate's own
    /// part has ended.
    pub behind: Behind,
}

/// The atom or the gate at the position of an entry.
#[derive(Clone, Copy)]
pub enum What {
    /// The atom with this number, which has no times.
    Atom(u32),
    /// The atom with this number, which has times.
    Timed(u32),
    /// A gate: a test or settings. Only the store determines which atoms of its part can be next.
    Gate,
}

/// The list of a position, as a range of all entries. An empty span means that the code keeps no list of the position.
#[derive(Clone, Copy)]
pub struct Span {
    /// The index of the first entry.
    pub first: usize,
    /// The number of entries.
    pub count: usize,
}
