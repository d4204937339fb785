//! The size of an expansion.

/// The size of an expansion.
#[derive(Clone, Copy, PartialEq, Eq)]
pub(crate) struct Size {
    /// The number of atoms.
    pub atoms: usize,
    /// The depth of the tree.
    pub levels: usize,
}
