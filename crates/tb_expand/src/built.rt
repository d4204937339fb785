//! The parts of an expansion that are built so far.

use tb_body::Atoms;
use tb_terms::Sorts;

/// The atoms of an expansion and the types of its slots that are built so far.
#[derive(Drop)]
pub(crate) struct Built {
    /// The atoms, in the order of their numbers.
    pub atoms: Atoms,
    /// The types of the slots.
    pub sorts: Sorts,
}
