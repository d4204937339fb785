//! The slot of a variable.
use tb_terms::{Sort, Term};

/// The slot of a variable.
#[derive(Drop)]
pub struct Slot {
    /// The type of the variable.
    pub sort: Sort,
    /// The value of the variable. In a store, it has the type.
    pub value: Term,
}
