//! Visible variables, and their blocks.

use tb_terms::{Ident, Items, Sort};

/// A visible variable.
#[derive(Drop)]
pub(crate) struct Seen {
    /// The name in the script.
    pub name: Ident,
    /// The slot that the name refers to.
    pub slot: u32,
    /// The type of the variable.
    pub sort: Sort,
}

/// The variables of one block. An earlier variable hides a later variable of the same name.
pub(crate) type Block = Items<Seen>;
