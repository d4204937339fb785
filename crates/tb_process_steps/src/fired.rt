//! The result of the search for an offer, and the rest and store of a taken offer.
use crate::running::Running;
use tb_func::Store;

/// The result of the search for the offer at an index.
#[derive(Drop)]
pub enum Fired {
    /// The index is past the last offer of the part. The number is the index minus the number of its offers.
    Past(usize),
    /// The rest of the offer or the end, and the store that a `let` made, if one did.
    Taken(Option<Running>, Option<Store>),
}

/// The rest of a taken offer or the end, and the store that a `let` made, if one did.
#[derive(Drop)]
pub struct Left {
    pub(crate) term: Option<Running>,
    pub(crate) own: Option<Store>,
}
