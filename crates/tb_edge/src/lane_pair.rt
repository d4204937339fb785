//! The two ends of one lane.
use crate::{Inlet, Outlet};

/// The two ends of one lane.
#[derive(Drop)]
pub struct LanePair {
    /// The read end: the output of the lane's tools.
    pub inlet: Box<dyn Inlet + Send>,
    /// The write end: the input of the lane's tools.
    pub outlet: Box<dyn Outlet + Send>,
}
