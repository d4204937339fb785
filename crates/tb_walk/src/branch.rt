//! The branches of a process: the positions that it has entered, each with its tick.
use tb_terms::Items;

/// A part of the body that the process has entered, and of which it has taken no step yet.
#[derive(Clone, Copy, Debug, PartialEq, Eq)]
pub struct Branch {
    /// The position of the part in the code.
    pub position: usize,
    /// The number of ticks that the process had seen when it entered the position.
    pub entered: u64,
}

/// The branches of a process, in the order of the source.
pub type Row = Items<Branch>;
