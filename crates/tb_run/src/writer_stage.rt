//! The stage of a lane's writer between two parts of its work.
use crate::ends::WorkEnd;
use tb_log::Out;

/// The stage of a lane's writer.
#[derive(Drop)]
pub(crate) enum WriterStage {
    /// Each item that was taken is written, or is cut off.
    Free,
    /// This item was taken, and isn't written yet.
    Holds(Out),
    /// The writer has ended for this reason.
    Ended(WorkEnd),
}
