//! The lanes that have work for their writers, as the last turn left the core. This is a hint: no clause of a public call mentions it.
ghost use Rattle.tb_lock.specs.Calls.{AreOuts};

use std::sync::atomic::{AtomicU32, Ordering};
use tb_core::Core;
use tb_process_steps::Walker;

/// A bit for each lane from 1 to 16: whether the lane's writer has work.
#[derive(Drop)]
pub(crate) struct Notices {
    lanes: AtomicU32,
}

impl Notices {
    /// Returns the notices for a core in its present state.
    pub(crate) fn of<W: Walker>(core: &Core<W>) -> Notices {
        Notices {
            lanes: AtomicU32::new(lanes_of(core)),
        }
    }

    /// Notes the lanes of the core after a turn's call, before the turn is passed on.
    pub(crate) fn put<W: Walker>(&self, core: &Core<W>) {
        self.lanes.store(lanes_of(core), Ordering::SeqCst);
    }

    /// Returns whether the writer of a lane has work.
    pub(crate) fn has(&self, lane: u8) -> bool {
        self.lanes.load(Ordering::SeqCst) & bit_of(lane) != 0
    }
}

fn bit_of(lane: u8) -> u32 {
    1u32.wrapping_shl(u32::from(lane))
}

/// Returns the lanes whose writers would get another answer than "nothing is queued". If the core was stopped or its bus has shut
/// down, these are all lanes.
fn lanes_of<W: Walker>(core: &Core<W>) -> u32 {
    if core.is_stopped() || core.is_down() {
        return u32::MAX;
    }
    if core.first_out().is_none() {
        return 0;
    }
    let mut lanes = 0;
    let mut lane: u8 = 0;
    for has in &outs_of(core) {
        lane = lane.wrapping_add(1);
        if *has {
            lanes |= bit_of(lane);
        }
    }
    lanes
}

/// Returns for each lane, in order, whether an item is queued on it.
fn outs_of<W: Walker>(core: &Core<W>) -> [bool; 16]
    ensures { AreOuts core.now result }
{
    [
        core.has_out(1),
        core.has_out(2),
        core.has_out(3),
        core.has_out(4),
        core.has_out(5),
        core.has_out(6),
        core.has_out(7),
        core.has_out(8),
        core.has_out(9),
        core.has_out(10),
        core.has_out(11),
        core.has_out(12),
        core.has_out(13),
        core.has_out(14),
        core.has_out(15),
        core.has_out(16),
    ]
}
