//! How a handle is split in two, and how two handles are joined.
ghost use Rattle.std.specs.Prelude.{◌≡◌, ◌<◌, []};
ghost use Rattle.tb_lock.specs.Rights.{AreAmong};
ghost use Rattle.tb_lock.specs.Seats.{Idle, kept_of, handed_on};
ghost use Rattle.tb_lock.specs.Calls.{Joins};
ghost use Rattle.tb_lock.specs.Helpers.Plays.{IsBoard};

use crate::board::{Board, Holder, TICKET};
use crate::plays::{HandsOn, Look, Part, Unite};
use crate::rights::Rights;
use tb_process_steps::Walker;

/// Splits a handle in two. Returns the new handle, which has the given rights.
pub(crate) fn part<W: Walker, H: HandsOn>(
    board: &Board<W>,
    holder: &mut Holder<W>,
    rights: Rights,
) -> Holder<W>
    requires board { IsBoard board.now.table_id }
    requires holder { holder.old.table_id ≡ board.now.table_id }
    requires picked { rights ≡ H.rights }
    requires rights { AreAmong rights holder.old.me.0.rights }
    requires room { 1 < holder.old.me.0.room }
    requires idle { (holder.old.me.1 ≡ []) × (holder.old.me.0.stage ≡ Idle) }
    ensures holder { (holder.new.table_id ≡ holder.old.table_id)
        × (result.table_id ≡ holder.old.table_id) }
    ensures parted { (holder.new.me ≡ (kept_of rights holder.old.me.0, []))
        × (result.me ≡ (handed_on rights holder.old.me.0, [])) }
{
    board.split_seat::<Part<H>>(holder)
}

/// Joins two handles. A second atomic step then states, for the proof, that each had seen all entries of its rights.
pub(crate) fn unite<W: Walker>(board: &Board<W>, holder: &mut Holder<W>, other: Holder<W>)
    requires board { IsBoard board.now.table_id }
    requires holders { (holder.old.table_id ≡ board.now.table_id)
        × (other.table_id ≡ board.now.table_id) }
    requires idle { (holder.old.me.1 ≡ []) × (holder.old.me.0.stage ≡ Idle)
        × (other.me.1 ≡ []) × (other.me.0.stage ≡ Idle) }
    requires room { (0 < holder.old.me.0.room) × (0 < other.me.0.room) }
    ensures holder { (holder.new.table_id ≡ holder.old.table_id) × (holder.new.me.1 ≡ []) }
    ensures joins { Joins holder.old.me.0 other.me.0 holder.new.me.0 }
{
    board.join_seat::<Unite>(holder, other);
    board.load::<Look>(holder, TICKET);
}
