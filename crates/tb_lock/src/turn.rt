//! A handle's turn: the handle waits for the turn, takes the core out, puts it back, and passes the turn on.
ghost use Rattle.std.specs.Prelude.{◌≡◌, ◌<◌, [], false};
ghost use Rattle.tb_lock.specs.Calls.{Meets};
ghost use Rattle.tb_lock.specs.Seats.{Idle};
ghost use Rattle.tb_lock.specs.Helpers.Rule.{opening_seat};
ghost use Rattle.tb_lock.specs.Helpers.Plays.{IsBoard, HasTurn, MayRelease, MayReturn, MayStop, MayPass, Releases, ReleasesStopped};

use crate::board::{Board, CORE, Holder, SERVING, TICKET};
use crate::plays::{Draw, Note, Open, Pass, Read, Stop};
use std::sync::Wait;
use std::thread::yield_now;
use tb_core::Core;
use tb_process_steps::Walker;

/// Makes the first turn of a new bus: puts the core into the slot, and passes the turn on.
pub(crate) fn open<W: Walker>(board: &Board<W>, holder: &mut Holder<W>, core: Core<W>)
    requires board { IsBoard board.now.table_id }
    requires holder { holder.old.table_id ≡ board.now.table_id }
    requires first { holder.old.me ≡ (opening_seat core.origin, []) }
    requires core { (core.log ≡ []) × (core.stopped ≡ false) }
    ensures holder { holder.new.table_id ≡ holder.old.table_id }
    ensures opened { holder.new.me ≡ (record (opening_seat core.origin) { stage = Idle }, []) }
{
    board.load::<Open>(holder, SERVING);
    let _empty = board.exchange(holder, CORE, Some(core));
    pass(board, holder);
}

/// Waits for the handle's turn, and takes the core out of its slot. A thread inside the gate of the bus doesn't wait: its ticket is
/// served as soon as it is drawn.
pub(crate) fn acquire<W: Walker, R: Wait>(
    rt: &R,
    board: &Board<W>,
    holder: &mut Holder<W>,
) -> Core<W>
    requires board { IsBoard board.now.table_id }
    requires holder { holder.old.table_id ≡ board.now.table_id }
    requires idle { (holder.old.me.1 ≡ []) × (holder.old.me.0.stage ≡ Idle) }
    requires room { 0 < holder.old.me.0.room }
    ensures holder { holder.new.table_id ≡ holder.old.table_id }
    ensures turn { HasTurn holder.old.me.0 result holder.new.me }
    ensures meets { Meets holder.old.me.0 result }
{
    let ticket = board.fetch_add::<Draw>(holder, TICKET, 1);
    for _ in rt.forever() {
        let serving = board.load::<Read>(holder, SERVING);
        if serving == ticket {
            return board.exchange(holder, CORE, None).unwrap();
        }
        yield_now();
    }
    unreachable!()
}

/// Puts the core back with the entries that it has logged in this turn, and passes the turn on.
pub(crate) fn release<W: Walker>(board: &Board<W>, holder: &mut Holder<W>, core: Core<W>)
    requires board { IsBoard board.now.table_id }
    requires holder { holder.old.table_id ≡ board.now.table_id }
    requires may { MayRelease holder.old.me core }
    ensures holder { holder.new.table_id ≡ holder.old.table_id }
    ensures releases { Releases holder.old.me core holder.new.me }
{
    let _empty = board.exchange(holder, CORE, Some(core));
    board.load::<Note>(holder, SERVING);
    pass(board, holder);
}

/// Puts back an unchanged core, and passes the turn on without a note.
pub(crate) fn release_unchanged<W: Walker>(board: &Board<W>, holder: &mut Holder<W>, core: Core<W>)
    requires board { IsBoard board.now.table_id }
    requires holder { holder.old.table_id ≡ board.now.table_id }
    requires may { MayReturn holder.old.me core }
    ensures holder { holder.new.table_id ≡ holder.old.table_id }
    ensures releases { holder.new.me ≡ (record holder.old.me.0 { stage = Idle }, []) }
{
    let _empty = board.exchange(holder, CORE, Some(core));
    pass(board, holder);
}

/// Puts back a core that was stopped in this turn and has logged nothing, and passes the turn on.
pub(crate) fn release_stopped<W: Walker>(board: &Board<W>, holder: &mut Holder<W>, core: Core<W>)
    requires board { IsBoard board.now.table_id }
    requires holder { holder.old.table_id ≡ board.now.table_id }
    requires may { MayStop holder.old.me core }
    ensures holder { holder.new.table_id ≡ holder.old.table_id }
    ensures releases { ReleasesStopped holder.old.me holder.new.me }
{
    let _empty = board.exchange(holder, CORE, Some(core));
    board.load::<Stop>(holder, SERVING);
    pass(board, holder);
}

/// Passes the turn on.
pub(crate) fn pass<W: Walker>(board: &Board<W>, holder: &mut Holder<W>)
    requires board { IsBoard board.now.table_id }
    requires holder { holder.old.table_id ≡ board.now.table_id }
    requires may { MayPass holder.old.me }
    ensures holder { holder.new.table_id ≡ holder.old.table_id }
    ensures passes { holder.new.me ≡ (record holder.old.me.0 { stage = Idle }, []) }
{
    board.fetch_add::<Pass>(holder, SERVING, 1);
}
