//! The rule of a bus, and the kinds of atomic step that keep it.
use crate::rights::Rights;
use crate::seat::View;
use atomic_table::{Join, Play, Split, TableRule};
use std::marker::{Brand, PhantomData};
use tb_core::Core;
use tb_process_steps::Walker;

/// The rule that every atomic step keeps. Its key is the core with which the bus starts.
pub struct BusRule;

impl<W: Walker> TableRule<Option<Core<W>>, View, Core<W>> for BusRule {
    ghost use Rattle.tb_lock.specs.Helpers.Rule.{Kept, opening_seat};

    ghost holds = { λ core. Kept core.origin };

    ghost first = { λ core. opening_seat core.origin };
}

/// The step of a new bus's first handle that takes the empty slot.
pub(crate) struct Open;

impl<W: Walker> Play<Option<Core<W>>, View> for Open {
    ghost use Rattle.tb_lock.specs.Helpers.Plays.{Opens};

    ghost then = { λ _ me found after. Opens me found after };
}

/// The step that draws a ticket for a turn.
pub(crate) struct Draw;

impl<W: Walker> Play<Option<Core<W>>, View> for Draw {
    ghost use Rattle.tb_lock.specs.Helpers.Plays.{Draws};

    ghost then = { λ _ me found after. Draws me found after };
}

/// The step that reads the served ticket. If this is the handle's own ticket, the handle takes the slot, and then an exchange takes
/// the core out of the slot.
pub(crate) struct Read;

impl<W: Walker> Play<Option<Core<W>>, View> for Read {
    ghost use Rattle.tb_lock.specs.Helpers.Plays.{Reads};

    ghost then = { λ _ me found after. Reads me found after };
}

/// The step that notes a call on the taken core. The call has logged at most one entry.
pub(crate) struct Note;

impl<W: Walker> Play<Option<Core<W>>, View> for Note {
    ghost use Rattle.tb_lock.specs.Helpers.Plays.{Notes};

    ghost then = { λ _ me found after. Notes me found after };
}

/// The step that notes that the taken core was stopped.
pub(crate) struct Stop;

impl<W: Walker> Play<Option<Core<W>>, View> for Stop {
    ghost use Rattle.tb_lock.specs.Helpers.Plays.{Stops};

    ghost then = { λ _ me found after. Stops me found after };
}

/// The step that passes the turn on.
pub(crate) struct Pass;

impl<W: Walker> Play<Option<Core<W>>, View> for Pass {
    ghost use Rattle.tb_lock.specs.Helpers.Plays.{Passes};

    ghost then = { λ _ me found after. Passes me found after };
}

/// The step after a join that states what each of the two handles had seen.
pub(crate) struct Look;

impl<W: Walker> Play<Option<Core<W>>, View> for Look {
    ghost use Rattle.tb_lock.specs.Helpers.Plays.{Looks};

    ghost then = { λ _ me found after. Looks me found after };
}

/// The rights that a handle gives to a new one. Each split picks these rights.
pub(crate) trait HandsOn {
    ghost use Rattle.tb_lock.specs.declared.rights.Rights.{Rights};

    ghost rights: { Rights };
}

impl HandsOn for Brand {
    ghost use Rattle.tb_lock.specs.Rights.{no_rights};

    ghost rights = { no_rights };
}

/// The split in which a handle gives rights to a new one.
pub(crate) struct Part<H> {
    of: PhantomData<H>,
}

impl<H: HandsOn> Split<View> for Part<H> {
    ghost use Rattle.tb_lock.specs.Seats.{kept_of, handed_on};

    ghost left = { kept_of H.rights };

    ghost right = { handed_on H.rights };
}

/// The join of two handles.
pub(crate) struct Unite;

impl Join<View> for Unite {
    ghost use Rattle.tb_lock.specs.Seats.{nobody};
    ghost use Rattle.tb_lock.specs.Helpers.Plays.{joining};

    ghost both = { joining };

    ghost spent = { nobody };
}
