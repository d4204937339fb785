//! A visit inside the gate of a shared bus, for several successive turns.
ghost use Rattle.std.specs.Prelude.{◌≡◌, true};
ghost use Rattle.tb_core.specs.Cores.{MakeStep, IsStep};
ghost use Rattle.tb_lock.specs.Rights.{has, right_to};
ghost use Rattle.tb_lock.specs.Calls.{Called};

use crate::call::Stepping;
use crate::seat::Seat;
use crate::shared::Shared;
use std::marker::Model;
use std::sync::{MutexGuard, Wait};
use tb_core::{CoreFault, Stepped};
use tb_process_steps::Walker;

/// A visit inside the gate of a bus, for several successive turns. Until the visit is dropped, no other thread enters the gate. So
/// each ticket of the visitor is served at once. Calls of the bus itself enter the gate too: such a call never returns within a
/// visit. Contracts see the name of the bus.
#[derive(Drop)]
pub struct Visit<'a, W: Walker> {
    pub(crate) bus: &'a Shared<W>,
    pub(crate) _gate: MutexGuard<'a, ()>,
}

impl<'a, W: Walker> Model for Visit<'a, W> {
    ghost use Rattle.atomic_table.specs.Seated.{TableId, table_id_coded};

    ghost Value = { TableId };

    ghost coded = { table_id_coded };

    ghost view = { λ visit. visit.bus.now };
}

impl<'a, W: Walker> Visit<'a, W> {
    /// Takes the first possible step in one turn of the handle, as `step` of `Shared` does.
    pub fn step<R: Wait>(&self, rt: &R, seat: &mut Seat) -> Result<Stepped, CoreFault>
        requires own { seat.old.bus ≡ self.now }
        requires right { has seat.old.rights (right_to MakeStep) ≡ true }
        ensures { Called IsStep MakeStep seat.old seat.new result }
    {
        self.bus.turn(rt, seat, Stepping)
    }
}
