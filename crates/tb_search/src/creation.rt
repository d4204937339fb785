//! The check that a process may create another.
ghost use Rattle.std.specs.Prelude.{◌≡◌};
ghost use Rattle.tb_bus.specs.Effects.{may_create};

use crate::slots::{fits_formals, fits_slot};
use tb_body::Body;
use tb_terms::{Term, Terms};

/// The maximum number of processes that are alive.
const MOST_ALIVE: usize = 10_000;

/// Returns whether a process with the body `creator` may create one with the body `process`, if `alive` processes are alive.
/// The new process would have this number, which the slot of the creator must take.
pub(crate) fn may_create(
    bodies: &[Body],
    alive: usize,
    number: u32,
    creator: u32,
    process: u32,
    actuals: &Terms,
    slot: u32,
) -> bool
    ensures { result ≡ may_create bodies.now alive number creator process actuals.now slot }
{
    alive < MOST_ALIVE
        && fits_formals(bodies, process, actuals.as_slice())
        && fits_slot(bodies, creator, slot, &Term::Int(i64::from(number)))
}
