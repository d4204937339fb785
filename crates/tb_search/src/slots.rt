//! The checks that values have the types of parameters and slots.
ghost use Rattle.std.specs.Prelude.{◌≡◌, slice_get};
ghost use Rattle.tb_body.specs.Programs.{have_sorts};
ghost use Rattle.tb_process_steps.specs.Binds.{has_slot_sort};
ghost use Rattle.tb_bus.specs.Slots.{fits_formals, fits_slot};

use sqlite_items::at;
use tb_body::Body;
use tb_terms::{Sort, Term, has_sort};

/// Returns whether the body has that many parameters, and the values have their types. If there is no such body, returns `false`.
pub fn fits_formals(bodies: &[Body], process: u32, actuals: &[Term]) -> bool
    ensures { result ≡ fits_formals (slice_get bodies.now process) actuals.now }
{
    match at(bodies, process as usize) {
        Some(body) => {
            actuals.len() == body.formals as usize && have_sorts(body.sorts.as_slice(), actuals)
        }
        None => false,
    }
}

/// Returns whether each term has the type at its position. If there are fewer types than terms, returns `false`.
fn have_sorts(sorts: &[Sort], terms: &[Term]) -> bool
    ensures { result ≡ have_sorts sorts.now terms.now }
{
    for (place, term) in terms.iter().enumerate() {
        match at(sorts, place) {
            Some(sort) => {
                if !has_sort(term, sort) {
                    return false;
                }
            }
            None => return false,
        }
    }
    true
}

/// Returns whether a slot of a body takes the value. If there is no such body or slot, returns `false`.
pub fn fits_slot(bodies: &[Body], process: u32, slot: u32, value: &Term) -> bool
    ensures { result ≡ fits_slot (slice_get bodies.now process) slot value.now }
{
    match at(bodies, process as usize) {
        Some(body) => has_slot_sort(body.sorts.as_slice(), slot, value),
        None => false,
    }
}

/// Returns whether there is such a slot, and the value has its type.
pub fn has_slot_sort(sorts: &[Sort], slot: u32, value: &Term) -> bool
    ensures { result ≡ has_slot_sort (slice_get sorts.now slot) value.now }
{
    match at(sorts, slot as usize) {
        Some(sort) => has_sort(value, sort),
        None => false,
    }
}
