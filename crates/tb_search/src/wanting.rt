//! The processes that want a note.
ghost use Rattle.std.specs.Prelude.{◌≡◌, IfOk};
ghost use Rattle.tb_search.specs.Candidates.{wanting_if_room, rows_of};

use crate::apart::Apart;
use crate::living::Living;
use std::alloc::Global;
use tb_terms::{Items, NoMemory, Terms};

/// Returns the indices of the processes that want the note. If one of their queues is full, returns `None`.
pub(crate) fn wanting<W>(
    alloc: Global,
    all: &[Apart<Living<W>>],
    terms: &Terms,
) -> Result<Option<Items<usize>>, NoMemory>
    ensures { IfOk result (λ found. found ≡ wanting_if_room terms.now (rows_of all.now)) }
{
    let mut indices = Items::new(alloc);
    for (index, living) in all.iter().enumerate() {
        let inbox = &living.get().inbox;
        if inbox.wants(terms) {
            if !inbox.room() {
                return Ok(None);
            }
            indices.push(index)?;
        }
    }
    Ok(Some(indices))
}
