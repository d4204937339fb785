//! The first note of a queue that matches.
ghost use Rattle.std.specs.Prelude.{◌≡◌, ◌<◌, length, IfOk};
ghost use Rattle.std.specs.Option.{ForSome};
ghost use Rattle.tb_notes.specs.Inboxes.{first_match};

use std::alloc::Global;
use std::collections::VecDeque;
use tb_match::{Binds, match_list};
use tb_terms::{NoMemory, Patterns, Terms};

/// A note of a queue that matches: its position and its binds.
#[derive(Drop)]
pub struct Found {
    /// The position in the queue; the oldest note is at 0.
    pub place: usize,
    /// The binds of the note in the patterns.
    pub binds: Binds,
}

/// Returns the position of the first note that matches, and its binds.
pub(crate) fn first_match(
    alloc: Global,
    patterns: &Patterns,
    queue: &VecDeque<Terms>,
) -> Result<Option<Found>, NoMemory>
    ensures found { IfOk result (λ found. found ≡ first_match 0 patterns.now queue.now.items) }
    ensures within { IfOk result
        (λ found. ForSome found (λ at. at.place < length queue.now.items)) }
{
    for place in 0..queue.len() {
        if let Some(binds) = match_list(alloc, patterns, &queue[place])? {
            return Ok(Some(Found { place, binds }));
        }
    }
    Ok(None)
}
