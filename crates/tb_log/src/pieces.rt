//! Copies a piece of a log.
ghost use Rattle.std.specs.Prelude.{◌≡◌, ◌≤◌, ◌<◌, ◌+◌, ◌^◌, IfOk, take, drop, length};

use crate::entry::Entries;
use crate::log::Log;
use std::alloc::Global;
use tb_terms::{Items, NoMemory};

/// Returns copies of the `most` entries after the first `from` entries. If fewer entries follow, returns copies of all entries that
/// follow.
pub fn piece(alloc: Global, log: &Log, from: u64, most: usize) -> Result<Entries, NoMemory>
    ensures { IfOk result (λ piece. piece ≡ take most (drop from log.now.entries)) }
{
    let before = from.min(log.len() as u64) as usize;
    let count = most.min(log.len() - before);
    copies(alloc, log, before, count)
}

/// Returns copies of the `count` entries after the first `before` entries.
fn copies(alloc: Global, log: &Log, before: usize, count: usize) -> Result<Entries, NoMemory>
    requires within { before + count ≤ length log.now.entries }
    requires fits { before + count < 2 ^ 64 }
    ensures { IfOk result (λ copies. copies ≡ take count (drop before log.now.entries)) }
{
    let mut copies = Vec::with_capacity(alloc, count)?;
    for position in 0..count {
        let entry = log.at(before + position);
        copies.push(entry.copy(alloc)?)?;
    }
    Ok(Items::from_vec(copies))
}
