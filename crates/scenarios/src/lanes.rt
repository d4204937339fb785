//! The ends of sixteen lanes in memory.

use crate::live::Live;
use std::alloc::Global;
use tb_edge::Taken;
use tb_fake::{Cue, Cues, FakePairs, Records, fakes};
use tb_terms::{Items, NoMemory};

/// Makes lane ends with the cues and the failing calls of a case.
pub(crate) fn ends_of(alloc: Global, live: &Live) -> Result<FakePairs, NoMemory> {
    let cues = copied(alloc, live.cues.as_slice())?;
    let fails = Items::from_slice(alloc, live.fails.as_slice())?;
    fakes(alloc, cues, fails)
}

fn copied(alloc: Global, cues: &[Cue]) -> Result<Cues, NoMemory> {
    let mut copies = Items::new(alloc);
    for cue in cues {
        copies.push(cue.copy(alloc)?)?;
    }
    Ok(copies)
}

/// Returns the items that the outlet of a lane took, one item a line. Returns `None` if the record doesn't have all items.
pub(crate) fn taken_text(
    alloc: Global,
    records: &Records,
    lane: u8,
) -> Result<Option<Vec<u8>>, NoMemory> {
    let Some(taken) = records.of(alloc, lane)? else {
        return Ok(None);
    };
    let mut text = Vec::new(alloc);
    for item in taken.as_slice() {
        put_item(item, &mut text)?;
    }
    Ok(Some(text))
}

fn put_item(item: &Taken, into: &mut Vec<u8>) -> Result<(), NoMemory> {
    match item {
        Taken::Start(command) => {
            into.extend_from_slice(b"start ")?;
            into.extend_from_slice(command.as_bytes())?;
        }
        Taken::Line(bytes) => {
            into.extend_from_slice(b"line ")?;
            into.extend_from_slice(bytes.as_slice())?;
        }
        Taken::End => into.extend_from_slice(b"end")?,
    }
    into.push(b'\n')?;
    Ok(())
}
