//! The names of the processes of a script, with the places of their atoms.

use std::alloc::Global;
use tb_log_plain::{Named, Names, Spot};
use tb_source_map::{Mark, Places, ProcessPlace, spot_at};
use tb_terms::{Items, NoMemory};

/// Returns the names of the processes of a script with these bytes, with the lines and columns of their atoms.
pub(crate) fn names_of(alloc: Global, text: &[u8], places: &Places) -> Result<Names, NoMemory> {
    let starts = line_starts(alloc, text)?;
    let mut names = Items::new(alloc);
    for place in places.as_slice() {
        names.push(named(alloc, text, starts.as_slice(), place)?)?;
    }
    Ok(names)
}

/// Returns the position at which each line but the first begins.
fn line_starts(alloc: Global, text: &[u8]) -> Result<Vec<usize>, NoMemory> {
    let mut starts = Vec::new(alloc);
    for (position, byte) in text.iter().enumerate() {
        if *byte == b'\n' {
            starts.push(position + 1)?;
        }
    }
    Ok(starts)
}

fn named(
    alloc: Global,
    text: &[u8],
    starts: &[usize],
    place: &ProcessPlace,
) -> Result<Named, NoMemory> {
    let mut spots = Items::new(alloc);
    for mark in place.atoms.as_slice() {
        spots.push(spot_of(text, starts, mark))?;
    }
    Ok(Named {
        name: place.name.copy(alloc)?,
        spots,
    })
}

/// Returns the line and the column at which a mark begins. The line is found by the beginnings of lines, and only the bytes of this line
/// are read for the column.
fn spot_of(text: &[u8], starts: &[usize], mark: &Mark) -> Spot {
    let before = lines_before(starts, mark.from);
    let start = match before.checked_sub(1) {
        Some(last) => starts.get(last).copied().unwrap_or(0),
        None => 0,
    };
    let rest = text.get(start..).unwrap_or(&[]);
    Spot {
        line: before.saturating_add(1),
        column: spot_at(rest, mark.from.saturating_sub(start)).column,
    }
}

/// Returns the number of lines that begin at this byte or before it, without the first line.
fn lines_before(starts: &[usize], byte: usize) -> usize {
    for (index, start) in starts.iter().enumerate() {
        if *start > byte {
            return index;
        }
    }
    starts.len()
}
