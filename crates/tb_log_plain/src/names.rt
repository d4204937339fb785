//! Writes processes, with the names of their bodies and the places of their atoms.
use crate::write::{put, put_number};
use tb_terms::{Ident, Items, NoMemory};

/// A place in the source.
#[derive(Clone, Copy, Debug, PartialEq, Eq)]
pub struct Spot {
    /// The line, from 1.
    pub line: usize,
    /// The column, from 1.
    pub column: usize,
}

/// A process that the script defines.
#[derive(Drop)]
pub struct Named {
    /// The name of the process.
    pub name: Ident,
    /// The places of its atoms. The atom with number n has its place at position n - 1.
    pub spots: Items<Spot>,
}

/// The processes that the script defines, in order of definition. The index of a body is the position of its process here.
pub type Names = Items<Named>;

/// Appends a process, such as `process 2 (Client)`: its number, and the name of its body if the body is known.
pub fn put_process(
    names: &Names,
    number: u32,
    body: u32,
    into: &mut Vec<u8>,
) -> Result<(), NoMemory> {
    put(b"process ", into)?;
    put_number(u64::from(number), into)?;
    if let Some(named) = names.get(body as usize) {
        put(b" (", into)?;
        put(named.name.as_bytes(), into)?;
        put(b")", into)?;
    }
    Ok(())
}

/// Appends a process with the place of one of its atoms, such as `process 2 (Client) at 3:7`. If the place isn't known, appends only
/// the process.
pub fn put_at(
    names: &Names,
    number: u32,
    body: u32,
    atom: u32,
    into: &mut Vec<u8>,
) -> Result<(), NoMemory> {
    put_process(names, number, body, into)?;
    if let Some(spot) = spot_of(names, body, atom) {
        put(b" at ", into)?;
        put_number(spot.line as u64, into)?;
        put(b":", into)?;
        put_number(spot.column as u64, into)?;
    }
    Ok(())
}

/// Returns the place of an atom of a body.
fn spot_of(names: &Names, body: u32, atom: u32) -> Option<Spot> {
    let named = names.get(body as usize)?;
    let spot = named.spots.get((atom as usize).saturating_sub(1))?;
    Some(*spot)
}
