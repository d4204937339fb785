//! What each process waits for: a line for each offer.

use crate::atoms::put_atom;
use crate::reasons::{Place, put_reason};
use std::alloc::Global;
use tb_body::{Atom, Program};
use tb_log_plain::{Names, put, put_at, put_process};
use tb_terms::NoMemory;
use tb_tools::Bench;
use tb_why::{Offering, Stall, Standing, Waiter};

/// The data of a bus from which the lines are written.
#[derive(Clone, Copy)]
pub struct Seen<'a> {
    /// The program of the script.
    pub program: &'a Program,
    /// The names of the processes, and the places of their atoms in the source.
    pub names: &'a Names,
    /// The living processes, with their offers.
    pub standings: &'a [Standing],
    /// The lanes and their tools, at the end of the log.
    pub bench: &'a Bench,
    /// The number of ticks that the bus has seen.
    pub now: u64,
    /// Whether no more ticks come.
    pub no_ticks: bool,
    /// Whether the bus has shut down. If so, the lines are about the bus just before the shutdown.
    pub is_down: bool,
}

impl<'a> Seen<'a> {
    /// Returns the atom with this number, from 1, of a body.
    pub(crate) fn atom(&self, body: u32, atom: u32) -> Option<&'a Atom> {
        let body = self.program.bodies.get(body as usize)?;
        body.atoms.get((atom as usize).saturating_sub(1))
    }
}

/// Appends a line for each offer of each process, or one for a process that offers nothing.
pub fn write_waits(
    alloc: Global,
    seen: &Seen,
    waiters: &[Waiter],
    into: &mut Vec<u8>,
) -> Result<(), NoMemory> {
    if waiters.is_empty() {
        return put(b"no process is left\n", into);
    }
    for (position, waiter) in waiters.iter().enumerate() {
        if let Some(standing) = seen.standings.get(position) {
            put_waiter(alloc, seen, waiter, standing, into)?;
        }
    }
    Ok(())
}

/// Appends the lines of one process.
fn put_waiter(
    alloc: Global,
    seen: &Seen,
    waiter: &Waiter,
    standing: &Standing,
    into: &mut Vec<u8>,
) -> Result<(), NoMemory> {
    if waiter.stalls.is_empty() {
        put_process(seen.names, waiter.number, waiter.body, into)?;
        return put(
            b": each way is barred: by an if without else that is false, by a test that is neither true nor false, or by a call with an argument that has no value of its type\n",
            into,
        );
    }
    for (position, stall) in waiter.stalls.as_slice().iter().enumerate() {
        if let Some(offer) = standing.offers.get(position) {
            put_stall(alloc, seen, waiter, stall, offer, into)?;
        }
    }
    Ok(())
}

/// Appends the line of one offer.
fn put_stall(
    alloc: Global,
    seen: &Seen,
    waiter: &Waiter,
    stall: &Stall,
    offer: &Offering,
    into: &mut Vec<u8>,
) -> Result<(), NoMemory> {
    let Some(atom) = seen.atom(waiter.body, stall.atom) else {
        return Ok(());
    };
    put_at(seen.names, waiter.number, waiter.body, stall.atom, into)?;
    put(b": ", into)?;
    put_atom(seen.program, &atom.act, offer, into)?;
    put(b": ", into)?;
    match stall.reason {
        Some(reason) => {
            let place = Place {
                number: waiter.number,
                atom,
                offer,
            };
            put_reason(alloc, seen, &place, reason, into)?;
        }
        None if seen.is_down => put(b"it could happen when the bus shut down", into)?,
        None => put(b"it can happen next", into)?,
    }
    put(b"\n", into)
}
