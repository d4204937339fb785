//! The memory of a run. It is taken before the first seat is passed on, because a lost seat can't be closed.
ghost use Rattle.std.specs.Prelude.{◌≡◌, ◌≤◌, ◌+◌, [], IfOk, vec_len, vec_capacity};

use crate::buffer::Buffer;
use crate::ends::WorkEnd;
use crate::lanes::{AnyInlet, AnyOutlet, Lanes};
use crate::worker::Work;
use std::alloc::Global;
use tb_edge::LanePair;
use tb_lock::Seat;
use tb_terms::NoMemory;

/// The seats of workers that have ended, and the reasons why they ended.
#[derive(Drop)]
pub struct Ended {
    /// The seats of the workers.
    pub seats: Vec<Seat>,
    /// The reasons why the workers ended.
    pub ends: Vec<WorkEnd>,
}

/// The memory for the workers of some lanes (a reader and a writer for each) and for the stepper of their bus.
#[derive(Drop)]
pub struct Room<I, O> {
    /// The number of lanes for which there is capacity.
    pub count: usize,
    /// The list for the works of all workers.
    pub works: Vec<Work<I, O>>,
    /// The list for the seats of the workers.
    pub seats: Vec<Seat>,
    /// The buffers, one for each worker.
    pub buffers: Vec<Buffer>,
    /// The lists for the ends of the lanes after the run.
    pub lanes: Lanes<I, O>,
    /// The lists for the seats of the workers and the reasons why they ended, with capacity for two further seats.
    pub ended: Ended,
    ghost for_works: { (works.items ≡ []) × (count + count + 1 ≤ vec_capacity works) },
    ghost for_seats: { (seats.items ≡ []) × (count + count + 1 ≤ vec_capacity seats) },
    ghost for_buffers: { vec_len buffers ≡ count + count + 1 },
    ghost for_inlets: { (lanes.inlets.items ≡ []) × (count ≤ vec_capacity lanes.inlets) },
    ghost for_outlets: { (lanes.outlets.items ≡ []) × (count ≤ vec_capacity lanes.outlets) },
    ghost for_ended: { (ended.seats.items ≡ [])
        × (count + count + 3 ≤ vec_capacity ended.seats) },
    ghost for_ends: { (ended.ends.items ≡ []) × (count + count + 1 ≤ vec_capacity ended.ends) },
}

/// Takes the memory for `count` lanes.
pub fn make_room<I: Drop, O: Drop>(alloc: Global, count: usize) -> Result<Room<I, O>, NoMemory>
    requires { count ≤ 16 }
    ensures { IfOk result (λ room. room.count ≡ count) }
{
    let workers = count + count + 1;
    Ok(Room {
        count,
        works: Vec::with_capacity(alloc, workers)?,
        seats: Vec::with_capacity(alloc, workers)?,
        buffers: make_buffers(alloc, workers)?,
        lanes: Lanes {
            inlets: Vec::with_capacity(alloc, count)?,
            outlets: Vec::with_capacity(alloc, count)?,
        },
        ended: Ended {
            seats: Vec::with_capacity(alloc, workers + 2)?,
            ends: Vec::with_capacity(alloc, workers)?,
        },
    })
}

/// Makes `count` buffers.
fn make_buffers(alloc: Global, count: usize) -> Result<Vec<Buffer>, NoMemory>
    ensures { IfOk result (λ buffers. vec_len buffers ≡ count) }
{
    let mut buffers = Vec::with_capacity(alloc, count)?;
    for _made in 0..count {
        buffers.push(Buffer::new(alloc)?)?;
    }
    Ok(buffers)
}

/// The memory to split lanes into their ends, and to join the ends again.
#[derive(Drop)]
pub struct Boxes {
    /// The number of lanes for which there is capacity.
    pub count: usize,
    /// The list for the joined lanes.
    pub pairs: Vec<LanePair>,
    /// The lists for the ends of the lanes.
    pub lanes: Lanes<AnyInlet, AnyOutlet>,
    ghost for_pairs: { (pairs.items ≡ []) × (count ≤ vec_capacity pairs) },
    ghost for_inlets: { (lanes.inlets.items ≡ []) × (count ≤ vec_capacity lanes.inlets) },
    ghost for_outlets: { (lanes.outlets.items ≡ []) × (count ≤ vec_capacity lanes.outlets) },
}

/// Takes the memory for `count` lanes.
pub fn make_boxes(alloc: Global, count: usize) -> Result<Boxes, NoMemory>
    ensures { IfOk result (λ boxes. boxes.count ≡ count) }
{
    Ok(Boxes {
        count,
        pairs: Vec::with_capacity(alloc, count)?,
        lanes: Lanes {
            inlets: Vec::with_capacity(alloc, count)?,
            outlets: Vec::with_capacity(alloc, count)?,
        },
    })
}
