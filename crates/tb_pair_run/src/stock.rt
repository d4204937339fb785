//! The memory of a pair. It is taken before the first seat is passed on, because a lost seat can't be closed.
ghost use Rattle.std.specs.Prelude.{◌≡◌, ◌≤◌, [], IfOk, vec_capacity};
ghost use Rattle.rtrb.specs.Ring.{IsPair, received, sent};

use crate::apart::WORKERS;
use rtrb::{Consumer, Producer, RingBuffer};
use std::alloc::Global;
use tb_pair::{PairJob, Piece};
use tb_process_steps::Walker;
use tb_run::{Room, Worker, make_room};
use tb_terms::NoMemory;

/// The capacity of the pipe, in pieces.
const PIECES: usize = 1_024;

/// The memory of one bus.
#[derive(Drop)]
pub(crate) struct Side<'a, W: Walker, I, O> {
    pub(crate) room: Room<I, O>,
    /// For the workers when they begin.
    pub(crate) workers: Vec<Worker<'a, W, I, O>>,
    /// For the workers once they come back.
    pub(crate) back: Vec<Worker<'a, W, I, O>>,
    ghost for_room: { room.count ≡ 15 },
    ghost for_workers: { (workers.items ≡ []) × (31 ≤ vec_capacity workers) },
    ghost for_back: { (back.items ≡ []) × (31 ≤ vec_capacity back) },
}

/// The memory of both buses and of the pipe.
#[derive(Drop)]
pub(crate) struct Stock<'a, W: Walker, I, O> {
    pub(crate) one: Side<'a, W, I, O>,
    pub(crate) other: Side<'a, W, I, O>,
    pub(crate) jobs: Vec<PairJob<'a, W, Worker<'a, W, I, O>>>,
    pub(crate) pipe: Ring,
    ghost for_jobs: { (jobs.items ≡ []) × (64 ≤ vec_capacity jobs) },
}

/// Returns both ends of a pipe through which nothing was sent yet.
#[derive(Drop)]
pub(crate) struct Ring {
    pub(crate) writes: Producer<Piece>,
    pub(crate) reads: Consumer<Piece>,
    ghost for_ends: { IsPair writes reads × (sent writes ≡ []) × (received reads ≡ []) },
}

/// Takes all memory.
pub(crate) fn make_stock<'a, W: Walker, I: Drop, O: Drop>(
    alloc: Global,
) -> Result<Stock<'a, W, I, O>, NoMemory> {
    let one = make_side(alloc)?;
    let other = make_side(alloc)?;
    let pipe = make_ring(alloc)?;
    let jobs = Vec::with_capacity(alloc, WORKERS + WORKERS + 2)?;
    Ok(Stock {
        one,
        other,
        jobs,
        pipe,
    })
}

fn make_side<'a, W: Walker, I: Drop, O: Drop>(
    alloc: Global,
) -> Result<Side<'a, W, I, O>, NoMemory> {
    let room = make_room(alloc, 15)?;
    let workers = Vec::with_capacity(alloc, WORKERS)?;
    let back = Vec::with_capacity(alloc, WORKERS)?;
    Ok(Side {
        room,
        workers,
        back,
    })
}

fn make_ring(alloc: Global) -> Result<Ring, NoMemory> {
    let (writes, reads) = RingBuffer::new(alloc, PIECES)?;
    Ok(Ring { writes, reads })
}
