//! The desks: here the stepper and the writers leave their work between two parts of it, so that the thread of a reader can do the next
//! part. Then no other thread must be woken for a line.
ghost use Rattle.std.specs.Prelude.{◌≡◌, IfOk, vec_len};
ghost use Rattle.tb_log.specs.Shapes.{IsLane};

use crate::buffer::Buffer;
use crate::ends::WorkEnd;
use crate::writer_stage::WriterStage;
use std::alloc::Global;
use std::marker::{Brand, Model, PhantomData};
use std::sync::Mutex;
use tb_edge::Outlet;
use tb_lock::Seat;
use tb_terms::NoMemory;

/// The bus of a run, and how each of its workers begins, in their order. A `Mutex` forgets the value that it holds, so the type of a desk
/// has these as a parameter: what is known of a desk is then known after each lock.
pub(crate) trait Begins {
    ghost use Rattle.std.specs.Prelude.{List};
    ghost use Rattle.atomic_table.specs.Seated.{TableId};
    ghost use Rattle.tb_run.specs.Helpers.Desks.{Begun};

    ghost bus: { TableId };

    ghost starts: { List Begun };
}

impl Begins for Brand {
    ghost use Rattle.std.specs.Prelude.{[]};
    ghost use Rattle.tb_lock.specs.Seats.{no_bus};

    ghost bus = { no_bus };

    ghost starts = { [] };
}

/// The work of a stepper: its index among the workers, its seat, and why it has ended, if it has.
#[derive(Drop)]
pub(crate) struct StepperDesk<K: Begins> {
    pub(crate) at: usize,
    pub(crate) seat: Seat,
    pub(crate) end: Option<WorkEnd>,
    pub(crate) of: PhantomData<K>,
}

impl<K: Begins> Model for StepperDesk<K> {
    ghost use Rattle.std.specs.Prelude.{ℕ};
    ghost use Rattle.tb_run.specs.Helpers.Desks.{IsStepping};

    ghost Value = { ℕ };

    ghost view = { λ desk. desk.at };

    ghost invariant = { λ desk. IsStepping K.bus K.starts desk.at desk.seat desk.end };
}

/// The work of a lane's writer: its index among the workers, its lane, its seat, its outlet, the buffer for a line, and its stage.
#[derive(Drop)]
pub(crate) struct WriterDesk<K: Begins, O: Outlet> {
    pub(crate) at: usize,
    pub(crate) lane: u8,
    pub(crate) seat: Seat,
    pub(crate) outlet: O,
    pub(crate) buffer: Buffer,
    pub(crate) stage: WriterStage,
    pub(crate) of: PhantomData<K>,
}

impl<K: Begins, O: Outlet> Model for WriterDesk<K, O> {
    ghost use Rattle.std.specs.Prelude.{ℕ};
    ghost use Rattle.tb_run.specs.Helpers.Desks.{IsWriting};

    ghost Value = { ℕ };

    ghost view = { λ desk. desk.at };

    ghost invariant = { λ desk. IsWriting K.bus K.starts desk.at desk.lane desk.seat
        (O.told desk.outlet) (O.faults desk.outlet) desk.stage };
}

/// The places of the desks of a run. A place is empty before its worker begins and after it has ended.
#[derive(Drop)]
pub(crate) struct Places<K: Begins, O: Outlet> {
    pub(crate) stepper: Mutex<Option<StepperDesk<K>>>,
    writers: Vec<Mutex<Option<WriterDesk<K, O>>>>,
    ghost sixteen: { vec_len writers ≡ 16 },
}

impl<K: Begins, O: Outlet> Places<K, O> {
    /// Returns empty places.
    pub(crate) fn new(alloc: Global) -> Result<Places<K, O>, NoMemory> {
        let writers = empty(alloc, 16)?;
        Ok(Places {
            stepper: Mutex::new(None),
            writers,
        })
    }

    /// Returns the place of the writer of a lane.
    pub(crate) fn writer(&self, lane: u8) -> &Mutex<Option<WriterDesk<K, O>>>
        requires { IsLane lane }
    {
        &self.writers[usize::from(lane) - 1]
    }
}

/// Returns `count` empty places of writers.
fn empty<K: Begins, O: Outlet>(
    alloc: Global,
    count: usize,
) -> Result<Vec<Mutex<Option<WriterDesk<K, O>>>>, NoMemory>
    ensures { IfOk result (λ places. vec_len places ≡ count) }
{
    let mut places = Vec::with_capacity(alloc, count)?;
    for _made in 0..count {
        places.push(Mutex::new(None))?;
    }
    Ok(places)
}
