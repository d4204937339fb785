//! The stepper and the writers at their desks: the own thread of each works there until the worker has ended.
ghost use Rattle.std.specs.Prelude.{◌≡◌, ◌≤◌, ◌<◌, ◌^◌, true, Some, slice_get, IfSome};
ghost use Rattle.tb_log.specs.Shapes.{IsLane};
ghost use Rattle.tb_lock.specs.Rights.{Steps as ToStep, Out as Outs, has};
ghost use Rattle.tb_run.specs.Workers.{StepsBus, WritesLane};
ghost use Rattle.tb_run.specs.Helpers.Desks.{Begun, HasStepped, HasWritten};

use crate::buffer::Buffer;
use crate::desks::{Begins, Places, StepperDesk, WriterDesk};
use crate::ends::WorkEnd;
use crate::helping::{Left, make_some, write_item};
use crate::post::Post;
use crate::writer_stage::WriterStage;
use std::marker::PhantomData;
use std::sync::{Mutex, Wait};
use tb_bells::Sleeper;
use tb_edge::Outlet;
use tb_lock::Seat;
use tb_process_steps::Walker;

/// A stepper that has ended.
#[derive(Drop)]
pub(crate) struct EndedStepper {
    pub(crate) seat: Seat,
    pub(crate) end: WorkEnd,
}

/// A writer that has ended.
#[derive(Drop)]
pub(crate) struct EndedWriter<O> {
    pub(crate) seat: Seat,
    pub(crate) outlet: O,
    pub(crate) buffer: Buffer,
    pub(crate) end: WorkEnd,
}

/// Makes steps until the bus has shut down, and writes items after them. If no step is possible, waits until another thread wakes it.
pub(crate) fn step_at<K: Begins, O: Outlet, W: Walker, R: Wait>(
    rt: &R,
    post: &Post<W>,
    places: &Places<K, O>,
    at: usize,
    seat: Seat,
) -> EndedStepper
    requires bus { post.now.shared ≡ K.bus }
    requires own { seat.bus ≡ K.bus }
    requires right { has seat.rights ToStep ≡ true }
    requires begun { (start : Begun) × (slice_get K.starts at ≡ Some start)
        × (start.seat ≡ seat) }
    ensures { StepsBus seat result.seat result.end }
{
    put_stepper(rt, &places.stepper, at, seat);
    let mut heard = 0;
    for _ in rt.forever() {
        match step_part(rt, post, &places.stepper) {
            Left::More => {
                post.bells.ring(Sleeper::Log);
                places.help_writers(rt, post);
            }
            Left::Nothing => {
                post.bells.ring(Sleeper::Log);
                places.help_writers(rt, post);
                heard = post.bells.wait_past(rt, Sleeper::Stepper, heard);
            }
            Left::Own => match take_stepper(rt, &places.stepper, at) {
                Some(ended) => return ended,
                None => {}
            },
        }
    }
    unreachable!()
}

/// Puts a stepper that begins on its desk.
fn put_stepper<K: Begins, R: Wait>(
    rt: &R,
    place: &Mutex<Option<StepperDesk<K>>>,
    at: usize,
    seat: Seat,
)
    requires own { seat.bus ≡ K.bus }
    requires right { has seat.rights ToStep ≡ true }
    requires begun { (start : Begun) × (slice_get K.starts at ≡ Some start)
        × (start.seat ≡ seat) }
{
    let desk = StepperDesk {
        at,
        seat,
        end: None,
        of: PhantomData,
    };
    let mut guard = place.lock(rt);
    *guard = Some(desk);
}

/// Makes some steps at the desk of the stepper.
fn step_part<K: Begins, W: Walker, R: Wait>(
    rt: &R,
    post: &Post<W>,
    place: &Mutex<Option<StepperDesk<K>>>,
) -> Left
    requires { post.now.shared ≡ K.bus }
{
    let mut guard = place.lock(rt);
    match &mut *guard {
        Some(desk) => make_some(rt, post, desk),
        None => Left::Nothing,
    }
}

/// Takes the stepper with this index from its desk, if it has ended.
fn take_stepper<K: Begins, R: Wait>(
    rt: &R,
    place: &Mutex<Option<StepperDesk<K>>>,
    at: usize,
) -> Option<EndedStepper>
    ensures { IfSome result (λ ended. HasStepped K.bus K.starts at ended.seat ended.end) }
{
    let mut guard = place.lock(rt);
    let StepperDesk {
        at: its,
        seat,
        end,
        of,
    } = guard.take()?;
    match end {
        Some(end) if its == at => Some(EndedStepper { seat, end }),
        _ => {
            *guard = Some(StepperDesk {
                at: its,
                seat,
                end,
                of,
            });
            None
        }
    }
}

/// Writes the items of a lane, until the bus has shut down and no item is queued on the lane. Then closes the outlet. Other threads may
/// write items too.
pub(crate) fn write_at<K: Begins, O: Outlet, W: Walker, R: Wait>(
    rt: &R,
    post: &Post<W>,
    places: &Places<K, O>,
    at: usize,
    lane: u8,
    seat: Seat,
    outlet: O,
    buffer: Buffer,
) -> EndedWriter<O>
    requires bus { post.now.shared ≡ K.bus }
    requires own { seat.bus ≡ K.bus }
    requires lane { IsLane lane }
    requires right { has seat.rights (Outs lane) ≡ true }
    requires begun { slice_get K.starts at ≡ Some (record {
      seat = seat;
      lane = lane;
      told = O.told outlet;
      faults = O.faults outlet;
    }) }
    ensures { WritesLane lane seat result.seat (O.told outlet) (O.told result.outlet)
        (O.faults outlet) (O.faults result.outlet) result.end }
{
    let place = places.writer(lane);
    put_writer(rt, place, at, lane, seat, outlet, buffer);
    let mut heard = 0;
    for _ in rt.forever() {
        match write_part(rt, post, place) {
            Left::More => {}
            Left::Nothing => heard = post.bells.wait_past(rt, Sleeper::Writer(lane), heard),
            Left::Own => match take_writer(rt, place, at) {
                Some(ended) => return closed(ended),
                None => {}
            },
        }
    }
    unreachable!()
}

/// Puts a writer that begins on its desk.
fn put_writer<K: Begins, O: Outlet, R: Wait>(
    rt: &R,
    place: &Mutex<Option<WriterDesk<K, O>>>,
    at: usize,
    lane: u8,
    seat: Seat,
    outlet: O,
    buffer: Buffer,
)
    requires own { seat.bus ≡ K.bus }
    requires lane { IsLane lane }
    requires right { has seat.rights (Outs lane) ≡ true }
    requires begun { slice_get K.starts at ≡ Some (record {
      seat = seat;
      lane = lane;
      told = O.told outlet;
      faults = O.faults outlet;
    }) }
{
    let desk = WriterDesk {
        at,
        lane,
        seat,
        outlet,
        buffer,
        stage: WriterStage::Free,
        of: PhantomData,
    };
    let mut guard = place.lock(rt);
    *guard = Some(desk);
}

/// Takes and writes the next item at the desk of a writer.
fn write_part<K: Begins, O: Outlet, W: Walker, R: Wait>(
    rt: &R,
    post: &Post<W>,
    place: &Mutex<Option<WriterDesk<K, O>>>,
) -> Left
    requires { post.now.shared ≡ K.bus }
{
    let mut guard = place.lock(rt);
    match &mut *guard {
        Some(desk) => write_item(rt, post, desk),
        None => Left::Nothing,
    }
}

/// Takes the writer with this index from its desk, if it has ended.
fn take_writer<K: Begins, O: Outlet, R: Wait>(
    rt: &R,
    place: &Mutex<Option<WriterDesk<K, O>>>,
    at: usize,
) -> Option<EndedWriter<O>>
    ensures { IfSome result (λ ended. HasWritten K.bus K.starts at ended.seat
        (O.told ended.outlet) (O.faults ended.outlet) ended.end) }
{
    let mut guard = place.lock(rt);
    let WriterDesk {
        at: its,
        lane,
        seat,
        outlet,
        buffer,
        stage,
        of,
    } = guard.take()?;
    match stage {
        WriterStage::Ended(end) if its == at => Some(EndedWriter {
            seat,
            outlet,
            buffer,
            end,
        }),
        _ => {
            *guard = Some(WriterDesk {
                at: its,
                lane,
                seat,
                outlet,
                buffer,
                stage,
                of,
            });
            None
        }
    }
}

/// Closes the outlet of a writer that has ended.
fn closed<O: Outlet>(ended: EndedWriter<O>) -> EndedWriter<O>
    ensures seat { result.seat ≡ ended.seat }
    ensures end { result.end ≡ ended.end }
    ensures told { O.told result.outlet ≡ O.told ended.outlet }
    ensures faults { (O.faults ended.outlet ≤ O.faults result.outlet)
        × (O.faults ended.outlet < 2 ^ 64 → O.faults result.outlet < 2 ^ 64) }
{
    let mut ended = ended;
    ended.outlet.close();
    ended
}
