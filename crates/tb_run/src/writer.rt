//! The worker that writes the items of a lane to its outlet.
ghost use Rattle.std.specs.Prelude.{◌≡◌, ◌≤◌, true, None, MatchOption, OnOk, OnErr, vec_capacity};
ghost use Rattle.tb_log.specs.Shapes.{IsLane, IsOutInShape};
ghost use Rattle.tb_tool_line.specs.Sending.{most_line_text};
ghost use Rattle.tb_lock.specs.Rights.{Out as Outs, has};
ghost use Rattle.tb_run.specs.Workers.{WritesLane};
ghost use Rattle.tb_run.specs.Helpers.Working.{Writes, CutsOff, Puts, going_on};
ghost use Rattle.tb_run.specs.Helpers.Desks.{TakesOne};

use crate::ends::WorkEnd;
use crate::handing::{deliver, refused};
use crate::post::Post;
use crate::writer_stage::WriterStage;
use std::sync::Wait;
use tb_bells::Sleeper;
use tb_bus::entries_are_in_shape;
use tb_core::TakeOut;
use tb_edge::Outlet;
use tb_lock::{Seat, calls_add_their_own};
use tb_log::{Input, Out};
use tb_process_steps::Walker;
use tb_tool_line::{SendFault, send_out};

/// Writes all items that are sent on a lane to its outlet, until the bus has shut down and no item is queued on the lane. Then it closes
/// the outlet. If the outlet fails to take an item, the worker delivers a `cut` before it takes the next item.
pub fn write_lane<W: Walker, R: Wait, O: Outlet>(
    rt: &R,
    post: &Post<W>,
    seat: &mut Seat,
    outlet: &mut O,
    buffer: &mut Vec<u8>,
    lane: u8,
) -> WorkEnd
    requires own { seat.old.bus ≡ post.now.shared }
    requires lane { IsLane lane }
    requires right { has seat.old.rights (Outs lane) ≡ true }
    requires room { most_line_text ≤ vec_capacity buffer.old }
    ensures work { WritesLane lane seat.old seat.new (O.told outlet.old) (O.told outlet.new)
        (O.faults outlet.old) (O.faults outlet.new) result }
    ensures room { most_line_text ≤ vec_capacity buffer.new }
{
    let end = write_all(rt, post, seat, outlet, buffer, lane);
    outlet.close();
    end
}

fn write_all<W: Walker, R: Wait, O: Outlet>(
    rt: &R,
    post: &Post<W>,
    seat: &mut Seat,
    outlet: &mut O,
    buffer: &mut Vec<u8>,
    lane: u8,
) -> WorkEnd
    requires own { seat.old.bus ≡ post.now.shared }
    requires lane { IsLane lane }
    requires right { has seat.old.rights (Outs lane) ≡ true }
    requires room { most_line_text ≤ vec_capacity buffer.old }
    ensures work { WritesLane lane seat.old seat.new (O.told outlet.old) (O.told outlet.new)
        (O.faults outlet.old) (O.faults outlet.new) result }
    ensures room { most_line_text ≤ vec_capacity buffer.new }
{
    let mut heard = 0;
    for _ in rt.forever() {
        wait_for_call(rt, post, lane, &mut heard);
        match write_one(rt, post, seat, outlet, buffer, lane) {
            Some(end) => return end,
            None => {}
        }
    }
    unreachable!()
}

/// Sleeps until `calls_for` of the shared bus returns `true` for a lane from 1 to 16. `heard` is the count of rings that the thread read
/// last, 0 at first. The sleep doesn't miss a ring after this count. The answer of `calls_for` is only a hint.
pub fn wait_for_call<W: Walker, R: Wait>(rt: &R, post: &Post<W>, lane: u8, heard: &mut u64) {
    for _ in rt.forever() {
        if post.shared.calls_for(lane) {
            return;
        }
        *heard = post.bells.wait_past(rt, Sleeper::Writer(lane), *heard);
    }
}

/// Writes the next queued item, if there is one. Returns why the worker ends, if it ends.
fn write_one<W: Walker, R: Wait, O: Outlet>(
    rt: &R,
    post: &Post<W>,
    seat: &mut Seat,
    outlet: &mut O,
    buffer: &mut Vec<u8>,
    lane: u8,
) -> Option<WorkEnd>
    requires own { seat.old.bus ≡ post.now.shared }
    requires lane { IsLane lane }
    requires right { has seat.old.rights (Outs lane) ≡ true }
    requires room { most_line_text ≤ vec_capacity buffer.old }
    ensures work { MatchOption result (Writes lane seat.old seat.new (O.told outlet.old)
        (O.told outlet.new) (O.faults outlet.old) (O.faults outlet.new))
        (WritesLane lane seat.old seat.new (O.told outlet.old) (O.told outlet.new)
        (O.faults outlet.old) (O.faults outlet.new)) }
    ensures room { most_line_text ≤ vec_capacity buffer.new }
{
    match take_one(rt, post, seat, lane) {
        WriterStage::Free => None,
        WriterStage::Holds(out) => put_one(rt, post, seat, outlet, buffer, lane, &out),
        WriterStage::Ended(end) => Some(end),
    }
}

/// Takes the next queued item, if there is one.
pub(crate) fn take_one<W: Walker, R: Wait>(
    rt: &R,
    post: &Post<W>,
    seat: &mut Seat,
    lane: u8,
) -> WriterStage
    requires own { seat.old.bus ≡ post.now.shared }
    requires lane { IsLane lane }
    requires right { has seat.old.rights (Outs lane) ≡ true }
    ensures { TakesOne lane seat.old seat.new result }
{
    calls_add_their_own();
    entries_are_in_shape();
    match post.shared.take_out(rt, seat, lane) {
        Ok(TakeOut::Out(out)) => {
            post.tell_taken(&out);
            WriterStage::Holds(out)
        }
        Ok(TakeOut::Nothing) => WriterStage::Free,
        Ok(TakeOut::Closed) => WriterStage::Ended(WorkEnd::Down),
        Err(fault) => WriterStage::Ended(refused(rt, post, seat, fault)),
    }
}

/// Writes an item that was taken, or delivers a `cut` if the outlet fails to take it. Returns why the worker ends, if it ends.
pub(crate) fn put_one<W: Walker, R: Wait, O: Outlet>(
    rt: &R,
    post: &Post<W>,
    seat: &mut Seat,
    outlet: &mut O,
    buffer: &mut Vec<u8>,
    lane: u8,
    out: &Out,
) -> Option<WorkEnd>
    requires own { seat.old.bus ≡ post.now.shared }
    requires lane { IsLane lane }
    requires right { has seat.old.rights (Outs lane) ≡ true }
    requires shape { IsOutInShape out.now }
    requires room { most_line_text ≤ vec_capacity buffer.old }
    ensures puts { Puts lane out.now seat.old seat.new (O.told outlet.old) (O.told outlet.new)
        (O.faults outlet.old) (O.faults outlet.new) result }
    ensures room { most_line_text ≤ vec_capacity buffer.new }
{
    buffer.clear();
    let sent = send_out(outlet, out, buffer);
    cut_off(rt, post, seat, lane, sent)
}

/// Delivers a `cut` if the outlet failed to take an item. The `cut` leaves the end of the tool on the lane. The stepper is woken after this
/// end was taken: a step that comes before it could use the lane's tool, and not yet the lane.
fn cut_off<W: Walker, R: Wait>(
    rt: &R,
    post: &Post<W>,
    seat: &mut Seat,
    lane: u8,
    sent: Result<(), SendFault>,
) -> Option<WorkEnd>
    requires own { seat.old.bus ≡ post.now.shared }
    requires lane { IsLane lane }
    requires right { has seat.old.rights (Outs lane) ≡ true }
    ensures ok { OnOk sent ((result ≡ None) × (seat.new ≡ seat.old)) }
    ensures err { OnErr sent (CutsOff lane seat.old seat.new result) }
{
    match sent {
        Ok(()) => None,
        Err(SendFault::Cut) => {
            let end = deliver(rt, post, seat, Input::Cut(lane));
            post.tell_cut(lane);
            going_on(end)
        }
    }
}

/// Returns `None` for `Down`: after the bus has shut down, a writer goes on until no item is queued on its lane.
fn going_on(end: Option<WorkEnd>) -> Option<WorkEnd>
    ensures { result ≡ going_on end }
{
    match end {
        Some(WorkEnd::Down) => None,
        _ => end,
    }
}
