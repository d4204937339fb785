//! How threads do parts of the work of the stepper and of the writers, at the desks of these.
ghost use Rattle.std.specs.Prelude.{◌≡◌};
ghost use Rattle.tb_log.specs.Shapes.{IsLane};
ghost use Rattle.tb_run.specs.Helpers.Desks.{stage_after};

use crate::desks::{Begins, Places, StepperDesk, WriterDesk};
use crate::ends::WorkEnd;
use crate::next::Next;
use crate::post::Post;
use crate::stepper::step_some;
use crate::writer::{put_one, take_one};
use crate::writer_stage::WriterStage;
use std::mem::replace;
use std::sync::Wait;
use tb_bells::Sleeper;
use tb_edge::Outlet;
use tb_log::Out;
use tb_process_steps::Walker;
use tb_terms::size;

/// The largest size of a term that a thread writes for another one. The text of a line has at most 21 bytes for each unit of its term's
/// size, and 64 more: here less than 4,096 bytes.
const MOST_SHORT: usize = 190;

/// The largest number of items that a thread writes for another one at once.
const MOST_HELP: u32 = 8;

/// What is left to do at a desk after a part of its worker's work.
#[derive(Clone, Copy, PartialEq, Eq)]
pub(crate) enum Left {
    /// There may be more, and any thread may do it.
    More,
    /// Nothing, until another thread has made work for the desk.
    Nothing,
    /// Something that only the desk's own thread may do.
    Own,
}

impl<K: Begins, O: Outlet> Next for Places<K, O> {
    ghost use Rattle.std.specs.Prelude.{◌≡◌};

    ghost goes_on = { λ _ bus. bus ≡ K.bus };

    fn go_on<W: Walker, R: Wait>(&self, rt: &R, post: &Post<W>, _lane: u8) {
        let left = help_stepper(rt, post, self);
        post.bells.ring(Sleeper::Log);
        if left != Left::Nothing {
            post.bells.ring(Sleeper::Stepper);
        }
        self.help_writers(rt, post);
    }
}

impl<K: Begins, O: Outlet> Places<K, O> {
    /// Writes the items of all lanes, as far as that needs no wait. Wakes the writers that have more to do.
    pub(crate) fn help_writers<W: Walker, R: Wait>(&self, rt: &R, post: &Post<W>)
        requires { post.now.shared ≡ K.bus }
    {
        for lane in 1..=16u8 {
            if post.shared.calls_for(lane) {
                self.help_writer(rt, post, lane);
            }
        }
    }

    /// Writes the items of a lane, at most `MOST_HELP` of them, as far as that needs no wait. Wakes the writer if it may have more to do.
    fn help_writer<W: Walker, R: Wait>(&self, rt: &R, post: &Post<W>, lane: u8)
        requires bus { post.now.shared ≡ K.bus }
        requires lane { IsLane lane }
    {
        for _ in 0..MOST_HELP {
            match self.write_next(rt, post, lane) {
                Left::More => {}
                Left::Nothing => return,
                Left::Own => break,
            }
        }
        post.bells.ring(Sleeper::Writer(lane));
    }

    /// Writes the next item of a lane, if that needs no wait.
    fn write_next<W: Walker, R: Wait>(&self, rt: &R, post: &Post<W>, lane: u8) -> Left
        requires bus { post.now.shared ≡ K.bus }
        requires lane { IsLane lane }
    {
        match self.writer(lane).try_lock() {
            Some(guard) => {
                let mut guard = guard;
                match &mut *guard {
                    Some(desk) => write_short(rt, post, desk),
                    None => Left::Own,
                }
            }
            None => Left::Own,
        }
    }
}

/// Makes some steps for the stepper.
fn help_stepper<K: Begins, O: Outlet, W: Walker, R: Wait>(
    rt: &R,
    post: &Post<W>,
    places: &Places<K, O>,
) -> Left
    requires { post.now.shared ≡ K.bus }
{
    match places.stepper.try_lock() {
        Some(guard) => {
            let mut guard = guard;
            match &mut *guard {
                Some(desk) => make_some(rt, post, desk),
                None => Left::Own,
            }
        }
        None => Left::Own,
    }
}

/// Makes some steps at the desk of the stepper.
pub(crate) fn make_some<K: Begins, W: Walker, R: Wait>(
    rt: &R,
    post: &Post<W>,
    desk: &mut StepperDesk<K>,
) -> Left
    requires { post.now.shared ≡ K.bus }
{
    if desk.end.is_some() {
        return Left::Own;
    }
    let mut rests = false;
    let end = step_some(rt, post, &mut desk.seat, &mut rests);
    desk.end = end;
    match end {
        Some(_) => Left::Own,
        None if rests => Left::Nothing,
        None => Left::More,
    }
}

/// Takes and writes the next item of a lane at the desk of its writer. Writing may wait for the tool.
pub(crate) fn write_item<K: Begins, O: Outlet, W: Walker, R: Wait>(
    rt: &R,
    post: &Post<W>,
    desk: &mut WriterDesk<K, O>,
) -> Left
    requires { post.now.shared ≡ K.bus }
{
    match &desk.stage {
        WriterStage::Free => {
            if !post.shared.calls_for(desk.lane) {
                return Left::Nothing;
            }
        }
        WriterStage::Holds(_) => {}
        WriterStage::Ended(_) => return Left::Own,
    }
    take_next(rt, post, desk);
    put_held(rt, post, desk);
    Left::More
}

/// Takes the next item of a lane at the desk of its writer, and writes it if that needs no wait.
fn write_short<K: Begins, O: Outlet, W: Walker, R: Wait>(
    rt: &R,
    post: &Post<W>,
    desk: &mut WriterDesk<K, O>,
) -> Left
    requires { post.now.shared ≡ K.bus }
{
    match &desk.stage {
        WriterStage::Free => {}
        WriterStage::Holds(_) | WriterStage::Ended(_) => return Left::Own,
    }
    if !post.shared.calls_for(desk.lane) {
        return Left::Nothing;
    }
    take_next(rt, post, desk);
    if !needs_no_wait(desk) {
        return Left::Own;
    }
    put_held(rt, post, desk);
    Left::More
}

/// Returns whether the item that a writer holds can be written without a wait.
fn needs_no_wait<K: Begins, O: Outlet>(desk: &WriterDesk<K, O>) -> bool {
    match &desk.stage {
        WriterStage::Holds(Out::Line(term)) => size(term) <= MOST_SHORT
            && desk.outlet.can_take_line(),
        _ => false,
    }
}

/// Takes the next item at the desk of a writer, if the writer is free.
fn take_next<K: Begins, O: Outlet, W: Walker, R: Wait>(
    rt: &R,
    post: &Post<W>,
    desk: &mut WriterDesk<K, O>,
)
    requires { post.now.shared ≡ K.bus }
{
    match &desk.stage {
        WriterStage::Free => {}
        WriterStage::Holds(_) | WriterStage::Ended(_) => return,
    }
    desk.stage = take_one(rt, post, &mut desk.seat, desk.lane);
}

/// Writes the item that a writer holds, if it holds one.
fn put_held<K: Begins, O: Outlet, W: Walker, R: Wait>(
    rt: &R,
    post: &Post<W>,
    desk: &mut WriterDesk<K, O>,
)
    requires { post.now.shared ≡ K.bus }
{
    match replace(&mut desk.stage, WriterStage::Free) {
        WriterStage::Holds(out) => {
            let end = put_one(
                rt,
                post,
                &mut desk.seat,
                &mut desk.outlet,
                &mut desk.buffer.bytes,
                desk.lane,
                &out,
            );
            desk.stage = after(end);
        }
        other => desk.stage = other,
    }
}

/// Returns the stage of a writer after it has written an item.
fn after(end: Option<WorkEnd>) -> WriterStage
    ensures { result ≡ stage_after end }
{
    match end {
        Some(end) => WriterStage::Ended(end),
        None => WriterStage::Free,
    }
}
