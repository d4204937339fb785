//! The worker that reads a pipe and delivers its terms to a bus as events.
ghost use Rattle.std.specs.Prelude.{◌≡◌, ◌++◌, ◌∷◌, [], List, true, MatchOption};
ghost use Rattle.rtrb.specs.Ring.{received, SameConsumer};
ghost use Rattle.tb_lock.specs.Rights.{In, Out as Outs, has};
ghost use Rattle.tb_pair.specs.declared.piece.Piece.{Piece};
ghost use Rattle.tb_pair.specs.Workers.{ReadsPipe};
ghost use Rattle.tb_pair.specs.Helpers.Reading.{ReadsOn, EndsReading, ReadTo, TakesOut, Feeds, line_of, says_last};
ghost use Rattle.tb_pair.specs.Helpers.Settling.{Settles};

use crate::lines::input_of;
use crate::piece::Piece;
use crate::pipe::{LANE, PipeOut};
use crate::settle::{hand_over, name_itself};
use std::sync::Wait;
use tb_bells::Sleeper;
use tb_core::TakeOut;
use tb_lock::{Seat, calls_add_their_own};
use tb_process_steps::Walker;
use tb_run::{Post, WorkEnd, refused, stop};

/// Names the tool of lane 1 `pipe`, and delivers each received term as an event of this tool. If nothing more comes, the worker
/// delivers a disconnect request. Meanwhile it takes the items that are queued on the lane, and drops them. It reads until nothing
/// more comes, or until the bus drops an input because the bus has shut down. The worker ends if it no longer reads, the bus has
/// shut down, and nothing is left in the lane's queue. It also ends if a call of the bus is rejected or memory runs out.
pub fn pipe_reader<'a, W: Walker, R: Wait>(
    rt: &R,
    post: &Post<W>,
    seat: &mut Seat,
    pipe: &mut PipeOut<'a>,
) -> WorkEnd
    requires own { seat.old.bus ≡ post.now.shared }
    requires reads { has seat.old.rights (In 1) ≡ true }
    requires writes { has seat.old.rights (Outs 1) ≡ true }
    ensures ring { SameConsumer pipe.old.end pipe.new.end }
    ensures work { ReadsPipe seat.old seat.new (received pipe.old.end) (received pipe.new.end)
        result }
{
    let end = read_all(rt, post, seat, pipe);
    pipe.end();
    end
}

fn read_all<'a, W: Walker, R: Wait>(
    rt: &R,
    post: &Post<W>,
    seat: &mut Seat,
    pipe: &mut PipeOut<'a>,
) -> WorkEnd
    requires own { seat.old.bus ≡ post.now.shared }
    requires reads { has seat.old.rights (In 1) ≡ true }
    requires writes { has seat.old.rights (Outs 1) ≡ true }
    ensures ring { SameConsumer pipe.old.end pipe.new.end }
    ensures work { ReadsPipe seat.old seat.new (received pipe.old.end) (received pipe.new.end)
        result }
{
    match name_itself(rt, post, seat) {
        Ok(reads) => read_on(rt, post, seat, pipe, reads),
        Err(end) => end,
    }
}

/// Delivers the received pieces, and takes and drops the queued items, until the worker ends.
fn read_on<'a, W: Walker, R: Wait>(
    rt: &R,
    post: &Post<W>,
    seat: &mut Seat,
    pipe: &mut PipeOut<'a>,
    reads: bool,
) -> WorkEnd
    requires own { seat.old.bus ≡ post.now.shared }
    requires reads { has seat.old.rights (In 1) ≡ true }
    requires writes { has seat.old.rights (Outs 1) ≡ true }
    ensures ring { SameConsumer pipe.old.end pipe.new.end }
    ensures work { ReadTo seat.old seat.new (received pipe.old.end) (received pipe.new.end)
        reads result }
{
    let mut reads = reads;
    let mut heard = 0;
    for _ in rt.forever() {
        match read_some(rt, post, seat, pipe, &mut reads, &mut heard) {
            Some(end) => return end,
            None => {}
        }
    }
    unreachable!()
}

/// Takes one item. If there is none, it delivers one piece. If there is neither, it sleeps.
fn read_some<'a, W: Walker, R: Wait>(
    rt: &R,
    post: &Post<W>,
    seat: &mut Seat,
    pipe: &mut PipeOut<'a>,
    reads: &mut bool,
    heard: &mut u64,
) -> Option<WorkEnd>
    requires own { seat.old.bus ≡ post.now.shared }
    requires reads { has seat.old.rights (In 1) ≡ true }
    requires writes { has seat.old.rights (Outs 1) ≡ true }
    ensures ring { SameConsumer pipe.old.end pipe.new.end }
    ensures work { MatchOption result
        (ReadsOn seat.old seat.new (received pipe.old.end) (received pipe.new.end)
        reads.old reads.new)
        (EndsReading seat.old seat.new (received pipe.old.end) (received pipe.new.end)
        reads.old) }
{
    match take_out(rt, post, seat) {
        Taken::Some => None,
        Taken::Nothing => feed(rt, post, seat, pipe, reads, heard),
        Taken::Closed => if *reads {
            feed(rt, post, seat, pipe, reads, heard)
        } else {
            Some(WorkEnd::Down)
        },
        Taken::Ends(end) => Some(end),
    }
}

/// The result of taking the next queued item.
#[derive(Clone, Copy)]
pub(crate) enum Taken {
    /// Something was taken.
    Some,
    /// Nothing was there.
    Nothing,
    /// Nothing was there, and the bus has shut down.
    Closed,
    /// The call was rejected.
    Ends(WorkEnd),
}

/// Takes the next queued item, and drops it.
fn take_out<W: Walker, R: Wait>(rt: &R, post: &Post<W>, seat: &mut Seat) -> Taken
    requires own { seat.old.bus ≡ post.now.shared }
    requires writes { has seat.old.rights (Outs 1) ≡ true }
    ensures { TakesOut seat.old seat.new result }
{
    calls_add_their_own();
    if !post.shared.calls_for(LANE) {
        return Taken::Nothing;
    }
    match post.shared.take_out(rt, seat, LANE) {
        Ok(TakeOut::Out(out)) => {
            post.tell_taken(&out);
            Taken::Some
        }
        Ok(TakeOut::Nothing) => Taken::Nothing,
        Ok(TakeOut::Closed) => Taken::Closed,
        Err(fault) => Taken::Ends(refused(rt, post, seat, fault)),
    }
}

/// Delivers the next piece if there is one, or sleeps.
fn feed<'a, W: Walker, R: Wait>(
    rt: &R,
    post: &Post<W>,
    seat: &mut Seat,
    pipe: &mut PipeOut<'a>,
    reads: &mut bool,
    heard: &mut u64,
) -> Option<WorkEnd>
    requires own { seat.old.bus ≡ post.now.shared }
    requires reads { has seat.old.rights (In 1) ≡ true }
    ensures ring { SameConsumer pipe.old.end pipe.new.end }
    ensures work { Feeds seat.old seat.new (received pipe.old.end) (received pipe.new.end)
        reads.old reads.new result }
{
    if !*reads {
        *heard = post.bells.wait_past(rt, Sleeper::Writer(LANE), *heard);
        return None;
    }
    match pipe.next() {
        Some(piece) => feed_piece(rt, post, seat, reads, piece),
        None => {
            *heard = post.bells.wait_past(rt, Sleeper::Writer(LANE), *heard);
            None
        }
    }
}

/// Delivers a piece, and sets whether the worker reads on.
fn feed_piece<W: Walker, R: Wait>(
    rt: &R,
    post: &Post<W>,
    seat: &mut Seat,
    reads: &mut bool,
    piece: Piece,
) -> Option<WorkEnd>
    requires own { seat.old.bus ≡ post.now.shared }
    requires right { has seat.old.rights (In 1) ≡ true }
    requires reads { reads.old ≡ true }
    ensures { (got : List Piece)
        → Feeds seat.old seat.new got (got ++ piece ∷ []) true reads.new result }
{
    let last = is_last(&piece);
    match hand_piece(rt, post, seat, piece) {
        Ok(up) => {
            *reads = up & !last;
            None
        }
        Err(end) => Some(end),
    }
}

fn is_last(piece: &Piece) -> bool
    ensures { result ≡ says_last piece.now }
{
    matches!(piece, Piece::Last)
}

fn hand_piece<W: Walker, R: Wait>(
    rt: &R,
    post: &Post<W>,
    seat: &mut Seat,
    piece: Piece,
) -> Result<bool, WorkEnd>
    requires own { seat.old.bus ≡ post.now.shared }
    requires right { has seat.old.rights (In 1) ≡ true }
    ensures { Settles (line_of piece) seat.old seat.new result }
{
    match input_of(post.alloc, piece) {
        Ok(input) => hand_over(rt, post, seat, input),
        Err(_) => {
            stop(rt, post, seat);
            Err(WorkEnd::NoMemory)
        }
    }
}
