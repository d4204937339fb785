//! The two ends of a pipe.
ghost use Rattle.std.specs.Prelude.{◌≡◌, ◌++◌, ◌∷◌, [], true, MatchBool, MatchOption};
ghost use Rattle.rtrb.specs.Ring.{sent, received, SameProducer, SameConsumer};

use crate::Piece;
use rtrb::{Consumer, Producer, PushError};
use std::sync::Wait;
use std::sync::atomic::{AtomicU32, Ordering};
use tb_bells::{Bells, Sleeper};

/// The lane of each bus that the pipe serves.
pub(crate) const LANE: u8 = 1;

/// The write end of a pipe, for the worker of the first bus. A piece that doesn't go in is dropped.
#[derive(Drop)]
pub struct PipeIn<'a> {
    /// The end of the ring.
    pub end: Producer<Piece>,
    /// Whether pieces still go in. After the first dropped piece, none does.
    pub flows: bool,
    /// The bells of the other bus: the reading worker sleeps on that of lane 1.
    pub others: &'a Bells,
    /// Not 0 once the reader has ended. It is a hint.
    pub over: &'a AtomicU32,
}

/// The read end of a pipe, for the worker of the second bus.
#[derive(Drop)]
pub struct PipeOut<'a> {
    /// The end of the ring.
    pub end: Consumer<Piece>,
    /// The bells of the other bus: the writing worker sleeps on that of lane 1.
    pub others: &'a Bells,
    /// Not 0 once this end reads no more. It is a hint.
    pub over: &'a AtomicU32,
}

impl<'a> PipeIn<'a> {
    ghost use Rattle.std.specs.Prelude.{◌≡◌, ◌++◌, ◌∷◌, [], true};
    ghost use Rattle.rtrb.specs.Ring.{SameProducer};
    ghost use Rattle.tb_pair.specs.Helpers.Pipes.{Puts};

    /// Sends a piece. While the ring is full, the call sleeps on a bell of its own bus. If the reader has ended, the call drops this
    /// piece and each later one. `heard` is the last known count of rings of this bell, 0 at first.
    pub(crate) fn put<R: Wait>(&mut self, rt: &R, bells: &Bells, heard: &mut u64, piece: Piece)
        ensures ring { SameProducer self.old.end self.new.end }
        ensures put { Puts self.old self.new piece }
    {
        if !self.flows {
            return;
        }
        let mut piece = piece;
        for _ in rt.forever() {
            match self.end.push(piece) {
                Ok(()) => {
                    self.others.ring(Sleeper::Writer(LANE));
                    return;
                }
                Err(PushError::Full(back)) => piece = back,
            }
            if self.over.load(Ordering::SeqCst) != 0 {
                self.flows = false;
                return;
            }
            *heard = bells.wait_past(rt, Sleeper::Writer(LANE), *heard);
        }
        unreachable!()
    }
}

impl<'a> PipeOut<'a> {
    ghost use Rattle.std.specs.Prelude.{◌≡◌, ◌++◌, ◌∷◌, [], MatchOption};
    ghost use Rattle.rtrb.specs.Ring.{received, SameConsumer};

    /// Takes the next piece, if one is there.
    pub(crate) fn next(&mut self) -> Option<Piece>
        ensures ring { SameConsumer self.old.end self.new.end }
        ensures got { MatchOption result (received self.new.end ≡ received self.old.end)
            (λ piece. received self.new.end ≡ received self.old.end ++ piece ∷ []) }
    {
        match self.end.pop() {
            Ok(piece) => {
                self.others.ring(Sleeper::Writer(LANE));
                Some(piece)
            }
            Err(_) => None,
        }
    }

    /// Notes that this end reads no more, and wakes the writing worker.
    pub(crate) fn end(&mut self)
        ensures { self.new ≡ self.old }
    {
        self.over.store(1, Ordering::SeqCst);
        self.others.ring(Sleeper::Writer(LANE));
    }
}
