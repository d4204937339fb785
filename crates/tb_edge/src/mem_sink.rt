//! A sink in memory with a capacity, which fails in given calls.
ghost use Rattle.std.specs.Prelude.{◌≡◌, ◌≤◌, [], IfOk, OnErr, is_ok, Some};
ghost use Rattle.tb_edge.specs.Sinks.{WritesPrefix};
ghost use Rattle.tb_edge.specs.InMemory.{is_put, mem_sink_after};

use crate::fail_calls::fails_at;
use crate::{FailCalls, Failed, Sink};
use std::alloc::Global;
use std::marker::Model;
use tb_terms::NoMemory;

/// A sink in memory with a capacity in bytes. If a piece doesn't fit, the sink takes the prefix that fits, as a full disk does. In the
/// calls with given numbers, the sink takes nothing, so it fails unless the piece is empty. A call with an empty piece counts too.
#[derive(Drop)]
pub struct MemSink {
    bytes: Vec<u8>,
    room: usize,
    fails: FailCalls,
    calls: u64,
    faults: u64,
}

impl Model for MemSink {
    ghost use Rattle.std.specs.Prelude.{◌≤◌, vec_len, vec_capacity};
    ghost use Rattle.tb_edge.specs.InMemory.{MemSinkView};

    ghost Value = { MemSinkView };

    ghost view = { λ sink. record {
      taken = sink.bytes.items;
      room = sink.room;
      fails = sink.fails;
      calls = sink.calls;
      faults = sink.faults;
    } };

    ghost invariant = { λ sink. (vec_len sink.bytes ≤ sink.room)
        × (sink.room ≤ vec_capacity sink.bytes) };
}

impl MemSink {
    /// Makes an empty sink, and allocates memory for its whole capacity of `room` bytes.
    pub fn new(alloc: Global, room: usize, fails: FailCalls) -> Result<MemSink, NoMemory>
        ensures { IfOk result (λ sink. sink
            ≡ record { taken = []; room = room; fails = fails; calls = 0; faults = 0 }) }
    {
        Ok(MemSink {
            bytes: Vec::with_capacity(alloc, room)?,
            room,
            fails,
            calls: 0,
            faults: 0,
        })
    }

    /// Returns the bytes that were taken so far.
    pub fn as_slice(&self) -> &[u8]
        ensures { result.now ≡ self.now.taken }
    {
        self.bytes.as_slice()
    }

    /// Returns the number of failed calls so far.
    pub fn faults(&self) -> u64
        ensures { result ≡ self.now.faults }
    {
        self.faults
    }
}

impl Sink for MemSink {
    ghost use Rattle.std.specs.Prelude.{Some};

    ghost faults = { λ sink. sink.faults };

    ghost taken = { λ sink. Some sink.taken };

    fn put(&mut self, piece: &[u8]) -> Result<(), Failed>
        ensures prefix { OnErr result
            (WritesPrefix (Some self.old.taken) (Some self.new.taken) piece.now) }
        ensures never_falls { self.old.faults ≤ self.new.faults }
        ensures answer { is_ok result ≡ is_put self.old piece.now }
        ensures after { self.new ≡ mem_sink_after self.old piece.now }
    {
        self.calls = self.calls.saturating_add(1);
        let prefix = if fails_at(&self.fails, self.calls) {
            0
        } else {
            piece.len().min(self.room - self.bytes.len())
        };
        // The memory is allocated, since the bytes never exceed the capacity.
        let _ = self.bytes.extend_from_slice(&piece[..prefix]);
        if prefix < piece.len() {
            self.faults = self.faults.saturating_add(1);
            return Err(Failed);
        }
        Ok(())
    }
}
