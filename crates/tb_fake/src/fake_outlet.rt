//! An outlet with a capacity. It keeps the items that it takes, and fails in given calls.
ghost use Rattle.std.specs.Prelude.{◌≡◌, ◌≤◌, [], length, is_ok, IfOk};
ghost use Rattle.tb_edge.specs.InMemory.{fails_at};
ghost use Rattle.tb_fake.specs.Fakes.{taken_by, takes, outlet_with, outlet_after};

use crate::board::Board;
use crate::record::{BYTES, ITEMS, Kind};
use http_server::Log;
use std::alloc::Global;
use std::marker::Model;
use std::sync::Arc;
use tb_edge::{FailCalls, Failed, Outlet, Taken};
use tb_terms::NoMemory;

/// An outlet with a capacity of 64 items and 65,536 bytes in total. A start or a line fails if it doesn't fit, or if its call must fail. An
/// end is always taken. After an end that doesn't fit, `Records` returns nothing for the lane. Contracts see the taken items, the free
/// capacity, the calls that must fail, the number of calls of `begin` and `line`, and how many of these calls failed.
#[derive(Drop)]
pub struct FakeOutlet {
    board: Arc<Board, Global>,
    lane: u8,
    items: usize,
    bytes: usize,
    fails: FailCalls,
    calls: u64,
    faults: u64,
    buffer: Vec<u8>,
    took: Log<Vec<u8>, Kind>,
}

impl Model for FakeOutlet {
    ghost use Rattle.std.specs.Prelude.{◌≤◌, map, vec_capacity};
    ghost use Rattle.tb_fake.specs.Fakes.{FakeOutletView, taken_by};

    ghost Value = { FakeOutletView };

    ghost view = { λ outlet. record {
      taken = map (λ item. taken_by item.1 item.0.items) outlet.took.items;
      items = outlet.items;
      bytes = outlet.bytes;
      fails = outlet.fails;
      calls = outlet.calls;
      faults = outlet.faults;
    } };

    ghost invariant = { λ outlet. outlet.bytes ≤ vec_capacity outlet.buffer };
}

impl FakeOutlet {
    /// Makes an outlet with the memory for one item of any length that fits. The board has the memory for the kept items.
    pub(crate) fn new(
        alloc: Global,
        board: Arc<Board, Global>,
        lane: u8,
        fails: FailCalls,
    ) -> Result<FakeOutlet, NoMemory>
        ensures { IfOk result (λ outlet. outlet ≡ record {
          taken = [];
          items = 64;
          bytes = 65536;
          fails = fails;
          calls = 0;
          faults = 0;
        }) }
    {
        Ok(FakeOutlet {
            board,
            lane,
            items: ITEMS,
            bytes: BYTES,
            fails,
            calls: 0,
            faults: 0,
            buffer: Vec::with_capacity(alloc, BYTES)?,
            took: Log::new(),
        })
    }

    /// Returns the number of failed calls.
    pub fn faults(&self) -> u64
        ensures { result ≡ self.now.faults }
    {
        self.faults
    }
}

impl FakeOutlet {
    /// Takes the item, unless it doesn't fit or the call must fail. In these cases, the call counts as failed.
    fn put(&mut self, kind: Kind, bytes: &[u8]) -> Result<(), Failed>
        ensures never_falls { self.old.faults ≤ self.new.faults }
        ensures answer { is_ok result ≡ takes self.old (length bytes.now) }
        ensures after { self.new
            ≡ outlet_after self.old (taken_by kind bytes.now) (length bytes.now) }
    {
        self.calls = self.calls.saturating_add(1);
        if fails_at(&self.fails, self.calls) || self.items == 0 || self.bytes < bytes.len() {
            self.faults = self.faults.saturating_add(1);
            return Err(Failed);
        }
        self.keep(kind, bytes);
        Ok(())
    }

    /// Takes the item. Its bytes fit, so the call needs no new memory.
    fn keep(&mut self, kind: Kind, bytes: &[u8])
        requires { length bytes.now ≤ self.old.bytes }
        ensures { self.new ≡ outlet_with self.old (taken_by kind bytes.now) (length bytes.now) }
    {
        self.items = self.items.saturating_sub(1);
        self.bytes -= bytes.len();
        self.buffer.clear();
        let _ = self.buffer.extend_from_slice(bytes);
        self.took = self.took.and(&self.buffer, &kind);
        self.board.add(self.lane, kind, bytes);
    }
}

fn fails_at(fails: &FailCalls, call: u64) -> bool
    ensures { result ≡ fails_at fails.now call }
{
    fails.as_slice().contains(&call)
}

impl Outlet for FakeOutlet {
    ghost use Rattle.std.specs.Prelude.{Some};

    ghost faults = { λ outlet. outlet.faults };

    ghost told = { λ outlet. Some outlet.taken };

    fn begin(&mut self, command: &str) -> Result<(), Failed>
        ensures never_falls { self.old.faults ≤ self.new.faults }
        ensures answer { is_ok result ≡ takes self.old (length command.now) }
        ensures after { self.new
            ≡ outlet_after self.old (Taken.Start command.now) (length command.now) }
    {
        self.put(Kind::Start, command.as_bytes())
    }

    fn line(&mut self, bytes: &[u8]) -> Result<(), Failed>
        ensures never_falls { self.old.faults ≤ self.new.faults }
        ensures answer { is_ok result ≡ takes self.old (length bytes.now) }
        ensures after { self.new ≡ outlet_after self.old (Taken.Line bytes.now) (length bytes.now) }
    {
        self.put(Kind::Line, bytes)
    }

    fn can_take_line(&self) -> bool {
        true
    }

    fn end(&mut self)
        ensures after { self.new ≡ outlet_with self.old Taken.End 0 }
    {
        self.keep(Kind::End, &[])
    }

    fn close(&mut self)
        ensures same { self.new ≡ self.old }
    {
        self.board.close(self.lane);
    }
}
