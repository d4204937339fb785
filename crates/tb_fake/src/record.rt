//! The items that one outlet took, and the limits of their number and size.
use crate::board::Board;
use sqlite_items::Items;
use std::alloc::Global;
use std::sync::Arc;
use tb_edge::{Bytes, Taken};
use tb_terms::{NoMemory, Text};

/// The capacity of an outlet, in items.
pub(crate) const ITEMS: usize = 64;

/// The capacity of an outlet for all items together, in bytes.
pub(crate) const BYTES: usize = 65_536;

/// The kinds of items that an outlet takes.
#[derive(Clone, Copy)]
pub(crate) enum Kind {
    Start,
    Line,
    End,
}

/// A taken item. Its bytes end before index `to` of the record's bytes.
#[derive(Clone, Copy)]
struct Item {
    kind: Kind,
    to: usize,
}

/// The items that an outlet took, and the bytes of all items in order.
#[derive(Drop)]
pub(crate) struct Record {
    items: Vec<Item>,
    bytes: Vec<u8>,
}

impl Record {
    /// Makes an empty record with the memory for all items.
    pub(crate) fn new(alloc: Global) -> Result<Record, NoMemory> {
        Ok(Record {
            items: Vec::with_capacity(alloc, ITEMS)?,
            bytes: Vec::with_capacity(alloc, BYTES)?,
        })
    }

    /// Adds the item. Returns whether the record had the capacity for it.
    pub(crate) fn add(&mut self, kind: Kind, bytes: &[u8]) -> bool {
        if self.items.len() >= ITEMS || bytes.len() > BYTES.saturating_sub(self.bytes.len()) {
            return false;
        }
        if self.bytes.extend_from_slice(bytes).is_err() {
            return false;
        }
        let to = self.bytes.len();
        self.items.push(Item { kind, to }).is_ok()
    }

    /// Returns copies of all items, or `None` if the bytes of a start aren't a valid `Text`.
    pub(crate) fn copy(&self, alloc: Global) -> Result<Option<Items<Taken>>, NoMemory> {
        let mut copies = Items::new(alloc);
        let mut from = 0;
        for item in self.items.as_slice() {
            match copy_item(alloc, item.kind, part(self.bytes.as_slice(), from, item.to))? {
                Some(taken) => copies.push(taken)?,
                None => return Ok(None),
            }
            from = item.to;
        }
        Ok(Some(copies))
    }
}

fn part(bytes: &[u8], from: usize, to: usize) -> &[u8] {
    if from <= to && to <= bytes.len() {
        &bytes[from..to]
    } else {
        &[]
    }
}

fn copy_item(alloc: Global, kind: Kind, bytes: &[u8]) -> Result<Option<Taken>, NoMemory> {
    let mut copy = Vec::with_capacity(alloc, bytes.len())?;
    copy.extend_from_slice(bytes)?;
    Ok(match kind {
        Kind::Start => Text::from_vec(copy).map(Taken::Start),
        Kind::Line => Some(Taken::Line(Bytes::from_vec(copy))),
        Kind::End => Some(Taken::End),
    })
}

/// The items that the sixteen outlets took. A test reads them after the outlets are no longer in use. By then, the lane ends can be boxed
/// or dropped.
#[derive(Drop)]
pub struct Records {
    pub(crate) board: Arc<Board, Global>,
}

impl Records {
    /// Returns copies of all items that the outlet of this lane took, in order. Returns `None` if there were more than 64 items, so that
    /// the last ends are missing. Also returns `None` if a start isn't a valid `Text`, if the record was in use, or if the lane isn't from
    /// 1 to 16.
    pub fn of(&self, alloc: Global, lane: u8) -> Result<Option<Items<Taken>>, NoMemory> {
        self.board.copy_record(alloc, lane)
    }
}
