//! The state of the sixteen outlets, which all lane ends and the clock share.
use crate::record::{Kind, Record};
use sqlite_items::Items;
use std::alloc::Global;
use std::sync::Mutex;
use std::sync::atomic::{AtomicBool, AtomicU64, Ordering};
use std::thread;
use tb_edge::Taken;
use tb_terms::NoMemory;

/// The number of lanes.
const LANES: usize = 16;

/// The number of looks for a sign after which a wait gives up.
const LOOKS: u64 = 20_000_000;

/// A sign that an inlet or the clock waits for.
#[derive(Clone, Copy)]
pub(crate) enum Sign {
    /// The outlet of this lane has taken at least this number of items.
    Took(u8, usize),
    /// The outlet of this lane is closed.
    Closed(u8),
    /// All outlets are closed.
    AllClosed,
}

/// The shared state of one outlet.
#[derive(Drop)]
struct Lane {
    took: AtomicU64,
    closed: AtomicBool,
    lost: AtomicBool,
    record: Mutex<Record>,
}

/// The shared state of the sixteen outlets.
#[derive(Drop)]
pub(crate) struct Board {
    lanes: Vec<Lane>,
}

impl Board {
    /// Makes a board on which no item was taken and no outlet is closed.
    pub(crate) fn new(alloc: Global) -> Result<Board, NoMemory> {
        let mut lanes = Vec::with_capacity(alloc, LANES)?;
        for _ in 0..LANES {
            let record = Record::new(alloc)?;
            lanes.push(Lane {
                took: AtomicU64::new(0),
                closed: AtomicBool::new(false),
                lost: AtomicBool::new(false),
                record: Mutex::new(record),
            })?;
        }
        Ok(Board { lanes })
    }

    fn lane(&self, number: u8) -> Option<&Lane> {
        let at = usize::from(number).checked_sub(1)?;
        self.lanes.get(at)
    }

    /// Records that the outlet of this lane took an item. A thread that sees the new count of items also sees the item, or that an item was
    /// lost.
    pub(crate) fn add(&self, number: u8, kind: Kind, bytes: &[u8]) {
        if let Some(lane) = self.lane(number) {
            let kept = match lane.record.try_lock() {
                Some(mut record) => record.add(kind, bytes),
                None => false,
            };
            if !kept {
                lane.lost.store(true, Ordering::SeqCst);
            }
            lane.took.fetch_add(1, Ordering::SeqCst);
        }
    }

    /// Marks the outlet of this lane as closed.
    pub(crate) fn close(&self, number: u8) {
        if let Some(lane) = self.lane(number) {
            lane.closed.store(true, Ordering::SeqCst);
        }
    }

    /// Returns copies of the items that the outlet of this lane took. Returns `None` if an item was lost, if the record is in use, if a
    /// start isn't a valid `Text`, or if there is no such lane.
    pub(crate) fn copy_record(
        &self,
        alloc: Global,
        number: u8,
    ) -> Result<Option<Items<Taken>>, NoMemory> {
        match self.lane(number) {
            Some(lane) if !lane.lost.load(Ordering::SeqCst) => match lane.record.try_lock() {
                Some(record) => record.copy(alloc),
                None => Ok(None),
            },
            _ => Ok(None),
        }
    }

    /// Looks for the sign up to `LOOKS` times, and yields after each look in vain. Returns whether the sign was seen.
    pub(crate) fn wait_for(&self, sign: Sign) -> bool {
        for _ in 0..LOOKS {
            if self.shows(sign) {
                return true;
            }
            thread::yield_now();
        }
        false
    }

    fn shows(&self, sign: Sign) -> bool {
        match sign {
            Sign::Took(number, count) => self.has_taken(number, count as u64),
            Sign::Closed(number) => self.is_closed(number),
            Sign::AllClosed => self.are_closed(),
        }
    }

    fn has_taken(&self, number: u8, count: u64) -> bool {
        match self.lane(number) {
            Some(lane) => count <= lane.took.load(Ordering::SeqCst),
            None => false,
        }
    }

    fn is_closed(&self, number: u8) -> bool {
        match self.lane(number) {
            Some(lane) => lane.closed.load(Ordering::SeqCst),
            None => true,
        }
    }

    fn are_closed(&self) -> bool {
        for lane in self.lanes.as_slice() {
            if !lane.closed.load(Ordering::SeqCst) {
                return false;
            }
        }
        true
    }
}
