//! A slot: a few pairs of a mark and a process, in no order.
ghost use Rattle.std.specs.Prelude.{◌≡◌, ◌&&◌, ◌||◌, ◌<◌, ℕ, not, true, false, [], length, slice_index_or, OnOk, OnErr, IfSome, IfNone};
ghost use Rattle.tb_index.specs.declared.mark.Mark.{Mark as TheMark};
ghost use Rattle.tb_index.specs.Helpers.Pairs.{is_pair, is_of, is_in, IsFirst, earlier};

use crate::mark::{Mark, is_same};
use std::alloc::Global;
use std::marker::Model;
use tb_terms::NoMemory;

/// The maximum number of pairs in a slot. Each look-up goes through all of them.
const MOST_PAIRS: usize = 16;

/// A process with a mark.
#[derive(Clone, Copy)]
pub(crate) struct Pair {
    pub mark: Mark,
    pub proc: u32,
}

/// A few processes with marks, in no order.
#[derive(Drop)]
pub(crate) struct Slot {
    pairs: Vec<Pair>,
}

impl Model for Slot {
    ghost use Rattle.std.specs.Prelude.{List};
    ghost use Rattle.tb_index.specs.declared.slot.Pair.{Pair};

    ghost Value = { List Pair };

    ghost view = { λ slot. slot.pairs.items };
}

impl Slot {
    pub(crate) fn new(alloc: Global) -> Slot
        ensures { result ≡ [] }
    {
        Slot {
            pairs: Vec::new(alloc),
        }
    }

    pub(crate) fn pairs(&self) -> &[Pair]
        ensures { result.now ≡ self.now }
    {
        self.pairs.as_slice()
    }

    pub(crate) fn is_full(&self) -> bool {
        self.pairs.len() >= MOST_PAIRS
    }

    pub(crate) fn has(&self, mark: Mark, proc: u32) -> bool
        ensures { result ≡ is_in self.now mark proc }
    {
        has_pair(self.pairs.as_slice(), mark, proc)
    }

    #[inline(always)]
    pub(crate) fn add(&mut self, mark: Mark, proc: u32) -> Result<(), NoMemory>
        ensures added { OnOk result ((other : TheMark) (its : ℕ)
            → is_in self.new other its ≡ is_in self.old other its || is_pair mark proc other its) }
        ensures err { OnErr result (self.new ≡ self.old) }
    {
        self.pairs.reserve(1)?;
        self.pairs.push_reserved(Pair { mark, proc });
        Ok(())
    }

    pub(crate) fn remove(&mut self, mark: Mark, proc: u32)
        ensures { (other : TheMark) (its : ℕ)
            → is_in self.new other its
            ≡ is_in self.old other its && not (is_pair mark proc other its) }
    {
        remove_pair(&mut self.pairs, mark, proc);
    }

    /// Returns the first process with the mark, from a number on.
    pub(crate) fn next(&self, mark: Mark, from: u32) -> Option<u32>
        ensures { IsFirst (is_in self.now mark) from result }
    {
        next_in(self.pairs.as_slice(), mark, from)
    }
}

fn is_of(pair: Pair, mark: Mark, proc: u32) -> bool
    ensures { result ≡ is_of mark proc pair }
{
    is_same(mark, pair.mark) && proc == pair.proc
}

fn has_pair(pairs: &[Pair], mark: Mark, proc: u32) -> bool
    ensures { result ≡ is_in pairs.now mark proc }
{
    for pair in pairs {
        if is_of(*pair, mark, proc) {
            return true;
        }
    }
    false
}

/// Returns the position of a pair of this mark and this process.
fn place_of(pairs: &[Pair], mark: Mark, proc: u32) -> Option<usize>
    ensures within { IfSome result (λ place. place < length pairs.now) }
    ensures here { IfSome result (λ place. is_of mark proc
        (slice_index_or pairs.now place (record { mark = mark; proc = proc })) ≡ true) }
    ensures none { IfNone result (is_in pairs.now mark proc ≡ false) }
{
    for place in 0..pairs.len() {
        if is_of(pairs[place], mark, proc) {
            return Some(place);
        }
    }
    None
}

fn remove_pair(pairs: &mut Vec<Pair>, mark: Mark, proc: u32)
    ensures { (other : TheMark) (its : ℕ) → is_in pairs.new.items other its
        ≡ is_in pairs.old.items other its && not (is_pair mark proc other its) }
{
    while let Some(place) = place_of(pairs.as_slice(), mark, proc) {
        pairs.swap_remove(place);
    }
}

/// Returns the process of the pair, if the pair has the mark and the number of the process isn't below `from`.
fn proc_of(pair: Pair, mark: Mark, from: u32) -> Option<u32>
    ensures { IsFirst (λ proc. is_of mark proc pair) from result }
{
    if is_same(mark, pair.mark) && from <= pair.proc {
        Some(pair.proc)
    } else {
        None
    }
}

fn next_in(pairs: &[Pair], mark: Mark, from: u32) -> Option<u32>
    ensures { IsFirst (is_in pairs.now mark) from result }
{
    let mut found = None;
    for pair in pairs {
        found = earlier(found, proc_of(*pair, mark, from));
    }
    found
}

/// Returns the smaller of two numbers, or the only one, or none.
pub(crate) fn earlier(one: Option<u32>, other: Option<u32>) -> Option<u32>
    ensures { result ≡ earlier one other }
{
    match (one, other) {
        (Some(a), Some(b)) => { if a <= b { Some(a) } else { Some(b) } }
        (Some(a), None) => Some(a),
        (None, b) => b,
    }
}
