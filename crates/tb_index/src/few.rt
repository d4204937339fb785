//! The slots of an index. The hash of a mark determines the slot of its pairs.
ghost use Rattle.std.specs.Prelude.{◌≡◌, ◌&&◌, ◌||◌, ◌<◌, ◌≤◌, ℕ, not, length, OnOk, OnErr};
ghost use Rattle.tb_index.specs.declared.mark.Mark.{Mark as TheMark};
ghost use Rattle.tb_index.specs.Helpers.Pairs.{is_pair, in_few, slot_of, slots, IsFirst};

use crate::mark::{Mark, mixed};
use crate::slot::Slot;
use tb_terms::NoMemory;

/// The number of slots: they take 24 KB. If marks are spread evenly, the slots have capacity for one pair of each of 10,000 marks.
const SLOTS: usize = 1024;

/// Returns the number of the slot for the pairs of a mark.
pub(crate) fn slot_of(mark: Mark) -> usize
    ensures value { result ≡ slot_of mark }
    ensures within { result < slots }
{
    (mixed(mark.head, mark.count as u64) % SLOTS as u64) as usize
}

/// Makes all slots, unless they exist.
pub(crate) fn make_slots(few: &mut Vec<Slot>) -> Result<(), NoMemory>
    ensures same { (mark : TheMark) (proc : ℕ)
        → in_few few.new.items mark proc ≡ in_few few.old.items mark proc }
    ensures ok { OnOk result (slots ≤ length few.new.items) }
{
    if few.len() >= SLOTS {
        return Ok(());
    }
    fill(few)
}

#[inline(never)]
fn fill(few: &mut Vec<Slot>) -> Result<(), NoMemory>
    ensures same { (mark : TheMark) (proc : ℕ)
        → in_few few.new.items mark proc ≡ in_few few.old.items mark proc }
    ensures ok { OnOk result (slots ≤ length few.new.items) }
{
    let alloc = *few.allocator();
    let more = SLOTS.saturating_sub(few.len());
    few.reserve(more)?;
    for _ in 0..more {
        few.push(Slot::new(alloc))?;
    }
    Ok(())
}

pub(crate) fn has_few(few: &[Slot], mark: Mark, proc: u32) -> bool
    requires { slots ≤ length few.now }
    ensures { result ≡ in_few few.now mark proc }
{
    few[slot_of(mark)].has(mark, proc)
}

/// Returns whether the slot of the mark has no capacity for another pair.
pub(crate) fn is_full(few: &[Slot], mark: Mark) -> bool
    requires { slots ≤ length few.now }
{
    few[slot_of(mark)].is_full()
}

#[inline(always)]
pub(crate) fn add_few(few: &mut Vec<Slot>, mark: Mark, proc: u32) -> Result<(), NoMemory>
    requires { slots ≤ length few.old.items }
    ensures added { OnOk result ((other : TheMark) (its : ℕ)
        → in_few few.new.items other its
        ≡ in_few few.old.items other its || is_pair mark proc other its) }
    ensures err { OnErr result (few.new.items ≡ few.old.items) }
{
    let slot = slot_of(mark);
    few[slot].add(mark, proc)?;
    Ok(())
}

pub(crate) fn remove_few(few: &mut Vec<Slot>, mark: Mark, proc: u32)
    ensures { (other : TheMark) (its : ℕ) → in_few few.new.items other its
        ≡ in_few few.old.items other its && not (is_pair mark proc other its) }
{
    let slot = slot_of(mark);
    if slot < few.len() {
        few[slot].remove(mark, proc);
    }
}

/// Returns the first process with the mark, from a number on.
pub(crate) fn next_few(few: &[Slot], mark: Mark, from: u32) -> Option<u32>
    ensures { IsFirst (in_few few.now mark) from result }
{
    let slot = slot_of(mark);
    if slot < few.len() {
        few[slot].next(mark, from)
    } else {
        None
    }
}
