//! The counts of an index: the processes that send, by their number of terms, whatever the first term is.
ghost use Rattle.std.specs.Prelude.{◌≡◌, ℕ, true, false, OnOk};
ghost use Rattle.tb_index.specs.declared.mark.Mark.{Mark as TheMark};
ghost use Rattle.tb_index.specs.Marks.{has_mark, open_head, wide};
ghost use Rattle.tb_index.specs.Helpers.Pairs.{has, has_open, in_few, in_many, is_in, AreCounted, AreCountedIf, AreCountedStill, AreOpened};

use crate::mark::{Mark, OPEN_HEAD, has_count, has_mark, has_open, wide};
use crate::pairs::Pairs;
use crate::slot::{Pair, Slot};
use std::collections::BTreeSet;
use tb_terms::NoMemory;

/// The processes that send, by their number of terms, whatever the first term is. The index starts to count when a process is to receive
/// under an open mark.
#[derive(Drop)]
pub(crate) struct Counts {
    /// Whether the index counts processes.
    pub opened: bool,
    /// The counted processes, each under the open mark with its number of terms.
    pub pairs: Pairs,
}

/// Counts all processes that send, if one of these marks is open and the index doesn't count yet.
/// After an error, `opened` is still false, and some processes may be counted.
pub(crate) fn open_up(counts: &mut Counts, sending: &Pairs, marks: &[Mark]) -> Result<(), NoMemory>
    requires { AreCountedIf counts.old.opened sending.now counts.old.pairs }
    ensures counted { AreCountedIf counts.new.opened sending.now counts.new.pairs }
    ensures kept { counts.old.opened ≡ true → counts.new.opened ≡ true }
    ensures marks { OnOk result (AreOpened counts.new.opened marks.now) }
{
    if counts.opened {
        return Ok(());
    }
    if !has_open(marks) {
        return Ok(());
    }
    match count_all(&mut counts.pairs, sending) {
        Ok(()) => {
            counts.opened = true;
            Ok(())
        }
        Err(error) => Err(error),
    }
}

/// If the index counts, counts a process under each of `marks` that isn't among `but`, its old marks. After an error, the process may be
/// counted under some of `marks`.
pub(crate) fn count(
    counts: &mut Counts,
    marks: &[Mark],
    but: &[Mark],
    proc: u32,
) -> Result<(), NoMemory>
    ensures opened { counts.new.opened ≡ counts.old.opened }
    ensures kept { (mark : TheMark) (its : ℕ) → has counts.old.pairs mark its ≡ true
        → has counts.new.pairs mark its ≡ true }
    ensures all { OnOk result
        (counts.old.opened ≡ true → (mark : TheMark) → has_mark marks.now mark ≡ true
        → has_mark but.now mark ≡ false → has counts.new.pairs (wide mark) proc ≡ true) }
{
    if !counts.opened {
        return Ok(());
    }
    match count_marks(&mut counts.pairs, marks, but, proc) {
        Ok(()) => Ok(()),
        Err(error) => Err(error),
    }
}

/// Removes the count of a process for each number of terms that one of `marks` has, and none of `others`.
pub(crate) fn uncount(counts: &mut Counts, marks: &[Mark], others: &[Mark], proc: u32)
    ensures opened { counts.new.opened ≡ counts.old.opened }
    ensures still { AreCountedStill counts.old.pairs counts.new.pairs others.now proc }
{
    if counts.opened {
        uncount_marks(&mut counts.pairs, marks, others, proc);
    }
}

#[inline(never)]
fn count_marks(counted: &mut Pairs, marks: &[Mark], but: &[Mark], proc: u32) -> Result<(), NoMemory>
    ensures kept { (mark : TheMark) (its : ℕ) → has counted.old mark its ≡ true
        → has counted.new mark its ≡ true }
    ensures all { OnOk result ((mark : TheMark) → has_mark marks.now mark ≡ true
        → has_mark but.now mark ≡ false → has counted.new (wide mark) proc ≡ true) }
{
    for mark in marks {
        count_one(counted, *mark, but, proc)?;
    }
    Ok(())
}

fn count_one(counted: &mut Pairs, mark: Mark, but: &[Mark], proc: u32) -> Result<(), NoMemory>
    ensures kept { (other : TheMark) (its : ℕ) → has counted.old other its ≡ true
        → has counted.new other its ≡ true }
    ensures here { OnOk result (has_mark but.now mark ≡ false
        → has counted.new (wide mark) proc ≡ true) }
{
    if has_mark(but, mark) {
        return Ok(());
    }
    counted.add(wide(mark), proc)?;
    Ok(())
}

#[inline(never)]
fn uncount_marks(counted: &mut Pairs, marks: &[Mark], others: &[Mark], proc: u32)
    ensures { AreCountedStill counted.old counted.new others.now proc }
{
    for mark in marks {
        uncount_one(counted, *mark, others, proc);
    }
}

fn uncount_one(counted: &mut Pairs, mark: Mark, others: &[Mark], proc: u32)
    ensures { AreCountedStill counted.old counted.new others.now proc }
{
    if !has_count(others, mark.count) {
        counted.remove(wide(mark), proc);
    }
}

/// Counts each process under each mark that it sends.
#[inline(never)]
fn count_all(counted: &mut Pairs, sending: &Pairs) -> Result<(), NoMemory>
    ensures { OnOk result (AreCounted sending.now counted.new) }
{
    count_few(counted, sending.few.as_slice())?;
    count_many(counted, &sending.many)?;
    Ok(())
}

fn count_few(counted: &mut Pairs, few: &[Slot]) -> Result<(), NoMemory>
    ensures { OnOk result ((mark : TheMark) (its : ℕ) → in_few few.now mark its ≡ true
        → has counted.new (wide mark) its ≡ true) }
{
    for slot in few {
        count_slot(counted, slot.pairs())?;
    }
    Ok(())
}

fn count_slot(counted: &mut Pairs, pairs: &[Pair]) -> Result<(), NoMemory>
    ensures kept { (mark : TheMark) (its : ℕ) → has counted.old mark its ≡ true
        → has counted.new mark its ≡ true }
    ensures all { OnOk result ((mark : TheMark) (its : ℕ) → is_in pairs.now mark its ≡ true
        → has counted.new (wide mark) its ≡ true) }
{
    for pair in pairs {
        count_pair(counted, pair.mark.count, pair.proc)?;
    }
    Ok(())
}

fn count_many(counted: &mut Pairs, many: &BTreeSet<(usize, u64, u32)>) -> Result<(), NoMemory>
    ensures kept { (mark : TheMark) (its : ℕ) → has counted.old mark its ≡ true
        → has counted.new mark its ≡ true }
    ensures all { OnOk result ((mark : TheMark) (its : ℕ) → in_many many.now mark its ≡ true
        → has counted.new (wide mark) its ≡ true) }
{
    for pair in many.iter() {
        count_pair(counted, pair.0, pair.2)?;
    }
    Ok(())
}

fn count_pair(counted: &mut Pairs, count: usize, proc: u32) -> Result<(), NoMemory>
    ensures kept { (mark : TheMark) (its : ℕ) → has counted.old mark its ≡ true
        → has counted.new mark its ≡ true }
    ensures here { OnOk result
        (has counted.new (record { count = count; head = open_head }) proc ≡ true) }
{
    let mark = Mark {
        count,
        head: OPEN_HEAD,
    };
    counted.add(mark, proc)?;
    Ok(())
}
