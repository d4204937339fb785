//! Pairs of a mark and a process, in slots and in an ordered set.
ghost use Rattle.std.specs.Prelude.{◌≡◌, ◌&&◌, ◌||◌, ◌==◌, ℕ, true, false, not, OnOk, OnErr, Option, Some, None};
ghost use Rattle.tb_index.specs.declared.mark.Mark.{Mark as TheMark};
ghost use Rattle.tb_index.specs.Marks.{has_mark};
ghost use Rattle.tb_index.specs.Helpers.Pairs.{has, in_many, is_pair, AreOf, AreAdded, AreRemoved, SamePairs, IsFirst};

use crate::few::{add_few, has_few, is_full, make_slots, next_few, remove_few};
use crate::mark::{Mark, Marks, has_mark};
use crate::slot::{Slot, earlier};
use std::alloc::Global;
use std::collections::BTreeSet;
use tb_terms::NoMemory;

/// Pairs of a mark and a process: in slots, or in an ordered set if a slot had no capacity.
#[derive(Drop)]
pub(crate) struct Pairs {
    /// The slots; none before the first pair is added.
    pub few: Vec<Slot>,
    /// The pairs for which a slot had no capacity: number of terms, head, and process.
    pub many: BTreeSet<(usize, u64, u32)>,
}

impl Pairs {
    /// Makes an empty set of pairs. The call takes no memory.
    pub(crate) fn new(alloc: Global) -> Pairs
        ensures { (mark : TheMark) (proc : ℕ) → has result mark proc ≡ false }
    {
        Pairs {
            few: Vec::new(alloc),
            many: BTreeSet::new(alloc),
        }
    }

    #[inline(always)]
    pub(crate) fn add(&mut self, mark: Mark, proc: u32) -> Result<(), NoMemory>
        ensures added { OnOk result ((other : TheMark) (its : ℕ)
            → has self.new other its ≡ has self.old other its || is_pair mark proc other its) }
        ensures err { OnErr result (SamePairs self.old self.new) }
    {
        match make_slots(&mut self.few) {
            Ok(()) => {}
            Err(error) => return Err(error),
        }
        if has_few(self.few.as_slice(), mark, proc) {
            return Ok(());
        }
        if is_full(self.few.as_slice(), mark) {
            match add_many(&mut self.many, mark, proc) {
                Ok(()) => return Ok(()),
                Err(error) => return Err(error),
            }
        }
        match add_few(&mut self.few, mark, proc) {
            Ok(()) => Ok(()),
            Err(error) => Err(error),
        }
    }

    pub(crate) fn remove(&mut self, mark: Mark, proc: u32)
        ensures { (other : TheMark) (its : ℕ)
            → has self.new other its ≡ has self.old other its && not (is_pair mark proc other its) }
    {
        remove_few(&mut self.few, mark, proc);
        if !self.many.is_empty() {
            remove_many(&mut self.many, mark, proc);
        }
    }

    /// Returns the first process with the mark, from a number on.
    pub(crate) fn next(&self, mark: Mark, from: u32) -> Option<u32>
        ensures { IsFirst (has self.now mark) from result }
    {
        let few = next_few(self.few.as_slice(), mark, from);
        if self.many.is_empty() {
            return few;
        }
        earlier(few, next_many(&self.many, mark, from))
    }

    /// Returns `true` only if no process has the mark.
    pub(crate) fn has_nobody(&self, mark: Mark) -> bool
        ensures { result ≡ true → (its : ℕ) → has self.now mark its ≡ false }
    {
        match self.next(mark, 0) {
            Some(_) => false,
            None => true,
        }
    }

    /// Adds `marks` to a process that has exactly the marks `but`. If out of memory, the pairs remain unchanged.
    #[inline(always)]
    pub(crate) fn add_but(
        &mut self,
        marks: &[Mark],
        but: &[Mark],
        proc: u32,
    ) -> Result<(), NoMemory>
        requires { AreOf self.old but.now proc }
        ensures added { OnOk result (AreAdded self.old self.new marks.now proc) }
        ensures err { OnErr result (SamePairs self.old self.new) }
    {
        if marks.is_empty() {
            return Ok(());
        }
        if marks.len() == 1 {
            return self.add_one_but(marks[0], but, proc);
        }
        self.add_some(marks, but, proc)
    }

    #[inline(never)]
    fn add_some(&mut self, marks: &[Mark], but: &[Mark], proc: u32) -> Result<(), NoMemory>
        requires { AreOf self.old but.now proc }
        ensures added { OnOk result (AreAdded self.old self.new marks.now proc) }
        ensures err { OnErr result (SamePairs self.old self.new) }
    {
        for mark in marks {
            match self.add_one_but(*mark, but, proc) {
                Ok(()) => {}
                Err(error) => {
                    self.remove_but(marks, but, proc);
                    return Err(error);
                }
            }
        }
        Ok(())
    }

    #[inline(always)]
    fn add_one_but(&mut self, mark: Mark, but: &[Mark], proc: u32) -> Result<(), NoMemory>
        requires { (other : TheMark) → has_mark but.now other ≡ true
            → has self.old other proc ≡ true }
        ensures added { OnOk result ((other : TheMark) (its : ℕ)
            → has self.new other its ≡ has self.old other its || is_pair mark proc other its) }
        ensures err { OnErr result (SamePairs self.old self.new) }
    {
        if has_mark(but, mark) {
            return Ok(());
        }
        self.add(mark, proc)
    }

    /// Removes each of `marks` that isn't among `but` from the process.
    #[inline(always)]
    pub(crate) fn remove_but(&mut self, marks: &[Mark], but: &[Mark], proc: u32)
        ensures { AreRemoved self.old self.new marks.now but.now proc }
    {
        if marks.is_empty() {
            return;
        }
        if marks.len() == 1 {
            self.remove_one_but(marks[0], but, proc);
        } else {
            self.remove_some(marks, but, proc);
        }
    }

    #[inline(never)]
    fn remove_some(&mut self, marks: &[Mark], but: &[Mark], proc: u32)
        ensures { AreRemoved self.old self.new marks.now but.now proc }
    {
        for mark in marks {
            self.remove_one_but(*mark, but, proc);
        }
    }

    #[inline(always)]
    fn remove_one_but(&mut self, mark: Mark, but: &[Mark], proc: u32)
        ensures { (other : TheMark) (its : ℕ) → has self.new other its ≡ has self.old other its
            && not (is_pair mark proc other its && not (has_mark but.now other)) }
    {
        if !has_mark(but, mark) {
            self.remove(mark, proc);
        }
    }
}

#[inline(never)]
fn add_many(many: &mut BTreeSet<(usize, u64, u32)>, mark: Mark, proc: u32) -> Result<(), NoMemory>
    ensures added { OnOk result ((other : TheMark) (its : ℕ)
        → in_many many.new other its ≡ in_many many.old other its || is_pair mark proc other its) }
    ensures err { OnErr result
        ((other : TheMark) (its : ℕ) → in_many many.new other its ≡ in_many many.old other its) }
{
    many.insert((mark.count, mark.head, proc))?;
    Ok(())
}

#[inline(never)]
fn remove_many(many: &mut BTreeSet<(usize, u64, u32)>, mark: Mark, proc: u32)
    ensures { (other : TheMark) (its : ℕ)
        → in_many many.new other its
        ≡ in_many many.old other its && not (is_pair mark proc other its) }
{
    many.remove(&(mark.count, mark.head, proc));
}

#[inline(never)]
fn next_many(many: &BTreeSet<(usize, u64, u32)>, mark: Mark, from: u32) -> Option<u32>
    ensures { IsFirst (in_many many.now mark) from result }
{
    match many.range((mark.count, mark.head, from)..).next() {
        Some(found) => {
            if found.0 == mark.count && found.1 == mark.head {
                Some(found.2)
            } else {
                None
            }
        }
        None => None,
    }
}

/// Adds the new marks of a process to its old ones, on both sides. If out of memory, the pairs remain unchanged.
pub(crate) fn add_both(
    sending: &mut Pairs,
    receiving: &mut Pairs,
    proc: u32,
    old: &Marks,
    new: &Marks,
) -> Result<(), NoMemory>
    requires sends { AreOf sending.old old.now.sends.items proc }
    requires receives { AreOf receiving.old old.now.receives.items proc }
    ensures sends { OnOk result (AreAdded sending.old sending.new new.now.sends.items proc) }
    ensures receives { OnOk result
        (AreAdded receiving.old receiving.new new.now.receives.items proc) }
    ensures same_sends { OnErr result (SamePairs sending.old sending.new) }
    ensures same_receives { OnErr result (SamePairs receiving.old receiving.new) }
{
    sending.add_but(new.sends.as_slice(), old.sends.as_slice(), proc)?;
    match receiving.add_but(new.receives.as_slice(), old.receives.as_slice(), proc) {
        Ok(()) => Ok(()),
        Err(error) => {
            sending.remove_but(new.sends.as_slice(), old.sends.as_slice(), proc);
            Err(error)
        }
    }
}

/// Removes each of `marks` that isn't among `but` from a process, on both sides.
#[inline(always)]
pub(crate) fn remove_both(
    sending: &mut Pairs,
    receiving: &mut Pairs,
    proc: u32,
    marks: &Marks,
    but: &Marks,
)
    ensures sends { AreRemoved
        sending.old sending.new marks.now.sends.items but.now.sends.items proc }
    ensures receives { AreRemoved
        receiving.old receiving.new marks.now.receives.items but.now.receives.items proc }
{
    sending.remove_but(marks.sends.as_slice(), but.sends.as_slice(), proc);
    receiving.remove_but(marks.receives.as_slice(), but.receives.as_slice(), proc);
}
