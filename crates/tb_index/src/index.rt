//! The index: the marks under which each process sends and receives, and which processes are awake.
ghost use Rattle.std.specs.Prelude.{◌≡◌, true, false, IfOk, OnOk, OnErr};
ghost use Rattle.tb_index.specs.declared.mark.Mark.{Mark as TheMark};
ghost use Rattle.tb_index.specs.Marks.{has_mark};
ghost use Rattle.tb_index.specs.Indexes.{sends, receives, is_receiver, HasRoom, IsSender, IsReceiver, MayBegin, AreThose, IsNext, NobodyPassed, IsEmpty, SameIndex, IsSet, IsCleared, IsTurned};

use crate::active::{Side, next_sender, quiet_side};
use crate::bits::Bits;
use crate::coming::come;
use crate::counts::{Counts, open_up, uncount};
use crate::gather::gather;
use crate::mark::{Mark, Marks, are_same, wide};
use crate::pairs::{Pairs, remove_both};
use crate::slot::earlier;
use std::alloc::Global;
use std::collections::BTreeSet;
use std::marker::Model;
use tb_terms::NoMemory;

/// An index of processes: the marks under which each process sends and receives, and whether it is awake.
#[derive(Drop)]
pub struct Index {
    sending: Pairs,
    receiving: Pairs,
    counts: Counts,
    awake: Bits,
    active: Vec<Mark>,
}

impl Model for Index {
    ghost use Rattle.tb_index.specs.Indexes.{IndexState};
    ghost use Rattle.tb_index.specs.Helpers.Ties.{IsTied};

    ghost Value = { IndexState };

    ghost view = { λ index. record {
      sending = index.sending;
      receiving = index.receiving;
      awake = index.awake;
    } };

    ghost invariant = { λ index. IsTied
        index.sending index.receiving index.counts.opened index.counts.pairs index.active.items };
}

impl Index {
    /// Makes an empty index. The call takes no memory.
    pub fn new(alloc: Global) -> Index
        ensures { IsEmpty result }
    {
        Index {
            sending: Pairs::new(alloc),
            receiving: Pairs::new(alloc),
            counts: Counts {
                opened: false,
                pairs: Pairs::new(alloc),
            },
            awake: Bits::new(alloc),
            active: Vec::new(alloc),
        }
    }

    /// Takes the memory that `wake` requires for a process.
    pub fn make_room(&mut self, proc: u32) -> Result<(), NoMemory>
        ensures same { SameIndex self.old self.new }
        ensures room { OnOk result (HasRoom self.new proc) }
    {
        self.awake.make_room(proc as usize)
    }

    /// Replaces the marks of a process: `old` are the marks that the index has, `new` the marks from now on.
    pub fn set(&mut self, proc: u32, old: &Marks, new: &Marks) -> Result<(), NoMemory>
        requires sends { (mark : TheMark)
            → sends self.old mark proc ≡ has_mark old.now.sends.items mark }
        requires receives { (mark : TheMark)
            → receives self.old mark proc ≡ has_mark old.now.receives.items mark }
        ensures ok { OnOk result
            (IsSet self.old self.new proc new.now.sends.items new.now.receives.items) }
        ensures err { OnErr result (SameIndex self.old self.new) }
    {
        if are_unchanged(old, new) {
            return Ok(());
        }
        open_up(&mut self.counts, &self.sending, new.receives.as_slice())?;
        come(
            &mut self.sending,
            &mut self.receiving,
            &mut self.counts,
            &mut self.active,
            proc,
            old,
            new,
        )?;
        remove_both(&mut self.sending, &mut self.receiving, proc, old, new);
        uncount(
            &mut self.counts,
            old.sends.as_slice(),
            new.sends.as_slice(),
            proc,
        );
        quiet_side(
            &mut self.active,
            Side::Sends,
            &self.sending,
            &self.counts,
            old.sends.as_slice(),
            new.sends.as_slice(),
        );
        quiet_side(
            &mut self.active,
            Side::Receives,
            &self.receiving,
            &self.counts,
            old.receives.as_slice(),
            new.receives.as_slice(),
        );
        Ok(())
    }

    /// Removes a process that has left. `old` are the marks that the index has of the process.
    pub fn clear(&mut self, proc: u32, old: &Marks)
        requires sends { (mark : TheMark)
            → sends self.old mark proc ≡ has_mark old.now.sends.items mark }
        requires receives { (mark : TheMark)
            → receives self.old mark proc ≡ has_mark old.now.receives.items mark }
        ensures { IsCleared self.old self.new proc }
    {
        self.sending.remove_but(old.sends.as_slice(), &[], proc);
        self.receiving
            .remove_but(old.receives.as_slice(), &[], proc);
        uncount(&mut self.counts, old.sends.as_slice(), &[], proc);
        quiet_side(
            &mut self.active,
            Side::Sends,
            &self.sending,
            &self.counts,
            old.sends.as_slice(),
            &[],
        );
        quiet_side(
            &mut self.active,
            Side::Receives,
            &self.receiving,
            &self.counts,
            old.receives.as_slice(),
            &[],
        );
        self.awake.remove(proc as usize);
    }

    /// Makes a process awake, so that `next_starter` doesn't pass over it.
    pub fn wake(&mut self, proc: u32)
        requires room { HasRoom self.old proc }
        ensures { IsTurned self.old self.new proc true }
    {
        self.awake.insert(proc as usize);
    }

    /// Lets a process sleep. `next_starter` can still name the process as a sender.
    pub fn let_sleep(&mut self, proc: u32)
        ensures { IsTurned self.old self.new proc false }
    {
        self.awake.remove(proc as usize);
    }

    /// Returns the first process, from a number on, that receives a message with the mark.
    #[inline(always)]
    pub fn next_receiver(&self, mark: Mark, from: u32) -> Option<u32>
        ensures { IsNext (is_receiver self.now mark) from result }
    {
        let just = self.receiving.next(mark, from);
        if !self.counts.opened {
            return just;
        }
        let wide = self.receiving.next(wide(mark), from);
        earlier(just, wide)
    }

    /// Returns the next process, from a number on, that the search must ask. The call may name a process in vain, such as a sender
    /// whose messages no process receives.
    pub fn next_starter(&self, from: u32) -> Option<u32>
        ensures { NobodyPassed (MayBegin self.now) from result }
    {
        let awake = self.awake.next_number(from);
        let sender = next_sender(
            &self.sending,
            &self.counts.pairs,
            self.active.as_slice(),
            from,
        );
        earlier(awake, sender)
    }

    /// Collects the processes that send. The set is in the order of their numbers.
    pub fn senders(&self, alloc: Global) -> Result<BTreeSet<u32>, NoMemory>
        ensures { IfOk result (AreThose (IsSender self.now)) }
    {
        let mut found = BTreeSet::new(alloc);
        gather(&mut found, &self.sending, None)?;
        Ok(found)
    }

    /// Collects the processes that receive a message with the mark. The set is in the order of their numbers.
    pub fn receivers(&self, alloc: Global, mark: Mark) -> Result<BTreeSet<u32>, NoMemory>
        ensures { IfOk result (AreThose (IsReceiver self.now mark)) }
    {
        let mut found = BTreeSet::new(alloc);
        gather(&mut found, &self.receiving, Some(mark))?;
        Ok(found)
    }
}

fn are_unchanged(old: &Marks, new: &Marks) -> bool
    ensures sends { result ≡ true → old.now.sends.items ≡ new.now.sends.items }
    ensures receives { result ≡ true → old.now.receives.items ≡ new.now.receives.items }
{
    if are_same(old.sends.as_slice(), new.sends.as_slice()) {
        are_same(old.receives.as_slice(), new.receives.as_slice())
    } else {
        false
    }
}
