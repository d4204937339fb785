//! The cues of inlets and the calls of outlets that must fail.
ghost use Rattle.std.specs.Prelude.{◌≡◌, ◌==◌, IfOk, map};
ghost use Rattle.std.specs.List.{filter};
ghost use Rattle.tb_fake.specs.Fakes.{cues_on, fails_on};

use sqlite_items::Items;
use std::alloc::Global;
use tb_edge::{Bytes, FailCalls, Given};
use tb_terms::NoMemory;

/// An item that an inlet gives, and when the item is due.
#[derive(Drop)]
pub struct Cue {
    /// The lane whose inlet gives the item, from 1 to 16. A cue of another lane is never given.
    pub lane: u8,
    /// The lane whose outlet is watched, from 1 to 16.
    pub watch: u8,
    /// The number of items that this outlet must have taken.
    pub after: usize,
    /// The item. A line of more than 65,536 bytes is given as `Long`.
    pub gives: Given,
}

/// Cues in order. Each lane gives its own cues in this order.
pub type Cues = Items<Cue>;

/// A call that must fail.
#[derive(Clone, Copy)]
pub struct Fail {
    /// The lane of the outlet, from 1 to 16.
    pub lane: u8,
    /// The number of the call, from 1, among the calls of `begin` and `line`.
    pub call: u64,
}

/// Calls that must fail, in any order.
pub type Fails = Items<Fail>;

impl Cue {
    /// Returns a copy of the cue in its own memory.
    pub fn copy(&self, alloc: Global) -> Result<Cue, NoMemory>
        ensures { IfOk result (λ copy. copy ≡ self.now) }
    {
        let gives = match &self.gives {
            Given::Line(bytes) => Given::Line(Bytes::from_slice(alloc, bytes.as_slice())?),
            Given::Long => Given::Long,
            Given::End => Given::End,
        };
        Ok(Cue {
            lane: self.lane,
            watch: self.watch,
            after: self.after,
            gives,
        })
    }
}

/// Returns copies of a lane's cues, in order.
pub(crate) fn copy_cues(alloc: Global, cues: &[Cue], lane: u8) -> Result<Cues, NoMemory>
    ensures { IfOk result (λ own. own ≡ cues_on lane cues.now) }
{
    let mut own = Items::new(alloc);
    for cue in cues {
        if cue.lane == lane {
            own.push(cue.copy(alloc)?)?;
        }
    }
    Ok(own)
}

/// Returns the numbers of the calls of a lane's outlet that must fail.
pub(crate) fn copy_fails(alloc: Global, fails: &[Fail], lane: u8) -> Result<FailCalls, NoMemory>
    ensures { IfOk result (λ own. own ≡ fails_on lane fails.now) }
{
    let mut own = Items::new(alloc);
    for fail in fails {
        if fail.lane == lane {
            own.push(fail.call)?;
        }
    }
    Ok(own)
}
