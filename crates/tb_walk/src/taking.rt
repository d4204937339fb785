//! Takes an offer, with or without a valid look, and sets the binds of variables.
ghost use Rattle.std.specs.Prelude.{◌≡◌, ◌<◌, length, slice_get, Some, IfOk, IsTrue, true};
ghost use Rattle.std.specs.Option.{ForSome};
ghost use Rattle.tb_process_steps.specs.Binds.{takes_binds, with_binds};
ghost use Rattle.tb_process_steps.specs.Processes.{fresh};
ghost use Rattle.tb_process_steps.specs.Walks.{offers_of};
ghost use Rattle.tb_walk.specs.Helpers.Takings.{IsInRow, IsTakenBy};
ghost use Rattle.tb_walk.specs.WalkViews.{walking_of, IsOnCode, IsLeft};

use crate::look::look_row;
use crate::take::step_by;
use crate::taken::{Outcome, Taken};
use crate::{Branch, Sight, Walk};
use std::alloc::Global;
use tb_code::{Behind, Code};
use tb_func::Store;
use tb_match::Binds;
use tb_process_steps::{copy_own, set_binds};
use tb_terms::{Boxed, Items, NoMemory};

/// Takes the offer at index `k`, if nothing has happened since the last look.
pub(crate) fn take_seen(
    alloc: Global,
    code: &Code,
    walk: &Walk,
    k: usize,
) -> Result<Taken, NoMemory>
    requires on { IsOnCode code.now walk.now }
    requires seen { walk.now.fresh ≡ true }
    requires within { k < length (offers_of (walking_of code.now walk.now)) }
    ensures { IfOk result (λ taken. ForSome (slice_get (offers_of (walking_of code.now walk.now)) k)
        (IsLeft code.now walk.now taken)) }
{
    let row = walk.row.as_slice();
    let sight = sight_at(walk.found.as_slice(), k);
    match sight.behind {
        Behind::Ended => Ok(Taken::Ended(k)),
        Behind::Entered(position) => Ok(Taken::Entered(k, position)),
        Behind::Parted => made(alloc, code, row, walk.ticks, sight),
    }
}

/// Takes the offer at index `k`, even if something has happened since the last look. Starts with a look of its own.
#[inline(never)]
pub(crate) fn take_unseen(
    alloc: Global,
    code: &Code,
    walk: &Walk,
    k: usize,
) -> Result<Taken, NoMemory>
    requires on { IsOnCode code.now walk.now }
    requires within { k < length (offers_of (walking_of code.now walk.now)) }
    ensures { IfOk result (λ taken. ForSome (slice_get (offers_of (walking_of code.now walk.now)) k)
        (IsLeft code.now walk.now taken)) }
{
    let row = walk.row.as_slice();
    let mut found = Items::new(alloc);
    look_row(alloc, code, row, walk.ticks, 0, &walk.store, &mut found)?;
    let sight = sight_at(found.as_slice(), k);
    made(alloc, code, row, walk.ticks, sight)
}

fn sight_at(found: &[Sight], k: usize) -> &Sight
    requires { k < length found.now }
    ensures { slice_get found.now k ≡ Some result.now }
{
    &found[k]
}

/// Makes the change of the row and a copy of the store for a found offer, in their own memory.
#[inline(never)]
fn made(
    alloc: Global,
    code: &Code,
    row: &[Branch],
    ticks: u64,
    sight: &Sight,
) -> Result<Taken, NoMemory>
    requires { IsInRow (fresh code.now.body.tree) row.now sight.now }
    ensures { IfOk result (IsTakenBy (fresh code.now.body.tree) ticks row.now sight.now) }
{
    let own = copy_own(alloc, &sight.own)?;
    let step = step_by(alloc, code, row, ticks, sight)?;
    Ok(Taken::Made(Boxed::new(alloc, Outcome { step, own })?))
}

/// Sets the binds one after another. Most steps have no binds.
pub(crate) fn set_all(store: &mut Store, binds: &mut Binds)
    requires { IsTrue (takes_binds store.old binds.old) }
    ensures { store.new ≡ with_binds store.old binds.old }
{
    if binds.len() == 1 {
        set_one(store, binds);
    } else if !binds.is_empty() {
        set_binds(store, binds);
    }
}

/// Sets the only bind. Most steps that receive terms have one bind.
fn set_one(store: &mut Store, binds: &mut Binds)
    requires one { length binds.old ≡ 1 }
    requires taken { IsTrue (takes_binds store.old binds.old) }
    ensures { store.new ≡ with_binds store.old binds.old }
{
    match binds.pop() {
        Some(bind) => store.set(bind.slot, bind.value),
        None => {}
    }
}
