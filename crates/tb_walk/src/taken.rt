//! A taken offer, and the change of the walk that continues with it.
ghost use Rattle.std.specs.Prelude.{◌≡◌, ◌<◌, Some, length, slice_get, slice_set};
ghost use Rattle.tb_process_steps.specs.Helpers.OfferViews.{or_own};
ghost use Rattle.tb_process_steps.specs.Offers.{Offered};
ghost use Rattle.tb_process_steps.specs.Processes.{fresh};
ghost use Rattle.tb_code.specs.Positions.{size};
ghost use Rattle.tb_walk.specs.Helpers.Reads.{branch};
ghost use Rattle.tb_walk.specs.Helpers.Takings.{EndsTo};
ghost use Rattle.tb_walk.specs.WalkViews.{IsGone, IsLeft, IsOnCode};

use crate::settle::{Step, go_on, left_by};
use crate::{Branch, Row, Sight, Walk};
use tb_code::Code;
use tb_func::Store;
use tb_terms::{Boxed, Items};

/// A taken offer. If the walk was looked at and the offer's effect isn't `Parted`, the value is an index of the found offers.
#[derive(Drop)]
pub enum Taken {
    /// The found offer at this index, with which the part of its branch ends.
    Ended(usize),
    /// The found offer at this index, after which its branch continues at the given position.
    Entered(usize, usize),
    /// The change of the row and the store, made when the offer was taken.
    Made(Boxed<Outcome>),
}

/// The change of the row, and the store that a `let` made, if one did.
#[derive(Drop)]
pub struct Outcome {
    pub(crate) step: Step,
    pub(crate) own: Option<Store>,
}

/// Makes the change of the row, and sets the store to the store of the offer.
pub(crate) fn settle(code: &Code, walk: &mut Walk, taken: Taken)
    requires on { IsOnCode code.now walk.old }
    requires taken { (offered : Offered) × IsLeft code.now walk.old taken offered }
    ensures gone { (offered : Offered) → IsLeft code.now walk.old taken offered
        → IsGone code.now walk.old walk.new offered }
    ensures ticks { walk.new.ticks ≡ walk.old.ticks }
{
    match taken {
        Taken::Ended(k) => {
            let at = set_found(&mut walk.store, &mut walk.found, k);
            end_at(code, &mut walk.row, walk.ticks, at);
        }
        Taken::Entered(k, position) => {
            let at = set_found(&mut walk.store, &mut walk.found, k);
            enter_at(&mut walk.row, at, position, walk.ticks);
        }
        Taken::Made(outcome) => {
            let Outcome { step, own } = outcome.into_inner();
            set_own(&mut walk.store, own);
            go_on(&mut walk.row, step);
        }
    }
}

/// Changes the row after the branch at the index has ended.
fn end_at(code: &Code, row: &mut Row, ticks: u64, at: usize)
    requires within { at < length row.old }
    requires there { (branch : Branch) → slice_get row.old at ≡ Some branch
        → branch.position < size (fresh code.now.body.tree) }
    ensures { EndsTo (fresh code.now.body.tree) ticks row.old at row.new }
{
    let step = left_by(code, row.as_slice(), ticks, at);
    go_on(row, step);
}

/// Replaces the branch at the index by a branch at the position, entered now.
fn enter_at(row: &mut Row, at: usize, position: usize, ticks: u64)
    requires { at < length row.old }
    ensures { row.new ≡ slice_set row.old at (branch position ticks) }
{
    row.set(
        at,
        Branch {
            position,
            entered: ticks,
        },
    );
}

/// Sets the store to the store of the found offer at index `k`, and returns the index of the offer's branch. If the offer has its own
/// store, the offer leaves the list.
fn set_found(store: &mut Store, found: &mut Items<Sight>, k: usize) -> usize
    requires { k < length found.old }
    ensures branch { (one : Sight) → slice_get found.old k ≡ Some one → result ≡ one.branch }
    ensures store { (one : Sight) → slice_get found.old k ≡ Some one
        → store.new ≡ or_own one.own store.old }
{
    let one = &found.as_slice()[k];
    let branch = one.branch;
    if one.own.is_some() {
        take_own(store, found, k);
    }
    branch
}

#[inline(never)]
fn take_own(store: &mut Store, found: &mut Items<Sight>, k: usize)
    requires { k < length found.old }
    ensures { (one : Sight) → slice_get found.old k ≡ Some one
        → store.new ≡ or_own one.own store.old }
{
    let one = found.remove(k);
    set_own(store, one.own);
}

fn set_own(store: &mut Store, own: Option<Store>)
    ensures { store.new ≡ or_own own store.old }
{
    match own {
        Some(made) => *store = made,
        None => {}
    }
}
