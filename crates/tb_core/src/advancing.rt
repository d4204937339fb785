//! Takes the action of a process in a move, and advances the process.

ghost use Rattle.std.specs.Prelude.{◌≡◌, ℕ, ◌<◌, ◌≤◌, ◌+◌, ◌≢◌, [], length, Contains, IfOk, OnOk, slice_get};
ghost use Rattle.tb_search.specs.Views.{own_in, sent_in, ready_at, offer_of};
ghost use Rattle.tb_process_steps.specs.Offers.{Offered};
ghost use Rattle.tb_search.specs.Candidates.{row_at, rows_of};
ghost use Rattle.tb_core.specs.Helpers.LiveBuses.{procs_in, IsSound, IsStaleAt, StandsAs, Leaves, CanAdvance, IsAdvanced, AreAdvanced, IsKept};
ghost use Rattle.tb_living.specs.Lives.{AreFresh};

use crate::bus::LiveBus;
use std::alloc::Global;
use std::mem::swap;
use tb_bus::{Action, OwnAction};
use tb_living::go_on;
use tb_log::Place;
use tb_match::Binds;
use tb_process_steps::Walker;
use tb_search::Ready;
use tb_terms::{Items, NoMemory, Terms};

/// The own action with which a process takes part in a move, and the place of the action.
#[derive(Drop)]
pub struct Begun {
    /// The number of the process, and the atom of the action.
    pub from: Place,
    /// The action.
    pub own: OwnAction,
}

impl<W: Walker> LiveBus<W> {
    /// Takes the offer of a ready action from the walker of its process. The process remains unchanged until `advance_at`.
    pub fn take_at(&self, alloc: Global, at: usize, index: usize) -> Result<W::Taken, NoMemory>
        requires sound { IsSound W.view self.now }
        requires fresh { AreFresh self.now.living.items }
        requires within { at < length self.now.living.items }
        requires index_within { index < length (row_at (rows_of self.now.living.items) at).ready }
        ensures { IfOk result (λ taken. Leaves W.view self.now at taken
            (offer_of (procs_in W.view self.now) (rows_of self.now.living.items) at index)) }
    {
        let living = self.living[at].get();
        let plan = &self.plans.as_slice()[living.body as usize];
        living.walker.take(alloc, plan, living.ready[index].offer)
    }

    /// Takes a ready action out of its process. The process isn't fresh afterwards.
    fn take_ready(&mut self, at: usize, index: usize) -> Ready
        requires sound { IsSound W.view self.old }
        requires within { at < length self.old.living.items }
        requires index_within { index < length (row_at (rows_of self.old.living.items) at).ready }
        requires named { Contains self.old.stale.items
            (row_at (rows_of self.old.living.items) at).number }
        ensures ready { result ≡ ready_at (rows_of self.old.living.items) at index }
        ensures same { StandsAs W.view self.old self.new }
        ensures stale { self.new.stale ≡ self.old.stale }
        ensures kept { IsKept self.old.living.items self.new.living.items at }
        ensures others { (other : ℕ) → other ≢ at
            → slice_get self.new.living.items other ≡ slice_get self.old.living.items other }
        ensures long { length self.new.living.items ≡ length self.old.living.items }
        ensures idle { IsStaleAt self.new.living.items at }
    {
        let living = self.living[at].get_mut();
        living.fresh = false;
        living.ready.swap_remove(index)
    }

    /// Marks a process as not fresh.
    fn outdate(&mut self, at: usize)
        requires sound { IsSound W.view self.old }
        requires within { at < length self.old.living.items }
        requires named { Contains self.old.stale.items
            (row_at (rows_of self.old.living.items) at).number }
        ensures same { StandsAs W.view self.old self.new }
        ensures stale { self.new.stale ≡ self.old.stale }
        ensures kept { IsKept self.old.living.items self.new.living.items at }
    {
        self.living[at].get_mut().fresh = false;
    }

    /// Takes the terms that a ready action sends. Its process isn't fresh afterwards.
    pub fn take_sent(&mut self, alloc: Global, at: usize, index: usize) -> Terms
        requires sound { IsSound W.view self.old }
        requires within { at < length self.old.living.items }
        requires index_within { index < length (row_at (rows_of self.old.living.items) at).ready }
        requires named { Contains self.old.stale.items
            (row_at (rows_of self.old.living.items) at).number }
        ensures sent { result ≡ sent_in (ready_at (rows_of self.old.living.items) at index).action }
        ensures same { StandsAs W.view self.old self.new }
        ensures stale { self.new.stale ≡ self.old.stale }
        ensures kept { IsKept self.old.living.items self.new.living.items at }
        ensures others { (other : ℕ) → other ≢ at
            → slice_get self.new.living.items other ≡ slice_get self.old.living.items other }
        ensures long { length self.new.living.items ≡ length self.old.living.items }
    {
        let living = self.living[at].get_mut();
        living.fresh = false;
        sent_of(alloc, &mut living.ready[index].action)
    }

    /// Returns the place of a ready action. Its process isn't fresh afterwards, and `stale` has its number.
    #[inline(always)]
    pub fn leave(&mut self, at: usize, index: usize) -> Result<Place, NoMemory>
        requires sound { IsSound W.view self.old }
        requires within { at < length self.old.living.items }
        requires index_within { index < length (row_at (rows_of self.old.living.items) at).ready }
        ensures same { StandsAs W.view self.old self.new }
        ensures number { IfOk result
            (λ from. from.proc ≡ (row_at (rows_of self.old.living.items) at).number) }
        ensures atom { IfOk result
            (λ from. from.atom ≡ (ready_at (rows_of self.old.living.items) at index).atom) }
        ensures kept { IsKept self.old.living.items self.new.living.items at }
        ensures named { OnOk result
            (Contains self.new.stale.items (row_at (rows_of self.old.living.items) at).number) }
    {
        let from = self.place_at(at, index);
        self.stale.push(from.proc)?;
        self.outdate(at);
        Ok(from)
    }

    /// Takes a ready own action out of its process, with its place. The process isn't fresh afterwards, and `stale` has its number.
    pub fn begin(&mut self, at: usize, index: usize) -> Result<Begun, NoMemory>
        requires sound { IsSound W.view self.old }
        requires within { at < length self.old.living.items }
        requires index_within { index < length (row_at (rows_of self.old.living.items) at).ready }
        ensures same { StandsAs W.view self.old self.new }
        ensures number { IfOk result
            (λ begun. begun.from.proc ≡ (row_at (rows_of self.old.living.items) at).number) }
        ensures atom { IfOk result
            (λ begun. begun.from.atom ≡ (ready_at (rows_of self.old.living.items) at index).atom) }
        ensures own { IfOk result (λ begun. begun.own
            ≡ own_in (ready_at (rows_of self.old.living.items) at index).action) }
        ensures kept { IsKept self.old.living.items self.new.living.items at }
        ensures named { OnOk result
            (Contains self.new.stale.items (row_at (rows_of self.old.living.items) at).number) }
        ensures idle { OnOk result (IsStaleAt self.new.living.items at) }
    {
        let from = self.place_at(at, index);
        self.stale.push(from.proc)?;
        let own = own_of(self.take_ready(at, index).action);
        Ok(Begun { from, own })
    }

    /// Advances a process after the taken offer, with these binds. If the process has ended, removes it from the bus and the index.
    pub fn advance_at(&mut self, at: usize, taken: W::Taken, binds: &mut Binds)
        requires sound { IsSound W.view self.old }
        requires within { at < length self.old.living.items }
        requires named { Contains self.old.stale.items
            (row_at (rows_of self.old.living.items) at).number }
        requires taken { CanAdvance W.view self.old at taken binds.old }
        ensures advanced { (offered : Offered) → Leaves W.view self.old at taken offered
            → IsAdvanced W.view self.old at offered binds.old self.new }
        ensures before { (other : ℕ) → other < at
            → slice_get self.new.living.items other ≡ slice_get self.old.living.items other }
        ensures long { length self.old.living.items ≤ length self.new.living.items + 1 }
        ensures stale { self.new.stale ≡ self.old.stale }
    {
        let living = self.living[at].get_mut();
        let plan = &self.plans.as_slice()[living.body as usize];
        if go_on(plan, living, taken, binds) {
            self.index.clear(living.number, &living.marks);
            self.living.remove(at);
        }
    }

    /// Advances both processes of a handshake: the sender at `at`, and the receiver at `other` with the binds.
    pub fn advance_both(
        &mut self,
        alloc: Global,
        at: usize,
        sent: W::Taken,
        other: usize,
        received: W::Taken,
        binds: &mut Binds,
    )
        requires sound { IsSound W.view self.old }
        requires within { at < length self.old.living.items }
        requires other_within { other < length self.old.living.items }
        requires apart { (row_at (rows_of self.old.living.items) at).number
            ≢ (row_at (rows_of self.old.living.items) other).number }
        requires named { Contains self.old.stale.items
            (row_at (rows_of self.old.living.items) at).number }
        requires other_named { Contains self.old.stale.items
            (row_at (rows_of self.old.living.items) other).number }
        requires sent { CanAdvance W.view self.old at sent [] }
        requires received { CanAdvance W.view self.old other received binds.old }
        ensures { (offered its : Offered) → Leaves W.view self.old at sent offered
            → Leaves W.view self.old other received its
            → AreAdvanced W.view self.old at offered other its binds.old self.new }
    {
        let mut none = Items::new(alloc);
        // The process with the higher index advances first: if it is removed, the other process keeps its index.
        if at < other {
            self.advance_at(other, received, binds);
            self.advance_at(at, sent, &mut none);
        } else {
            self.advance_at(at, sent, &mut none);
            self.advance_at(other, received, binds);
        }
    }
}

/// Takes the terms that an action sends, and leaves an empty list. Returns no terms for any other action.
fn sent_of(alloc: Global, action: &mut Action) -> Terms
    ensures { result ≡ sent_in action.old }
{
    let mut sent = Items::new(alloc);
    match action {
        Action::Send(terms) => swap(terms, &mut sent),
        Action::Own(_) | Action::Receive(_) => {}
    }
    sent
}

/// Returns the own action, or a tau if the action sends or receives.
fn own_of(action: Action) -> OwnAction
    ensures { result ≡ own_in action }
{
    match action {
        Action::Own(own) => own,
        Action::Send(_) | Action::Receive(_) => OwnAction::Tau,
    }
}
