//! The trait of a walker: the interface of a running process.
ghost use Rattle.std.specs.Prelude.{◌≡◌, ◌<◌, Some, None, IfOk, OnOk, OnErr, IsTrue, length, slice_get, option_and_then, is_some};
ghost use Rattle.std.specs.Option.{ForSome};
ghost use Rattle.tb_process_steps.specs.Binds.{takes_binds};
ghost use Rattle.tb_process_steps.specs.Offers.{Offered};
ghost use Rattle.tb_process_steps.specs.WalkerViews.{View};
ghost use Rattle.tb_process_steps.specs.Walks.{most_ticks, entering, offers_of, seen_offers, sent_by, patterns_by, accepted_by, fired, ticked, sorts_of, is_end};

use crate::Offer;
use std::alloc::Global;
use tb_body::Body;
use tb_func::Store;
use tb_match::Binds;
use tb_terms::{NoMemory, Patterns, Terms};

/// A running process. A plan is the result of preparing a body once for all its walkers. A walker can be used only with a plan that fits
/// it: the plan with which it was started.
pub trait Walker: Sized + Drop {
    /// The plan of a body.
    type Plan: Drop;

    /// A taken offer: its rest and its store, with which the process can continue.
    type Taken: Drop;

    // The view of these walkers: the values that contracts use for them.
    ghost view: { View Self.Plan Self Self.Taken };

    /// Returns the plan of a body.
    fn plan(alloc: Global, body: &Body) -> Result<Self::Plan, NoMemory>
        ensures { IfOk result (λ plan. view.body_of plan ≡ body.now) };

    /// Returns a process that enters its body. The store must have exactly the slots that the body declares.
    fn start(alloc: Global, plan: &Self::Plan, store: Store) -> Result<Self, NoMemory>
        requires { sorts_of store ≡ (view.body_of plan.now).sorts }
        ensures on { IfOk result (λ walker. view.is_on plan.now walker) }
        ensures term { IfOk result
            (λ walker. view.walking plan.now walker ≡ entering (view.body_of plan.now) store) }
        ensures seen { IfOk result (λ walker. view.seen walker ≡ None) };

    /// Finds the offers of the process, at `now` ticks of the bus.
    fn look(&mut self, alloc: Global, plan: &Self::Plan, now: u64) -> Result<(), NoMemory>
        requires { view.is_on plan.now self.old }
        ensures on { view.is_on plan.now self.new }
        ensures stays { view.walking plan.now self.new ≡ view.walking plan.now self.old }
        ensures seen { OnOk result (view.seen self.new ≡ Some
            (seen_offers (view.body_of plan.now).atoms now (view.walking plan.now self.old))) }
        ensures err { OnErr result (self.new ≡ self.old) };

    /// Returns whether the offers of the last look are still valid.
    fn is_fresh(&self) -> bool
        ensures { result ≡ is_some (view.seen self.now) };

    /// Returns the number of offers.
    fn offer_count(&self) -> usize
        requires { IsTrue (is_some (view.seen self.now)) }
        ensures seen { ForSome (view.seen self.now) (λ offers. result ≡ length offers) }
        ensures all { (plan : Self.Plan) → view.is_on plan self.now
            → result ≡ length (offers_of (view.walking plan self.now)) };

    /// Returns the offer at index `k`, from 0, in the order of the source.
    fn offer(&self, k: usize) -> Offer
        requires fresh { IsTrue (is_some (view.seen self.now)) }
        requires within { ForSome (view.seen self.now) (λ offers. k < length offers) }
        ensures { ForSome (view.seen self.now) (λ offers. slice_get offers k ≡ Some result) };

    /// Returns the values that the atom sends or looks at. For a new process, these are its arguments. If the act has an expression for its
    /// tool, the value of this expression is first. Returns `None` if an expression has no value, or if the total size exceeds the limit
    /// of a term. The values may use the memory of `room`, whose contents are dropped.
    fn sent(
        &self,
        alloc: Global,
        plan: &Self::Plan,
        k: usize,
        room: Option<Terms>,
    ) -> Result<Option<Terms>, NoMemory>
        requires on { view.is_on plan.now self.now }
        requires fresh { IsTrue (is_some (view.seen self.now)) }
        requires within { ForSome (view.seen self.now) (λ offers. k < length offers) }
        ensures { IfOk result (λ terms. terms
            ≡ option_and_then (sent_by (view.body_of plan.now).atoms)
            (slice_get (offers_of (view.walking plan.now self.now)) k)) };

    /// Returns the patterns of an atom that receives terms or looks at notes. Returns `None` if an expression has no pattern. The patterns
    /// may use the memory of `room`.
    fn patterns(
        &self,
        alloc: Global,
        plan: &Self::Plan,
        k: usize,
        room: Option<Patterns>,
    ) -> Result<Option<Patterns>, NoMemory>
        requires on { view.is_on plan.now self.now }
        requires fresh { IsTrue (is_some (view.seen self.now)) }
        requires within { ForSome (view.seen self.now) (λ offers. k < length offers) }
        ensures { IfOk result (λ patterns. patterns
            ≡ option_and_then (patterns_by (view.body_of plan.now).atoms)
            (slice_get (offers_of (view.walking plan.now self.now)) k)) };

    /// Returns the binds of the atom for these terms, if it accepts them.
    fn accepts(
        &self,
        alloc: Global,
        plan: &Self::Plan,
        k: usize,
        ts: &Terms,
    ) -> Result<Option<Binds>, NoMemory>
        requires on { view.is_on plan.now self.now }
        requires fresh { IsTrue (is_some (view.seen self.now)) }
        requires within { ForSome (view.seen self.now) (λ offers. k < length offers) }
        ensures { IfOk result (λ binds. binds
            ≡ option_and_then (accepted_by (view.body_of plan.now).atoms ts.now)
            (slice_get (offers_of (view.walking plan.now self.now)) k)) };

    /// Takes the offer at index `k`. The walker remains unchanged until `advance`. The offers needn't be seen.
    fn take(&self, alloc: Global, plan: &Self::Plan, k: usize) -> Result<Self::Taken, NoMemory>
        requires on { view.is_on plan.now self.now }
        requires within { k < length (offers_of (view.walking plan.now self.now)) }
        ensures taken { IfOk result
            (λ taken. ForSome (slice_get (offers_of (view.walking plan.now self.now)) k)
            (λ offered. view.leaves plan.now self.now taken offered)) };

    /// Continues with the taken offer, and sets the binds. The list of binds keeps its memory. The call takes no memory.
    fn advance(&mut self, plan: &Self::Plan, taken: Self::Taken, binds: &mut Binds)
        requires on { view.is_on plan.now self.old }
        requires taken { (offered : Offered) × (view.leaves plan.now self.old taken offered
            × IsTrue (takes_binds offered.store binds.old)) }
        ensures on { view.is_on plan.now self.new }
        ensures advanced { (offered : Offered) → view.leaves plan.now self.old taken offered
            → view.walking plan.now self.new
            ≡ fired binds.old (view.walking plan.now self.old).ticks offered }
        ensures seen { view.seen self.new ≡ None };

    /// Takes the offer at index `k`: the process continues with the rest, and the binds are set. The offers needn't be seen.
    fn fire(
        &mut self,
        alloc: Global,
        plan: &Self::Plan,
        k: usize,
        binds: Binds,
    ) -> Result<(), NoMemory>
        requires on { view.is_on plan.now self.old }
        requires within { k < length (offers_of (view.walking plan.now self.old)) }
        requires well_sorted { ForSome (slice_get (offers_of (view.walking plan.now self.old)) k)
            (λ offered. IsTrue (takes_binds offered.store binds)) }
        ensures on { view.is_on plan.now self.new }
        ensures goes { OnOk result
            (ForSome (slice_get (offers_of (view.walking plan.now self.old)) k)
            (λ offered. view.walking plan.now self.new
            ≡ fired binds (view.walking plan.now self.old).ticks offered)) }
        ensures seen { OnOk result (view.seen self.new ≡ None) }
        ensures err { OnErr result (self.new ≡ self.old) }
    {
        let taken = self.take(alloc, plan, k)?;
        let mut binds = binds;
        self.advance(plan, taken, &mut binds);
        Ok(())
    }

    /// Ages the process by one tick. The call takes no memory. A process can see at most 4,000,000 ticks.
    fn tick(&mut self, plan: &Self::Plan)
        requires on { view.is_on plan.now self.old }
        requires within { (view.walking plan.now self.old).ticks < most_ticks }
        ensures on { view.is_on plan.now self.new }
        ensures aged { view.walking plan.now self.new ≡ ticked (view.walking plan.now self.old) }
        ensures seen { view.seen self.new ≡ None };

    /// Returns whether the process has ended.
    fn is_done(&self) -> bool
        ensures { (plan : Self.Plan) → view.is_on plan self.now
            → result ≡ is_end (view.walking plan self.now).term };

    /// Returns a copy of the process in its own memory.
    fn copy(&self, alloc: Global) -> Result<Self, NoMemory>
        ensures { IfOk result (λ copy. copy ≡ self.now) };
}
