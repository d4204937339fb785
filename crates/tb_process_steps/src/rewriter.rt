//! The walker that rewrites its process term.
ghost use Rattle.std.specs.Prelude.{◌≡◌, IfOk, IsTrue, map};
ghost use Rattle.tb_process_steps.specs.Helpers.Selections.{selected_at, selected_of, is_fired_on};
ghost use Rattle.tb_process_steps.specs.Helpers.OfferViews.{shown, offer_view};
ghost use Rattle.tb_process_steps.specs.Walks.{offers_of};
ghost use Rattle.tb_process_steps.specs.Helpers.Rewritings.{walking_of, IsOnPlan, rewriter_view};

use crate::fire::fire_term;
use crate::fired::{Fired, Left};
use crate::found::{Found, copy_candidates};
use crate::look::{look_term, store_of};
use crate::plan::Plan;
use crate::running::{Entry, Running};
use crate::settings::set_binds;
use crate::values::{accepted_binds, matched_patterns, sent_values};
use crate::{Offer, Walker};
use std::alloc::Global;
use tb_body::Body;
use tb_func::Store;
use tb_match::Binds;
use tb_terms::{Items, NoMemory, Patterns, Terms};

/// A walker that rewrites its process term. For each waiting part, the term has the node of the plan and the tick at which the process
/// entered it. So a tick doesn't change this term: the same term then represents an older process term.
#[derive(Drop)]
pub struct Rewriter {
    pub(crate) term: Option<Running>,
    pub(crate) store: Store,
    pub(crate) ticks: u64,
    /// The offers that the last look found.
    pub(crate) found: Items<Found>,
    /// Whether nothing has happened since the last look.
    pub(crate) fresh: bool,
}

impl Rewriter {
    /// Returns the offers of the process, at `now` ticks of the bus.
    fn find(&self, alloc: Global, plan: &Plan, now: u64) -> Result<Items<Found>, NoMemory>
        requires { IsOnPlan plan.now self.now }
        ensures { IfOk result (λ candidates. map (shown self.now.store) candidates
            ≡ map (offer_view plan.now.body.atoms now) (offers_of (walking_of plan.now self.now))) }
    {
        match &self.term {
            Some(term) => {
                let mut found = Items::new(alloc);
                look_term(alloc, plan, term, self.ticks, now, &self.store, &mut found)?;
                Ok(found)
            }
            None => Ok(Items::new(alloc)),
        }
    }

    /// Returns the rest and the store of the offer at index `k`.
    fn taken(&self, alloc: Global, plan: &Plan, k: usize) -> Result<Fired, NoMemory>
        requires { IsOnPlan plan.now self.now }
        ensures selected { IfOk result
            (λ fired. selected_of plan.now.nodes self.now.ticks self.now.store fired
            ≡ selected_at k (offers_of (walking_of plan.now self.now))) }
        ensures on { IfOk result
            (λ fired. IsTrue (is_fired_on plan.now.nodes self.now.ticks fired)) }
    {
        match &self.term {
            Some(term) => {
                let fired = fire_term(alloc, plan, term, self.ticks, &self.store, k)?;
                Ok(fired)
            }
            None => Ok(Fired::Past(k)),
        }
    }
}

impl Walker for Rewriter {
    type Plan = Plan;

    type Taken = Left;

    ghost view = { rewriter_view };

    fn plan(alloc: Global, body: &Body) -> Result<Plan, NoMemory> {
        Plan::new(alloc, body)
    }

    fn start(alloc: Global, plan: &Plan, store: Store) -> Result<Rewriter, NoMemory> {
        let root = Entry {
            node: plan.root,
            entered: 0,
        };
        Ok(Rewriter {
            term: Some(Running::Whole(root)),
            store,
            ticks: 0,
            found: Items::new(alloc),
            fresh: false,
        })
    }

    fn look(&mut self, alloc: Global, plan: &Plan, now: u64) -> Result<(), NoMemory> {
        let found = self.find(alloc, plan, now)?;
        self.found = found;
        self.fresh = true;
        Ok(())
    }

    fn is_fresh(&self) -> bool {
        self.fresh
    }

    fn offer_count(&self) -> usize {
        self.found.len()
    }

    fn offer(&self, k: usize) -> Offer {
        match self.found.get(k) {
            Some(found) => found.offer(),
            None => Offer {
                atom: 0,
                age: 0,
                ready: false,
            },
        }
    }

    fn sent(
        &self,
        alloc: Global,
        plan: &Plan,
        k: usize,
        _room: Option<Terms>,
    ) -> Result<Option<Terms>, NoMemory> {
        match self.found.get(k) {
            Some(found) => {
                let store = store_of(&self.store, &found.own);
                Ok(sent_values(alloc, store, plan.atom(found.atom))?)
            }
            None => Ok(None),
        }
    }

    fn patterns(
        &self,
        alloc: Global,
        plan: &Plan,
        k: usize,
        _room: Option<Patterns>,
    ) -> Result<Option<Patterns>, NoMemory> {
        match self.found.get(k) {
            Some(found) => {
                let store = store_of(&self.store, &found.own);
                Ok(matched_patterns(alloc, store, plan.atom(found.atom))?)
            }
            None => Ok(None),
        }
    }

    fn accepts(
        &self,
        alloc: Global,
        plan: &Plan,
        k: usize,
        ts: &Terms,
    ) -> Result<Option<Binds>, NoMemory> {
        match self.found.get(k) {
            Some(found) => {
                let store = store_of(&self.store, &found.own);
                Ok(accepted_binds(alloc, store, plan.atom(found.atom), ts)?)
            }
            None => Ok(None),
        }
    }

    fn take(&self, alloc: Global, plan: &Plan, k: usize) -> Result<Left, NoMemory> {
        match self.taken(alloc, plan, k)? {
            Fired::Taken(term, own) => Ok(Left { term, own }),
            Fired::Past(_) => Ok(Left {
                term: None,
                own: None,
            }),
        }
    }

    fn advance(&mut self, _plan: &Plan, taken: Left, binds: &mut Binds) {
        let Left { term, own } = taken;
        match own {
            Some(store) => self.store = store,
            None => {}
        }
        set_binds(&mut self.store, binds);
        self.term = term;
        self.fresh = false;
    }

    fn tick(&mut self, _plan: &Plan) {
        self.ticks += 1;
        self.fresh = false;
    }

    fn is_done(&self) -> bool {
        self.term.is_none()
    }

    fn copy(&self, alloc: Global) -> Result<Rewriter, NoMemory> {
        let term = match &self.term {
            Some(term) => Some(term.copy(alloc)?),
            None => None,
        };
        let store = self.store.copy(alloc)?;
        let found = copy_candidates(alloc, &self.found)?;
        Ok(Rewriter {
            term,
            store,
            ticks: self.ticks,
            found,
            fresh: self.fresh,
        })
    }
}
