//! The walker that keeps the positions of its process in the code.
ghost use Rattle.std.specs.Prelude.{◌≡◌, length};

use crate::look::look_row;
use crate::patterns::patterns_by;
use crate::room::empty;
use crate::sight::copy_sights;
use crate::taken::{Taken, settle};
use crate::taking::{set_all, take_seen, take_unseen};
use crate::values::sent_terms;
use crate::{Branch, Row, Sight};
use std::alloc::Global;
use std::mem::swap;
use tb_body::Body;
use tb_code::{Code, compile};
use tb_func::Store;
use tb_match::Binds;
use tb_process_steps::{Offer, Walker, accepted_binds, store_of};
use tb_terms::{Items, NoMemory, Patterns, Terms};

/// A walker that keeps the positions of its process, each with the tick at which the process entered it. A tick doesn't change the
/// positions: they then represent an older process term.
#[derive(Drop)]
pub struct Walk {
    pub(crate) row: Row,
    pub(crate) store: Store,
    pub(crate) ticks: u64,
    /// The offers that the last look found.
    pub(crate) found: Items<Sight>,
    /// Whether nothing has happened since the last look.
    pub(crate) fresh: bool,
    /// Memory for the next look. The list is empty.
    pub(crate) spare: Items<Sight>,
    ghost spare_is_empty: { length spare ≡ 0 },
}

impl Walker for Walk {
    ghost use Rattle.tb_walk.specs.WalkViews.{walk_view};

    type Plan = Code;

    type Taken = Taken;

    ghost view = { walk_view };

    fn plan(alloc: Global, body: &Body) -> Result<Code, NoMemory> {
        compile(alloc, body)
    }

    fn start(alloc: Global, _plan: &Code, store: Store) -> Result<Walk, NoMemory> {
        let mut row = Items::new(alloc);
        row.push(Branch {
            position: 0,
            entered: 0,
        })?;
        Ok(Walk {
            row,
            store,
            ticks: 0,
            found: Items::new(alloc),
            fresh: false,
            spare: Items::new(alloc),
        })
    }

    fn look(&mut self, alloc: Global, plan: &Code, now: u64) -> Result<(), NoMemory> {
        let row = self.row.as_slice();
        match look_row(
            alloc,
            plan,
            row,
            self.ticks,
            now,
            &self.store,
            &mut self.spare,
        ) {
            Ok(()) => {
                swap(&mut self.found, &mut self.spare);
                empty(&mut self.spare);
                self.fresh = true;
                Ok(())
            }
            Err(NoMemory) => {
                empty(&mut self.spare);
                Err(NoMemory)
            }
        }
    }

    fn is_fresh(&self) -> bool {
        self.fresh
    }

    fn offer_count(&self) -> usize {
        self.found.len()
    }

    fn offer(&self, k: usize) -> Offer {
        match self.found.get(k) {
            Some(found) => found.offer(),
            None => Offer {
                atom: 0,
                age: 0,
                ready: false,
            },
        }
    }

    fn sent(
        &self,
        alloc: Global,
        plan: &Code,
        k: usize,
        room: Option<Terms>,
    ) -> Result<Option<Terms>, NoMemory> {
        match self.found.get(k) {
            Some(found) => {
                let store = store_of(&self.store, &found.own);
                Ok(sent_terms(alloc, store, plan.atom(found.atom), room)?)
            }
            None => Ok(None),
        }
    }

    fn patterns(
        &self,
        alloc: Global,
        plan: &Code,
        k: usize,
        room: Option<Patterns>,
    ) -> Result<Option<Patterns>, NoMemory> {
        match self.found.get(k) {
            Some(found) => {
                let store = store_of(&self.store, &found.own);
                Ok(patterns_by(alloc, store, plan.atom(found.atom), room)?)
            }
            None => Ok(None),
        }
    }

    fn accepts(
        &self,
        alloc: Global,
        plan: &Code,
        k: usize,
        ts: &Terms,
    ) -> Result<Option<Binds>, NoMemory> {
        match self.found.get(k) {
            Some(found) => {
                let store = store_of(&self.store, &found.own);
                Ok(accepted_binds(alloc, store, plan.atom(found.atom), ts)?)
            }
            None => Ok(None),
        }
    }

    fn take(&self, alloc: Global, plan: &Code, k: usize) -> Result<Taken, NoMemory> {
        if self.fresh {
            take_seen(alloc, plan, self, k)
        } else {
            take_unseen(alloc, plan, self, k)
        }
    }

    fn advance(&mut self, plan: &Code, taken: Taken, binds: &mut Binds) {
        settle(plan, self, taken);
        set_all(&mut self.store, binds);
        self.fresh = false;
    }

    fn tick(&mut self, _plan: &Code) {
        self.ticks += 1;
        self.fresh = false;
    }

    fn is_done(&self) -> bool {
        self.row.is_empty()
    }

    fn copy(&self, alloc: Global) -> Result<Walk, NoMemory> {
        let row = Items::from_slice(alloc, self.row.as_slice())?;
        let store = self.store.copy(alloc)?;
        let found = copy_sights(alloc, &self.found)?;
        Ok(Walk {
            row,
            store,
            ticks: self.ticks,
            found,
            fresh: self.fresh,
            spare: Items::new(alloc),
        })
    }
}
