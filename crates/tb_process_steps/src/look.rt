//! The search for the offers of a running term.
ghost use Rattle.std.specs.Prelude.{◌≡◌, ◌∷◌, [], ◌++◌, ◌-◌, ◌<◌, IfOk, OnOk, IsTrue, length, map};
ghost use Rattle.tb_process_steps.specs.Atoms.{is_ready, times_of};
ghost use Rattle.tb_process_steps.specs.Helpers.Runnings.{entered_term, term_of, is_on};
ghost use Rattle.tb_process_steps.specs.Helpers.OfferViews.{offer_views, shown, or_own};

use crate::found::{Found, copy_own};
use crate::node::Node;
use crate::plan::Plan;
use crate::running::Running;
use crate::settings::{tested, with_settings};
use crate::times::is_ready;
use std::alloc::Global;
use tb_func::Store;
use tb_terms::{Items, NoMemory};

/// The tick at which a part was entered, and the numbers of ticks that the process (`ticks`) and the bus (`now`) have seen.
#[derive(Clone, Copy)]
pub(crate) struct Clock {
    pub entered: u64,
    pub ticks: u64,
    pub now: u64,
}

/// Adds the offers of a running term, in the order of the source.
#[cycle(look_term)]
pub(crate) fn look_term(
    alloc: Global,
    plan: &Plan,
    term: &Running,
    ticks: u64,
    now: u64,
    store: &Store,
    found: &mut Items<Found>,
) -> Result<(), NoMemory>
    requires { IsTrue (is_on plan.now.nodes ticks term.now) }
    ensures { OnOk result (map (shown store.now) found.new
        ≡ map (shown store.now) found.old
        ++ offer_views plan.now.body.atoms now (term_of plan.now.nodes ticks term.now) store.now) }
{
    match term {
        Running::Whole(entry) => {
            let entered = entry.entered;
            let clock = Clock {
                entered,
                ticks,
                now,
            };
            look_node(alloc, plan, entry.node, clock, store, &None, found)
        }
        Running::Seq(x, _) => look_term(alloc, plan, x.get(), ticks, now, store, found),
        Running::Par(x, y) => {
            look_term(alloc, plan, x.get(), ticks, now, store, found)?;
            look_term(alloc, plan, y.get(), ticks, now, store, found)
        }
        Running::Disrupt(x, entry) => {
            look_term(alloc, plan, x.get(), ticks, now, store, found)?;
            let entered = entry.entered;
            let clock = Clock {
                entered,
                ticks,
                now,
            };
            look_node(alloc, plan, entry.node, clock, store, &None, found)
        }
    }
}

/// Adds the offers of a part of the plan. The part is evaluated in `own`, or in `base` without one.
#[cycle(look_node)]
fn look_node(
    alloc: Global,
    plan: &Plan,
    node: usize,
    clock: Clock,
    base: &Store,
    own: &Option<Store>,
    found: &mut Items<Found>,
) -> Result<(), NoMemory>
    requires { node < length plan.now.nodes }
    ensures { OnOk result (map (shown base.now) found.new
        ≡ map (shown base.now) found.old
        ++ offer_views plan.now.body.atoms clock.now (entered_term plan.now.nodes clock.ticks
        (record { node = node; entered = clock.entered })) (or_own own.now base.now)) }
{
    match plan.node(node) {
        Node::At(atom) => look_atom(alloc, plan, *atom, clock, base, own, found),
        Node::Seq(x, _) => look_node(alloc, plan, *x, clock, base, own, found),
        Node::Alt(x, y) | Node::Star(x, y) | Node::Par(x, y) | Node::Disrupt(x, y) => {
            look_node(alloc, plan, *x, clock, base, own, found)?;
            look_node(alloc, plan, *y, clock, base, own, found)
        }
        Node::If(test, x, y) => match tested(alloc, store_of(base, own), test)? {
            Some(true) => look_node(alloc, plan, *x, clock, base, own, found),
            Some(false) => match y {
                Some(y) => look_node(alloc, plan, *y, clock, base, own, found),
                None => Ok(()),
            },
            None => Ok(()),
        },
        Node::Let(settings, x) => match with_settings(alloc, store_of(base, own), settings)? {
            Some(store) => {
                let own = Some(store);
                look_node(alloc, plan, *x, clock, base, &own, found)
            }
            None => Ok(()),
        },
    }
}

/// Returns the store that a `let` made; without one, the store of the process.
pub fn store_of<'a>(base: &'a Store, own: &'a Option<Store>) -> &'a Store
    ensures { result.now ≡ or_own own.now base.now }
{
    match own {
        Some(store) => store,
        None => base,
    }
}

fn look_atom(
    alloc: Global,
    plan: &Plan,
    atom: u32,
    clock: Clock,
    base: &Store,
    own: &Option<Store>,
    found: &mut Items<Found>,
) -> Result<(), NoMemory>
    ensures { OnOk result (map (shown base.now) found.new
        ≡ map (shown base.now) found.old ++ record {
          atom = atom;
          age = clock.ticks - clock.entered;
          ready = is_ready (or_own own.now base.now) (clock.ticks - clock.entered) clock.now
              (times_of plan.now.body.atoms atom);
          store = or_own own.now base.now;
        } ∷ []) }
{
    let age = clock.ticks.saturating_sub(clock.entered);
    let ready = is_atom_ready(alloc, plan, store_of(base, own), atom, age, clock.now)?;
    let own = copy_own(alloc, own)?;
    found.push(Found {
        atom,
        age,
        ready,
        own,
    })?;
    Ok(())
}

fn is_atom_ready(
    alloc: Global,
    plan: &Plan,
    store: &Store,
    atom: u32,
    age: u64,
    now: u64,
) -> Result<bool, NoMemory>
    ensures { IfOk result
        (λ ready. ready ≡ is_ready store.now age now (times_of plan.now.body.atoms atom)) }
{
    match plan.atom(atom) {
        Some(atom) => Ok(is_ready(alloc, store, age, now, &atom.times)?),
        None => Ok(true),
    }
}
