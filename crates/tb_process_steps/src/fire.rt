//! The rest of a running term after one of its offers is taken.
ghost use Rattle.std.specs.Prelude.{◌≡◌, ℕ, ◌<◌, ◌≤◌, List, Some, IfOk, IsTrue, length, option_map};
ghost use Rattle.tb_func.specs.declared.slot.Slot.{Slot};
ghost use Rattle.tb_process_steps.specs.declared.node.Node.{Node as PlanNode};
ghost use Rattle.tb_process_steps.specs.declared.running.Running.TheVariants.{Whole};
ghost use Rattle.tb_process_steps.specs.Helpers.Selections.{Past, On, chosen, selected, selected_with, selected_of, is_fired_on, is_left_on};
ghost use Rattle.tb_process_steps.specs.Offers.{followed, left_of, right_of, until};
ghost use Rattle.tb_process_steps.specs.Helpers.Plans.{process_at};
ghost use Rattle.tb_process_steps.specs.Processes.{At};
ghost use Rattle.tb_process_steps.specs.Helpers.Runnings.{entered_term, is_entry, term_of, is_on};
ghost use Rattle.tb_process_steps.specs.Settings.{tested};
ghost use Rattle.tb_process_steps.specs.Helpers.OfferViews.{or_own};

use crate::fired::Fired;
use crate::found::copy_own;
use crate::look::store_of;
use crate::node::Node;
use crate::plan::Plan;
use crate::running::{Entry, Running};
use crate::settings::{tested, with_settings};
use std::alloc::Global;
use tb_func::Store;
use tb_terms::{Boxed, Expr, NoMemory};

/// The tick at which a part was entered, and the number of ticks that the process has seen.
#[derive(Clone, Copy)]
struct Since {
    entered: u64,
    ticks: u64,
}

impl Since {
    /// Returns the node as a term that was entered at this tick.
    fn whole(self, node: usize) -> Running
        ensures { result ≡ Whole (record { node = node; entered = self.entered }) }
    {
        let entered = self.entered;
        Running::Whole(Entry { node, entered })
    }
}

impl Since {
    fn entry(self, node: usize) -> Entry
        ensures { result ≡ record { node = node; entered = self.entered } }
    {
        let entered = self.entered;
        Entry { node, entered }
    }
}

/// Takes the offer of a running term at index `k`, from 0, in the order of the source.
#[cycle(fire_term)]
pub(crate) fn fire_term(
    alloc: Global,
    plan: &Plan,
    term: &Running,
    ticks: u64,
    store: &Store,
    k: usize,
) -> Result<Fired, NoMemory>
    requires { IsTrue (is_on plan.now.nodes ticks term.now) }
    ensures selected { IfOk result (λ fired. selected_of plan.now.nodes ticks store.now fired
        ≡ selected (term_of plan.now.nodes ticks term.now) store.now k) }
    ensures on { IfOk result (λ fired. IsTrue (is_fired_on plan.now.nodes ticks fired)) }
{
    match term {
        Running::Whole(entry) => {
            let entered = entry.entered;
            let since = Since { entered, ticks };
            fire_node(alloc, plan, entry.node, since, store, &None, k)
        }
        Running::Seq(x, y) => {
            let fired = fire_term(alloc, plan, x.get(), ticks, store, k)?;
            followed(alloc, fired, *y, ticks)
        }
        Running::Par(x, y) => match fire_term(alloc, plan, x.get(), ticks, store, k)? {
            Fired::Past(rest) => {
                let fired = fire_term(alloc, plan, y.get(), ticks, store, rest)?;
                on_the_right(alloc, x.get(), fired)
            }
            Fired::Taken(left, own) => taken_beside(alloc, left, own, y.get()),
        },
        Running::Disrupt(x, entry) => match fire_term(alloc, plan, x.get(), ticks, store, k)? {
            Fired::Past(rest) => {
                let entered = entry.entered;
                let since = Since { entered, ticks };
                fire_node(alloc, plan, entry.node, since, store, &None, rest)
            }
            Fired::Taken(left, own) => taken_until(alloc, left, own, *entry),
        },
    }
}

/// Takes the offer at index `k` of a part of the plan. The part is evaluated in `own`, or in `base` without one.
#[cycle(fire_node)]
fn fire_node(
    alloc: Global,
    plan: &Plan,
    node: usize,
    since: Since,
    base: &Store,
    own: &Option<Store>,
    k: usize,
) -> Result<Fired, NoMemory>
    requires there { node < length plan.now.nodes }
    requires entered { since.entered ≤ since.ticks }
    ensures selected { IfOk result (λ fired. selected_of plan.now.nodes since.ticks base.now fired
        ≡ selected (entered_term plan.now.nodes since.ticks
        (record { node = node; entered = since.entered })) (or_own own.now base.now) k) }
    ensures on { IfOk result (λ fired. IsTrue (is_fired_on plan.now.nodes since.ticks fired)) }
{
    match plan.node(node) {
        Node::At(_) => fire_atom(alloc, own, k),
        Node::Seq(x, y) => {
            let fired = fire_node(alloc, plan, *x, since, base, own, k)?;
            followed(alloc, fired, *y, since.ticks)
        }
        Node::Alt(x, y) => match fire_node(alloc, plan, *x, since, base, own, k)? {
            Fired::Past(rest) => fire_node(alloc, plan, *y, since, base, own, rest),
            Fired::Taken(left, own) => Ok(Fired::Taken(left, own)),
        },
        Node::Star(x, y) => match fire_node(alloc, plan, *x, since, base, own, k)? {
            Fired::Past(rest) => fire_node(alloc, plan, *y, since, base, own, rest),
            Fired::Taken(left, own) => taken_then(alloc, left, own, node, since.ticks),
        },
        Node::Par(x, y) => match fire_node(alloc, plan, *x, since, base, own, k)? {
            Fired::Past(rest) => {
                let fired = fire_node(alloc, plan, *y, since, base, own, rest)?;
                on_the_right(alloc, &since.whole(*x), fired)
            }
            Fired::Taken(left, own) => taken_beside(alloc, left, own, &since.whole(*y)),
        },
        Node::Disrupt(x, y) => match fire_node(alloc, plan, *x, since, base, own, k)? {
            Fired::Past(rest) => fire_node(alloc, plan, *y, since, base, own, rest),
            Fired::Taken(left, own) => taken_until(alloc, left, own, since.entry(*y)),
        },
        Node::If(test, x, y) => match chosen(alloc, store_of(base, own), test, *x, *y)? {
            Some(part) => fire_node(alloc, plan, part, since, base, own, k),
            None => Ok(Fired::Past(k)),
        },
        Node::Let(settings, x) => match with_settings(alloc, store_of(base, own), settings)? {
            Some(store) => {
                let own = Some(store);
                fire_node(alloc, plan, *x, since, base, &own, k)
            }
            None => Ok(Fired::Past(k)),
        },
    }
}

/// Returns the part that the test selects, if it selects one.
fn chosen(
    alloc: Global,
    store: &Store,
    test: &Expr,
    x: usize,
    y: Option<usize>,
) -> Result<Option<usize>, NoMemory>
    ensures { IfOk result (λ part. part ≡ chosen (tested store.now test.now) x y) }
{
    match tested(alloc, store, test)? {
        Some(true) => Ok(Some(x)),
        Some(false) => Ok(y),
        None => Ok(None),
    }
}

/// Takes the offer of an atom at index `k`. An atom has one offer, and its rest is the end.
#[tactic(auto, unfolding(crate::specs::Helpers::Selections::selected))]
fn fire_atom(alloc: Global, own: &Option<Store>, k: usize) -> Result<Fired, NoMemory>
    ensures selected { IfOk result (λ fired. (nodes : List PlanNode) → (ticks : ℕ)
        → (base : List Slot) → (atom : ℕ) → (age : ℕ)
        → selected_of nodes ticks base fired ≡ selected (At atom age) (or_own own.now base) k) }
    ensures on { IfOk result
        (λ fired. (nodes : List PlanNode) → (ticks : ℕ) → IsTrue (is_fired_on nodes ticks fired)) }
{
    if k > 0 {
        return Ok(Fired::Past(k - 1));
    }
    let own = copy_own(alloc, own)?;
    Ok(Fired::Taken(None, own))
}

/// Puts the node after the rest, if an offer was taken.
fn followed(alloc: Global, fired: Fired, node: usize, ticks: u64) -> Result<Fired, NoMemory>
    ensures selected { IfOk result (λ whole. (nodes : List PlanNode) → (base : List Slot)
        → selected_of nodes ticks base whole
        ≡ selected_with (λ left. Some (followed left (process_at nodes node)))
        (selected_of nodes ticks base fired)) }
    ensures on { IfOk result (λ whole. (nodes : List PlanNode) → node < length nodes →
        IsTrue (is_fired_on nodes ticks fired) → IsTrue (is_fired_on nodes ticks whole)) }
{
    match fired {
        Fired::Past(rest) => Ok(Fired::Past(rest)),
        Fired::Taken(left, own) => taken_then(alloc, left, own, node, ticks),
    }
}

/// Returns the result for a taken offer whose rest is followed by the node.
fn taken_then(
    alloc: Global,
    left: Option<Running>,
    own: Option<Store>,
    node: usize,
    ticks: u64,
) -> Result<Fired, NoMemory>
    ensures selected { IfOk result (λ whole. (nodes : List PlanNode) → (base : List Slot)
        → selected_of nodes ticks base whole
        ≡ On (Some (followed (option_map (term_of nodes ticks) left) (process_at nodes node)))
        (or_own own base)) }
    ensures on { IfOk result (λ whole. (nodes : List PlanNode) → node < length nodes →
        IsTrue (is_left_on nodes ticks left) → IsTrue (is_fired_on nodes ticks whole)) }
{
    let whole = left_then(alloc, left, node, ticks)?;
    Ok(Fired::Taken(Some(whole), own))
}

/// Returns the rest in sequence with the node. If the rest is the end, the process enters the node now.
fn left_then(
    alloc: Global,
    left: Option<Running>,
    node: usize,
    ticks: u64,
) -> Result<Running, NoMemory>
    ensures term { IfOk result (λ whole. (nodes : List PlanNode) → term_of nodes ticks whole
        ≡ followed (option_map (term_of nodes ticks) left) (process_at nodes node)) }
    ensures on { IfOk result (λ whole. (nodes : List PlanNode) → node < length nodes →
        IsTrue (is_left_on nodes ticks left) → IsTrue (is_on nodes ticks whole)) }
{
    match left {
        Some(x) => Ok(Running::Seq(Boxed::new(alloc, x)?, node)),
        None => Ok(Running::Whole(Entry {
            node,
            entered: ticks,
        })),
    }
}

/// Returns the rest of a left side, merged with a copy of the right side.
fn left_beside(alloc: Global, left: Option<Running>, right: &Running) -> Result<Running, NoMemory>
    ensures term { IfOk result (λ whole. (nodes : List PlanNode) → (ticks : ℕ)
        → term_of nodes ticks whole
        ≡ left_of (option_map (term_of nodes ticks) left) (term_of nodes ticks right.now)) }
    ensures on { IfOk result
        (λ whole. (nodes : List PlanNode) → (ticks : ℕ) → IsTrue (is_on nodes ticks right.now)
        → IsTrue (is_left_on nodes ticks left) → IsTrue (is_on nodes ticks whole)) }
{
    let y = right.copy(alloc)?;
    match left {
        Some(x) => Ok(Running::Par(Boxed::new(alloc, x)?, Boxed::new(alloc, y)?)),
        None => Ok(y),
    }
}

/// Returns the result for a taken offer of a left side, whose rest is merged with a copy of the right side.
fn taken_beside(
    alloc: Global,
    left: Option<Running>,
    own: Option<Store>,
    right: &Running,
) -> Result<Fired, NoMemory>
    ensures selected { IfOk result
        (λ whole. (nodes : List PlanNode) → (ticks : ℕ) → (base : List Slot)
        → selected_of nodes ticks base whole
        ≡ On (Some (left_of (option_map (term_of nodes ticks) left)
        (term_of nodes ticks right.now))) (or_own own base)) }
    ensures on { IfOk result
        (λ whole. (nodes : List PlanNode) → (ticks : ℕ) → IsTrue (is_on nodes ticks right.now)
        → IsTrue (is_left_on nodes ticks left) → IsTrue (is_fired_on nodes ticks whole)) }
{
    let whole = left_beside(alloc, left, right)?;
    Ok(Fired::Taken(Some(whole), own))
}

/// Returns the result for a taken offer of a disrupt's left side. The right side still waits, unless the left side has ended.
fn taken_until(
    alloc: Global,
    left: Option<Running>,
    own: Option<Store>,
    entry: Entry,
) -> Result<Fired, NoMemory>
    ensures selected { IfOk result
        (λ whole. (nodes : List PlanNode) → (ticks : ℕ) → (base : List Slot)
        → selected_of nodes ticks base whole
        ≡ On (until (entered_term nodes ticks entry) (option_map (term_of nodes ticks) left))
        (or_own own base)) }
    ensures on { IfOk result
        (λ whole. (nodes : List PlanNode) → (ticks : ℕ) → IsTrue (is_entry nodes ticks entry)
        → IsTrue (is_left_on nodes ticks left) → IsTrue (is_fired_on nodes ticks whole)) }
{
    match left {
        Some(x) => {
            let x = Boxed::new(alloc, x)?;
            Ok(Fired::Taken(Some(Running::Disrupt(x, entry)), own))
        }
        None => Ok(Fired::Taken(None, own)),
    }
}

/// Merges a copy of the left side with the rest of the right side, if an offer was taken.
fn on_the_right(alloc: Global, left: &Running, fired: Fired) -> Result<Fired, NoMemory>
    ensures selected { IfOk result
        (λ whole. (nodes : List PlanNode) → (ticks : ℕ) → (base : List Slot)
        → selected_of nodes ticks base whole
        ≡ selected_with (λ right. Some (right_of (term_of nodes ticks left.now) right))
        (selected_of nodes ticks base fired)) }
    ensures on { IfOk result
        (λ whole. (nodes : List PlanNode) → (ticks : ℕ) → IsTrue (is_on nodes ticks left.now)
        → IsTrue (is_fired_on nodes ticks fired) → IsTrue (is_fired_on nodes ticks whole)) }
{
    match fired {
        Fired::Past(rest) => Ok(Fired::Past(rest)),
        Fired::Taken(right, own) => {
            let whole = right_beside(alloc, left, right)?;
            Ok(Fired::Taken(Some(whole), own))
        }
    }
}

/// Returns a copy of the left side, merged with the rest of the right side.
fn right_beside(alloc: Global, left: &Running, right: Option<Running>) -> Result<Running, NoMemory>
    ensures term { IfOk result (λ whole. (nodes : List PlanNode) → (ticks : ℕ)
        → term_of nodes ticks whole
        ≡ right_of (term_of nodes ticks left.now) (option_map (term_of nodes ticks) right)) }
    ensures on { IfOk result
        (λ whole. (nodes : List PlanNode) → (ticks : ℕ) → IsTrue (is_on nodes ticks left.now)
        → IsTrue (is_left_on nodes ticks right) → IsTrue (is_on nodes ticks whole)) }
{
    let x = left.copy(alloc)?;
    match right {
        Some(y) => Ok(Running::Par(Boxed::new(alloc, x)?, Boxed::new(alloc, y)?)),
        None => Ok(x),
    }
}
