//! The plans of bodies, and the first processes of a program.
ghost use Rattle.std.specs.Prelude.{◌≡◌, ◌<◌, ◌+◌, ◌∷◌, ℕ, List, [], length, Some, IfOk, IsTrue, map, slice_get, true};
ghost use Rattle.std.specs.Option.{ForSome};
ghost use Rattle.std.specs.List.{All};
ghost use Rattle.tb_bus.specs.Buses.{opening_store, opened, opened_one};
ghost use Rattle.tb_bus.specs.Slots.{fits_formals};
ghost use Rattle.tb_search.specs.Candidates.{ascend, rows_of};
ghost use Rattle.tb_living.specs.Indexes.{IsUnmarked};
ghost use Rattle.tb_living.specs.Lives.{Begins, IsBelow, IsLive, procs_of};

use crate::indexing::no_marks;
use std::alloc::Global;
use tb_body::{Body, Program};
use tb_func::Store;
use tb_notes::Inbox;
use tb_process_steps::Walker;
use tb_search::{Apart, Living};
use tb_terms::{Items, NoMemory, Terms, copy_terms};

/// Returns the plan of each body, in the order of the bodies.
pub fn plan_all<W: Walker>(alloc: Global, bodies: &[Body]) -> Result<Items<W::Plan>, NoMemory>
    ensures { IfOk result (λ plans. map W.view.body_of plans ≡ bodies.now) }
{
    let mut plans = Items::new(alloc);
    for body in bodies {
        plans.push(W::plan(alloc, body)?)?;
    }
    Ok(plans)
}

/// Returns the store of a new process: its parameters have the arguments, and the other slots have the initial values of their types.
fn begin_store(alloc: Global, body: &Body, mut actuals: Terms) -> Result<Store, NoMemory>
    requires { IsTrue (fits_formals (Some body.now) actuals) }
    ensures { IfOk result (λ store. store ≡ opening_store body.now actuals) }
{
    let mut store = Store::fresh(alloc, &body.sorts)?;
    let mut slot = body.formals;
    while let Some(actual) = actuals.pop() {
        slot -= 1;
        store.set(slot, actual);
    }
    Ok(store)
}

/// Returns a new process with this number, of the body with the index `process`.
fn open_one<W: Walker>(
    alloc: Global,
    plan: &W::Plan,
    body: &Body,
    number: u32,
    process: u32,
    actuals: Terms,
) -> Result<Apart<Living<W>>, NoMemory>
    requires body { W.view.body_of plan.now ≡ body.now }
    requires fits { IsTrue (fits_formals (Some body.now) actuals) }
    ensures { IfOk result (Begins W.view plan.now number process (opening_store body.now actuals)) }
{
    let store = begin_store(alloc, body, actuals)?;
    let walker = W::start(alloc, plan, store)?;
    let living = Living {
        number,
        body: process,
        walker,
        inbox: Inbox::new(alloc),
        ready: Vec::new(alloc),
        fresh: false,
        marks: no_marks(alloc),
        timed: false,
    };
    Ok(Apart::new(alloc, living)?)
}

/// Returns a new process with this number, of the body with the index `process`. Looks up this body and its plan in the lists.
pub fn open_at<W: Walker>(
    alloc: Global,
    bodies: &[Body],
    plans: &Items<W::Plan>,
    number: u32,
    process: u32,
    actuals: Terms,
) -> Result<Apart<Living<W>>, NoMemory>
    requires plans { map W.view.body_of plans.now ≡ bodies.now }
    requires fits { IsTrue (fits_formals (slice_get bodies.now process) actuals) }
    ensures number { IfOk result (λ living. living.number ≡ number) }
    ensures live { IfOk result (λ living. (now : ℕ) → IsLive W.view plans.now now living) }
    ensures procs { IfOk result (λ living. procs_of W.view plans.now (living ∷ [])
        ≡ opened_one number process actuals (slice_get bodies.now process)) }
    ensures unmarked { IfOk result IsUnmarked }
{
    let place = process as usize;
    let plan = &plans.as_slice()[place];
    open_one::<W>(alloc, plan, &bodies[place], number, process, actuals)
}

/// Returns the process of the root at this index. Its number is `at + 1`.
fn open_root<W: Walker>(
    alloc: Global,
    program: &Program,
    plans: &Items<W::Plan>,
    at: usize,
) -> Result<Apart<Living<W>>, NoMemory>
    requires plans { map W.view.body_of plans.now ≡ program.now.bodies }
    requires within { at < length program.now.roots }
    ensures number { IfOk result (λ living. living.number ≡ at + 1) }
    ensures live { IfOk result (λ living. (now : ℕ) → IsLive W.view plans.now now living) }
    ensures procs { ForSome (slice_get program.now.roots at) (λ root. IfOk result (λ living.
        procs_of W.view plans.now (living ∷ []) ≡ opened_one (at + 1) root.process root.actuals
        (slice_get program.now.bodies root.process))) }
    ensures unmarked { IfOk result IsUnmarked }
{
    let root = &program.roots.as_slice()[at];
    let actuals = copy_terms(alloc, &root.actuals)?;
    let bodies = program.bodies.as_slice();
    open_at::<W>(alloc, bodies, plans, at as u32 + 1, root.process, actuals)
}

/// Returns the processes of the program's roots, with numbers from 1.
pub fn open_all<W: Walker>(
    alloc: Global,
    program: &Program,
    plans: &Items<W::Plan>,
) -> Result<Vec<Apart<Living<W>>>, NoMemory>
    requires { map W.view.body_of plans.now ≡ program.now.bodies }
    ensures in_order { IfOk result (λ all. ascend 0 (rows_of all.items) ≡ true) }
    ensures below { IfOk result (λ all. All (IsBelow (length program.now.roots + 1)) all.items) }
    ensures live { IfOk result (λ all. All (IsLive W.view plans.now 0) all.items) }
    ensures procs { IfOk result (λ all. procs_of W.view plans.now all.items
        ≡ opened program.now.bodies 1 program.now.roots) }
    ensures unmarked { IfOk result (λ all. All IsUnmarked all.items) }
{
    let mut all = Vec::new(alloc);
    for at in 0..program.roots.len() {
        all.push(open_root::<W>(alloc, program, plans, at)?)?;
    }
    Ok(all)
}

/// Returns the numbers of these processes, in the order of the processes.
pub fn numbers_of<W>(alloc: Global, all: &[Apart<Living<W>>]) -> Result<Vec<u32>, NoMemory>
    ensures { IfOk result (λ numbers. numbers.items ≡ map (λ living. living.number) all.now) }
{
    let mut numbers = Vec::new(alloc);
    for living in all {
        numbers.push(living.get().number)?;
    }
    Ok(numbers)
}
