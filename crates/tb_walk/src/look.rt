//! The search for the offers of a row of branches.
ghost use Rattle.std.specs.Prelude.{◌≡◌, ◌∷◌, [], ◌++◌, ◌-◌, ◌<◌, ℕ, All, IfOk, OnOk, flat_map, map};
ghost use Rattle.tb_process_steps.specs.Atoms.{is_ready, times_of};
ghost use Rattle.tb_process_steps.specs.Processes.{fresh, If, When, Let};
ghost use Rattle.tb_process_steps.specs.Helpers.OfferViews.{or_own};
ghost use Rattle.tb_code.specs.Positions.{size, part, IsTwo, IsUntil, IsOne};
ghost use Rattle.tb_code.specs.declared.behind.Behind.TheVariants.{Ended};
ghost use Rattle.tb_walk.specs.Helpers.Sights.{Sighting, entry_sightings, ready_sighting, sighted, sighting_at, sightings, sightings_at, looking, row_sightings};
ghost use Rattle.tb_walk.specs.Helpers.Takings.{AreThere};

use crate::values::says;
use crate::{Branch, Sight};
use std::alloc::Global;
use tb_body::Settings;
use tb_code::{Behind, Code, Entry, Op, What};
use tb_func::Store;
use tb_process_steps::{copy_own, is_ready, store_of, with_settings};
use tb_terms::{Expr, Items, NoMemory};

/// The index of a branch, the tick at which it was entered, and the numbers of ticks that the process and the bus have seen.
#[derive(Clone, Copy)]
pub struct Clock {
    /// The index of the branch in the row.
    pub branch: usize,
    /// The number of ticks that the process had seen when it entered the branch.
    pub entered: u64,
    /// The number of ticks that the process has seen.
    pub ticks: u64,
    /// The number of ticks that the bus has seen.
    pub bus: u64,
}

/// Adds the offers of a row's branches, in the order of the source, at `now` ticks of the bus.
pub(crate) fn look_row(
    alloc: Global,
    code: &Code,
    row: &[Branch],
    ticks: u64,
    now: u64,
    base: &Store,
    found: &mut Items<Sight>,
) -> Result<(), NoMemory>
    requires { AreThere (fresh code.now.body.tree) ticks row.now }
    ensures { OnOk result (map (sighted base.now) found.new
        ≡ map (sighted base.now) found.old ++ row_sightings
        (fresh code.now.body.tree) code.now.body.atoms now ticks base.now 0 row.now) }
{
    for at in 0..row.len() {
        let Branch { position, entered } = row[at];
        let clock = Clock {
            branch: at,
            entered,
            ticks,
            bus: now,
        };
        look_branch(alloc, code, position, &clock, base, found)?;
    }
    Ok(())
}

/// Adds the offers of the part at the position of a branch. Reads the list of the position, if the code keeps one. Otherwise, searches
/// the code from the position.
fn look_branch(
    alloc: Global,
    code: &Code,
    at: usize,
    clock: &Clock,
    base: &Store,
    found: &mut Items<Sight>,
) -> Result<(), NoMemory>
    requires { at < size (fresh code.now.body.tree) }
    ensures { OnOk result (map (sighted base.now) found.new
        ≡ map (sighted base.now) found.old ++ sightings_at (fresh code.now.body.tree)
        (looking code.now.body.atoms clock.now) Ended at base.now) }
{
    let list = code.list(at);
    if list.is_empty() {
        look_at(alloc, code, at, Behind::Ended, clock, base, &None, found)
    } else {
        look_list(alloc, code, list, clock, base, found)
    }
}

fn look_list(
    alloc: Global,
    code: &Code,
    list: &[Entry],
    clock: &Clock,
    base: &Store,
    found: &mut Items<Sight>,
) -> Result<(), NoMemory>
    requires { All (λ entry. entry.position < size (fresh code.now.body.tree)) list.now }
    ensures { OnOk result (map (sighted base.now) found.new
        ≡ map (sighted base.now) found.old ++ flat_map (entry_sightings (fresh code.now.body.tree)
        (looking code.now.body.atoms clock.now) base.now) list.now) }
{
    for entry in list {
        look_entry(alloc, code, entry, clock, base, found)?;
    }
    Ok(())
}

fn look_entry(
    alloc: Global,
    code: &Code,
    entry: &Entry,
    clock: &Clock,
    base: &Store,
    found: &mut Items<Sight>,
) -> Result<(), NoMemory>
    requires { entry.now.position < size (fresh code.now.body.tree) }
    ensures { OnOk result (map (sighted base.now) found.new
        ≡ map (sighted base.now) found.old ++ entry_sightings (fresh code.now.body.tree)
        (looking code.now.body.atoms clock.now) base.now entry.now) }
{
    match entry.what {
        What::Atom(atom) => look_ready(
            code,
            entry.position,
            entry.behind,
            atom,
            clock,
            base,
            found,
        ),
        What::Timed(atom) => {
            look_timed(
                alloc,
                code,
                entry.position,
                entry.behind,
                atom,
                clock,
                base,
                found,
            )
        }
        What::Gate => look_gate(
            alloc,
            code,
            entry.position,
            entry.behind,
            clock,
            base,
            found,
        ),
    }
}

/// Adds the offer of an atom without times, which is ready.
fn look_ready(
    _code: &Code,
    position: usize,
    behind: Behind,
    atom: u32,
    clock: &Clock,
    _base: &Store,
    found: &mut Items<Sight>,
) -> Result<(), NoMemory>
    ensures { OnOk result (map (sighted _base.now) found.new
        ≡ map (sighted _base.now) found.old ++ ready_sighting
        (looking _code.now.body.atoms clock.now) behind position atom _base.now ∷ []) }
{
    found.push(Sight {
        branch: clock.branch,
        position,
        atom,
        age: clock.ticks.saturating_sub(clock.entered),
        ready: true,
        behind,
        own: None,
    })?;
    Ok(())
}

/// Adds the offer of an atom that has times.
#[cold]
#[inline(never)]
fn look_timed(
    alloc: Global,
    code: &Code,
    position: usize,
    behind: Behind,
    atom: u32,
    clock: &Clock,
    base: &Store,
    found: &mut Items<Sight>,
) -> Result<(), NoMemory>
    ensures { OnOk result (map (sighted base.now) found.new
        ≡ map (sighted base.now) found.old
        ++ sighting_at (looking code.now.body.atoms clock.now) behind position atom base.now ∷ []) }
{
    look_atom(
        alloc, code, position, behind, atom, clock, base, &None, found,
    )
}

/// Adds the offers of a gate: evaluates the test or the settings, and searches the code from there.
#[cold]
#[inline(never)]
fn look_gate(
    alloc: Global,
    code: &Code,
    at: usize,
    behind: Behind,
    clock: &Clock,
    base: &Store,
    found: &mut Items<Sight>,
) -> Result<(), NoMemory>
    requires { at < size (fresh code.now.body.tree) }
    ensures { OnOk result (map (sighted base.now) found.new
        ≡ map (sighted base.now) found.old ++ sightings_at (fresh code.now.body.tree)
        (looking code.now.body.atoms clock.now) behind at base.now) }
{
    look_at(alloc, code, at, behind, clock, base, &None, found)
}

/// Adds the offers of the part at a position, in the order of the source. Tests and settings have functions of their own: a call pays at
/// entry for all values that its function can hold.
#[cycle(look_at)]
fn look_at(
    alloc: Global,
    code: &Code,
    at: usize,
    so_far: Behind,
    clock: &Clock,
    base: &Store,
    own: &Option<Store>,
    found: &mut Items<Sight>,
) -> Result<(), NoMemory>
    requires { at < size (fresh code.now.body.tree) }
    ensures { OnOk result (map (sighted base.now) found.new
        ≡ map (sighted base.now) found.old ++ sightings_at (fresh code.now.body.tree)
        (looking code.now.body.atoms clock.now) so_far at (or_own own.now base.now)) }
{
    let first = code.first(at);
    match &code.node(at).op {
        Op::At(atom) => look_atom(alloc, code, at, so_far, *atom, clock, base, own, found),
        Op::Seq(right) => {
            let inside = Behind::Entered(*right).followed(so_far);
            look_at(alloc, code, first, inside, clock, base, own, found)
        }
        Op::Alt(right) => {
            look_at(alloc, code, first, so_far, clock, base, own, found)?;
            look_at(alloc, code, *right, so_far, clock, base, own, found)
        }
        Op::Star(right) => {
            let inside = Behind::Entered(at).followed(so_far);
            look_at(alloc, code, first, inside, clock, base, own, found)?;
            look_at(alloc, code, *right, so_far, clock, base, own, found)
        }
        Op::Par(right) => {
            look_at(alloc, code, first, Behind::Parted, clock, base, own, found)?;
            look_at(alloc, code, *right, Behind::Parted, clock, base, own, found)
        }
        Op::Disrupt(waits) => {
            look_until(alloc, code, at, so_far, *waits, clock, base, own, found)
        }
        Op::Waits(_) => look_at(alloc, code, first, Behind::Parted, clock, base, own, found),
        Op::If(test, right) => {
            look_side(
                alloc, code, at, so_far, test, *right, clock, base, own, found,
            )
        }
        Op::When(test) => look_if_true(alloc, code, at, so_far, test, clock, base, own, found),
        Op::Let(settings) => look_with(alloc, code, at, so_far, settings, clock, base, own, found),
    }
}

/// Adds the offers of a disrupt: those of its left side, then those of its right side.
#[cycle(look_at)]
#[inline(never)]
fn look_until(
    alloc: Global,
    code: &Code,
    at: usize,
    so_far: Behind,
    waits: usize,
    clock: &Clock,
    base: &Store,
    own: &Option<Store>,
    found: &mut Items<Sight>,
) -> Result<(), NoMemory>
    requires { IsUntil (fresh code.now.body.tree) at waits }
    ensures { OnOk result (map (sighted base.now) found.new
        ≡ map (sighted base.now) found.old
        ++ sightings (looking code.now.body.atoms clock.now) so_far at
        (part (fresh code.now.body.tree) at) (or_own own.now base.now)) }
{
    let first = code.first(at);
    look_at(alloc, code, first, Behind::Parted, clock, base, own, found)?;
    let second = code.first(waits);
    look_at(alloc, code, second, so_far, clock, base, own, found)
}

/// Adds the offers of the side that the test selects.
#[cycle(look_at)]
#[inline(never)]
fn look_side(
    alloc: Global,
    code: &Code,
    at: usize,
    so_far: Behind,
    test: &Expr,
    right: usize,
    clock: &Clock,
    base: &Store,
    own: &Option<Store>,
    found: &mut Items<Sight>,
) -> Result<(), NoMemory>
    requires { IsTwo (fresh code.now.body.tree) (If test.now) at right }
    ensures { OnOk result (map (sighted base.now) found.new
        ≡ map (sighted base.now) found.old
        ++ sightings (looking code.now.body.atoms clock.now) so_far at
        (part (fresh code.now.body.tree) at) (or_own own.now base.now)) }
{
    match says(alloc, store_of(base, own), test)? {
        Some(true) => look_at(alloc, code, code.first(at), so_far, clock, base, own, found),
        Some(false) => look_at(alloc, code, right, so_far, clock, base, own, found),
        None => Ok(()),
    }
}

/// Adds the offers of the part if the test is true. Otherwise, there are no offers.
#[cycle(look_at)]
#[inline(never)]
fn look_if_true(
    alloc: Global,
    code: &Code,
    at: usize,
    so_far: Behind,
    test: &Expr,
    clock: &Clock,
    base: &Store,
    own: &Option<Store>,
    found: &mut Items<Sight>,
) -> Result<(), NoMemory>
    requires { IsOne (fresh code.now.body.tree) (When test.now) at }
    ensures { OnOk result (map (sighted base.now) found.new
        ≡ map (sighted base.now) found.old
        ++ sightings (looking code.now.body.atoms clock.now) so_far at
        (part (fresh code.now.body.tree) at) (or_own own.now base.now)) }
{
    match says(alloc, store_of(base, own), test)? {
        Some(true) => look_at(alloc, code, code.first(at), so_far, clock, base, own, found),
        Some(false) => Ok(()),
        None => Ok(()),
    }
}

/// Adds the offers of the part in the store after the settings. There are no offers if a setting has no value of its slot's type.
#[cycle(look_at)]
#[inline(never)]
fn look_with(
    alloc: Global,
    code: &Code,
    at: usize,
    so_far: Behind,
    settings: &Settings,
    clock: &Clock,
    base: &Store,
    own: &Option<Store>,
    found: &mut Items<Sight>,
) -> Result<(), NoMemory>
    requires { IsOne (fresh code.now.body.tree) (Let settings.now) at }
    ensures { OnOk result (map (sighted base.now) found.new
        ≡ map (sighted base.now) found.old
        ++ sightings (looking code.now.body.atoms clock.now) so_far at
        (part (fresh code.now.body.tree) at) (or_own own.now base.now)) }
{
    match with_settings(alloc, store_of(base, own), settings)? {
        Some(store) => {
            let own = Some(store);
            look_at(
                alloc,
                code,
                code.first(at),
                so_far,
                clock,
                base,
                &own,
                found,
            )
        }
        None => Ok(()),
    }
}

fn look_atom(
    alloc: Global,
    code: &Code,
    position: usize,
    behind: Behind,
    atom: u32,
    clock: &Clock,
    base: &Store,
    own: &Option<Store>,
    found: &mut Items<Sight>,
) -> Result<(), NoMemory>
    ensures { OnOk result (map (sighted base.now) found.new
        ≡ map (sighted base.now) found.old ++ record {
          branch = clock.now.branch;
          position = position;
          behind = behind;
          seen = record {
            atom = atom;
            age = clock.now.ticks - clock.now.entered;
            ready = is_ready (or_own own.now base.now) (clock.now.ticks - clock.now.entered)
                clock.now.bus (times_of code.now.body.atoms atom);
            store = or_own own.now base.now;
          };
        } ∷ []) }
{
    let age = clock.ticks.saturating_sub(clock.entered);
    let ready = is_atom_ready(alloc, code, store_of(base, own), atom, age, clock.bus)?;
    let own = copy_own(alloc, own)?;
    found.push(Sight {
        branch: clock.branch,
        position,
        atom,
        age,
        ready,
        behind,
        own,
    })?;
    Ok(())
}

fn is_atom_ready(
    alloc: Global,
    code: &Code,
    store: &Store,
    atom: u32,
    age: u64,
    now: u64,
) -> Result<bool, NoMemory>
    ensures { IfOk result
        (λ ready. ready ≡ is_ready store.now age now (times_of code.now.body.atoms atom)) }
{
    match code.atom(atom) {
        Some(atom) => {
            if atom.times.is_empty() {
                return Ok(true);
            }
            Ok(is_ready(alloc, store, age, now, &atom.times)?)
        }
        None => Ok(true),
    }
}
