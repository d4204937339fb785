//! The evaluation of tests, the settings of a `let`, and the binds of variables.
ghost use Rattle.std.specs.Prelude.{◌≡◌, Some, IsTrue, IfOk, map, option_map};
ghost use Rattle.tb_process_steps.specs.Binds.{takes_binds, with_binds};
ghost use Rattle.tb_process_steps.specs.Settings.{given_by, well_sorted, start_value, tested, with_settings};
ghost use Rattle.tb_func.specs.Stores.{sort_at};
ghost use Rattle.tb_func.specs.Values.{all_of};

use std::alloc::Global;
use tb_body::{Setting, Settings};
use tb_func::{Store, bool_of, eval};
use tb_match::{Bind, Binds};
use tb_terms::{Expr, Items, NoMemory, Sort, Term, has_sort, initial};

/// Returns the truth value of the test in the store; nothing if the test has no value or its value is no truth value.
pub fn tested(alloc: Global, store: &Store, test: &Expr) -> Result<Option<bool>, NoMemory>
    ensures { IfOk result (λ says. says ≡ tested store.now test.now) }
{
    match eval(alloc, test, store)? {
        Some(value) => Ok(bool_of(&value)),
        None => Ok(None),
    }
}

/// Returns the store after the settings, whose expressions are all evaluated in the store before them. Returns `None` if a setting has
/// no value of its slot's type.
pub fn with_settings(
    alloc: Global,
    store: &Store,
    settings: &Settings,
) -> Result<Option<Store>, NoMemory>
    ensures { IfOk result (λ after. after ≡ with_settings store.now settings.now) }
{
    match given(alloc, store, settings)? {
        Some(mut binds) => {
            let mut after = store.copy(alloc)?;
            set_binds(&mut after, &mut binds);
            Ok(Some(after))
        }
        None => Ok(None),
    }
}

/// Returns the binds of the settings; nothing if a setting has no value of its slot's type.
fn given(alloc: Global, store: &Store, settings: &Settings) -> Result<Option<Binds>, NoMemory>
    ensures { IfOk result (λ binds. binds ≡ all_of (map (given_by store.now) settings.now)) }
{
    let mut binds = Items::new(alloc);
    for setting in settings.as_slice() {
        match given_by(alloc, store, setting)? {
            Some(bind) => binds.push(bind)?,
            None => return Ok(None),
        }
    }
    Ok(Some(binds))
}

fn given_by(alloc: Global, store: &Store, setting: &Setting) -> Result<Option<Bind>, NoMemory>
    ensures { IfOk result (λ bind. bind ≡ given_by store.now setting.now) }
{
    match store.get_sort(setting.slot) {
        Some(sort) => {
            let value = start_value(alloc, store, sort, setting)?;
            Ok(well_sorted(setting.slot, sort, value))
        }
        None => Ok(None),
    }
}

fn start_value(
    alloc: Global,
    store: &Store,
    sort: &Sort,
    setting: &Setting,
) -> Result<Option<Term>, NoMemory>
    requires { sort_at store.now setting.now.slot ≡ Some sort.now }
    ensures { IfOk result
        (λ value. value ≡ start_value store.now setting.now.slot setting.now.start) }
{
    match &setting.start {
        Some(expr) => Ok(eval(alloc, expr, store)?),
        None => Ok(Some(initial(alloc, sort)?)),
    }
}

fn well_sorted(slot: u32, sort: &Sort, value: Option<Term>) -> Option<Bind>
    ensures { result ≡ option_map (λ term. record { slot = slot; value = term })
        (well_sorted (Some sort.now) value) }
{
    let value = value?;
    if has_sort(&value, sort) {
        Some(Bind { slot, value })
    } else {
        None
    }
}

/// Sets the binds one after another. Empties the list of binds, which keeps its memory.
pub fn set_binds(store: &mut Store, binds: &mut Binds)
    requires { IsTrue (takes_binds store.old binds.old) }
    ensures { store.new ≡ with_binds store.old binds.old }
{
    while !binds.is_empty() {
        let bind = binds.remove(0);
        store.set(bind.slot, bind.value);
    }
}
