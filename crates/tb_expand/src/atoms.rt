//! The atoms of a body, with their times, that the atoms of a script become.

ghost use Rattle.std.specs.Prelude.{◌≡◌, IfOk, map};
ghost use Rattle.tb_expand.specs.Scopes.{of_blocks};
ghost use Rattle.tb_expand.specs.Acts.{atom_of, time_kind, time_of};

use crate::acts::act_of;
use crate::exprs::expr_of;
use crate::scope::Blocks;
use std::alloc::Global;
use tb_body::{Atom, Time, TimeKind, Times};
use tb_syntax::{AtomDef, TimeDef, TimeWord, time_word};
use tb_terms::{Items, NoMemory};
use tb_types::Names;

/// Returns the atom with its variables as slots, and its processes and tools as positions.
pub(crate) fn atom_of(
    alloc: Global,
    names: &Names,
    blocks: &Blocks,
    def: &AtomDef,
) -> Result<Atom, NoMemory>
    ensures { IfOk result
        (λ atom. atom ≡ atom_of names.now.script.now (of_blocks blocks.now) def.now) }
{
    let times = times_of(alloc, blocks, def.times.as_slice())?;
    let act = act_of(alloc, names, blocks, &def.act)?;
    Ok(Atom { act, times })
}

fn times_of(alloc: Global, blocks: &Blocks, defs: &[TimeDef]) -> Result<Times, NoMemory>
    ensures { IfOk result (λ times. times ≡ map (time_of (of_blocks blocks.now)) defs.now) }
{
    let mut times = Items::new(alloc);
    for def in defs {
        times.push(time_of(alloc, blocks, def)?)?;
    }
    Ok(times)
}

fn time_of(alloc: Global, blocks: &Blocks, def: &TimeDef) -> Result<Time, NoMemory>
    ensures { IfOk result (λ time. time ≡ time_of (of_blocks blocks.now) def.now) }
{
    let kind = time_kind(def.name.as_bytes());
    let value = expr_of(alloc, blocks, &def.value)?;
    Ok(Time { kind, value })
}

/// Returns the kind of a time condition. No source parses as a time with another name; for such a name, the result is `AbsTimeout`.
fn time_kind(name: &[u8]) -> TimeKind
    ensures { result ≡ time_kind name.now }
{
    match time_word(name) {
        Some(TimeWord::Delay) => TimeKind::Delay,
        Some(TimeWord::Timeout) => TimeKind::Timeout,
        Some(TimeWord::AbsDelay) => TimeKind::AbsDelay,
        Some(TimeWord::AbsTimeout) => TimeKind::AbsTimeout,
        None => TimeKind::AbsTimeout,
    }
}
