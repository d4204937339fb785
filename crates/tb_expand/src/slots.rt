//! The slots of variables.

ghost use Rattle.std.specs.Prelude.{◌≡◌, ◌+◌, IfOk, map};
ghost use Rattle.tb_expand.specs.Scopes.{of_blocks, declared, formals_seen, slot_of};
ghost use Rattle.tb_expand.specs.Exprs.{expr_of};
ghost use Rattle.tb_expand.specs.Acts.{name_of};
ghost use Rattle.tb_expand.specs.Expansion.{initial, sorts_of_vars, sorts_of, value_formals, set_formals, formals_of_call};

use crate::exprs::expr_of;
use crate::number::following;
use crate::positions::name_of;
use crate::scope::{Blocks, slot_of};
use crate::seen::{Block, Seen};
use std::alloc::Global;
use tb_body::{Setting, Settings};
use tb_syntax::{Ast, Formal, Var};
use tb_terms::{Ident, Items, NoMemory, Sort, Sorts};

/// Returns the variables of a `let`, each with a slot of its own, from this slot on.
pub(crate) fn declared(alloc: Global, slot: u32, vars: &[Var]) -> Result<Block, NoMemory>
    ensures { IfOk result (λ block. block ≡ declared slot vars.now) }
{
    let mut block = Items::new(alloc);
    let mut next = slot;
    for var in vars {
        block.push(seen(alloc, &var.name, &var.sort, next)?)?;
        next = following(next)?;
    }
    Ok(block)
}

/// Returns a variable with this name, slot, and type.
fn seen(alloc: Global, name: &Ident, sort: &Sort, slot: u32) -> Result<Seen, NoMemory>
    ensures { IfOk result
        (λ seen. seen ≡ record { name = name.now; slot = slot; sort = sort.now }) }
{
    let name = name.copy(alloc)?;
    let sort = sort.copy(alloc)?;
    Ok(Seen { name, slot, sort })
}

/// Returns the settings of a `let`: each variable gets the initial value of its type.
pub(crate) fn initial(alloc: Global, slot: u32, vars: &[Var]) -> Result<Settings, NoMemory>
    ensures { IfOk result (λ settings. settings ≡ initial slot vars.now) }
{
    let mut settings = Items::new(alloc);
    let mut next = slot;
    for _var in vars {
        settings.push(Setting {
            slot: next,
            start: None,
        })?;
        next = following(next)?;
    }
    Ok(settings)
}

pub(crate) fn sorts_of_vars(alloc: Global, vars: &[Var]) -> Result<Sorts, NoMemory>
    ensures { IfOk result (λ sorts. sorts ≡ sorts_of_vars vars.now) }
{
    let mut sorts = Items::new(alloc);
    for var in vars {
        sorts.push(var.sort.copy(alloc)?)?;
    }
    Ok(sorts)
}

/// Returns the types of the value parameters, which need a slot in a call.
pub(crate) fn value_sorts(alloc: Global, formals: &[Formal]) -> Result<Sorts, NoMemory>
    ensures { IfOk result (λ sorts. sorts ≡ sorts_of (value_formals formals.now)) }
{
    let mut sorts = Items::new(alloc);
    for formal in formals {
        if !formal.result {
            sorts.push(formal.sort.copy(alloc)?)?;
        }
    }
    Ok(sorts)
}

/// Returns the settings of a call: each value parameter gets its argument.
pub(crate) fn set_formals(
    alloc: Global,
    blocks: &Blocks,
    slot: u32,
    formals: &[Formal],
    actuals: &[Ast],
) -> Result<Settings, NoMemory>
    ensures { IfOk result
        (λ settings. settings ≡ set_formals (of_blocks blocks.now) slot formals.now actuals.now) }
{
    let mut settings = Items::new(alloc);
    let mut next = slot;
    let mut formals_left = formals;
    let mut actuals_left = actuals;
    while let Some((formal, others)) = formals_left.split_first() {
        let Some((actual, more)) = actuals_left.split_first() else {
            return Ok(settings);
        };
        if !formal.result {
            settings.push(setting(alloc, blocks, next, actual)?)?;
            next = following(next)?;
        }
        formals_left = others;
        actuals_left = more;
    }
    Ok(settings)
}

fn setting(alloc: Global, blocks: &Blocks, slot: u32, actual: &Ast) -> Result<Setting, NoMemory>
    ensures { IfOk result (λ setting. setting
        ≡ record { slot = slot; start = Some (expr_of (of_blocks blocks.now) actual.now) }) }
{
    let start = Some(expr_of(alloc, blocks, actual)?);
    Ok(Setting { slot, start })
}

/// Returns the parameters of a call as variables. A result parameter has the slot of its argument's variable.
pub(crate) fn formals_of_call(
    alloc: Global,
    blocks: &Blocks,
    slot: u32,
    formals: &[Formal],
    actuals: &[Ast],
) -> Result<Block, NoMemory>
    ensures { IfOk result
        (λ block. block ≡ formals_of_call (of_blocks blocks.now) slot formals.now actuals.now) }
{
    let mut block = Items::new(alloc);
    let mut next = slot;
    let mut formals_left = formals;
    let mut actuals_left = actuals;
    while let Some((formal, others)) = formals_left.split_first() {
        let Some((actual, more)) = actuals_left.split_first() else {
            return Ok(block);
        };
        if formal.result {
            let slot = slot_of(blocks, name_of(actual));
            block.push(seen(alloc, &formal.name, &formal.sort, slot)?)?;
        } else {
            block.push(seen(alloc, &formal.name, &formal.sort, next)?)?;
            next = following(next)?;
        }
        formals_left = others;
        actuals_left = more;
    }
    Ok(block)
}

/// Returns the parameters of a process that isn't expanded as a call. Each has a slot of its own.
pub(crate) fn formals_seen(alloc: Global, slot: u32, formals: &[Formal]) -> Result<Block, NoMemory>
    ensures { IfOk result (λ block. block ≡ formals_seen slot formals.now) }
{
    let mut block = Items::new(alloc);
    let mut next = slot;
    for formal in formals {
        block.push(seen(alloc, &formal.name, &formal.sort, next)?)?;
        next = following(next)?;
    }
    Ok(block)
}

/// Returns the types of all parameters.
pub(crate) fn sorts_of(alloc: Global, formals: &[Formal]) -> Result<Sorts, NoMemory>
    ensures { IfOk result (λ sorts. sorts ≡ sorts_of formals.now) }
{
    let mut sorts = Items::new(alloc);
    for formal in formals {
        sorts.push(formal.sort.copy(alloc)?)?;
    }
    Ok(sorts)
}
