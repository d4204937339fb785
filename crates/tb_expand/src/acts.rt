//! The acts of a body that the atoms of a script become.

ghost use Rattle.std.specs.Prelude.{◌≡◌, IfOk};
ghost use Rattle.tb_body.specs.declared.act.Act.TheVariants.{Set, Create, RecDisconnectAny};
ghost use Rattle.tb_syntax.specs.declared.ast.AstKind.{out-AstKind};
ghost use Rattle.tb_expand.specs.Scopes.{of_blocks, slot_of, sort_of};
ghost use Rattle.tb_expand.specs.Exprs.{expr_of, exprs_of};
ghost use Rattle.tb_expand.specs.Acts.{act_of, act_of_name, word_act, some_exprs, two_exprs, more_exprs, tau, shutdown, executed, connected, any_connected, disconnected, leaving, name_of, process_of, tool_of, tool_of_sort};

use crate::exprs::{expr_of, exprs_of};
use crate::positions::{name_of, process_of, tool_of, tool_of_sort};
use crate::scope::{Blocks, slot_of, sort_of};
use std::alloc::Global;
use tb_body::Act;
use tb_syntax::{ActDef, Ast, AstKind, AtomWord, Call, atom_word};
use tb_terms::{Expr, Exprs, NoMemory};
use tb_types::Names;

/// Returns one or more arguments as expressions, or `None` if there are no arguments.
fn some_exprs(alloc: Global, blocks: &Blocks, arguments: &[Ast]) -> Result<Option<Exprs>, NoMemory>
    ensures { IfOk result
        (λ exprs. exprs ≡ some_exprs (of_blocks blocks.now) arguments.now) }
{
    match arguments {
        [] => Ok(None),
        [_, ..] => Ok(Some(exprs_of(alloc, blocks, arguments)?)),
    }
}

/// Returns two arguments as expressions, or `None` if there aren't exactly two.
fn two_exprs(
    alloc: Global,
    blocks: &Blocks,
    arguments: &[Ast],
) -> Result<Option<(Expr, Expr)>, NoMemory>
    ensures { IfOk result (λ both. both ≡ two_exprs (of_blocks blocks.now) arguments.now) }
{
    match arguments {
        [] => Ok(None),
        [_] => Ok(None),
        [x, y] => {
            let x = expr_of(alloc, blocks, x)?;
            Ok(Some((x, expr_of(alloc, blocks, y)?)))
        }
        [_, _, _, ..] => Ok(None),
    }
}

/// Returns the first argument and one or more others as expressions, or `None` if there are fewer than two.
fn more_exprs(
    alloc: Global,
    blocks: &Blocks,
    arguments: &[Ast],
) -> Result<Option<(Expr, Exprs)>, NoMemory>
    ensures { IfOk result (λ both. both ≡ more_exprs (of_blocks blocks.now) arguments.now) }
{
    match arguments {
        [] => Ok(None),
        [_] => Ok(None),
        [x, others @ ..] => {
            let x = expr_of(alloc, blocks, x)?;
            Ok(Some((x, exprs_of(alloc, blocks, others)?)))
        }
    }
}

fn tau(arguments: &[Ast]) -> Option<Act>
    ensures { result ≡ tau arguments.now }
{
    match arguments {
        [] => Some(Act::Tau),
        [_, ..] => None,
    }
}

fn shutdown(alloc: Global, blocks: &Blocks, arguments: &[Ast]) -> Result<Option<Act>, NoMemory>
    ensures { IfOk result (λ act. act ≡ shutdown (of_blocks blocks.now) arguments.now) }
{
    match arguments {
        [] => Ok(None),
        [e] => Ok(Some(Act::Shutdown(expr_of(alloc, blocks, e)?))),
        [_, _, ..] => Ok(None),
    }
}

fn connected(
    alloc: Global,
    names: &Names,
    blocks: &Blocks,
    arguments: &[Ast],
) -> Result<Option<Act>, NoMemory>
    ensures { IfOk result (λ act. act
        ≡ connected names.now.script.now (of_blocks blocks.now) arguments.now) }
{
    match arguments {
        [] => Ok(None),
        [e] => Ok(Some(any_connected(alloc, names, blocks, e)?)),
        [_, _, ..] => Ok(None),
    }
}

/// Returns the act of `rec-connect`: a tool of the variable's type has connected.
fn any_connected(alloc: Global, names: &Names, blocks: &Blocks, e: &Ast) -> Result<Act, NoMemory>
    ensures { IfOk result
        (λ act. act ≡ any_connected names.now.script.now (of_blocks blocks.now) e.now) }
{
    let sort = sort_of(alloc, blocks, name_of(e))?;
    let tool = tool_of_sort(names, &sort)?;
    let slot = slot_of(blocks, name_of(e));
    Ok(Act::RecConnect { tool, slot })
}

fn disconnected(
    alloc: Global,
    names: &Names,
    blocks: &Blocks,
    arguments: &[Ast],
) -> Result<Option<Act>, NoMemory>
    ensures { IfOk result (λ act. act
        ≡ disconnected names.now.script.now (of_blocks blocks.now) arguments.now) }
{
    match arguments {
        [] => Ok(None),
        [e] => Ok(Some(leaving(alloc, names, blocks, e)?)),
        [_, _, ..] => Ok(None),
    }
}

/// Returns the act of `rec-disconnect`: any tool of a result variable's type disconnects, or the tool that the expression names.
fn leaving(alloc: Global, names: &Names, blocks: &Blocks, e: &Ast) -> Result<Act, NoMemory>
    ensures { IfOk result (λ act. act
        ≡ leaving names.now.script.now (of_blocks blocks.now) e.now (out-AstKind e.now.kind)) }
{
    match &e.kind {
        AstKind::Result(name) => any_disconnected(alloc, names, blocks, name.as_bytes()),
        _ => Ok(Act::RecDisconnect(expr_of(alloc, blocks, e)?)),
    }
}

fn any_disconnected(
    alloc: Global,
    names: &Names,
    blocks: &Blocks,
    name: &[u8],
) -> Result<Act, NoMemory>
    ensures { IfOk result (λ act. act ≡ RecDisconnectAny (tool_of_sort names.now.script.now
        (sort_of (of_blocks blocks.now) name.now)) (slot_of (of_blocks blocks.now) name.now)) }
{
    let sort = sort_of(alloc, blocks, name)?;
    let tool = tool_of_sort(names, &sort)?;
    let slot = slot_of(blocks, name);
    Ok(Act::RecDisconnectAny { tool, slot })
}

fn executed(names: &Names, blocks: &Blocks, arguments: &[Ast]) -> Result<Option<Act>, NoMemory>
    ensures { IfOk result
        (λ act. act ≡ executed names.now.script.now (of_blocks blocks.now) arguments.now) }
{
    match arguments {
        [] => Ok(None),
        [_] => Ok(None),
        [x, y] => {
            let tool = tool_of(names, name_of(x))?;
            let slot = slot_of(blocks, name_of(y));
            Ok(Some(Act::Execute { tool, slot }))
        }
        [_, _, _, ..] => Ok(None),
    }
}

/// Returns the act of an atom with these arguments, or `None` if their number is wrong. `Delta` accepts any number.
fn word_act(
    alloc: Global,
    names: &Names,
    blocks: &Blocks,
    word: AtomWord,
    arguments: &[Ast],
) -> Result<Option<Act>, NoMemory>
    ensures { IfOk result
        (λ act. act ≡ word_act names.now.script.now (of_blocks blocks.now) word arguments.now) }
{
    let some = || some_exprs(alloc, blocks, arguments);
    let two = || two_exprs(alloc, blocks, arguments);
    let more = || more_exprs(alloc, blocks, arguments);
    match word {
        AtomWord::Delta => Ok(Some(Act::Delta)),
        AtomWord::Tau => Ok(tau(arguments)),
        AtomWord::Printf => Ok(some()?.map(Act::Printf)),
        AtomWord::SndMsg => Ok(some()?.map(Act::SndMsg)),
        AtomWord::RecMsg => Ok(some()?.map(Act::RecMsg)),
        AtomWord::SndNote => Ok(some()?.map(Act::SndNote)),
        AtomWord::RecNote => Ok(some()?.map(Act::RecNote)),
        AtomWord::NoNote => Ok(some()?.map(Act::NoNote)),
        AtomWord::Subscribe => Ok(some()?.map(Act::Subscribe)),
        AtomWord::Unsubscribe => Ok(some()?.map(Act::Unsubscribe)),
        AtomWord::Execute => executed(names, blocks, arguments),
        AtomWord::RecConnect => connected(alloc, names, blocks, arguments),
        AtomWord::RecDisconnect => disconnected(alloc, names, blocks, arguments),
        AtomWord::SndEval => Ok(two()?.map(|(tool, e)| Act::SndEval(tool, e))),
        AtomWord::RecValue => Ok(two()?.map(|(tool, e)| Act::RecValue(tool, e))),
        AtomWord::SndDo => Ok(two()?.map(|(tool, e)| Act::SndDo(tool, e))),
        AtomWord::RecEvent => Ok(more()?.map(|(tool, es)| Act::RecEvent(tool, es))),
        AtomWord::SndAckEvent => Ok(more()?.map(|(tool, es)| Act::SndAckEvent(tool, es))),
        AtomWord::SndTerminate => Ok(two()?.map(|(tool, e)| Act::SndTerminate(tool, e))),
        AtomWord::Shutdown => shutdown(alloc, blocks, arguments),
    }
}

/// Returns the act of the atom with this name. In a well-formed script, the number of arguments is right. Otherwise, the act is
/// `Delta`.
fn act_of_name(
    alloc: Global,
    names: &Names,
    blocks: &Blocks,
    name: &[u8],
    arguments: &[Ast],
) -> Result<Act, NoMemory>
    ensures { IfOk result
        (λ act. act ≡ act_of_name names.now.script.now (of_blocks blocks.now) name.now arguments.now) }
{
    let Some(word) = atom_word(name) else {
        return Ok(Act::Delta);
    };
    match word_act(alloc, names, blocks, word, arguments)? {
        Some(act) => Ok(act),
        None => Ok(Act::Delta),
    }
}

/// Returns the act of an atom. Variables become slots, and processes and tools become positions.
pub(crate) fn act_of(
    alloc: Global,
    names: &Names,
    blocks: &Blocks,
    def: &ActDef,
) -> Result<Act, NoMemory>
    ensures { IfOk result
        (λ act. act ≡ act_of names.now.script.now (of_blocks blocks.now) def.now) }
{
    match def {
        ActDef::Set(name, value) => set(alloc, blocks, name.as_bytes(), value),
        ActDef::Create(call, variable) => created(alloc, names, blocks, call, variable),
        ActDef::Named(name, arguments) => act_of_name(
            alloc,
            names,
            blocks,
            name.as_bytes(),
            arguments.as_slice(),
        ),
    }
}

fn set(alloc: Global, blocks: &Blocks, name: &[u8], value: &Ast) -> Result<Act, NoMemory>
    ensures { IfOk result (λ act. act ≡ Set (slot_of (of_blocks blocks.now) name.now)
        (expr_of (of_blocks blocks.now) value.now)) }
{
    let slot = slot_of(blocks, name);
    let value = expr_of(alloc, blocks, value)?;
    Ok(Act::Set { slot, value })
}

fn created(
    alloc: Global,
    names: &Names,
    blocks: &Blocks,
    call: &Call,
    variable: &Ast,
) -> Result<Act, NoMemory>
    ensures { IfOk result (λ act. act ≡ Create (process_of names.now.script.now call.now.name)
        (exprs_of (of_blocks blocks.now) call.now.actuals)
        (slot_of (of_blocks blocks.now) (name_of variable.now))) }
{
    let process = process_of(names, &call.name)?;
    let slot = slot_of(blocks, name_of(variable));
    let actuals = exprs_of(alloc, blocks, call.actuals.as_slice())?;
    Ok(Act::Create {
        process,
        actuals,
        slot,
    })
}
