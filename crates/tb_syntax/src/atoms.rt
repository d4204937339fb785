//! The tokens of atoms with their time conditions, of calls, and of variables.

ghost use Rattle.std.specs.Prelude.{◌≡◌, ◌++◌, ◌∷◌, OnOk, map};
ghost use Rattle.std.specs.List.{flat_map};
ghost use Rattle.tb_syntax.specs.Helpers.Canonical.{call_tokens, act_tokens, set_tokens, create_tokens, time_tokens, atom_tokens, var_tokens, parted};

use crate::exprs::{push_appl, push_arguments, push_expr};
use crate::push::{push_comma, push_ident, push_name, push_symbol, push_word};
use crate::sorts::push_sort;
use crate::{ActDef, Ast, AtomDef, Call, TimeDef, Var};
use std::alloc::Global;
use tb_lex::{Symbol, TokenKind};
use tb_terms::{Ident, Items, NoMemory};

pub(crate) fn push_call<'a>(
    alloc: Global,
    call: &'a Call,
    into: &mut Items<TokenKind<'a>>,
) -> Result<(), NoMemory>
    ensures { OnOk result (into.new ≡ into.old ++ call_tokens call.now) }
{
    push_ident(&call.name, into)?;
    push_arguments(alloc, call.actuals.as_slice(), into)?;
    Ok(())
}

/// Adds the tokens of an atom and of its time conditions.
pub(crate) fn push_atom<'a>(
    alloc: Global,
    atom: &'a AtomDef,
    into: &mut Items<TokenKind<'a>>,
) -> Result<(), NoMemory>
    ensures { OnOk result (into.new ≡ into.old ++ atom_tokens atom.now) }
{
    push_act(alloc, &atom.act, into)?;
    push_times(alloc, atom.times.as_slice(), into)?;
    Ok(())
}

fn push_act<'a>(
    alloc: Global,
    act: &'a ActDef,
    into: &mut Items<TokenKind<'a>>,
) -> Result<(), NoMemory>
    ensures { OnOk result (into.new ≡ into.old ++ act_tokens act.now) }
{
    match act {
        ActDef::Set(name, value) => {
            push_set(alloc, name, value, into)?;
            Ok(())
        }
        ActDef::Create(call, variable) => {
            push_create(alloc, call, variable, into)?;
            Ok(())
        }
        ActDef::Named(name, arguments) => {
            push_appl(alloc, name, arguments.as_slice(), into)?;
            Ok(())
        }
    }
}

fn push_set<'a>(
    alloc: Global,
    name: &'a Ident,
    value: &'a Ast,
    into: &mut Items<TokenKind<'a>>,
) -> Result<(), NoMemory>
    ensures { OnOk result (into.new ≡ into.old ++ set_tokens name.now value.now) }
{
    push_ident(name, into)?;
    push_symbol(Symbol::Assign, into)?;
    push_expr(alloc, value, into)?;
    Ok(())
}

fn push_create<'a>(
    alloc: Global,
    call: &'a Call,
    variable: &'a Ast,
    into: &mut Items<TokenKind<'a>>,
) -> Result<(), NoMemory>
    ensures { OnOk result (into.new ≡ into.old ++ create_tokens call.now variable.now) }
{
    push_word(b"create", into)?;
    push_symbol(Symbol::LeftParen, into)?;
    push_call(alloc, call, into)?;
    push_symbol(Symbol::Comma, into)?;
    push_expr(alloc, variable, into)?;
    push_symbol(Symbol::RightParen, into)?;
    Ok(())
}

fn push_times<'a>(
    alloc: Global,
    times: &'a [TimeDef],
    into: &mut Items<TokenKind<'a>>,
) -> Result<(), NoMemory>
    ensures { OnOk result (into.new ≡ into.old ++ flat_map time_tokens times.now) }
{
    for time in times {
        push_time(alloc, time, into)?;
    }
    Ok(())
}

fn push_time<'a>(
    alloc: Global,
    time: &'a TimeDef,
    into: &mut Items<TokenKind<'a>>,
) -> Result<(), NoMemory>
    ensures { OnOk result (into.new ≡ into.old ++ time_tokens time.now) }
{
    push_name(&time.name, into)?;
    push_symbol(Symbol::LeftParen, into)?;
    push_expr(alloc, &time.value, into)?;
    push_symbol(Symbol::RightParen, into)?;
    Ok(())
}

/// Adds variables with their types, with a comma between each two.
pub(crate) fn push_vars<'a>(
    vars: &'a [Var],
    into: &mut Items<TokenKind<'a>>,
) -> Result<(), NoMemory>
    ensures { OnOk result (into.new ≡ into.old ++ parted (map var_tokens vars.now)) }
{
    for (position, var) in vars.iter().enumerate() {
        push_comma(position, into)?;
        push_var(var, into)?;
    }
    Ok(())
}

fn push_var<'a>(var: &'a Var, into: &mut Items<TokenKind<'a>>) -> Result<(), NoMemory>
    ensures { OnOk result (into.new ≡ into.old ++ var_tokens var.now) }
{
    push_ident(&var.name, into)?;
    push_symbol(Symbol::Colon, into)?;
    push_sort(&var.sort, into)?;
    Ok(())
}
