//! The tokens of processes.

ghost use Rattle.std.specs.Prelude.{◌≡◌, ◌++◌, ◌∷◌, [], OnOk, map, option_map};
ghost use Rattle.tb_lex.specs.declared.kind.TokenKind.TheVariants.{Symbol as Sign};
ghost use Rattle.tb_syntax.specs.Binding.{rank, is_looser};
ghost use Rattle.tb_syntax.specs.Helpers.Canonical.{proc_tokens, placed, then_tokens, let_tokens, else_tokens, expr_tokens, var_tokens, parted};
ghost use Rattle.tb_syntax.specs.declared.level.Level.TheVariants.{Proc as Whole};

use crate::atoms::{push_atom, push_call, push_vars};
use crate::exprs::push_expr;
use crate::push::{push_symbol, push_word};
use crate::{Ast, Level, Proc, Var};
use std::alloc::Global;
use tb_lex::{Symbol, TokenKind};
use tb_terms::{Boxed, Items, NoMemory};

/// An operator with its own level and the levels of its two sides.
#[derive(Clone, Copy)]
struct Infix {
    symbol: Symbol,
    level: Level,
    left: Level,
    right: Level,
}

const SEQ: Infix = Infix {
    symbol: Symbol::Point,
    level: Level::Seq,
    left: Level::Star,
    right: Level::Seq,
};

const ALT: Infix = Infix {
    symbol: Symbol::Plus,
    level: Level::Alt,
    left: Level::Seq,
    right: Level::Alt,
};

const STAR: Infix = Infix {
    symbol: Symbol::Star,
    level: Level::Star,
    left: Level::Star,
    right: Level::Prim,
};

const PAR: Infix = Infix {
    symbol: Symbol::Bars,
    level: Level::Par,
    left: Level::Alt,
    right: Level::Par,
};

const DISRUPT: Infix = Infix {
    symbol: Symbol::Angles,
    level: Level::Proc,
    left: Level::Par,
    right: Level::Proc,
};

/// Adds the tokens of a process at a place of this level.
#[cycle(procs)]
pub(crate) fn push_proc<'a>(
    alloc: Global,
    proc: &'a Proc,
    at: Level,
    into: &mut Items<TokenKind<'a>>,
) -> Result<(), NoMemory>
    ensures { OnOk result (into.new ≡ into.old ++ proc_tokens proc.now at) }
{
    match proc {
        Proc::Atom(atom) => {
            push_atom(alloc, atom, into)?;
            Ok(())
        }
        Proc::Call(call) => {
            push_call(alloc, call, into)?;
            Ok(())
        }
        Proc::Seq(x, y) => {
            push_placed(alloc, x.get(), SEQ, y.get(), at, into)?;
            Ok(())
        }
        Proc::Alt(x, y) => {
            push_placed(alloc, x.get(), ALT, y.get(), at, into)?;
            Ok(())
        }
        Proc::Star(x, y) => {
            push_placed(alloc, x.get(), STAR, y.get(), at, into)?;
            Ok(())
        }
        Proc::Par(x, y) => {
            push_placed(alloc, x.get(), PAR, y.get(), at, into)?;
            Ok(())
        }
        Proc::Disrupt(x, y) => {
            push_placed(alloc, x.get(), DISRUPT, y.get(), at, into)?;
            Ok(())
        }
        Proc::If(test, x, y) => {
            push_then(alloc, test, x.get(), into)?;
            push_else(alloc, y, into)?;
            Ok(())
        }
        Proc::Let(vars, x) => {
            push_let(alloc, vars.as_slice(), x.get(), into)?;
            Ok(())
        }
    }
}

/// Adds two processes with an operator between them, in parentheses if the operator is looser than the position.
#[cycle(procs)]
fn push_placed<'a>(
    alloc: Global,
    x: &'a Proc,
    between: Infix,
    y: &'a Proc,
    at: Level,
    into: &mut Items<TokenKind<'a>>,
) -> Result<(), NoMemory>
    ensures { OnOk result (into.new ≡ into.old ++ placed between.level at
        (proc_tokens x.now between.left ++ Sign between.symbol ∷ proc_tokens y.now between.right)) }
{
    if !is_looser(between.level, at) {
        push_infix(alloc, x, between, y, into)?;
        return Ok(());
    }
    push_symbol(Symbol::LeftParen, into)?;
    push_infix(alloc, x, between, y, into)?;
    push_symbol(Symbol::RightParen, into)?;
    Ok(())
}

#[cycle(procs)]
fn push_infix<'a>(
    alloc: Global,
    x: &'a Proc,
    between: Infix,
    y: &'a Proc,
    into: &mut Items<TokenKind<'a>>,
) -> Result<(), NoMemory>
    ensures { OnOk result (into.new ≡ into.old ++ (proc_tokens x.now between.left
        ++ Sign between.symbol ∷ proc_tokens y.now between.right)) }
{
    push_proc(alloc, x, between.left, into)?;
    push_symbol(between.symbol, into)?;
    push_proc(alloc, y, between.right, into)?;
    Ok(())
}

fn is_looser(own: Level, at: Level) -> bool
    ensures { result ≡ is_looser own at }
{
    rank(own) < rank(at)
}

fn rank(level: Level) -> u8
    ensures { result ≡ rank level }
{
    match level {
        Level::Proc => 0,
        Level::Par => 1,
        Level::Alt => 2,
        Level::Seq => 3,
        Level::Star => 4,
        Level::Prim => 5,
    }
}

/// Adds `if`, the test, `then`, and the process for a true test.
#[cycle(procs)]
fn push_then<'a>(
    alloc: Global,
    test: &'a Ast,
    x: &'a Proc,
    into: &mut Items<TokenKind<'a>>,
) -> Result<(), NoMemory>
    ensures { OnOk result
        (into.new ≡ into.old ++ then_tokens (expr_tokens test.now) (proc_tokens x.now Whole)) }
{
    push_word(b"if", into)?;
    push_expr(alloc, test, into)?;
    push_word(b"then", into)?;
    push_proc(alloc, x, Level::Proc, into)?;
    Ok(())
}

/// Adds `else` and the process for a false test, if there is one, and then `fi`.
#[cycle(procs)]
fn push_else<'a>(
    alloc: Global,
    y: &'a Option<Boxed<Proc>>,
    into: &mut Items<TokenKind<'a>>,
) -> Result<(), NoMemory>
    ensures { OnOk result (into.new ≡ into.old ++ else_tokens (option_map proc_tokens y.now)) }
{
    match y {
        None => {
            push_word(b"fi", into)?;
            Ok(())
        }
        Some(y) => {
            push_word(b"else", into)?;
            push_proc(alloc, y.get(), Level::Proc, into)?;
            push_word(b"fi", into)?;
            Ok(())
        }
    }
}

#[cycle(procs)]
fn push_let<'a>(
    alloc: Global,
    vars: &'a [Var],
    x: &'a Proc,
    into: &mut Items<TokenKind<'a>>,
) -> Result<(), NoMemory>
    ensures { OnOk result (into.new ≡ into.old
        ++ let_tokens (parted (map var_tokens vars.now)) (proc_tokens x.now Whole)) }
{
    push_word(b"let", into)?;
    push_vars(vars, into)?;
    push_word(b"in", into)?;
    push_proc(alloc, x, Level::Proc, into)?;
    push_word(b"endlet", into)?;
    Ok(())
}
