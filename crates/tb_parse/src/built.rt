//! Processes that were read, with their heights.

ghost use Rattle.std.specs.Prelude.{◌≡◌, ◌++◌, Some, None, IfOk};
ghost use Rattle.tb_syntax.specs.declared.proc.Proc.TheVariants as tree;
ghost use Rattle.tb_parse.specs.declared.built.Built.{Built};
ghost use Rattle.tb_parse.specs.Helpers.Heights.{both, one, sides_of, fitting, side_of, join_of, joined};

use std::alloc::Global;
use tb_syntax::{Ast, Proc, Vars};
use tb_terms::{Boxed, Items, NoMemory};

/// The greatest height of a process.
const MOST_LEVELS: usize = 400;

/// A process that was read.
#[derive(Drop)]
pub(crate) enum Built {
    /// Its tree and its height, which is at most 400.
    Tree(Boxed<Proc>, usize),
    /// Its height is more than 400, so it has no tree.
    TooHigh,
}

/// An operator that groups from the right: its right side is the whole rest of the chain.
#[derive(Clone, Copy, PartialEq, Eq)]
pub(crate) enum Chain {
    Disrupt,
    Par,
    Alt,
    Seq,
}

/// The two sides of a process, and the height of the whole.
#[derive(Drop)]
struct Sides {
    x: Boxed<Proc>,
    y: Boxed<Proc>,
    height: usize,
}

/// Returns two processes as the sides of one, or none if that one would be higher than 400.
fn sides_of(x: Built, y: Built) -> Option<Sides>
    ensures { result ≡ sides_of x y }
{
    match (x, y) {
        (Built::Tree(x, first), Built::Tree(y, second)) => fitting(x, first, y, second),
        _ => None,
    }
}

fn fitting(x: Boxed<Proc>, first: usize, y: Boxed<Proc>, second: usize) -> Option<Sides>
    ensures { result ≡ fitting x first y second }
{
    if first >= MOST_LEVELS || second >= MOST_LEVELS {
        return None;
    }
    let height = 1 + first.max(second);
    Some(Sides { x, y, height })
}

/// Returns a process as the only part of another, with the height of that one, or none if it would be higher than 400.
fn side_of(x: Built) -> Option<(Boxed<Proc>, usize)>
    ensures { result ≡ side_of x }
{
    match x {
        Built::Tree(x, height) if height < MOST_LEVELS => Some((x, 1 + height)),
        _ => None,
    }
}

/// Returns the process as a tree of this height.
fn tree(alloc: Global, proc: Proc, height: usize) -> Result<Built, NoMemory>
    ensures { IfOk result (λ made. made ≡ Built.Tree proc height) }
{
    Ok(Built::Tree(Boxed::new(alloc, proc)?, height))
}

/// Returns a process that contains no other process: its height is 1.
pub(crate) fn leaf(alloc: Global, proc: Proc) -> Result<Built, NoMemory>
    ensures { IfOk result (λ made. made ≡ Built.Tree proc 1) }
{
    tree(alloc, proc, 1)
}

fn link(alloc: Global, chain: Chain, x: Built, y: Built) -> Result<Built, NoMemory>
    ensures { IfOk result (λ made. made ≡ both (join_of chain) x y) }
{
    match sides_of(x, y) {
        Some(Sides { x, y, height }) => tree(alloc, join(chain, x, y), height),
        None => Ok(Built::TooHigh),
    }
}

fn join(chain: Chain, x: Boxed<Proc>, y: Boxed<Proc>) -> Proc
    ensures { result ≡ join_of chain x y }
{
    match chain {
        Chain::Disrupt => Proc::Disrupt(x, y),
        Chain::Par => Proc::Par(x, y),
        Chain::Alt => Proc::Alt(x, y),
        Chain::Seq => Proc::Seq(x, y),
    }
}

/// Joins the members of a chain into one process, from the right.
pub(crate) fn joined(
    alloc: Global,
    chain: Chain,
    mut prefix: Items<Built>,
    last: Built,
) -> Result<Built, NoMemory>
    ensures { IfOk result (λ made. made ≡ joined (join_of chain) prefix last) }
{
    let mut whole = last;
    while let Some(x) = prefix.pop() {
        whole = link(alloc, chain, x, whole)?;
    }
    Ok(whole)
}

/// Joins two processes with `*`: the first any number of times, and then the second.
pub(crate) fn turn(alloc: Global, x: Built, y: Built) -> Result<Built, NoMemory>
    ensures { IfOk result (λ made. made ≡ both tree.Star x y) }
{
    match sides_of(x, y) {
        Some(Sides { x, y, height }) => tree(alloc, Proc::Star(x, y), height),
        None => Ok(Built::TooHigh),
    }
}

pub(crate) fn either(alloc: Global, test: Ast, x: Built, y: Built) -> Result<Built, NoMemory>
    ensures { IfOk result (λ made. made ≡ both (λ x y. tree.If test x (Some y)) x y) }
{
    match sides_of(x, y) {
        Some(Sides { x, y, height }) => tree(alloc, Proc::If(test, x, Some(y)), height),
        None => Ok(Built::TooHigh),
    }
}

pub(crate) fn only(alloc: Global, test: Ast, x: Built) -> Result<Built, NoMemory>
    ensures { IfOk result (λ made. made ≡ one (λ x. tree.If test x None) x) }
{
    match side_of(x) {
        Some((x, height)) => tree(alloc, Proc::If(test, x, None), height),
        None => Ok(Built::TooHigh),
    }
}

pub(crate) fn within(alloc: Global, vars: Vars, x: Built) -> Result<Built, NoMemory>
    ensures { IfOk result (λ made. made ≡ one (tree.Let vars) x) }
{
    match side_of(x) {
        Some((x, height)) => tree(alloc, Proc::Let(vars, x), height),
        None => Ok(Built::TooHigh),
    }
}
