//! Bodies that no script has. In them, a `let` sets a variable that a test outside of this `let` reads, or that a `let` inside of it sets
//! again.

use crate::fault::Fault;
use std::alloc::Global;
use tb_body::{Act, Atom, Body, Setting, Tree};
use tb_terms::{Boxed, Expr, Func, Items, NoMemory, Sort};

fn at(alloc: Global, atom: u32) -> Result<Boxed<Tree>, NoMemory> {
    Ok(Boxed::new(alloc, Tree::At(atom))?)
}

fn set(alloc: Global, number: i64, part: Boxed<Tree>) -> Result<Boxed<Tree>, NoMemory> {
    let mut settings = Items::new(alloc);
    let start = Some(Expr::Int(number));
    settings.push(Setting { slot: 0, start })?;
    Ok(Boxed::new(alloc, Tree::Let(settings, part))?)
}

fn when_one(alloc: Global, part: Boxed<Tree>) -> Result<Boxed<Tree>, NoMemory> {
    let mut parts = Items::new(alloc);
    parts.push(Expr::Var(0))?;
    parts.push(Expr::Int(1))?;
    let test = Expr::Call(Func::Equal, parts);
    Ok(Boxed::new(alloc, Tree::If(test, part, None))?)
}

/// Returns the tree with this name.
fn shared_tree(alloc: Global, name: &[u8]) -> Result<Tree, Fault> {
    match name {
        b"beside" => Ok(beside(alloc)?),
        b"behind" => Ok(behind(alloc)?),
        b"after turns" => Ok(after_turns(alloc)?),
        b"set again" => Ok(set_again(alloc)?),
        _ => Err(Fault::Argument),
    }
}

fn beside(alloc: Global) -> Result<Tree, NoMemory> {
    let first = when_one(alloc, at(alloc, 1)?)?;
    let second = set(alloc, 1, at(alloc, 2)?)?;
    Ok(Tree::Par(first, second))
}

fn behind(alloc: Global) -> Result<Tree, NoMemory> {
    let first = set(alloc, 1, at(alloc, 1)?)?;
    let second = when_one(alloc, at(alloc, 2)?)?;
    Ok(Tree::Seq(first, second))
}

fn after_turns(alloc: Global) -> Result<Tree, NoMemory> {
    let first = set(alloc, 1, at(alloc, 1)?)?;
    let second = when_one(alloc, at(alloc, 2)?)?;
    Ok(Tree::Star(first, second))
}

fn set_again(alloc: Global) -> Result<Tree, NoMemory> {
    let inner = set(alloc, 1, when_one(alloc, at(alloc, 1)?)?)?;
    let first = set(alloc, 2, inner)?;
    let second = at(alloc, 2)?;
    Ok(Tree::Seq(first, second))
}

/// Returns the body with this name. Its only variable is an integer, 0 at first.
pub(crate) fn shared_body(alloc: Global, name: &[u8]) -> Result<Body, Fault> {
    let mut atoms = Items::new(alloc);
    for _ in 0..2 {
        let act = Act::Tau;
        let times = Items::new(alloc);
        atoms.push(Atom { act, times })?;
    }
    let mut sorts = Items::new(alloc);
    sorts.push(Sort::Int)?;
    let tree = shared_tree(alloc, name)?;
    match Body::new(alloc, tree, atoms, sorts, 0)? {
        Some(body) => Ok(body),
        None => Err(Fault::Argument),
    }
}
