//! The parts of an expansion.

ghost use Rattle.std.specs.Prelude.{◌≡◌, ◌+◌, IfOk, length, option_map};
ghost use Rattle.std.specs.Option.{option_copied};
ghost use Rattle.tb_body.specs.declared.tree.Tree.{Tree};
ghost use Rattle.tb_types.specs.Names.{process_named};
ghost use Rattle.tb_expand.specs.Scopes.{of_blocks};
ghost use Rattle.tb_expand.specs.Expansion.{atom_only, expands, expands_with, both, block_of, call_of, test_of};
ghost use Rattle.tb_expand.specs.Helpers.Building.{Adds, with_part};

use crate::atoms::atom_of;
use crate::built::Built;
use crate::exprs::expr_of;
use crate::number::{following, number};
use crate::scope::Blocks;
use crate::seen::Block;
use crate::slots::{declared, formals_of_call, initial, set_formals, sorts_of_vars, value_sorts};
use sqlite_items::at;
use std::alloc::Global;
use tb_body::Tree;
use tb_syntax::{Ast, AtomDef, Call, Proc, ProcDef, Var};
use tb_terms::{Boxed, Items, NoMemory};
use tb_types::Names;

/// Builds the tree of a process, and adds the tree's atoms and slots to `built`. Calls are replaced if they are nested at most `depth`
/// deep.
#[cycle(parts)]
pub(crate) fn part_of(
    alloc: Global,
    names: &Names,
    depth: usize,
    blocks: &mut Blocks,
    built: &mut Built,
    p: &Proc,
) -> Result<Tree, NoMemory>
    ensures { IfOk result
        (λ tree. Adds (expands_with names.now.script.now (expands names.now.script.now depth) p.now)
        blocks.old built.old tree blocks.new built.new) }
{
    match p {
        Proc::Atom(def) => Ok(atom_part(alloc, names, blocks, built, def)?),
        Proc::Call(call) => Ok(call_part(alloc, names, depth, blocks, built, call)?),
        Proc::Seq(x, y) => {
            let (x, y) = sides(alloc, names, depth, blocks, built, x.get(), y.get())?;
            Ok(Tree::Seq(x, y))
        }
        Proc::Alt(x, y) => {
            let (x, y) = sides(alloc, names, depth, blocks, built, x.get(), y.get())?;
            Ok(Tree::Alt(x, y))
        }
        Proc::Star(x, y) => {
            let (x, y) = sides(alloc, names, depth, blocks, built, x.get(), y.get())?;
            Ok(Tree::Star(x, y))
        }
        Proc::Par(x, y) => {
            let (x, y) = sides(alloc, names, depth, blocks, built, x.get(), y.get())?;
            Ok(Tree::Par(x, y))
        }
        Proc::Disrupt(x, y) => {
            let (x, y) = sides(alloc, names, depth, blocks, built, x.get(), y.get())?;
            Ok(Tree::Disrupt(x, y))
        }
        Proc::If(test, x, y) => Ok(if_part(alloc, names, depth, blocks, built, test, x.get(), y)?),
        Proc::Let(vars, x) => {
            let vars = vars.as_slice();
            Ok(let_part(alloc, names, depth, blocks, built, vars, x.get())?)
        }
    }
}

fn atom_part(
    alloc: Global,
    names: &Names,
    blocks: &Blocks,
    built: &mut Built,
    def: &AtomDef,
) -> Result<Tree, NoMemory>
    ensures { IfOk result (λ tree. Adds
        (atom_only names.now.script.now def.now) blocks.now built.old tree blocks.now built.new) }
{
    let number = number(built.atoms.len())?;
    let number = following(number)?;
    built.atoms.push(atom_of(alloc, names, blocks, def)?)?;
    Ok(Tree::At(number))
}

/// Builds two sides, the second after the first in the source.
#[cycle(parts)]
fn sides(
    alloc: Global,
    names: &Names,
    depth: usize,
    blocks: &mut Blocks,
    built: &mut Built,
    x: &Proc,
    y: &Proc,
) -> Result<(Boxed<Tree>, Boxed<Tree>), NoMemory>
    ensures { IfOk result (λ s. (join : Tree → Tree → Tree) → Adds
        (both join (expands_with names.now.script.now (expands names.now.script.now depth) x.now)
        (expands_with names.now.script.now (expands names.now.script.now depth) y.now))
        blocks.old built.old (join s.0 s.1) blocks.new built.new) }
{
    let x = part_of(alloc, names, depth, blocks, built, x)?;
    let x = Boxed::new(alloc, x)?;
    let y = part_of(alloc, names, depth, blocks, built, y)?;
    let y = Boxed::new(alloc, y)?;
    Ok((x, y))
}

#[cycle(parts)]
fn if_part(
    alloc: Global,
    names: &Names,
    depth: usize,
    blocks: &mut Blocks,
    built: &mut Built,
    test: &Ast,
    x: &Proc,
    y: &Option<Boxed<Proc>>,
) -> Result<Tree, NoMemory>
    ensures { IfOk result (λ tree. Adds (test_of test.now
        (expands_with names.now.script.now (expands names.now.script.now depth) x.now)
        (option_map (expands_with names.now.script.now (expands names.now.script.now depth)) y.now))
        blocks.old built.old tree blocks.new built.new) }
{
    let test = expr_of(alloc, blocks, test)?;
    match y {
        Some(y) => {
            let (x, y) = sides(alloc, names, depth, blocks, built, x, y.get())?;
            Ok(Tree::If(test, x, Some(y)))
        }
        None => {
            let x = part_of(alloc, names, depth, blocks, built, x)?;
            Ok(Tree::If(test, Boxed::new(alloc, x)?, None))
        }
    }
}

#[cycle(parts)]
fn let_part(
    alloc: Global,
    names: &Names,
    depth: usize,
    blocks: &mut Blocks,
    built: &mut Built,
    vars: &[Var],
    x: &Proc,
) -> Result<Tree, NoMemory>
    ensures { IfOk result (λ tree. Adds (block_of vars.now
        (expands_with names.now.script.now (expands names.now.script.now depth) x.now))
        blocks.old built.old tree blocks.new built.new) }
{
    let slot = number(built.sorts.len())?;
    let settings = initial(alloc, slot, vars)?;
    blocks.push(declared(alloc, slot, vars)?)?;
    built.sorts.append(sorts_of_vars(alloc, vars)?)?;
    let x = part_of(alloc, names, depth, blocks, built, x)?;
    let _ = blocks.pop();
    Ok(Tree::Let(settings, Boxed::new(alloc, x)?))
}

#[cycle(parts)]
fn call_part(
    alloc: Global,
    names: &Names,
    depth: usize,
    blocks: &Blocks,
    built: &mut Built,
    call: &Call,
) -> Result<Tree, NoMemory>
    ensures { IfOk result
        (λ tree. Adds (call_of names.now.script.now (expands names.now.script.now depth) call.now)
        blocks.now built.old tree blocks.now built.new) }
{
    let Some(def) = definition_of(names, call.name.as_bytes()) else {
        return Ok(Tree::At(0));
    };
    let formals = def.formals.as_slice();
    let actuals = call.actuals.as_slice();
    let slot = number(built.sorts.len())?;
    let settings = set_formals(alloc, blocks, slot, formals, actuals)?;
    let block = formals_of_call(alloc, blocks, slot, formals, actuals)?;
    built.sorts.append(value_sorts(alloc, formals)?)?;
    let x = body_part(alloc, names, depth, block, built, &def.body)?;
    Ok(Tree::Let(settings, Boxed::new(alloc, x)?))
}

/// Builds the body of a called process, in which only its parameters are visible.
#[cycle(parts)]
pub(crate) fn body_part(
    alloc: Global,
    names: &Names,
    depth: usize,
    block: Block,
    built: &mut Built,
    body: &Proc,
) -> Result<Tree, NoMemory>
    ensures { IfOk result (λ tree. (tree ≡ (expands names.now.script.now depth body.now block
        (length built.old.atoms + 1) (length built.old.sorts)).tree)
        × (built.new ≡ with_part built.old (expands names.now.script.now depth body.now block
        (length built.old.atoms + 1) (length built.old.sorts)))) }
{
    if depth == 0 {
        return Ok(Tree::At(0));
    }
    let mut blocks = opened(alloc, block)?;
    Ok(part_of(alloc, names, depth - 1, &mut blocks, built, body)?)
}

/// Returns the open blocks if only this block is visible. A block without variables needs no memory.
fn opened(alloc: Global, block: Block) -> Result<Blocks, NoMemory>
    ensures { IfOk result (λ blocks. of_blocks blocks ≡ block) }
{
    let mut blocks = Items::new(alloc);
    if !block.is_empty() {
        blocks.push(block)?;
    }
    Ok(blocks)
}

/// Returns the definition of the process with this name.
#[tactic(auto, using(crate::proofs::Lookups::defined_at, crate::proofs::Lookups::not_defined))]
fn definition_of<'a>(names: &Names<'a>, name: &[u8]) -> Option<&'a ProcDef>
    ensures { option_copied result ≡ process_named names.now.script.now.procs name.now }
{
    match names.process_position(name) {
        None => None,
        Some(position) => at(names.script.procs.as_slice(), position),
    }
}
