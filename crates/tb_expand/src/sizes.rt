//! The sizes of the expansions of processes.

ghost use Rattle.std.specs.Prelude.{◌≡◌, IfOk, length};
ghost use Rattle.tb_expand.specs.Helpers.Sizes.{beside, above};
ghost use Rattle.tb_expand.specs.Helpers.Measuring.{AreSizes, capped, called_measure, known_size, measure, with_measure};
ghost use Rattle.tb_expand.specs.Helpers.Descents.{Descends};

use crate::size::Size;
use sqlite_items::at;
use std::alloc::Global;
use tb_syntax::Proc;
use tb_terms::{Items, NoMemory};
use tb_types::Names;

/// The cap of the count of atoms: one more than an expansion can have.
const COUNTED_ATOMS: usize = 20_001;

/// The cap of the depth: one more than the tree of an expansion can have.
const COUNTED_LEVELS: usize = 1_001;

/// The size for a call whose name no process has.
const NOTHING: Size = Size {
    atoms: 0,
    levels: 1,
};

const ATOM: Size = Size {
    atoms: 1,
    levels: 1,
};

/// Returns the capped sizes of the expansions of all processes, by position. In `order`, each process comes after the processes that
/// its body calls.
#[tactic(auto, using(crate::proofs::SizesKept::none_kept))]
pub(crate) fn sizes_of(
    alloc: Global,
    names: &Names,
    order: &[usize],
) -> Result<Items<Size>, NoMemory>
    requires { Descends names.now.script.now order.now }
    ensures { IfOk result (AreSizes names.now.script.now) }
{
    let mut sizes = nothings(alloc, names.script.procs.len())?;
    for position in order {
        keep_size(names, &mut sizes, *position);
    }
    Ok(sizes)
}

fn nothings(alloc: Global, count: usize) -> Result<Items<Size>, NoMemory>
    ensures { IfOk result (λ sizes. length sizes ≡ count) }
{
    let mut sizes = Vec::new(alloc);
    sizes.resize(count, NOTHING)?;
    Ok(Items::from_vec(sizes))
}

/// Stores the size of the process at this position.
fn keep_size(names: &Names, sizes: &mut Items<Size>, position: usize)
    requires { length sizes.old ≡ length names.now.script.now.procs }
    ensures { sizes.new ≡ with_measure names.now.script.now sizes.old position }
{
    if let Some(def) = at(names.script.procs.as_slice(), position) {
        let size = size_of_body(names, sizes.as_slice(), &def.body);
        sizes.set(position, size);
    }
}

/// Returns the capped size of a body's expansion, from the sizes of the processes that it calls, by position.
fn size_of_body(names: &Names, sizes: &[Size], body: &Proc) -> Size
    ensures { result ≡ measure names.now.script.now sizes.now body.now }
{
    match body {
        Proc::Atom(_) => ATOM,
        Proc::Call(call) => size_of_call(names, sizes, call.name.as_bytes()),
        Proc::Seq(x, y)
        | Proc::Alt(x, y)
        | Proc::Star(x, y)
        | Proc::Par(x, y)
        | Proc::Disrupt(x, y) => {
            let prefix = size_of_body(names, sizes, x.get());
            beside(prefix, size_of_body(names, sizes, y.get()))
        }
        Proc::If(_, x, None) | Proc::Let(_, x) => above(size_of_body(names, sizes, x.get())),
        Proc::If(_, x, Some(y)) => {
            let prefix = size_of_body(names, sizes, x.get());
            beside(prefix, size_of_body(names, sizes, y.get()))
        }
    }
}

/// Returns the size of the part for a call: the called body under one more level.
fn size_of_call(names: &Names, sizes: &[Size], name: &[u8]) -> Size
    ensures { result ≡ called_measure (known_size names.now.script.now sizes.now name.now) }
{
    let Some(position) = names.process_position(name) else {
        return NOTHING;
    };
    match at(sizes, position) {
        Some(size) => above(*size),
        None => NOTHING,
    }
}

/// Returns the capped size of two sides under one operator.
fn beside(x: Size, y: Size) -> Size
    ensures { result ≡ capped (beside x y) }
{
    Size {
        atoms: x.atoms.saturating_add(y.atoms).min(COUNTED_ATOMS),
        levels: x.levels.max(y.levels).saturating_add(1).min(COUNTED_LEVELS),
    }
}

/// Returns the capped size of one side under one operator.
fn above(x: Size) -> Size
    ensures { result ≡ capped (above x) }
{
    Size {
        atoms: x.atoms.min(COUNTED_ATOMS),
        levels: x.levels.saturating_add(1).min(COUNTED_LEVELS),
    }
}
