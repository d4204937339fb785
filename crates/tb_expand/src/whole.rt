//! The whole expansion of a process.

ghost use Rattle.std.specs.Prelude.{◌≡◌, IfOk};
ghost use Rattle.tb_expand.specs.Expansion.{expansion_of};

use crate::built::Built;
use crate::parts::body_part;
use crate::slots::{formals_seen, sorts_of};
use std::alloc::Global;
use tb_body::Tree;
use tb_syntax::ProcDef;
use tb_terms::{Items, NoMemory};
use tb_types::Names;

/// The expansion of a process: its tree, its atoms, and the types of its slots.
pub(crate) fn expansion_of(
    alloc: Global,
    names: &Names,
    def: &ProcDef,
) -> Result<(Tree, Built), NoMemory>
    ensures { IfOk result (λ whole. (whole.0 ≡ (expansion_of names.now.script.now def.now).tree)
        × (whole.1.atoms ≡ (expansion_of names.now.script.now def.now).atoms)
        × (whole.1.sorts ≡ (expansion_of names.now.script.now def.now).sorts)) }
{
    let formals = def.formals.as_slice();
    let block = formals_seen(alloc, 0, formals)?;
    let mut built = Built {
        atoms: Items::new(alloc),
        sorts: sorts_of(alloc, formals)?,
    };
    let depth = names.script.procs.len();
    let tree = body_part(alloc, names, depth, block, &mut built, &def.body)?;
    Ok((tree, built))
}
