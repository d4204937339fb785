//! The body of a process: its tree, its atoms, and the types of its slots, within limits.
ghost use Rattle.std.specs.Prelude.{◌≡◌, IsTrue, IfOk, IfSome, is_some};
ghost use Rattle.tb_body.specs.InRange.{is_body_in_range, is_in_range};

use crate::in_range::{
    add_atoms, are_atoms_in_body, ascend_from_one, has_levels, is_tree_in_range,
};
use crate::{Atoms, Tree, copy_atoms};
use std::alloc::Global;
use tb_terms::{Items, NoMemory, Sorts};

/// The greatest number of atoms of a body.
pub const MOST_BODY_ATOMS: usize = 200_000;

/// The greatest depth of the tree of a body.
pub const MOST_BODY_LEVELS: usize = 1_000;

/// A process whose calls are replaced. The first slots are its parameters. It has at most 200,000 atoms, and its tree has a depth of at
/// most 1,000.
#[derive(Drop)]
pub struct Body {
    /// The tree of atoms.
    pub tree: Tree,
    /// The atoms, in the order of their numbers.
    pub atoms: Atoms,
    /// The types of the slots.
    pub sorts: Sorts,
    /// The number of slots, from the first, that are parameters.
    pub formals: u32,
    ghost in_range: { IsTrue (is_body_in_range tree atoms sorts formals) },
}

/// A sequence of bodies.
pub type Bodies = Items<Body>;

impl Body {
    /// Returns the body, or `None` if its parts aren't in range or pass a limit.
    #[tactic(auto, unfolding(crate::specs::InRange::is_body_in_range))]
    pub fn new(
        alloc: Global,
        tree: Tree,
        atoms: Atoms,
        sorts: Sorts,
        formals: u32,
    ) -> Result<Option<Body>, NoMemory>
        ensures is { IfOk result (λ body. IfSome body (λ b. (b.tree ≡ tree) × (b.atoms ≡ atoms)
            × (b.sorts ≡ sorts) × (b.formals ≡ formals))) }
        ensures some { IfOk result
            (λ body. is_some body ≡ is_body_in_range tree atoms sorts formals) }
    {
        if is_in_range(alloc, &tree, &atoms, sorts.len(), formals)? {
            Ok(Some(Body {
                tree,
                atoms,
                sorts,
                formals,
            }))
        } else {
            Ok(None)
        }
    }

    /// Returns an equal body in memory of its own.
    pub fn copy(&self, alloc: Global) -> Result<Body, NoMemory>
        ensures { IfOk result (λ copy. copy ≡ self.now) }
    {
        let tree = self.tree.copy(alloc)?;
        let atoms = copy_atoms(alloc, &self.atoms)?;
        let sorts = copy_sorts(alloc, &self.sorts)?;
        Ok(Body {
            tree,
            atoms,
            sorts,
            formals: self.formals,
        })
    }
}

/// Returns whether the parts of a body with this many slots are in range and within the limits.
fn is_in_range(
    alloc: Global,
    tree: &Tree,
    atoms: &Atoms,
    slots: usize,
    formals: u32,
) -> Result<bool, NoMemory>
    ensures { IfOk result (λ ok. ok ≡ is_in_range tree.now atoms.now slots formals) }
{
    let mut numbers = Items::new(alloc);
    add_atoms(tree, &mut numbers)?;
    Ok(
        ascend_from_one(numbers.as_slice())
            && numbers.len() == atoms.len()
            && atoms.len() <= MOST_BODY_ATOMS
            && has_levels(tree, MOST_BODY_LEVELS)
            && formals as usize <= slots
            && is_tree_in_range(slots, tree)
            && are_atoms_in_body(slots, atoms.as_slice()),
    )
}

fn copy_sorts(alloc: Global, sorts: &Sorts) -> Result<Sorts, NoMemory>
    ensures { IfOk result (λ copies. copies ≡ sorts.now) }
{
    let mut copies = Items::new(alloc);
    for sort in sorts.as_slice() {
        copies.push(sort.copy(alloc)?)?;
    }
    Ok(copies)
}
