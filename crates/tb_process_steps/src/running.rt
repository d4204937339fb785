//! The running term: the process term, represented by nodes of the plan.
ghost use Rattle.std.specs.Prelude.{◌≡◌, IfOk};

use std::alloc::Global;
use tb_terms::{Boxed, NoMemory};

/// A part of the plan that the process has entered, and of which it has taken no step yet.
#[derive(Clone, Copy)]
pub struct Entry {
    /// The position of the node in the plan.
    pub node: usize,
    /// The number of ticks that the process had seen when it entered the part.
    pub entered: u64,
}

/// The term of a process that hasn't ended, represented by nodes of the plan.
#[derive(Drop)]
pub enum Running {
    /// A part of the plan of which the process has taken no step yet.
    Whole(Entry),
    /// The term, then this node of the plan.
    Seq(Boxed<Running>, usize),
    /// Both terms, with their atoms in any order.
    Par(Boxed<Running>, Boxed<Running>),
    /// The left side, until the right side takes a step. The right side has waited since it was entered.
    Disrupt(Boxed<Running>, Entry),
}

impl Running {
    /// Returns a copy of the term in its own memory.
    #[cycle(copy)]
    pub fn copy(&self, alloc: Global) -> Result<Running, NoMemory>
        ensures { IfOk result (λ copy. copy ≡ self.now) }
    {
        match self {
            Running::Whole(entry) => Ok(Running::Whole(*entry)),
            Running::Seq(x, y) => Ok(Running::Seq(copy_part(alloc, x)?, *y)),
            Running::Par(x, y) => Ok(Running::Par(copy_part(alloc, x)?, copy_part(alloc, y)?)),
            Running::Disrupt(x, entry) => Ok(Running::Disrupt(copy_part(alloc, x)?, *entry)),
        }
    }
}

#[cycle(copy)]
fn copy_part(alloc: Global, part: &Boxed<Running>) -> Result<Boxed<Running>, NoMemory>
    ensures { IfOk result (λ copy. copy ≡ part.now) }
{
    let copy = part.get().copy(alloc)?;
    Ok(Boxed::new(alloc, copy)?)
}
