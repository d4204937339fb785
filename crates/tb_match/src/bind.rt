//! The terms that variables take in a match.
ghost use Rattle.std.specs.Prelude.{◌≡◌, [], ◌∷◌, ◌++◌, IfOk, OnOk};
ghost use Rattle.std.specs.Option.{option_copied};
ghost use Rattle.tb_terms.specs.Same.{is_same_term};
ghost use Rattle.tb_match.specs.Joining.{bound, with_bind};
ghost use Rattle.tb_match.specs.Matches.{binds_if};

use std::alloc::Global;
use std::mem::replace;
use tb_terms::{Items, NoMemory, Term, same};

/// A bind: the term that a variable takes in a match.
#[derive(Drop)]
pub struct Bind {
    /// The slot of the variable.
    pub slot: u32,
    /// The term that the variable takes.
    pub value: Term,
}

/// A list of binds.
pub type Binds = Items<Bind>;

impl Bind {
    /// Returns the same bind in memory of its own.
    pub fn copy(&self, alloc: Global) -> Result<Bind, NoMemory>
        ensures { IfOk result (λ copy. copy ≡ self.now) }
    {
        let value = self.value.copy(alloc)?;
        Ok(Bind {
            slot: self.slot,
            value,
        })
    }
}

/// Returns a copy of these binds, in the same order.
pub fn copy_binds(alloc: Global, binds: &Binds) -> Result<Binds, NoMemory>
    ensures { IfOk result (λ copies. copies ≡ binds.now) }
{
    let mut copies = Items::new(alloc);
    for bind in binds.as_slice() {
        copies.push(bind.copy(alloc)?)?;
    }
    Ok(copies)
}

/// Binds the slot to the term, unless the slot is bound. Returns `false` if the slot is bound to another term.
pub(crate) fn with_bind(
    alloc: Global,
    binds: &mut Binds,
    slot: u32,
    value: &Term,
) -> Result<bool, NoMemory>
    ensures { IfOk result (λ agrees. binds_if agrees binds.new
        ≡ with_bind binds.old (record { slot = slot; value = value.now })) }
{
    match value_of(binds.as_slice(), slot) {
        Some(other) => Ok(is_same(other, value)),
        None => {
            push_bind(alloc, binds, slot, value)?;
            Ok(true)
        }
    }
}

fn push_bind(alloc: Global, binds: &mut Binds, slot: u32, value: &Term) -> Result<(), NoMemory>
    ensures { OnOk result
        (binds.new ≡ binds.old ++ record { slot = slot; value = value.now } ∷ []) }
{
    let value = value.copy(alloc)?;
    binds.push(Bind { slot, value })?;
    Ok(())
}

fn value_of(binds: &[Bind], slot: u32) -> Option<&Term>
    ensures { option_copied result ≡ bound slot binds.now }
{
    for bind in binds {
        if bind.slot == slot {
            return Some(&bind.value);
        }
    }
    None
}

pub(crate) fn is_same(term: &Term, other: &Term) -> bool
    ensures { result ≡ is_same_term term.now other.now }
{
    same(term, other)
}

/// Drops all binds. The list keeps its memory.
pub(crate) fn empty(binds: &mut Binds)
    ensures { binds.new ≡ [] }
{
    while let Some(bind) = binds.pop() {
        drop(bind);
    }
}

/// Takes the binds out and returns them if there is a match. Returns `None` otherwise.
pub(crate) fn taken_if(alloc: Global, matches: bool, binds: &mut Binds) -> Option<Binds>
    ensures { result ≡ binds_if matches binds.old }
{
    if matches {
        Some(replace(binds, Items::new(alloc)))
    } else {
        None
    }
}
