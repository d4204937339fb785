//! The variables that are visible at a place.

ghost use Rattle.std.specs.Prelude.{◌≡◌, ◌++◌, ◌∷◌, [], IfOk, OnOk, Some, find};
ghost use Rattle.std.specs.Str.{bytes_eq};
ghost use Rattle.std.specs.Option.{option_copied};
ghost use Rattle.tb_expand.specs.Scopes.{of_blocks, seen_as, slot_of, sort_of};

use crate::seen::{Block, Seen};
use std::alloc::Global;
use tb_terms::{Items, NoMemory, Sort};

/// The variables that are visible at a place, as the blocks around it. The outermost block is first.
pub(crate) type Blocks = Items<Block>;

/// Returns the slot of the innermost variable of this name, or 0 if none is visible.
pub(crate) fn slot_of(blocks: &Blocks, name: &[u8]) -> u32
    ensures { result ≡ slot_of (of_blocks blocks.now) name.now }
{
    match seen_as(blocks.as_slice(), name) {
        Some(seen) => seen.slot,
        None => 0,
    }
}

/// Returns the type of the innermost variable of this name, or `term` if none is visible.
pub(crate) fn sort_of(alloc: Global, blocks: &Blocks, name: &[u8]) -> Result<Sort, NoMemory>
    ensures { IfOk result (λ sort. sort ≡ sort_of (of_blocks blocks.now) name.now) }
{
    match seen_as(blocks.as_slice(), name) {
        Some(seen) => Ok(seen.sort.copy(alloc)?),
        None => Ok(Sort::Any),
    }
}

fn seen_as<'a>(blocks: &'a [Block], name: &[u8]) -> Option<&'a Seen>
    ensures { option_copied result ≡ seen_as name.now (of_blocks blocks.now) }
{
    let mut left = blocks.len();
    while left > 0 {
        left -= 1;
        if let Some(seen) = seen_in(blocks[left].as_slice(), name) {
            return Some(seen);
        }
    }
    None
}

fn seen_in<'a>(block: &'a [Seen], name: &[u8]) -> Option<&'a Seen>
    ensures { option_copied result ≡ seen_as name.now block.now }
{
    for seen in block {
        if seen.name.as_bytes() == name {
            return Some(seen);
        }
    }
    None
}
