//! Lists that are emptied but keep their memory.
ghost use Rattle.std.specs.Prelude.{◌≡◌, [], IfOk};

use std::alloc::Global;
use tb_terms::{Items, NoMemory};

/// Drops all items, and keeps the memory of the list.
pub(crate) fn empty<T: Drop>(items: &mut Items<T>)
    ensures { items.new ≡ [] }
{
    while let Some(one) = items.pop() {
        drop(one);
    }
}

/// Returns an empty list in the memory of `room`, whose items are dropped. Without a room, the list has new memory for `many` items.
pub(crate) fn emptied<T: Drop>(
    alloc: Global,
    room: Option<Items<T>>,
    many: usize,
) -> Result<Items<T>, NoMemory>
    ensures { IfOk result (λ items. items ≡ []) }
{
    match room {
        Some(mut items) => {
            empty(&mut items);
            Ok(items)
        }
        None => Ok(Items::from_vec(Vec::with_capacity(alloc, many)?)),
    }
}
