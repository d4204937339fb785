//! The numbers of the calls that must fail.
ghost use Rattle.std.specs.Prelude.{◌≡◌};
ghost use Rattle.tb_edge.specs.InMemory.{fails_at};

use sqlite_items::Items;

/// The numbers of the calls that must fail. The first call has the number 1.
pub type FailCalls = Items<u64>;

pub(crate) fn fails_at(fails: &FailCalls, call: u64) -> bool
    ensures { result ≡ fails_at fails.now call }
{
    fails.as_slice().contains(&call)
}
