//! The order in which the sizes of processes are computed.

ghost use Rattle.std.specs.Prelude.{IfOk, IfErr};
ghost use Rattle.tb_expand.specs.Helpers.CallGraphs.{NamesDiffer};
ghost use Rattle.tb_expand.specs.Helpers.CallOrders.{IsCallOrder};
ghost use Rattle.tb_expand.specs.Faults.{IsCallFault};

use crate::fault::ExpandFault;
use crate::graph::{Positions, graph_of, names_at};
use crate::order::{Ordered, topological_order};
use std::alloc::Global;
use tb_types::Names;

/// Returns the positions of the processes of a script, each after the processes that its body calls. A call whose name no process has
/// is ignored.
pub(crate) fn order_of(alloc: Global, names: &Names) -> Result<Positions, ExpandFault>
    requires { NamesDiffer names.now.script.now }
    ensures ok { IfOk result (IsCallOrder names.now.script.now) }
    ensures err { IfErr result (IsCallFault names.now.script.now) }
{
    let graph = graph_of(alloc, names)?;
    match topological_order(alloc, &graph)? {
        Ordered::Order(order) => Ok(order),
        Ordered::Cyclic(positions) => {
            let called = names_at(alloc, names.script, positions.as_slice())?;
            Err(ExpandFault::Recursion(called))
        }
    }
}
