// The build order of a graph.
ghost use Rattle.std.specs.Prelude.{IfOk};
ghost use Rattle.build_order.specs.Order.{IsBuildOrder};
ghost use Rattle.common_laws.specs.Graphs.{IsGraph};

use crate::building::Building;
use plan_types::{List, NoMemory};
use std::alloc::Global;

/// The order in which the nodes can be built. `needs` has the needs of each node.
pub fn build_order(alloc: Global, needs: &[List<usize>]) -> Result<List<usize>, NoMemory>
    requires { IsGraph needs.now }
    ensures { IfOk result (IsBuildOrder needs.now) }
{
    let mut building = Building::new(alloc, needs)?;
    while let Some(node) = building.next() {
        building.place(alloc, needs, node)?;
    }
    Ok(building.into_order())
}
