// The first node of a graph on a cycle.
ghost use Rattle.std.specs.Prelude.{IfOk};
ghost use Rattle.component_cycle.specs.Cycle.{IsFirstOnCycle};
ghost use Rattle.common_laws.specs.Graphs.{IsGraph};

use crate::search::Search;
use plan_types::{List, NoMemory};
use std::alloc::Global;

/// The first node that lies on a cycle, where `needs` has the nodes that each node needs.
pub fn first_on_cycle(alloc: Global, needs: &[List<usize>]) -> Result<Option<usize>, NoMemory>
    requires { IsGraph needs.now }
    ensures { IfOk result (IsFirstOnCycle needs.now) }
{
    let mut search = Search::new(alloc, needs.len())?;
    for root in 0..needs.len() {
        search.finish(needs, root)?;
    }
    Ok(search.first_on_cycle())
}
