// Lines, made in build order.
ghost use Rattle.std.specs.Prelude.{◌≡◌, ◌<◌, All, IfOk, length, replicate, slice_index_or, None};
ghost use Rattle.plan_components.specs.Chosen.{selection_of};
ghost use Rattle.plan_components.specs.Places.{graph_of};
ghost use Rattle.plan_components.specs.Plan.{AreReached};
ghost use Rattle.node_lines.specs.Lines.{AreLines};
ghost use Rattle.node_lines.specs.Along.{line_from, lines_along};

use crate::gather::gather;
use build_order::build_order;
use plan_components::{Chosen, Reached};
use plan_lines::line_of;
use plan_nodes::PlanNode;
use plan_types::{List, NoMemory};
use std::alloc::Global;

/// The line of each node, `None` for a node with a need that has no line.
pub fn lines_of(
    alloc: Global,
    chosen: &Chosen<'_>,
    reached: &Reached,
) -> Result<List<Option<PlanNode>>, NoMemory>
    requires { AreReached (selection_of chosen.now) reached.now }
    ensures { IfOk result (AreLines (selection_of chosen.now) reached.now.set.keys) }
{
    let order = build_order(alloc, reached.places.as_slice())?;
    lines_along(alloc, chosen, reached, order.as_slice())
}

fn lines_along(
    alloc: Global,
    chosen: &Chosen<'_>,
    reached: &Reached,
    order: &[usize],
) -> Result<List<Option<PlanNode>>, NoMemory>
    requires count { length reached.now.needs ≡ length reached.now.set.keys }
    requires places { reached.now.places ≡ graph_of reached.now.set.keys reached.now.needs }
    requires within { All (λ u. u < length reached.now.set.keys) order.now }
    ensures { IfOk result (λ lines. lines ≡ lines_along (selection_of chosen.now) reached.now order.now) }
{
    let mut lines = no_lines(alloc, reached.nodes().len())?;
    for place in 0..order.len() {
        let line = line_from(alloc, chosen, reached, lines.as_slice(), order[place])?;
        lines.set(order[place], line);
    }
    Ok(lines)
}

fn no_lines(alloc: Global, count: usize) -> Result<List<Option<PlanNode>>, NoMemory>
    ensures { IfOk result (λ lines. lines ≡ replicate count None) }
{
    let mut lines = List::new(alloc);
    for _ in 0..count {
        lines.push(None)?;
    }
    Ok(lines)
}

// The line of the node at a place, from the lines so far.
fn line_from(
    alloc: Global,
    chosen: &Chosen<'_>,
    reached: &Reached,
    lines: &[Option<PlanNode>],
    place: usize,
) -> Result<Option<PlanNode>, NoMemory>
    requires count { length reached.now.needs ≡ length reached.now.set.keys }
    requires places { reached.now.places ≡ graph_of reached.now.set.keys reached.now.needs }
    requires within { place < length reached.now.set.keys }
    ensures { IfOk result (λ line. line ≡ line_from (selection_of chosen.now) reached.now lines.now place) }
{
    let node = reached.nodes()[place];
    match gather(alloc, reached, lines, place)? {
        None => Ok(None),
        Some(needed) => line_of(alloc, chosen, node, needed),
    }
}
