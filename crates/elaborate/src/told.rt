// The nodes of a plan that have lines.
ghost use Rattle.std.specs.Prelude.{◌≡◌, ◌++◌, IfOk, OnOk, length};
ghost use Rattle.std.specs.List.Sorted.{IsPermutation, IsSorted};
ghost use Rattle.elaborate.specs.Telling.{placed_line, placed_lines};
ghost use Rattle.elaborate.specs.Told.{lined_cmp, placed_cmp};

use plan_components::Node;
use plan_nodes::PlanNode;
use plan_types::{List, NoMemory};
use std::alloc::Global;
use std::cmp::Ordering;

/// A node and its line.
#[derive(Debug, Drop)]
pub struct LinedNode {
    pub node: Node,
    pub line: PlanNode,
}

/// A node with its line, and the place at which it was reached.
#[derive(Debug, Drop)]
pub struct PlacedLine {
    pub place: usize,
    pub lined: LinedNode,
}

/// The nodes that have lines, with these and with their places.
pub(crate) fn placed_lines(
    alloc: Global,
    nodes: &[Node],
    lines: List<Option<PlanNode>>,
) -> Result<Vec<PlacedLine>, NoMemory>
    requires { length lines ≡ length nodes.now }
    ensures { IfOk result (λ all. all.items ≡ placed_lines nodes.now lines) }
{
    let mut all = Vec::new(alloc);
    let mut place = 0;
    for line in lines.into_vec() {
        push_placed(&mut all, place, nodes[place], line)?;
        place += 1;
    }
    Ok(all)
}

fn push_placed(
    all: &mut Vec<PlacedLine>,
    place: usize,
    node: Node,
    line: Option<PlanNode>,
) -> Result<(), NoMemory>
    ensures { OnOk result (all.new.items ≡ all.old.items ++ placed_line place node line) }
{
    match line {
        Some(line) => {
            let lined = LinedNode { node, line };
            all.push(PlacedLine { place, lined })?;
            Ok(())
        }
        None => Ok(()),
    }
}

/// Sorts nodes by name, version, component and identifier, then by qualifier, package and piece.
pub(crate) fn sort_placed(all: &mut Vec<PlacedLine>) -> Result<(), NoMemory>
    ensures permutation { IsPermutation all.old.items all.new.items }
    ensures sorted { OnOk result (IsSorted placed_cmp all.new.items) }
{
    all.sort_by(|one, other| compare(&one.lined, &other.lined))?;
    Ok(())
}

fn compare(one: &LinedNode, other: &LinedNode) -> Ordering
    ensures { result ≡ lined_cmp one.now other.now }
{
    one.line
        .name
        .cmp(&other.line.name)
        .then(one.line.version.compare(&other.line.version))
        .then(one.line.component.cmp(&other.line.component))
        .then(one.line.id.cmp(&other.line.id))
        .then(one.node.cmp(&other.node))
}
