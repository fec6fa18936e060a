// Nodes in order of insertion, each once.
ghost use Rattle.std.specs.Prelude.{◌≡◌, [], ◌∷◌, IfOk, OnOk, map};
ghost use Rattle.plan_components.specs.Places.{row_of};
ghost use Rattle.plan_components.specs.SameNode.{place_of};
ghost use Rattle.plan_components.specs.Steps.{AppendsNew};

use crate::node::{Need, Node};
use indexmap::IndexSet;
use plan_types::{List, NoMemory};
use std::alloc::Global;

// Appends a node if it isn't in the set yet. Out comes its place.
fn put(nodes: &mut IndexSet<Node>, node: &Node) -> Result<usize, NoMemory>
    ensures put { OnOk result (AppendsNew (node.now ∷ []) nodes.old.keys nodes.new.keys) }
    ensures place { IfOk result (λ place. place ≡ place_of nodes.new.keys node.now) }
{
    let (place, _) = nodes.insert_full(*node)?;
    Ok(place)
}

/// Appends those of these nodes that aren't in the set yet.
pub(crate) fn put_all(nodes: &mut IndexSet<Node>, others: &[Node]) -> Result<(), NoMemory>
    ensures { OnOk result (AppendsNew others.now nodes.old.keys nodes.new.keys) }
{
    for other in others {
        put(nodes, other)?;
    }
    Ok(())
}

/// Appends those of the needed nodes that aren't in the set yet. Out come the places of all of them.
pub(crate) fn put_needed(
    alloc: Global,
    nodes: &mut IndexSet<Node>,
    needs: &[Need],
) -> Result<List<usize>, NoMemory>
    ensures put { OnOk result (AppendsNew (map (λ need. need.node) needs.now) nodes.old.keys nodes.new.keys) }
    ensures places { IfOk result (λ places. places ≡ row_of nodes.new.keys needs.now) }
{
    let mut places = List::new(alloc);
    for need in needs {
        let place = put(nodes, &need.node)?;
        places.push(place)?;
    }
    Ok(places)
}
