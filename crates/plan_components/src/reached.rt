// A breadth-first walk over the nodes of a plan: each is visited once, and the nodes that it needs are appended.
ghost use Rattle.std.specs.Prelude.{◌≡◌, [], IfOk};
ghost use Rattle.plan_components.specs.Chosen.{selection_of};
ghost use Rattle.plan_components.specs.Plan.{AreReached};
ghost use Rattle.plan_components.specs.Steps.{AppendsNew};
ghost use Rattle.plan_components.specs.Wanted.{first_nodes};

use crate::chosen::Chosen;
use crate::needs::needs_of;
use crate::node::{Need, Node};
use crate::put::{put_all, put_needed};
use crate::wanted::first_nodes;
use indexmap::IndexSet;
use plan_types::{List, NoMemory, drop_fields};
use std::alloc::Global;

/// The nodes of a plan. At the index of each are its needs, and the places of the nodes that it needs.
#[derive(Debug)]
pub struct Reached {
    set: IndexSet<Node>,
    pub needs: List<List<Need>>,
    pub places: List<List<usize>>,
}

impl Drop for Reached {
    fn drop(self) {
        drop_fields!(self; set, needs, places);
    }
}

impl Reached {
    /// The nodes, the first nodes in front.
    pub fn nodes(&self) -> &[Node]
        ensures { result.now ≡ self.now.set.keys }
    {
        self.set.as_slice()
    }
}

/// The nodes of a plan: the first nodes and all that are needed.
pub fn reach(alloc: Global, chosen: &Chosen<'_>) -> Result<Reached, NoMemory>
    ensures { IfOk result (AreReached (selection_of chosen.now)) }
{
    let mut set = first_set(alloc, chosen)?;
    let mut needs = List::new(alloc);
    let mut places = List::new(alloc);
    let mut last = None;
    while needs.len() < set.len() {
        let node = set[needs.len()];
        let needed = needs_of(alloc, chosen, &mut last, node)?;
        let row = put_needed(alloc, &mut set, needed.as_slice())?;
        needs.push(needed)?;
        places.push(row)?;
    }
    Ok(Reached { set, needs, places })
}

fn first_set(alloc: Global, chosen: &Chosen<'_>) -> Result<IndexSet<Node>, NoMemory>
    ensures { IfOk result (λ nodes. AppendsNew (first_nodes (selection_of chosen.now)) [] nodes.keys) }
{
    let mut nodes = IndexSet::new(alloc);
    let first = first_nodes(alloc, chosen)?;
    put_all(&mut nodes, first.as_slice())?;
    Ok(nodes)
}
