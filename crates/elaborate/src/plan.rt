// The plan, in build order.
ghost use Rattle.std.specs.Prelude.{IfOk};
ghost use Rattle.choice_problem.specs.Trail.{value_in};
ghost use Rattle.flatten.specs.Sound.{IsSound};
ghost use Rattle.plan_components.specs.Chosen.{selection_from, selection_of};
ghost use Rattle.elaborate.specs.Plan.{IsPlan};

use crate::graph::graph_of;
use crate::moves::lines_at;
use crate::ranks::ranks_of;
use crate::told::{placed_lines, sort_placed};
use build_order::build_order;
use choice_problem::Choice;
use node_lines::lines_of;
use plan_components::{Chosen, chosen_values, reach};
use plan_nodes::{PlanNode, each_line_once};
use plan_types::{Env, Index, List, NoMemory};
use qualified_goals::Names;
use std::alloc::Global;

/// The nodes of a trail's plan, in build order, each line once.
pub fn elaborate(
    alloc: Global,
    trail: &[Choice],
    index: &Index,
    names: &Names,
    env: &Env,
) -> Result<List<PlanNode>, NoMemory>
    requires { IsSound env.now index.now }
    ensures { IfOk result (IsPlan (selection_from index.now names.now env.now (value_in trail.now))) }
{
    let values = chosen_values(alloc, trail)?;
    let chosen = Chosen::new(index, names, env, &values);
    planned(alloc, &chosen)
}

fn planned(alloc: Global, chosen: &Chosen<'_>) -> Result<List<PlanNode>, NoMemory>
    ensures { IfOk result (IsPlan (selection_of chosen.now)) }
{
    let reached = reach(alloc, chosen)?;
    let lines = lines_of(alloc, chosen, &reached)?;
    let mut all = placed_lines(alloc, reached.nodes(), lines)?;
    sort_placed(&mut all)?;
    let ranks = ranks_of(alloc, &reached, all.as_slice())?;
    let graph = graph_of(
        alloc,
        reached.places.as_slice(),
        ranks.as_slice(),
        all.as_slice(),
    )?;
    let places = build_order(alloc, graph.as_slice())?;
    let lines = lines_at(alloc, all, places.as_slice())?;
    each_line_once(alloc, lines)
}
