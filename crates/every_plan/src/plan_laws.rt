// Every selection has a plan.
ghost use Rattle.std.specs.Prelude.{List};
ghost use Rattle.plan_nodes.specs.declared.node.PlanNode.{PlanNode};
ghost use Rattle.plan_components.specs.Chosen.{Selection};
ghost use Rattle.elaborate.specs.Plan.{IsPlan};

/// Every selection has a plan: some lines satisfy `IsPlan`.
pub fn some_plan()
    ensures { (selection : Selection) → (lines : List PlanNode) × IsPlan selection lines }
{}
