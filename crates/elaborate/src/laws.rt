// Laws of plans.
ghost use Rattle.std.specs.Prelude.{◌≡◌, List};
ghost use Rattle.plan_nodes.specs.declared.node.PlanNode.{PlanNode};
ghost use Rattle.plan_components.specs.Chosen.{Selection};
ghost use Rattle.elaborate.specs.Before.{NeedsPrintedBefore};
ghost use Rattle.elaborate.specs.Plan.{IsPlan};
ghost use Rattle.elaborate.specs.Whole.{LacksNone};
ghost use Rattle.node_lines.specs.Lines.{HaveLines};

/// A selection has one plan.
pub fn one_plan()
    ensures { (selection : Selection) (a b : List PlanNode) → IsPlan selection a → IsPlan selection b → a ≡ b }
{}

/// Each identifier that a line needs is printed before the line.
pub fn each_need_printed_before()
    ensures { (selection : Selection) (lines : List PlanNode) → IsPlan selection lines → NeedsPrintedBefore lines }
{}

/// If each node of the plan has a line, each is printed.
pub fn no_node_is_lacking()
    ensures { (selection : Selection) (lines : List PlanNode) → IsPlan selection lines → HaveLines selection
        → LacksNone selection lines }
{}
