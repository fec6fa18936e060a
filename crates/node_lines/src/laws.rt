// Laws of lines.
ghost use Rattle.std.specs.Prelude.{◌≡◌};
ghost use Rattle.plan_nodes.specs.declared.node.PlanNode.{PlanNode};
ghost use Rattle.plan_components.specs.declared.node.Node.{Node};
ghost use Rattle.plan_components.specs.Chosen.{Selection};
ghost use Rattle.node_lines.specs.Lines.{HasLine};

/// The line of a node is unique.
pub fn one_line()
    ensures { (selection : Selection) (node : Node) (a b : PlanNode) → HasLine selection node a
        → HasLine selection node b → a ≡ b }
{}
