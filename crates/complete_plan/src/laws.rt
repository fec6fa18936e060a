// Each node of the plan of a complete, valid assignment can be built.
ghost use Rattle.std.specs.Prelude.{List};
ghost use Rattle.outside_folder.specs.Files.{Bytes, Files};
ghost use Rattle.choice_problem.specs.Trail.{value_in};
ghost use Rattle.command_line.specs.declared.reading.Command.{Command};
ghost use Rattle.command_line.specs.declared.reading.Options.{Options};
ghost use Rattle.plan_components.specs.Chosen.{selection_from};
ghost use Rattle.plan_nodes.specs.declared.node.PlanNode.{PlanNode};
ghost use Rattle.node_lines.specs.Lines.{HaveLines};
ghost use Rattle.elaborate.specs.Plan.{IsPlan};
ghost use Rattle.elaborate.specs.Whole.{LacksNone};
ghost use Rattle.plan_search.specs.declared.search.Picking.{Picking};
ghost use Rattle.plan_command.specs.Form.{form_of};
ghost use Rattle.plan_command.specs.Meaning.{PlansValid};
ghost use Rattle.plan_command.specs.Run.{OutputInOrder};
ghost use Rattle.complete_plan.specs.Valid.{ValidAssignment, selected};

use cabal_problem::{listed_as_whole, problem_is_lawful};
use elaborate::no_node_is_lacking;
use plan_search::what_is_found_is_right;

/// Each node of the plan of a complete, valid assignment over a sound index has a line.
pub fn every_node_has_a_line()
    ensures { (valid : ValidAssignment) → HaveLines (selected valid) }
{
    listed_as_whole();
    problem_is_lawful();
}

/// So each node of that plan is printed.
pub fn valid_plan_lacks_none()
    ensures { (valid : ValidAssignment) (lines : List PlanNode)
        → IsPlan (selected valid) lines
        → LacksNone (selected valid) lines }
{
    every_node_has_a_line();
    no_node_is_lacking();
}

/// A plan that a run prints lacks no node: each node of its complete, valid assignment has a printed line.
pub fn printed_plan_lacks_none()
    // for `plan` over an observable folder
    ensures meant { (picking : Picking) (options : Options) (files : Files) (text : Bytes)
        (plan : PlansValid picking (form_of options) options files text)
        → LacksNone (selection_from plan.task.index plan.names plan.task.settings.env (value_in plan.trail))
        plan.nodes }

    // for each command over any folder
    ensures in_order { (command : Command) (printed : OutputInOrder command) → LacksNone
        (selection_from printed.1.task.index printed.1.finding.names printed.1.task.settings.env
        (value_in printed.1.trail)) printed.1.nodes }
{
    what_is_found_is_right();
    valid_plan_lacks_none();
}
