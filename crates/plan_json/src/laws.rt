// Lines are compact texts of values, so they read back.
ghost use Rattle.std.specs.Prelude.{◌≡◌, ℕ, List};
ghost use Rattle.plan_types.specs.declared.index.Index.{Index as TheIndex};
ghost use Rattle.qualified_goals.specs.declared.variable.Var.{Var as TheVar};
ghost use Rattle.qualified_goals.specs.Names.{NameTable};
ghost use Rattle.choice_problem.specs.declared.problem.Choice.{Choice as TheChoice};
ghost use Rattle.choice_problem.specs.declared.outcome.Counts.{Counts as TheCounts};
ghost use Rattle.plan_nodes.specs.declared.node.PlanNode.{PlanNode as Node};
ghost use Rattle.serde_json.specs.Written.{compact_text};
ghost use Rattle.plan_json.specs.Texts.{conflict_json, gave_up_json, line, not_shrunk_json, plan_json, shrunk_json};
ghost use Rattle.plan_json.specs.Values.{conflict_value, gave_up_value, not_shrunk_value, plan_value, shrunk_value};

/// Each line is the compact text of the answer's value, with a line feed. A compact text has no blanks.
pub fn compact_texts()
    ensures plan { (index : TheIndex) (names : NameTable) (trail : List TheChoice) (nodes : List Node)
        (counts : TheCounts)
        → plan_json index names trail nodes counts ≡ line (compact_text (plan_value index names trail nodes counts)) }
    ensures conflict { (index : TheIndex) (names : NameTable) (set : List TheVar) (counts : TheCounts)
        → conflict_json index names set counts ≡ line (compact_text (conflict_value index names set counts)) }
    ensures shrunk { (index : TheIndex) (names : NameTable) (set : List TheVar) (maps : List (List TheChoice))
        (counts : TheCounts)
        → shrunk_json index names set maps counts ≡ line (compact_text (shrunk_value index names set maps counts)) }
    ensures not_shrunk { (index : TheIndex) (names : NameTable) (set : List TheVar) (spent : ℕ) (counts : TheCounts)
        → not_shrunk_json index names set spent counts
        ≡ line (compact_text (not_shrunk_value index names set spent counts)) }
    ensures giving_up { (index : TheIndex) (counts : TheCounts)
        → gave_up_json index counts ≡ line (compact_text (gave_up_value index counts)) }
{}
