// What holds of a plan that was printed as constraints.
ghost use Rattle.std.specs.Prelude.{◌≡◌, Bool, List, true, Ok};
ghost use Rattle.std.specs.List.{list_all};
ghost use Rattle.plan_types.specs.declared.constraint.Constraint.{Constraint};
ghost use Rattle.plan_types.specs.declared.index.Index.{Index};
ghost use Rattle.plan_types.specs.declared.project.Settings.{Settings};
ghost use Rattle.flatten.specs.Sound.{IsSound, has_package};
ghost use Rattle.outside_folder.specs.Files.{Bytes, Files};
ghost use Rattle.choice_problem.specs.declared.outcome.Counts.{Counts};
ghost use Rattle.choice_problem.specs.declared.outcome.Outcome.TheVariants.{Found};
ghost use Rattle.choice_problem.specs.declared.problem.Choice.{Choice};
ghost use Rattle.freeze_text.specs.Reads.{IsUnion};
ghost use Rattle.frozen_choices.specs.Frozen.{frozen};
ghost use Rattle.command_line.specs.declared.reading.Options.{Options};
ghost use Rattle.plan_task.specs.Task.{IsTask};
ghost use Rattle.plan_task.specs.declared.task.Task.{Task};
ghost use Rattle.plan_search.specs.Finding.{IsFindingOf};
ghost use Rattle.plan_search.specs.declared.search.Finding.{Finding};
ghost use Rattle.plan_search.specs.declared.search.Picking.TheVariants.{Least};
ghost use Rattle.plan_command.specs.Form.{frozen_form};
ghost use Rattle.plan_command.specs.Meaning.{PlansFirst};
ghost use Rattle.frozen_run.specs.Again.{IsFoundAgain, IsFrozenFolder, IsFrozenTask, PlansAgain, settings_with, unlimited};

use elaborate::one_plan;
use freeze_text::text_adds_constraints;
use frozen_choices::frozen_is_plain;
use frozen_plan::found_again;
use package_index::one_folder_index;
use plan_search::{one_finding, what_is_found_is_right};
use project_config::one_folder_project;
use refrozen_folder::packages_stay;

/// A search without a limit finds the trail of a plan again with the constraints of that trail, in any order with those
/// of the project.
pub fn frozen_trail_is_found_again()
    ensures { (minimize again : Bool) (index : Index) (settings : Settings) (found finding : Finding)
        (trail : List Choice) (counts : Counts) (constraints : List Constraint) → IsSound settings.env index
        → list_all (λ named. has_package index named.name) settings.project.extra ≡ true
        → IsFindingOf Least minimize index settings found → found.outcome ≡ Found trail counts
        → IsUnion constraints settings.project.constraints (frozen index.packages found.names trail)
        → IsFindingOf Least again index (settings_with constraints settings) finding
        → IsFoundAgain found.names trail finding }
{
    found_again();
    one_finding();
    what_is_found_is_right();
}

/// With the printed text as its freeze file, a folder has the same task but for the constraints of the plan.
pub fn frozen_task_is_same()
    ensures { (options : Options) (files now : Files) (text : Bytes)
        (plan : PlansFirst (frozen_form files) options files text) (task : Task)
        → IsFrozenFolder files text now → IsTask (unlimited options) now (Ok task)
        → IsFrozenTask plan.names plan.trail plan.task task }
{
    frozen_is_plain();
    one_folder_index();
    one_folder_project();
    packages_stay();
    text_adds_constraints();
}

/// So a run without a limit over that folder prints a plan of the same choices and nodes. Only its counts may differ.
pub fn frozen_plan_is_found_again()
    ensures { (options : Options) (files now : Files) (text : Bytes)
        (plan : PlansFirst (frozen_form files) options files text) → IsFrozenFolder files text now
        → PlansAgain options now plan.task.index plan.names plan.trail plan.nodes }
{
    found_again();
    frozen_is_plain();
    one_finding();
    one_folder_index();
    one_folder_project();
    one_plan();
    packages_stay();
    text_adds_constraints();
}
