// All words and files have an output.
ghost use Rattle.std.specs.Prelude.{◌≡◌, List, Result};
ghost use Rattle.plan_types.specs.declared.refusal.Refusal.{Refusal};
ghost use Rattle.outside_folder.specs.Files.{Bytes, Files};
ghost use Rattle.command_line.specs.declared.reading.Options.{Options};
ghost use Rattle.plan_task.specs.Task.{IsTask};
ghost use Rattle.plan_task.specs.declared.task.Task.{Task};
ghost use Rattle.plan_command.specs.Run.{IsOutputOf};

use every_plan::{some_finding, some_plan};
use every_reading::{some_event_list, some_folder_index, some_folder_project, some_replay};
use plan_command::one_answer;

/// Options and files have a task or a first refusal.
pub fn some_task()
    ensures { (options : Options) (files : Files) → (task : Result Task Refusal) × IsTask options files task }
{
    some_folder_project();
    some_folder_index();
}

/// All words and files have exactly one output: one answer and one text.
pub fn the_answer()
    ensures { (words : List Bytes) (files : Files) → (output : _) × IsOutputOf words files output
        × ((other : _) → IsOutputOf words files other → other ≡ output) }
{
    some_task();
    some_finding();
    some_plan();
    some_event_list();
    some_replay();
    one_answer();
}
