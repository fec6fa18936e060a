// Words and files determine the output.
ghost use Rattle.std.specs.Prelude.{◌≡◌, List};
ghost use Rattle.outside_folder.specs.Files.{Bytes, Files};
ghost use Rattle.plan_command.specs.declared.output.Output.{Output};
ghost use Rattle.plan_command.specs.Run.{IsOutputOf};

use elaborate::one_plan;
use event_file::one_event_list;
use package_index::one_folder_index;
use plan_search::one_finding;
use project_config::one_folder_project;
use replay_text::one_replay;

/// Words and files determine the output: its answer and its text.
pub fn one_answer()
    ensures { (words : List Bytes) (files : Files) (a b : Output) → IsOutputOf words files a → IsOutputOf words files b
        → a ≡ b }
{
    one_folder_project();
    one_folder_index();
    one_finding();
    one_plan();
    one_event_list();
    one_replay();
}
