// The command `replay`: a build of the plan at the events of a file.
ghost use Rattle.std.specs.Prelude.{◌≡◌, IfOk, IsErrOf, Some};
ghost use Rattle.outside_folder.specs.Calls.{Leaves};
ghost use Rattle.outside_folder.specs.Files.{Files};
ghost use Rattle.command_line.specs.declared.reading.Command.TheVariants.{Replay};
ghost use Rattle.plan_command.specs.Meaning.{MeansReplay};
ghost use Rattle.plan_command.specs.Run.{IsOutputOfReplay, MayPrint};

use crate::form::Form;
use crate::output::{Output, halted};
use crate::plan::planned;
use command_line::Options;
use event_file::read_event_file;
use outside_folder::{Folder, Trouble};
use plan_search::Picking;
use plan_task::read_task;
use plan_types::Text;
use std::alloc::Global;

/// The output of the command `replay`.
pub(crate) fn output_of_replay<F: Folder>(
    alloc: Global,
    options: Options,
    events: &Text,
    slots: u32,
    folder: &mut F,
) -> Result<Output, Trouble>
    ensures meaning { (files : Files) → F.tells folder.old ≡ Some files
        → IfOk result (MeansReplay options events.now slots files) }
    ensures observed { (files : Files) → F.tells folder.old ≡ Some files
        → IfOk result (IsOutputOfReplay options events.now slots files) }
    ensures form { IfOk result (MayPrint (Some (Replay options events.now slots))) }
    ensures folder { Leaves F.tells F.faults folder.old folder.new (IsErrOf result Trouble.Failed) }
{
    let task = match read_task(alloc, options, folder) {
        Ok(task) => task,
        Err(halt) => return halted(alloc, halt),
    };
    match read_event_file(alloc, events, folder) {
        Ok(events) => {
            let form = Form::Replay { slots, events };
            Ok(planned(alloc, Picking::Least, false, &form, &task)?)
        }
        Err(halt) => halted(alloc, halt),
    }
}
