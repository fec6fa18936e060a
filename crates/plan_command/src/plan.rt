// The output of a search over a folder's packages, in a given form.
ghost use Rattle.std.specs.Prelude.{◌≡◌, IfOk, IsErrOf, Some};
ghost use Rattle.outside_folder.specs.Calls.{Leaves};
ghost use Rattle.outside_folder.specs.Files.{Files};
ghost use Rattle.plan_task.specs.Task.{IsReady};
ghost use Rattle.plan_command.specs.Asked.{picking_of};
ghost use Rattle.plan_command.specs.Meaning.{Means, MeansTask};
ghost use Rattle.plan_command.specs.Run.{IsOutputOfPlan, IsPossibleOutput, IsOutputOfTask};

use crate::form::Form;
use crate::output::{Output, halted, output_of_finding};
use command_line::Options;
use outside_folder::{Folder, Trouble};
use plan_search::{Picking, find_plan};
use plan_task::{Task, read_task};
use plan_types::NoMemory;
use std::alloc::Global;

/// The output of a plan of a folder in this form.
pub(crate) fn output_of_plan<F: Folder>(
    alloc: Global,
    form: &Form,
    options: Options,
    folder: &mut F,
) -> Result<Output, Trouble>
    ensures headline { (files : Files) → F.tells folder.old ≡ Some files
        → IfOk result (Means (picking_of options) options.minimize form.now options files) }
    ensures observed { (files : Files) → F.tells folder.old ≡ Some files
        → IfOk result (IsOutputOfPlan form.now options files) }
    ensures form { IfOk result (IsPossibleOutput (picking_of options) options.minimize (λ own. own ≡ form.now)) }
    ensures folder { Leaves F.tells F.faults folder.old folder.new (IsErrOf result Trouble.Failed) }
{
    let picking = picking_of(&options);
    let minimize = options.minimize;
    match read_task(alloc, options, folder) {
        Ok(task) => Ok(planned(alloc, picking, minimize, form, &task)?),
        Err(halt) => halted(alloc, halt),
    }
}

// How the search picks its variables, by the options.
fn picking_of(options: &Options) -> Picking
    ensures { result ≡ picking_of options.now }
{
    if options.count_conflicts {
        Picking::MostMet
    } else {
        Picking::Least
    }
}

/// The output of a search over a task.
pub(crate) fn planned(
    alloc: Global,
    picking: Picking,
    minimize: bool,
    form: &Form,
    task: &Task,
) -> Result<Output, NoMemory>
    requires { IsReady task.now }
    ensures headline { IfOk result (MeansTask picking minimize form.now task.now) }
    ensures output { IfOk result (IsOutputOfTask picking minimize form.now task.now) }
{
    let finding = find_plan(alloc, picking, minimize, &task.index, &task.settings)?;
    output_of_finding(alloc, form, &task.settings.env, &task.index, &finding)
}
