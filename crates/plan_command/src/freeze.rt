// The command `freeze`: a plan as the constraints of its choices, after the old freeze file.
ghost use Rattle.std.specs.Prelude.{◌≡◌, false, IfOk, IsErrOf, Some};
ghost use Rattle.choice_problem.specs.Trail.{AreNew};
ghost use Rattle.outside_folder.specs.Calls.{Leaves};
ghost use Rattle.outside_folder.specs.Files.{Files};
ghost use Rattle.freeze_text.specs.Text.{ends_with_newline, with_newline};
ghost use Rattle.plan_command.specs.Form.{frozen_text, old_freeze_text};
ghost use Rattle.command_line.specs.declared.reading.Command.TheVariants.{Freeze};
ghost use Rattle.plan_command.specs.Meaning.{MeansFreeze, MeansTask};
ghost use Rattle.plan_command.specs.Run.{IsOutputOfFreeze, IsOutputOfTask, MayPrint};
ghost use Rattle.plan_task.specs.Task.{IsReady};

use crate::form::Form;
use crate::output::{Output, halted};
use crate::plan::planned;
use choice_problem::Choice;
use command_line::Options;
use freeze_file::freeze;
use freeze_text::text_of_freeze;
use outside_folder::{Folder, Trouble};
use plan_search::Picking;
use plan_task::{Task, read_task};
use plan_types::{Index, List, NoMemory, Text};
use qualified_goals::Names;
use std::alloc::Global;

/// The output of the command `freeze`.
pub(crate) fn output_of_freeze<F: Folder>(
    alloc: Global,
    options: Options,
    folder: &mut F,
) -> Result<Output, Trouble>
    ensures meaning { (files : Files) → F.tells folder.old ≡ Some files → IfOk result (MeansFreeze options files) }
    ensures observed { (files : Files) → F.tells folder.old ≡ Some files
        → IfOk result (IsOutputOfFreeze options files) }
    ensures form { IfOk result (MayPrint (Some (Freeze options))) }
    ensures folder { Leaves F.tells F.faults folder.old folder.new (IsErrOf result Trouble.Failed) }
{
    match read_task(alloc, options, folder) {
        Ok(task) => Ok(frozen(alloc, task)?),
        Err(halt) => halted(alloc, halt),
    }
}

// The output of a search over a task, in the form of constraints. The old freeze file moves into the form.
fn frozen(alloc: Global, mut task: Task) -> Result<Output, NoMemory>
    requires { IsReady task }
    ensures headline { IfOk result (MeansTask Picking.Least false (Form.Freeze (old_freeze_text task.freeze)) task) }
    ensures output { IfOk result (IsOutputOfTask Picking.Least false (Form.Freeze (old_freeze_text task.freeze)) task) }
{
    let before = task.freeze.take().unwrap_or(Text::new(alloc));
    planned(alloc, Picking::Least, false, &Form::Freeze(before), &task)
}

/// The old freeze file, and then the constraints of a trail.
pub(crate) fn frozen_text(
    alloc: Global,
    before: &Text,
    trail: &List<Choice>,
    index: &Index,
    names: &Names,
) -> Result<Text, NoMemory>
    requires { AreNew trail.now }
    ensures { IfOk result (λ text. text ≡ frozen_text before.now index.now names.now trail.now) }
{
    let project = freeze(alloc, trail, index, names)?;
    let constraints = text_of_freeze(alloc, &project)?;
    let mut text = with_newline(alloc, before, constraints.as_bytes().len())?;
    text.push_str(constraints.as_str())?;
    Ok(text)
}

// A copy of a text, with a line feed after its last line and with capacity for so many more bytes.
fn with_newline(alloc: Global, text: &Text, more: usize) -> Result<Text, NoMemory>
    ensures { IfOk result (λ copied. copied ≡ with_newline text.now) }
{
    let room = text.as_bytes().len().saturating_add(1).saturating_add(more);
    let mut copied = Text::from_string(String::with_capacity(alloc, room)?);
    copied.push_str(text.as_str())?;
    if !ends_with_newline(text.as_bytes()) {
        copied.push_str("\n")?;
    }
    Ok(copied)
}

fn ends_with_newline(text: &[u8]) -> bool
    ensures { result ≡ ends_with_newline text.now }
{
    text.is_empty() || text.ends_with(b"\n")
}
