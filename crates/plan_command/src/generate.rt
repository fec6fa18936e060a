// The command `generate`: a plan of the folder generated from a number.
ghost use Rattle.std.specs.Prelude.{◌≤◌, IfOk, Some};
ghost use Rattle.command_line.specs.declared.reading.Command.TheVariants.{Generate};
ghost use Rattle.plan_command.specs.Meaning.{MeansGenerated};
ghost use Rattle.plan_command.specs.Run.{IsOutputOfGenerate, MayPrint};

use crate::form::Form;
use crate::output::Output;
use crate::plan::output_of_plan;
use command_line::default_options;
use outside_folder::Trouble;
use plan_generate::{FaultlessFolder, generate};
use plan_types::{Limit, NoMemory};
use std::alloc::Global;

/// The output of the command `generate`.
pub(crate) fn output_of_generate(
    alloc: Global,
    number: u32,
    limit: Limit,
) -> Result<Output, NoMemory>
    requires { (1 ≤ number) × (number ≤ 2000) }
    ensures meaning { IfOk result (MeansGenerated number limit) }
    ensures output { IfOk result (IsOutputOfGenerate number limit) }
    ensures form { IfOk result (MayPrint (Some (Generate number limit))) }
{
    let options = default_options(alloc, limit)?;
    let mut folder = FaultlessFolder::new(generate(alloc, number)?);
    match output_of_plan(alloc, &Form::Summary(number), options, &mut folder) {
        Ok(output) => Ok(output),
        Err(Trouble::NoMemory) => Err(NoMemory),
        Err(Trouble::Failed) => unreachable!(),
    }
}
