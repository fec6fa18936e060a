// The output of a run. Its whole text is made before the first write.
ghost use Rattle.std.specs.Prelude.{◌≡◌, List, IfOk, IsErrOf};
ghost use Rattle.plan_types.specs.declared.refusal.Refusal.{Refusal as TheRefusal};
ghost use Rattle.flatten.specs.Sound.{IsSound};
ghost use Rattle.choice_problem.specs.Trail.{AreNew};
ghost use Rattle.choice_problem.specs.declared.outcome.Counts.{Counts as TheCounts};
ghost use Rattle.choice_problem.specs.declared.outcome.Outcome.TheVariants.{Found};
ghost use Rattle.choice_problem.specs.declared.problem.Choice.{Choice as TheChoice};
ghost use Rattle.plan_command.specs.Output.{IsOutputOfOutcome, refused};

use crate::Answer;
use crate::form::{Form, NamedIndex, conflict_text_in, gave_up_text_in, plan_text_in};
use choice_problem::Outcome;
use outside_folder::Trouble;
use plan_print::text_of_refusal;
use plan_search::Finding;
use plan_types::{Env, Halt, Index, NoMemory, Refusal, Text};
use std::alloc::Global;

/// The answer of a run, and the text that it prints.
#[derive(Debug, Drop)]
pub(crate) struct Output {
    pub answer: Answer,
    pub text: Text,
}

// The output of a step that halted, if it was refused.
pub(crate) fn halted(alloc: Global, halt: Halt) -> Result<Output, Trouble>
    ensures refused { IfOk result (λ output. (refusal : TheRefusal) × (halt ≡ Halt.Refused refusal)
        × (output ≡ refused refusal)) }
    ensures failed { IsErrOf result Trouble.Failed → halt ≡ Halt.Failed }
    ensures failure_passed_on { halt ≡ Halt.Failed → IsErrOf result Trouble.Failed }
{
    match halt {
        Halt::Refused(refusal) => Ok(refused(alloc, &refusal)?),
        Halt::Failed => Err(Trouble::Failed),
        Halt::NoMemory => Err(Trouble::NoMemory),
    }
}

fn refused(alloc: Global, refusal: &Refusal) -> Result<Output, NoMemory>
    ensures output { IfOk result (λ output. output ≡ refused refusal.now) }
{
    Ok(Output {
        answer: Answer::Refused,
        text: text_of_refusal(alloc, refusal)?,
    })
}

pub(crate) fn output_of_finding(
    alloc: Global,
    form: &Form,
    env: &Env,
    index: &Index,
    finding: &Finding,
) -> Result<Output, NoMemory>
    requires sound { IsSound env.now index.now }
    requires new { (trail : List TheChoice) (counts : TheCounts) → finding.now.outcome ≡ Found trail counts
        → AreNew trail }
    ensures output { IfOk result (IsOutputOfOutcome form.now env.now index.now finding.now.names finding.now.blame
        finding.now.outcome) }
{
    let names = &finding.names;
    let named = NamedIndex { index, names };
    match &finding.outcome {
        Outcome::Found { trail, counts } => Ok(Output {
            answer: Answer::Planned,
            text: plan_text_in(alloc, form, env, trail, &named, *counts)?,
        }),
        Outcome::NoPlan { set, counts } => Ok(Output {
            answer: Answer::NoPlan,
            text: conflict_text_in(alloc, form, set, &finding.blame, &named, *counts)?,
        }),
        Outcome::GaveUp { counts } => Ok(Output {
            answer: Answer::GaveUp,
            text: gave_up_text_in(alloc, form, index, *counts)?,
        }),
    }
}
