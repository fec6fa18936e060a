// The form in which an answer is printed.
ghost use Rattle.std.specs.Prelude.{◌≡◌, IfOk};
ghost use Rattle.choice_problem.specs.Trail.{AreNew};
ghost use Rattle.flatten.specs.Sound.{IsSound};
ghost use Rattle.plan_command.specs.Form.{conflict_text_in, form_of, gave_up_text_in, is_json, not_shrunk_text_in, shrunk_text_in, summary_of, unshrunk_text_in};
ghost use Rattle.plan_command.specs.Output.{IsTextOfPlan};
ghost use Rattle.plan_print.specs.Texts.{plan_text};

use crate::freeze::frozen_text;
use choice_problem::{Choice, ConflictSet, Counts};
use command_line::Options;
use conflict_shrink::Shrunk;
use elaborate::elaborate;
use every_plan::some_plan;
use plan_json::{
    json_of_conflict, json_of_giving_up, json_of_not_shrunk, json_of_plan, json_of_shrunk,
};
use plan_nodes::PlanNode;
use plan_print::{
    text_of_conflict, text_of_giving_up, text_of_not_shrunk, text_of_plan, text_of_shrunk,
    text_of_summary,
};
use plan_search::Blame;
use plan_types::{Env, Index, List, NoMemory, Text};
use qualified_goals::Names;
use replay_text::{JobEvent, replay_text};
use sha2::{Digest, Sha256};
use std::alloc::Global;

/// The form in which an answer is printed.
#[derive(Debug, Drop)]
pub(crate) enum Form {
    /// One line for each part.
    Lines,
    /// One object of JSON.
    Json,
    /// A plan by its counts and digest, for the folder generated from this number; other outcomes in lines.
    Summary(u32),
    /// A plan by the constraints of its choices, after the old freeze file; other outcomes in lines.
    Freeze(Text),
    /// A plan by the replay of its build at these events; other outcomes in lines.
    Replay { slots: u32, events: List<JobEvent> },
}

/// An index, and the names behind its numbers.
#[derive(Drop)]
pub(crate) struct NamedIndex<'a> {
    pub index: &'a Index,
    pub names: &'a Names,
}

/// The form that the options choose.
pub(crate) fn form_of(options: &Options) -> Form
    ensures { result ≡ form_of options.now }
{
    if options.json {
        Form::Json
    } else {
        Form::Lines
    }
}

/// The text of the plan that a trail makes. Its nodes are made only where the form prints them.
pub(crate) fn plan_text_in(
    alloc: Global,
    form: &Form,
    env: &Env,
    trail: &List<Choice>,
    named: &NamedIndex<'_>,
    counts: Counts,
) -> Result<Text, NoMemory>
    requires sound { IsSound env.now named.now.index.now }
    requires new { AreNew trail.now }
    ensures { IfOk result (IsTextOfPlan form.now env.now named.now.index.now named.now.names.now trail.now
        counts) }
{
    some_plan();
    let index = named.index;
    let names = named.names;
    match form {
        Form::Lines => {
            let nodes = elaborate(alloc, trail.as_slice(), index, names, env)?;
            text_of_plan(alloc, trail, index, names, &nodes, counts)
        }
        Form::Json => {
            let nodes = elaborate(alloc, trail.as_slice(), index, names, env)?;
            json_of_plan(alloc, trail, index, names, &nodes, counts)
        }
        Form::Summary(number) => {
            let nodes = elaborate(alloc, trail.as_slice(), index, names, env)?;
            summary_of(alloc, *number, trail, &nodes, named, counts)
        }
        Form::Freeze(before) => frozen_text(alloc, before, trail, index, names),
        Form::Replay { slots, events } => {
            let nodes = elaborate(alloc, trail.as_slice(), index, names, env)?;
            replay_text(alloc, nodes.as_slice(), *slots, events.as_slice())
        }
    }
}

// The summary of a plan with these nodes.
fn summary_of(
    alloc: Global,
    number: u32,
    trail: &List<Choice>,
    nodes: &List<PlanNode>,
    named: &NamedIndex<'_>,
    counts: Counts,
) -> Result<Text, NoMemory>
    ensures { IfOk result (λ summary. summary ≡ summary_of number trail.now nodes.now counts
        (plan_text named.now.index.now named.now.names.now trail.now nodes.now counts)) }
{
    let text = text_of_plan(alloc, trail, named.index, named.names, nodes, counts)?;
    let digest = hex::encode(alloc, Sha256::digest(text.as_bytes()))?;
    let choices = trail.len();
    let nodes = nodes.len();
    text_of_summary(alloc, number, choices, nodes, counts, digest.as_str())
}

// Outcomes without a plan are printed in lines in every form but JSON.
fn is_json(form: &Form) -> bool
    ensures { result ≡ is_json form.now }
{
    match form {
        Form::Json => true,
        Form::Lines | Form::Summary(_) | Form::Freeze(_) | Form::Replay { .. } => false,
    }
}

/// The text of a conflict with its blame.
pub(crate) fn conflict_text_in(
    alloc: Global,
    form: &Form,
    set: &ConflictSet,
    blame: &Blame,
    named: &NamedIndex<'_>,
    counts: Counts,
) -> Result<Text, NoMemory>
    ensures { IfOk result (λ text. text ≡ conflict_text_in form.now named.now.index.now named.now.names.now
        set.now blame.now counts) }
{
    let json = is_json(form);
    match blame {
        Blame::Unasked => whole_text(alloc, json, set, named, counts),
        Blame::Shrunk(shrunk) => shrunk_text(alloc, json, shrunk, named, counts),
        Blame::TooLong(spent) => not_shrunk_text(alloc, json, set, *spent, named, counts),
    }
}

fn whole_text(
    alloc: Global,
    json: bool,
    set: &ConflictSet,
    named: &NamedIndex<'_>,
    counts: Counts,
) -> Result<Text, NoMemory>
    ensures { IfOk result (λ text. text ≡ unshrunk_text_in json named.now.index.now named.now.names.now set.now
        counts) }
{
    if json {
        json_of_conflict(alloc, set, named.index, named.names, counts)
    } else {
        text_of_conflict(alloc, set, named.index, named.names, counts)
    }
}

fn shrunk_text(
    alloc: Global,
    json: bool,
    shrunk: &Shrunk,
    named: &NamedIndex<'_>,
    counts: Counts,
) -> Result<Text, NoMemory>
    ensures { IfOk result (λ text. text ≡ shrunk_text_in json named.now.index.now named.now.names.now
        shrunk.now.set shrunk.now.maps counts) }
{
    let index = named.index;
    let names = named.names;
    if json {
        json_of_shrunk(alloc, &shrunk.set, &shrunk.maps, index, names, counts)
    } else {
        text_of_shrunk(alloc, &shrunk.set, &shrunk.maps, index, names, counts)
    }
}

fn not_shrunk_text(
    alloc: Global,
    json: bool,
    set: &ConflictSet,
    spent: u64,
    named: &NamedIndex<'_>,
    counts: Counts,
) -> Result<Text, NoMemory>
    ensures { IfOk result (λ text. text ≡ not_shrunk_text_in json named.now.index.now named.now.names.now set.now
        spent counts) }
{
    if json {
        json_of_not_shrunk(alloc, set, spent, named.index, named.names, counts)
    } else {
        text_of_not_shrunk(alloc, set, spent, named.index, named.names, counts)
    }
}

/// The text of a search that gave up.
pub(crate) fn gave_up_text_in(
    alloc: Global,
    form: &Form,
    index: &Index,
    counts: Counts,
) -> Result<Text, NoMemory>
    ensures { IfOk result (λ text. text ≡ gave_up_text_in form.now index.now counts) }
{
    if is_json(form) {
        json_of_giving_up(alloc, index, counts)
    } else {
        text_of_giving_up(alloc, index, counts)
    }
}
