// The texts of answers.
ghost use Rattle.std.specs.Prelude.{◌≡◌, ◌++◌, IfOk, OnOk, flat_map, zip};
ghost use Rattle.plan_nodes.specs.Line.{node_line};
ghost use Rattle.plan_print.specs.Choice.{line_of};
ghost use Rattle.plan_print.specs.Texts.{named_var, conflict_line, counts_line, plan_text, conflict_text, without_lines, gave_up_text, detail_text, not_shrunk_text, refusal_text, shrunk_text, spent_line};

use crate::cause::cause_name;
use crate::choice::push_choice;
use crate::note::push_notes;
use crate::place::push_where;
use choice_problem::{Choice, ConflictSet, Counts, Var};
use plan_nodes::{PlanNode, node_line};
use plan_types::{Index, List, NoMemory, Refusal, Text};
use qualified_goals::Names;
use std::alloc::Global;

/// A plan: the notes on the index, the choices and nodes in their order, and the counts of the search.
pub fn text_of_plan(
    alloc: Global,
    trail: &List<Choice>,
    index: &Index,
    names: &Names,
    nodes: &List<PlanNode>,
    counts: Counts,
) -> Result<Text, NoMemory>
    ensures { IfOk result (λ text. text ≡ plan_text index.now names.now trail.now nodes.now counts) }
{
    let mut text = Text::from_str(alloc, "plan\n")?;
    push_notes(alloc, &mut text, index)?;
    push_choices(alloc, &mut text, "choose", trail.as_slice(), index, names)?;
    push_nodes(alloc, &mut text, nodes.as_slice())?;
    push_counts(alloc, &mut text, counts)?;
    Ok(text)
}

/// No plan: the notes on the index, the conflict set in goal order, and the counts of the search.
pub fn text_of_conflict(
    alloc: Global,
    set: &ConflictSet,
    index: &Index,
    names: &Names,
    counts: Counts,
) -> Result<Text, NoMemory>
    ensures { IfOk result (λ text. text ≡ conflict_text index.now names.now set.now counts) }
{
    let mut text = Text::from_str(alloc, "no plan\n")?;
    push_notes(alloc, &mut text, index)?;
    push_conflict(alloc, &mut text, set.vars(), names)?;
    push_counts(alloc, &mut text, counts)?;
    Ok(text)
}

/// No plan: a minimal conflict set, and for each of its variables the choices that hold within the set without it.
pub fn text_of_shrunk(
    alloc: Global,
    set: &ConflictSet,
    maps: &List<List<Choice>>,
    index: &Index,
    names: &Names,
    counts: Counts,
) -> Result<Text, NoMemory>
    ensures { IfOk result (λ text. text ≡ shrunk_text index.now names.now set.now maps.now counts) }
{
    let mut text = Text::from_str(alloc, "no plan\n")?;
    push_notes(alloc, &mut text, index)?;
    push_conflict(alloc, &mut text, set.vars(), names)?;
    push_without(alloc, &mut text, set.vars(), maps.as_slice(), index, names)?;
    push_counts(alloc, &mut text, counts)?;
    Ok(text)
}

/// No plan: the conflict set, and the number of exhausted points after which its shrinking stopped.
pub fn text_of_not_shrunk(
    alloc: Global,
    set: &ConflictSet,
    spent: u64,
    index: &Index,
    names: &Names,
    counts: Counts,
) -> Result<Text, NoMemory>
    ensures { IfOk result (λ text. text ≡ not_shrunk_text index.now names.now set.now spent counts) }
{
    let mut text = Text::from_str(alloc, "no plan\n")?;
    push_notes(alloc, &mut text, index)?;
    push_conflict(alloc, &mut text, set.vars(), names)?;
    push_spent(alloc, &mut text, spent)?;
    push_counts(alloc, &mut text, counts)?;
    Ok(text)
}

/// The search reached its limit: the notes on the index, and the counts of the search.
pub fn text_of_giving_up(alloc: Global, index: &Index, counts: Counts) -> Result<Text, NoMemory>
    ensures { IfOk result (λ text. text ≡ gave_up_text index.now counts) }
{
    let mut text = Text::from_str(alloc, "gave up\n")?;
    push_notes(alloc, &mut text, index)?;
    push_counts(alloc, &mut text, counts)?;
    Ok(text)
}

/// The line of a refusal.
pub fn text_of_refusal(alloc: Global, refusal: &Refusal) -> Result<Text, NoMemory>
    ensures { IfOk result (λ text. text ≡ refusal_text refusal.now) }
{
    let mut text = Text::from_str(alloc, "refused ")?;
    push_where(alloc, &mut text, refusal.path.as_str(), refusal.line)?;
    text.push_str(" ")?;
    text.push_str(cause_name(refusal.cause))?;
    push_detail(&mut text, refusal.detail.as_str())?;
    text.push_str("\n")?;
    Ok(text)
}

// Appends the line of each choice, which begins with this word.
fn push_choices(
    alloc: Global,
    text: &mut Text,
    word: &str,
    choices: &[Choice],
    index: &Index,
    names: &Names,
) -> Result<(), NoMemory>
    ensures { OnOk result (text.new ≡ text.old ++ flat_map (line_of word.now index.now names.now) choices.now) }
{
    for choice in choices {
        push_choice(alloc, text, word, *choice, index, names)?;
    }
    Ok(())
}

// Appends the choices that hold without each variable of the set.
fn push_without(
    alloc: Global,
    text: &mut Text,
    set: &[Var],
    maps: &[List<Choice>],
    index: &Index,
    names: &Names,
) -> Result<(), NoMemory>
    ensures { OnOk result (text.new ≡ text.old ++ flat_map (without_lines index.now names.now) (zip set.now maps.now)) }
{
    let mut rest = set;
    for kept in maps {
        let [var, others @ ..] = rest else {
            return Ok(());
        };
        push_freed_var(alloc, text, *var, kept.as_slice(), index, names)?;
        rest = others;
    }
    Ok(())
}

fn push_freed_var(
    alloc: Global,
    text: &mut Text,
    var: Var,
    kept: &[Choice],
    index: &Index,
    names: &Names,
) -> Result<(), NoMemory>
    ensures { OnOk result (text.new ≡ text.old ++ without_lines index.now names.now (var, kept.now)) }
{
    text.push_str("without")?;
    push_var(alloc, text, var, names)?;
    text.push_str("\n")?;
    push_choices(alloc, text, "keep", kept, index, names)
}

fn push_nodes(alloc: Global, text: &mut Text, nodes: &[PlanNode]) -> Result<(), NoMemory>
    ensures { OnOk result (text.new ≡ text.old ++ flat_map node_line nodes.now) }
{
    for node in nodes {
        let line = node_line(alloc, node)?;
        text.push_str(line.as_str())?;
    }
    Ok(())
}

fn push_conflict(
    alloc: Global,
    text: &mut Text,
    vars: &[Var],
    names: &Names,
) -> Result<(), NoMemory>
    ensures { OnOk result (text.new ≡ text.old ++ conflict_line names.now vars.now) }
{
    text.push_str("conflict")?;
    push_vars(alloc, text, vars, names)?;
    text.push_str("\n")
}

fn push_vars(alloc: Global, text: &mut Text, vars: &[Var], names: &Names) -> Result<(), NoMemory>
    ensures { OnOk result (text.new ≡ text.old ++ flat_map (named_var names.now) vars.now) }
{
    for var in vars {
        push_var(alloc, text, *var, names)?;
    }
    Ok(())
}

fn push_var(alloc: Global, text: &mut Text, var: Var, names: &Names) -> Result<(), NoMemory>
    ensures { OnOk result (text.new ≡ text.old ++ named_var names.now var) }
{
    text.push_str(" ")?;
    let shown = names.print_var(alloc, var)?;
    text.push_str(shown.as_str())
}

fn push_spent(alloc: Global, text: &mut Text, spent: u64) -> Result<(), NoMemory>
    ensures { OnOk result (text.new ≡ text.old ++ spent_line spent) }
{
    let line = format!(in alloc; "not minimised {spent}\n")?;
    text.push_str(line.as_str())
}

// Appends the line of the counts of a search.
pub fn push_counts(alloc: Global, text: &mut Text, counts: Counts) -> Result<(), NoMemory>
    ensures { OnOk result (text.new ≡ text.old ++ counts_line counts) }
{
    let visited = counts.visited;
    let exhausted = counts.exhausted;
    let line = format!(in alloc; "visited {visited} exhausted {exhausted}\n")?;
    text.push_str(line.as_str())
}

fn push_detail(text: &mut Text, detail: &str) -> Result<(), NoMemory>
    ensures { OnOk result (text.new ≡ text.old ++ detail_text detail.now) }
{
    if detail.is_empty() {
        return Ok(());
    }
    text.push_str(" ")?;
    text.push_str(detail)
}
