// The answers as JSON.
ghost use Rattle.std.specs.Prelude.{◌≡◌, IfOk, OnOk};
ghost use Rattle.serde_json.specs.View.{members_view, view};
ghost use Rattle.plan_json.specs.Line.{ReadsAs};
ghost use Rattle.plan_json.specs.Texts.{conflict_json, gave_up_json, not_shrunk_json, plan_json, shrunk_json};
ghost use Rattle.plan_json.specs.Values.{conflict_value, gave_up_value, not_shrunk_value, plan_value, shrunk_value, with_common_members};

use crate::line::line_of;
use crate::parts::{choice_list, freed_list, node_list, skipped_list, variable_list, warning_list};
use choice_problem::{Choice, ConflictSet, Counts};
use plan_nodes::PlanNode;
use plan_types::{Index, List, NoMemory, Text};
use qualified_goals::Names;
use serde_json::{Map, Value, put};
use std::alloc::Global;

/// A plan: its choices and nodes in their order, the notes on the index, and the counts of the search.
pub fn json_of_plan(
    alloc: Global,
    trail: &List<Choice>,
    index: &Index,
    names: &Names,
    nodes: &List<PlanNode>,
    counts: Counts,
) -> Result<Text, NoMemory>
    ensures text { IfOk result (λ text. text ≡ plan_json index.now names.now trail.now nodes.now counts) }
    ensures reads { IfOk result (ReadsAs (plan_value index.now names.now trail.now nodes.now counts)) }
{
    let value = plan_value(alloc, trail, index, names, nodes, counts)?;
    line_of(alloc, &value)
}

/// No plan: the conflict set in goal order, the notes on the index, and the counts of the search.
pub fn json_of_conflict(
    alloc: Global,
    set: &ConflictSet,
    index: &Index,
    names: &Names,
    counts: Counts,
) -> Result<Text, NoMemory>
    ensures text { IfOk result (λ text. text ≡ conflict_json index.now names.now set.now counts) }
    ensures reads { IfOk result (ReadsAs (conflict_value index.now names.now set.now counts)) }
{
    let value = conflict_value(alloc, set, index, names, counts)?;
    line_of(alloc, &value)
}

/// No plan: a minimal conflict set, and for each of its variables the choices that hold within the set without it.
pub fn json_of_shrunk(
    alloc: Global,
    set: &ConflictSet,
    maps: &List<List<Choice>>,
    index: &Index,
    names: &Names,
    counts: Counts,
) -> Result<Text, NoMemory>
    ensures text { IfOk result (λ text. text ≡ shrunk_json index.now names.now set.now maps.now counts) }
    ensures reads { IfOk result (ReadsAs (shrunk_value index.now names.now set.now maps.now counts)) }
{
    let value = shrunk_value(alloc, set, maps, index, names, counts)?;
    line_of(alloc, &value)
}

/// No plan: the conflict set, and the number of exhausted points after which its shrinking stopped.
pub fn json_of_not_shrunk(
    alloc: Global,
    set: &ConflictSet,
    spent: u64,
    index: &Index,
    names: &Names,
    counts: Counts,
) -> Result<Text, NoMemory>
    ensures text { IfOk result (λ text. text ≡ not_shrunk_json index.now names.now set.now spent counts) }
    ensures reads { IfOk result (ReadsAs (not_shrunk_value index.now names.now set.now spent counts)) }
{
    let value = not_shrunk_value(alloc, set, spent, index, names, counts)?;
    line_of(alloc, &value)
}

/// The search reached its limit: the notes on the index, and the counts of the search.
pub fn json_of_giving_up(alloc: Global, index: &Index, counts: Counts) -> Result<Text, NoMemory>
    ensures text { IfOk result (λ text. text ≡ gave_up_json index.now counts) }
    ensures reads { IfOk result (ReadsAs (gave_up_value index.now counts)) }
{
    let value = gave_up_value(alloc, index, counts)?;
    line_of(alloc, &value)
}

fn plan_value(
    alloc: Global,
    trail: &List<Choice>,
    index: &Index,
    names: &Names,
    nodes: &List<PlanNode>,
    counts: Counts,
) -> Result<Value, NoMemory>
    ensures { IfOk result (λ value. view value ≡ plan_value index.now names.now trail.now nodes.now counts) }
{
    let choices = choice_list(alloc, trail.as_slice(), index, names)?;
    let nodes = node_list(alloc, nodes.as_slice())?;
    let mut members = Map::new(alloc);
    put(&mut members, alloc, "choices", choices)?;
    put(&mut members, alloc, "nodes", nodes)?;
    put_end(alloc, &mut members, "plan", index, counts)?;
    Ok(Value::from(members))
}

fn conflict_value(
    alloc: Global,
    set: &ConflictSet,
    index: &Index,
    names: &Names,
    counts: Counts,
) -> Result<Value, NoMemory>
    ensures { IfOk result (λ value. view value ≡ conflict_value index.now names.now set.now counts) }
{
    let conflict = variable_list(alloc, set.vars(), names)?;
    let mut members = Map::new(alloc);
    put(&mut members, alloc, "conflict", conflict)?;
    put_end(alloc, &mut members, "no plan", index, counts)?;
    Ok(Value::from(members))
}

fn shrunk_value(
    alloc: Global,
    set: &ConflictSet,
    maps: &List<List<Choice>>,
    index: &Index,
    names: &Names,
    counts: Counts,
) -> Result<Value, NoMemory>
    ensures { IfOk result (λ value. view value ≡ shrunk_value index.now names.now set.now maps.now counts) }
{
    let conflict = variable_list(alloc, set.vars(), names)?;
    let without = freed_list(alloc, set.vars(), maps.as_slice(), index, names)?;
    let mut members = Map::new(alloc);
    put(&mut members, alloc, "without", without)?;
    put(&mut members, alloc, "conflict", conflict)?;
    put_end(alloc, &mut members, "no plan", index, counts)?;
    Ok(Value::from(members))
}

fn not_shrunk_value(
    alloc: Global,
    set: &ConflictSet,
    spent: u64,
    index: &Index,
    names: &Names,
    counts: Counts,
) -> Result<Value, NoMemory>
    ensures { IfOk result (λ value. view value ≡ not_shrunk_value index.now names.now set.now spent counts) }
{
    let conflict = variable_list(alloc, set.vars(), names)?;
    let mut members = Map::new(alloc);
    put(&mut members, alloc, "not_minimised", Value::from(spent))?;
    put(&mut members, alloc, "conflict", conflict)?;
    put_end(alloc, &mut members, "no plan", index, counts)?;
    Ok(Value::from(members))
}

fn gave_up_value(alloc: Global, index: &Index, counts: Counts) -> Result<Value, NoMemory>
    ensures { IfOk result (λ value. view value ≡ gave_up_value index.now counts) }
{
    let mut members = Map::new(alloc);
    put_end(alloc, &mut members, "gave up", index, counts)?;
    Ok(Value::from(members))
}

// Adds the members that each answer has: its status, the notes on the index, and the counts of the search.
fn put_end(
    alloc: Global,
    members: &mut Map<String, Value>,
    head: &str,
    index: &Index,
    counts: Counts,
) -> Result<(), NoMemory>
    ensures { OnOk result (members_view members.new.entries
        ≡ with_common_members head.now index.now counts (members_view members.old.entries)) }
{
    let skipped = skipped_list(alloc, index.skipped.as_slice())?;
    let warnings = warning_list(alloc, index.warnings.as_slice())?;
    let head = Value::try_from_str(alloc, head)?;
    put(members, alloc, "warnings", warnings)?;
    put(members, alloc, "visited", Value::from(counts.visited))?;
    put(members, alloc, "status", head)?;
    put(members, alloc, "skipped", skipped)?;
    put(members, alloc, "exhausted", Value::from(counts.exhausted))?;
    Ok(())
}
