// The lists of an answer: choices, nodes, variables and notes.
ghost use Rattle.std.specs.Prelude.{◌≡◌, ◌∷◌, ◌++◌, [], IfOk, OnOk, map, zip};
ghost use Rattle.serde_json.specs.Data.{put as with_member, string};
ghost use Rattle.serde_json.specs.View.{members_view, view};
ghost use Rattle.plan_json.specs.Values.{choice_value, without_value, ids_value, list_of, node_value, skipped_value, variable_value, warning_value};

use choice_problem::{Choice, Var};
use plan_nodes::{PlanNode, all_needs, package_text};
use plan_print::{skipped_note, value_text, warning_note};
use plan_types::{Index, List, NoMemory, Skipped, Text, Warning};
use qualified_goals::Names;
use serde_json::{Map, Value, json, put};
use std::alloc::Global;
use std::collections::BTreeSet;

/// The choices of a trail in their order.
pub fn choice_list(
    alloc: Global,
    trail: &[Choice],
    index: &Index,
    names: &Names,
) -> Result<Value, NoMemory>
    ensures { IfOk result (λ value. view value ≡ list_of (choice_value index.now names.now) trail.now) }
{
    let mut items = Vec::new(alloc);
    for choice in trail {
        let item = choice_value(alloc, *choice, index, names)?;
        push(&mut items, item)?;
    }
    Ok(Value::from(items))
}

/// The nodes in their order.
pub fn node_list(alloc: Global, nodes: &[PlanNode]) -> Result<Value, NoMemory>
    ensures { IfOk result (λ value. view value ≡ list_of node_value nodes.now) }
{
    let mut items = Vec::new(alloc);
    for node in nodes {
        let item = node_value(alloc, node)?;
        push(&mut items, item)?;
    }
    Ok(Value::from(items))
}

/// The variables of a conflict set in their order.
pub fn variable_list(alloc: Global, vars: &[Var], names: &Names) -> Result<Value, NoMemory>
    ensures { IfOk result (λ value. view value ≡ list_of (variable_value names.now) vars.now) }
{
    let mut items = Vec::new(alloc);
    for var in vars {
        let shown = names.print_var(alloc, *var)?;
        push_text(alloc, &mut items, shown.as_str())?;
    }
    Ok(Value::from(items))
}

/// The choices that hold without each variable of a set.
pub fn freed_list(
    alloc: Global,
    set: &[Var],
    maps: &[List<Choice>],
    index: &Index,
    names: &Names,
) -> Result<Value, NoMemory>
    ensures { IfOk result (λ value. view value ≡ list_of (without_value index.now names.now) (zip set.now maps.now)) }
{
    let mut items = Vec::new(alloc);
    let mut rest = set;
    for kept in maps {
        let [var, others @ ..] = rest else {
            return Ok(Value::from(items));
        };
        let item = without_value(alloc, *var, kept.as_slice(), index, names)?;
        push(&mut items, item)?;
        rest = others;
    }
    Ok(Value::from(items))
}

/// The notes on skipped files.
pub fn skipped_list(alloc: Global, skipped: &[Skipped]) -> Result<Value, NoMemory>
    ensures { IfOk result (λ value. view value ≡ list_of skipped_value skipped.now) }
{
    let mut items = Vec::new(alloc);
    for file in skipped {
        let note = skipped_note(alloc, file)?;
        push_text(alloc, &mut items, note.as_str())?;
    }
    Ok(Value::from(items))
}

/// The notes on what was accepted unread.
pub fn warning_list(alloc: Global, warnings: &[Warning]) -> Result<Value, NoMemory>
    ensures { IfOk result (λ value. view value ≡ list_of warning_value warnings.now) }
{
    let mut items = Vec::new(alloc);
    for warning in warnings {
        let note = warning_note(alloc, warning)?;
        push_text(alloc, &mut items, note.as_str())?;
    }
    Ok(Value::from(items))
}

fn choice_value(
    alloc: Global,
    choice: Choice,
    index: &Index,
    names: &Names,
) -> Result<Value, NoMemory>
    ensures { IfOk result (λ value. view value ≡ choice_value index.now names.now choice) }
{
    let chosen = value_text(alloc, choice, index)?;
    let var = names.print_var(alloc, choice.var)?;
    let value = json!(in alloc; {"value": chosen.as_str(), "var": var.as_str()})?;
    Ok(value)
}

fn without_value(
    alloc: Global,
    var: Var,
    kept: &[Choice],
    index: &Index,
    names: &Names,
) -> Result<Value, NoMemory>
    ensures { IfOk result (λ value. view value ≡ without_value index.now names.now (var, kept.now)) }
{
    let keep = choice_list(alloc, kept, index, names)?;
    let shown = names.print_var(alloc, var)?;
    let mut members = Map::new(alloc);
    put(&mut members, alloc, "keep", keep)?;
    put_text(&mut members, alloc, "var", shown.as_str())?;
    Ok(Value::from(members))
}

fn node_value(alloc: Global, node: &PlanNode) -> Result<Value, NoMemory>
    ensures { IfOk result (λ value. view value ≡ node_value node.now) }
{
    let needs = need_list(alloc, node)?;
    let package = package_text(alloc, node)?;
    let mut members = Map::new(alloc);
    put_text(&mut members, alloc, "component", node.component.as_str())?;
    put_text(&mut members, alloc, "id", node.id.as_str())?;
    put_text(&mut members, alloc, "kind", node.kind.word())?;
    put(&mut members, alloc, "needs", needs)?;
    put_text(&mut members, alloc, "package", package.as_str())?;
    put(
        &mut members,
        alloc,
        "unbuildable",
        Value::from(node.unbuildable),
    )?;
    Ok(Value::from(members))
}

fn put_text(
    members: &mut Map<String, Value>,
    alloc: Global,
    key: &str,
    text: &str,
) -> Result<(), NoMemory>
    ensures { OnOk result (members_view members.new.entries
        ≡ with_member key.now (string text.now) (members_view members.old.entries)) }
{
    let value = Value::try_from_str(alloc, text)?;
    put(members, alloc, key, value)?;
    Ok(())
}

// The identifiers of all that a node needs.
fn need_list(alloc: Global, node: &PlanNode) -> Result<Value, NoMemory>
    ensures { IfOk result (λ value. view value ≡ ids_value node.now) }
{
    let ids = all_needs(alloc, node)?;
    id_values(alloc, &ids)
}

fn id_values(alloc: Global, ids: &BTreeSet<Text>) -> Result<Value, NoMemory>
    ensures { IfOk result (λ value. view value ≡ list_of (λ id. string id) ids.now.keys) }
{
    let mut items = Vec::new(alloc);
    for id in ids.iter() {
        push_text(alloc, &mut items, id.as_str())?;
    }
    Ok(Value::from(items))
}

fn push_text(alloc: Global, items: &mut Vec<Value>, text: &str) -> Result<(), NoMemory>
    ensures { OnOk result (map view items.new.items ≡ map view items.old.items ++ string text.now ∷ []) }
{
    let item = Value::try_from_str(alloc, text)?;
    push(items, item)
}

fn push(items: &mut Vec<Value>, item: Value) -> Result<(), NoMemory>
    ensures { OnOk result (map view items.new.items ≡ map view items.old.items ++ view item ∷ []) }
{
    items.push(item)?;
    Ok(())
}
