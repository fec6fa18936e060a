// The line of a node, as a plan prints it.
ghost use Rattle.std.specs.Prelude.{◌≡◌, ◌++◌, [], IfOk, OnOk, flat_map, fold};
ghost use Rattle.std.specs.BTreeSet.{insert_key};
ghost use Rattle.std.specs.Cmp.Lexicographic.{slice_cmp};
ghost use Rattle.std.specs.Ordering.{nat_cmp};
ghost use Rattle.plan_nodes.specs.Line.{all_needs, behind_blank, head_text, name_and_version, needs_text, node_line, package_text, unbuildable_text};

use crate::node::PlanNode;
use plan_types::{NoMemory, Text, Version};
use std::alloc::Global;
use std::collections::BTreeSet;
use version_range::print_version;

/// The line of a node.
pub fn node_line(alloc: Global, node: &PlanNode) -> Result<Text, NoMemory>
    ensures { IfOk result (λ text. text ≡ node_line node.now) }
{
    let mut text = head_text(alloc, node)?;
    text.push_str(unbuildable_text(node.unbuildable))?;
    push_needs(alloc, &mut text, node)?;
    text.push_str("\n")?;
    Ok(text)
}

/// A package and its version.
pub fn package_text(alloc: Global, node: &PlanNode) -> Result<Text, NoMemory>
    ensures { IfOk result (λ text. text ≡ package_text node.now) }
{
    name_and_version(alloc, &node.name, &node.version)
}

/// A name, a dash and a version.
pub fn name_and_version(alloc: Global, name: &Text, version: &Version) -> Result<Text, NoMemory>
    ensures { IfOk result (λ text. text ≡ name_and_version name.now version.now) }
{
    let mut text = name.copy()?;
    let version = print_version(alloc, version)?;
    text.push_str("-")?;
    text.push_str(version.as_str())?;
    Ok(text)
}

// The kind, package, component and identifier of a node.
fn head_text(alloc: Global, node: &PlanNode) -> Result<Text, NoMemory>
    ensures { IfOk result (λ text. text ≡ head_text node.now) }
{
    let package = package_text(alloc, node)?;
    let mut text = Text::from_str(alloc, "node ")?;
    text.push_str(node.kind.word())?;
    push_word(&mut text, package.as_str())?;
    push_word(&mut text, node.component.as_str())?;
    push_word(&mut text, node.id.as_str())?;
    Ok(text)
}

fn push_word(text: &mut Text, word: &str) -> Result<(), NoMemory>
    ensures { OnOk result (text.new ≡ text.old ++ behind_blank word.now) }
{
    text.push_str(" ")?;
    text.push_str(word)
}

fn unbuildable_text(unbuildable: bool) -> &'static str
    ensures { result.now ≡ unbuildable_text unbuildable }
{
    if unbuildable { " unbuildable" } else { "" }
}

fn push_needs(alloc: Global, text: &mut Text, node: &PlanNode) -> Result<(), NoMemory>
    ensures { OnOk result (text.new ≡ text.old ++ needs_text (all_needs node.now)) }
{
    let ids = all_needs(alloc, node)?;
    push_ids(text, &ids)
}

/// The identifiers of all needs of a node, in byte order.
pub fn all_needs(alloc: Global, node: &PlanNode) -> Result<BTreeSet<Text>, NoMemory>
    ensures { IfOk result (λ ids. ids.keys ≡ all_needs node.now) }
{
    let mut ids = BTreeSet::new(alloc);
    add_ids(&mut ids, node.libs.as_slice())?;
    add_ids(&mut ids, node.tools.as_slice())?;
    add_ids(&mut ids, node.setups.as_slice())?;
    Ok(ids)
}

fn add_ids(ids: &mut BTreeSet<Text>, more: &[Text]) -> Result<(), NoMemory>
    ensures { OnOk result (ids.new.keys ≡ fold (insert_key (slice_cmp nat_cmp)) ids.old.keys more.now) }
{
    for id in more {
        ids.insert(id.copy()?)?;
    }
    Ok(())
}

fn push_ids(text: &mut Text, ids: &BTreeSet<Text>) -> Result<(), NoMemory>
    ensures { OnOk result (text.new ≡ text.old ++ needs_text ids.now.keys) }
{
    if !ids.is_empty() {
        text.push_str(" needs")?;
        push_words(text, ids)?;
    }
    Ok(())
}

fn push_words(text: &mut Text, ids: &BTreeSet<Text>) -> Result<(), NoMemory>
    ensures { OnOk result (text.new ≡ text.old ++ flat_map behind_blank ids.now.keys) }
{
    for id in ids.iter() {
        push_word(text, id.as_str())?;
    }
    Ok(())
}
