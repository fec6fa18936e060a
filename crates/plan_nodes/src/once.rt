// Of nodes with equal lines, only the first is kept. Plain nodes are told apart by their identifiers, so that their
// lines aren't rendered. Where the identifiers don't tell, the lines do, from then on.
ghost use Rattle.std.specs.Prelude.{◌≡◌, true, IsTrue, IfOk, OnOk, IfSome};
ghost use Rattle.std.specs.List.{list_any};
ghost use Rattle.indexmap.specs.IndexSet.{insert_key};
ghost use Rattle.plan_types.specs.Bytes.{same_text};
ghost use Rattle.plan_nodes.specs.Once.{each_line_once, same_line};
ghost use Rattle.plan_nodes.specs.Seen.{is_plain, is_word, AreIds, AreLines, Knows};

use crate::line::node_line;
use crate::node::PlanNode;
use indexmap::IndexSet;
use plan_types::{List, NoMemory, Text};
use std::alloc::Global;

/// The nodes in their order, each line once.
pub fn each_line_once(alloc: Global, nodes: List<PlanNode>) -> Result<List<PlanNode>, NoMemory>
    ensures { IfOk result (λ kept. kept ≡ each_line_once nodes) }
{
    let mut seen = Seen::Ids(IndexSet::new(alloc));
    let mut kept = List::new(alloc);
    for node in nodes.into_vec() {
        seen = keep(alloc, seen, &mut kept, node)?;
    }
    Ok(kept)
}

// What tells a further node from those that are kept.
#[derive(Drop)]
enum Seen {
    // All kept nodes are plain. Their identifiers, in their order.
    Ids(IndexSet<Text>),
    // The lines of all kept nodes.
    Lines(IndexSet<Text>),
}

// Keeps a node unless its line was printed before.
fn keep(
    alloc: Global,
    seen: Seen,
    kept: &mut List<PlanNode>,
    node: PlanNode,
) -> Result<Seen, NoMemory>
    requires { Knows seen kept.old }
    ensures seen { IfOk result (λ after. Knows after kept.new) }
    ensures kept { OnOk result (kept.new ≡ insert_key same_line kept.old node) }
{
    match seen {
        Seen::Ids(ids) => keep_by_id(alloc, ids, kept, node),
        Seen::Lines(lines) => {
            let lines = keep_by_line(alloc, lines, kept, node)?;
            Ok(Seen::Lines(lines))
        }
    }
}

fn keep_by_id(
    alloc: Global,
    mut ids: IndexSet<Text>,
    kept: &mut List<PlanNode>,
    node: PlanNode,
) -> Result<Seen, NoMemory>
    requires { AreIds ids.keys kept.old }
    ensures seen { IfOk result (λ after. Knows after kept.new) }
    ensures kept { OnOk result (kept.new ≡ insert_key same_line kept.old node) }
{
    match told_by_id(&ids, kept.as_slice(), &node) {
        Some(true) => Ok(Seen::Ids(ids)),
        Some(false) => {
            ids.insert(node.id.copy()?)?;
            kept.push(node)?;
            Ok(Seen::Ids(ids))
        }
        None => {
            let lines = lines_of(alloc, kept.as_slice())?;
            let lines = keep_by_line(alloc, lines, kept, node)?;
            Ok(Seen::Lines(lines))
        }
    }
}

fn keep_by_line(
    alloc: Global,
    lines: IndexSet<Text>,
    kept: &mut List<PlanNode>,
    node: PlanNode,
) -> Result<IndexSet<Text>, NoMemory>
    requires { AreLines lines.keys kept.old }
    ensures lines { IfOk result (λ lines. AreLines lines.keys kept.new) }
    ensures kept { OnOk result (kept.new ≡ insert_key same_line kept.old node) }
{
    let mut lines = lines;
    let line = node_line(alloc, &node)?;
    if !lines.contains(&line) {
        lines.insert(line)?;
        kept.push(node)?;
    }
    Ok(lines)
}

// Whether a node's line was printed before, if the identifiers tell.
fn told_by_id(ids: &IndexSet<Text>, kept: &[PlanNode], node: &PlanNode) -> Option<bool>
    requires { AreIds ids.now.keys kept.now }
    ensures plain { IfSome result (λ _. IsTrue (is_plain node.now)) }
    ensures id { IfSome result (λ told. told ≡ list_any (same_text node.now.id) ids.now.keys) }
    ensures line { IfSome result (λ told. told ≡ list_any (same_line node.now) kept.now) }
{
    if !is_plain(node) {
        return None;
    }
    match ids.get_index_of(&node.id) {
        None => Some(false),
        Some(place) if is_at(kept, place, node) => Some(true),
        Some(_) => None,
    }
}

fn is_at(kept: &[PlanNode], place: usize, node: &PlanNode) -> bool
    ensures { IsTrue result → list_any (same_line node.now) kept.now ≡ true }
{
    match kept.get(place) {
        Some(other) => other == node,
        None => false,
    }
}

// Whether the identifier can be read off the line: no word before it has a blank, nor has itself.
fn is_plain(node: &PlanNode) -> bool
    ensures { result ≡ is_plain node.now }
{
    is_word(node.name.as_str()) && is_word(node.component.as_str()) && is_word(node.id.as_str())
}

fn is_word(text: &str) -> bool
    ensures { result ≡ is_word text.now }
{
    text.as_bytes().iter().all(|b| *b != b' ' && *b != b'\n')
}

fn lines_of(alloc: Global, kept: &[PlanNode]) -> Result<IndexSet<Text>, NoMemory>
    ensures { IfOk result (λ lines. AreLines lines.keys kept.now) }
{
    let mut lines = IndexSet::new(alloc);
    for node in kept {
        lines.insert(node_line(alloc, node)?)?;
    }
    Ok(lines)
}
