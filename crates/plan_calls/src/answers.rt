// Texts with numbers and identifiers that no run prints; `;` is the end of a line. A plan of one node without choices,
// and an empty conflict set that wasn't shrunk.
ghost use Rattle.qualified_goals.specs.Names.{AreInGoalOrder};

use crate::builds::node;
use choice_problem::{ConflictSet, Counts};
use plan_json::{json_of_not_shrunk, json_of_plan};
use plan_nodes::PlanNode;
use plan_print::{text_of_not_shrunk, text_of_plan};
use plan_types::{Index, List, NoMemory, Text};
use qualified_goals::Names;
use std::alloc::Global;
use std::test::Fail;

pub const CASES: &str = "\
plan => plan;node installed a-1 lib a\"b\\c\u{1}\t\u{1f}\u{7f}\u{e9} needs a\"b\\c\u{1}\t\u{1f}\u{7f}\u{e9};visited 18446744073709551615 exhausted 0;
json plan => {\"choices\":[],\"exhausted\":0,\"nodes\":[{\"component\":\"lib\",\"id\":\"a\\\"b\\\\c\\u0001\\t\\u001f\u{7f}\u{e9}\",\"kind\":\"installed\",\"needs\":[\"a\\\"b\\\\c\\u0001\\t\\u001f\u{7f}\u{e9}\"],\"package\":\"a-1\",\"unbuildable\":false}],\"skipped\":[],\"status\":\"plan\",\"visited\":18446744073709551615,\"warnings\":[]};
not shrunk => no plan;conflict;not minimised 18446744073709551615;visited 18446744073709551615 exhausted 0;
json not shrunk => {\"conflict\":[],\"exhausted\":0,\"not_minimised\":18446744073709551615,\"skipped\":[],\"status\":\"no plan\",\"visited\":18446744073709551615,\"warnings\":[]};
";

// An installed node, which needs its own identifier as a library and as a tool.
const WORDS: &str =
    "=a\"b\\c\u{1}\t\u{1f}\u{7f}\u{e9} a\"b\\c\u{1}\t\u{1f}\u{7f}\u{e9} +a\"b\\c\u{1}\t\u{1f}\u{7f}\u{e9}";

const COUNTS: Counts = Counts {
    visited: u64::MAX,
    exhausted: 0,
};

fn index(alloc: Global) -> Index
    ensures { AreInGoalOrder result.packages }
{
    let packages = List::new(alloc);
    Index {
        packages,
        skipped: List::new(alloc),
        warnings: List::new(alloc),
    }
}

// Names the package of the node.
fn name(alloc: Global, node: &mut PlanNode) -> Result<(), NoMemory> {
    node.name = Text::from_str(alloc, "a")?;
    node.version.parts.push(1)?;
    Ok(())
}

// The identifier is needed as a library and as a tool, and printed once.
fn nodes(alloc: Global) -> Result<List<PlanNode>, NoMemory> {
    let mut node = node(alloc, WORDS)?;
    name(alloc, &mut node)?;
    let mut nodes = List::new(alloc);
    nodes.push(node)?;
    Ok(nodes)
}

fn plan(
    alloc: Global,
    json: bool,
    index: &Index,
    names: &Names,
    nodes: &List<PlanNode>,
) -> Result<Text, NoMemory> {
    let trail = List::new(alloc);
    if json {
        json_of_plan(alloc, &trail, index, names, nodes, COUNTS)
    } else {
        text_of_plan(alloc, &trail, index, names, nodes, COUNTS)
    }
}

fn not_shrunk(alloc: Global, json: bool, index: &Index, names: &Names) -> Result<Text, NoMemory> {
    let set = ConflictSet::of(alloc, &[])?;
    if json {
        json_of_not_shrunk(alloc, &set, u64::MAX, index, names, COUNTS)
    } else {
        text_of_not_shrunk(alloc, &set, u64::MAX, index, names, COUNTS)
    }
}

fn text_over(alloc: Global, case: &str, index: &Index, names: &Names) -> Result<Text, NoMemory> {
    let json = case.starts_with("json ");
    if case.ends_with("plan") {
        plan(alloc, json, index, names, &nodes(alloc)?)
    } else {
        not_shrunk(alloc, json, index, names)
    }
}

fn text(alloc: Global, case: &str) -> Result<Text, NoMemory> {
    let index = index(alloc);
    let names = Names::of(alloc, &index)?;
    text_over(alloc, case, &index, &names)
}

pub fn answer(alloc: Global, case: &str) -> Result<String, Fail> {
    let text = text(alloc, case)?;
    Ok(text.as_str().replace(alloc, "\n", ";")?)
}
