// Builds of nodes that no plan has: nodes that need themselves or later ones, and no nodes at all. A case has three
// parts between bars: the nodes, the slots and the events. After a node come the identifiers that it needs: libraries,
// tools with `+`, setups with `*`. An installed node has `=` before it. In a replay `;` is the end of a line.
use plan_jobs::Jobs;
use plan_nodes::{NodeKind, PlanNode};
use plan_types::{List, NoMemory, Text, Version};
use replay_text::{read_events, replay_text};
use std::alloc::Global;
use std::test::Fail;

pub const CASES: &str = "\
x y,y x,y,z y x|2|start,start,start,completed 1,completed 2,start,failed 3,start => replay;start 1 x;start 3 y;start NoSlot;completed 1;completed 2 NotRunning;start 2 y;failed 3;start NoneReady;completed 1 failed 1 running 1 waiting 0 held 1;
a a,b b +b *b,=c d,d c|9|start,start,start,start => replay;start 1 a;start 2 b;start 4 d;start NoneReady;completed 1 failed 0 running 3 waiting 0 held 0;
|1|start,completed 1,failed 1 => replay;start NoneReady;completed 1 NotRunning;failed 1 NotRunning;completed 0 failed 0 running 0 waiting 0 held 0;
";

// The needed identifiers with this mark, or without one if the mark is empty.
fn needs(alloc: Global, words: &str, mark: &str) -> Result<List<Text>, NoMemory> {
    let mut needs = List::new(alloc);
    for word in words.split(' ').skip(1) {
        let id = word.trim_start_matches(|c: char| !c.is_ascii_lowercase());
        if word.strip_suffix(id) == Some(mark) {
            needs.push(Text::from_str(alloc, id)?)?;
        }
    }
    Ok(needs)
}

/// The node of these words.
pub fn node(alloc: Global, words: &str) -> Result<PlanNode, NoMemory> {
    let name = words.split(' ').next().unwrap_or("");
    let id = name.trim_start_matches('=');
    Ok(PlanNode {
        kind: if id == name {
            NodeKind::Store
        } else {
            NodeKind::Installed
        },
        name: Text::from_str(alloc, id)?,
        version: Version {
            parts: List::new(alloc),
        },
        component: Text::from_str(alloc, "lib")?,
        id: Text::from_str(alloc, id)?,
        unbuildable: false,
        libs: needs(alloc, words, "")?,
        tools: needs(alloc, words, "+")?,
        setups: needs(alloc, words, "*")?,
    })
}

fn nodes(alloc: Global, text: &str) -> Result<List<PlanNode>, NoMemory> {
    let mut nodes = List::new(alloc);
    for words in text.split(',').filter(|words| !words.is_empty()) {
        nodes.push(node(alloc, words)?)?;
    }
    Ok(nodes)
}

fn replayed(alloc: Global, nodes: &[PlanNode], slots: u32, events: &str) -> Result<String, Fail> {
    let lines = events.replace(alloc, ",", "\n")?;
    let Ok(events) = read_events(alloc, lines.as_bytes()) else {
        return Ok(String::from_str(alloc, "no events")?);
    };
    let text = replay_text(alloc, nodes, slots, events.as_slice())?;
    Ok(text.as_str().replace(alloc, "\n", ";")?)
}

pub fn answer(alloc: Global, case: &str) -> Result<String, Fail> {
    let (text, rest) = case.split_once('|').ok_or("no slots")?;
    let (slots, events) = rest.split_once('|').ok_or("no events")?;
    let nodes = nodes(alloc, text)?;
    replayed(alloc, nodes.as_slice(), slots.parse::<u32>()?, events)
}

#[test]
fn jobs_are_counted(rt: HostRuntime) -> Result<(), Fail> {
    let nodes = nodes(rt.alloc(), "a,b a")?;
    let jobs = Jobs::new(rt.alloc(), nodes.as_slice(), 1)?;
    assert_eq!(rt; jobs.node_count(), 2);
    Ok(())
}
