// Graphs in written form: the needs of each node, with a bar between two nodes and `-` for no needs. `chain` begins a
// graph of 100,000 nodes that each need the next; after bars are exceptions, as a node, a colon and its needs.
// `order`: a build order; of a long one its length and first node. `cycle`: the first node on a cycle. The last graph
// there has two cycles, and a path from one to the other. `units`: the number of nodes that lead to the last node.
ghost use Rattle.std.specs.Prelude.{◌<◌, IsTrue};
ghost use Rattle.common_laws.specs.Graphs.{IsGraph};

use broken_units::leading;
use build_order::build_order;
use component_cycle::first_on_cycle;
use plan_types::{List, NoMemory};
use std::alloc::Global;
use std::test::Fail;

pub(crate) const CASES: &str = "\
order - => 0
order 0 => 
order 0|- => 1
order 1|0|-|2 => 2 3
order 2|2|3|2|- => 4
order 9 => no graph
order chain|100000:- => no graph
order chain|99999:- => 100000 nodes from 99999
order chain|99999:50000 => 
order chain|99999:-|50000:0 => 49999 nodes from 99999
cycle chain|0:1 1|99999:- => None
cycle chain|99999:0 => Some(0)
cycle chain|99999:50000 => Some(50000)
cycle chain|99995:99998|99997:99996 0|99999:99998 => Some(99996)
units 1|0|3|- => 2
units 0|9 1|- => 1
units chain => 100000
";

fn nodes(alloc: Global, text: &str) -> Result<List<usize>, Fail> {
    let mut nodes = List::new(alloc);
    if text == "-" {
        return Ok(nodes);
    }
    for word in text.split(' ') {
        nodes.push(word.parse::<usize>()?)?;
    }
    Ok(nodes)
}

fn one(alloc: Global, node: usize) -> Result<List<usize>, NoMemory> {
    let mut list = List::new(alloc);
    list.push(node)?;
    Ok(list)
}

fn put(needs: &mut List<List<usize>>, node: usize, needed: List<usize>) {
    if node < needs.len() {
        needs.set(node, needed);
    }
}

// Nodes that each need the next.
fn plain_chain(alloc: Global) -> Result<List<List<usize>>, NoMemory> {
    let mut needs = List::new(alloc);
    for next in 1..=100_000 {
        needs.push(one(alloc, next)?)?;
    }
    Ok(needs)
}

fn put_part(alloc: Global, needs: &mut List<List<usize>>, part: &str) -> Result<(), Fail> {
    let (node, needed) = part.split_once(':').ok_or("no needs")?;
    let node = node.parse::<usize>()?;
    put(needs, node, nodes(alloc, needed)?);
    Ok(())
}

fn chain(alloc: Global, others: &str) -> Result<List<List<usize>>, Fail> {
    let mut needs = plain_chain(alloc)?;
    for part in others.split('|').skip(1) {
        put_part(alloc, &mut needs, part)?;
    }
    Ok(needs)
}

fn graph(alloc: Global, text: &str) -> Result<List<List<usize>>, Fail> {
    if let Some(others) = text.strip_prefix("chain") {
        return chain(alloc, others);
    }
    let mut needs = List::new(alloc);
    for part in text.split('|') {
        needs.push(nodes(alloc, part)?)?;
    }
    Ok(needs)
}

fn is_graph(needs: &[List<usize>]) -> bool
    ensures { IsTrue result → IsGraph needs.now }
{
    needs.iter().all(|list| list.as_slice().iter().all(|node| *node < needs.len()))
}

fn shown(alloc: Global, order: &[usize]) -> Result<String, Fail> {
    if order.len() > 100 {
        let first = order.first().copied().unwrap_or(0);
        return Ok(format!(in alloc; "{} nodes from {first}", order.len())?);
    }
    let mut text = String::new(alloc);
    for node in order {
        let gap = if text.is_empty() { "" } else { " " };
        write!(&mut text, "{gap}{node}")?;
    }
    Ok(text)
}

fn order_or_cycle(alloc: Global, call: &str, needs: &List<List<usize>>) -> Result<String, Fail> {
    if !is_graph(needs.as_slice()) {
        return Ok(String::from_str(alloc, "no graph")?);
    }
    if call == "order" {
        let order = build_order(alloc, needs.as_slice())?;
        return shown(alloc, order.as_slice());
    }
    let first = first_on_cycle(alloc, needs.as_slice())?;
    Ok(format!(in alloc; "{first:?}")?)
}

// Marks of so many nodes; only the last node is marked.
fn last_marked(alloc: Global, count: usize) -> Result<List<bool>, NoMemory> {
    let mut marked = List::new(alloc);
    for _ in 1..count {
        marked.push(false)?;
    }
    marked.push(true)?;
    Ok(marked)
}

// The number of nodes that lead to the last one.
fn led(alloc: Global, needs: &[List<usize>]) -> Result<String, Fail> {
    let marked = last_marked(alloc, needs.len())?;
    if marked.len() != needs.len() {
        return Ok(String::from_str(alloc, "no node")?);
    }
    let led = leading(alloc, needs, marked.as_slice())?;
    let count = led.as_slice().iter().filter(|is_led| **is_led).count();
    Ok(format!(in alloc; "{count}")?)
}

pub(crate) fn answer(alloc: Global, case: &str) -> Result<String, Fail> {
    let (call, text) = case.split_once(' ').ok_or("no graph")?;
    let needs = graph(alloc, text)?;
    if call == "units" {
        led(alloc, needs.as_slice())
    } else {
        order_or_cycle(alloc, call, &needs)
    }
}
