// The identifiers of a node's needs, from the lines so far.
ghost use Rattle.std.specs.Prelude.{◌≡◌, ◌<◌, [], IfOk, OnOk, None, length, slice_index_or};
ghost use Rattle.std.specs.Option.{option_copied};
ghost use Rattle.plan_components.specs.Places.{graph_of};
ghost use Rattle.node_lines.specs.Gather.{added, empty, gathered, line_at, needed_of};

use plan_components::Reached;
use plan_lines::Needed;
use plan_nodes::PlanNode;
use plan_types::{DepKind, List, NoMemory, Text, drop_fields};
use std::alloc::Global;
use std::collections::BTreeSet;

/// Identifiers in byte order, by kind of dependency.
pub(crate) struct Sets {
    pub libs: BTreeSet<Text>,
    pub tools: BTreeSet<Text>,
    pub setups: BTreeSet<Text>,
}

impl Drop for Sets {
    fn drop(self) {
        drop_fields!(self; libs, tools, setups);
    }
}

impl Sets {
    fn new(alloc: Global) -> Sets
        ensures { needed_of result ≡ empty }
    {
        Sets {
            libs: BTreeSet::new(alloc),
            tools: BTreeSet::new(alloc),
            setups: BTreeSet::new(alloc),
        }
    }

    fn add(&mut self, kind: DepKind, id: &Text) -> Result<(), NoMemory>
        ensures { OnOk result (needed_of self.new ≡ added (needed_of self.old) kind id.now) }
    {
        let id = id.copy()?;
        match kind {
            DepKind::Library => self.libs.insert(id)?,
            DepKind::Tool => self.tools.insert(id)?,
            DepKind::Setup => self.setups.insert(id)?,
        };
        Ok(())
    }

    fn into_needed(self, alloc: Global) -> Result<Needed, NoMemory>
        ensures { IfOk result (λ needed. needed ≡ needed_of self) }
    {
        let Sets {
            libs,
            tools,
            setups,
        } = self;
        let libs = listed(alloc, libs)?;
        let tools = listed(alloc, tools)?;
        let setups = listed(alloc, setups)?;
        Ok(Needed {
            libs,
            tools,
            setups,
        })
    }
}

fn listed(alloc: Global, ids: BTreeSet<Text>) -> Result<List<Text>, NoMemory>
    ensures { IfOk result (λ list. list ≡ ids.keys) }
{
    let mut list = List::new(alloc);
    for id in ids {
        list.push(id)?;
    }
    Ok(list)
}

/// The identifiers of the needs of the node at a place; `None` if one of them has no line.
pub(crate) fn gather(
    alloc: Global,
    reached: &Reached,
    lines: &[Option<PlanNode>],
    place: usize,
) -> Result<Option<Needed>, NoMemory>
    requires places { reached.now.places ≡ graph_of reached.now.set.keys reached.now.needs }
    requires within { place < length reached.now.needs }
    ensures { IfOk result (λ needed. needed
        ≡ gathered (line_at reached.now.set.keys lines.now) (slice_index_or reached.now.needs place [])) }
{
    let mut sets = Sets::new(alloc);
    let needs = reached.needs.as_slice()[place].as_slice();
    let places = reached.places.as_slice()[place].as_slice();
    for k in 0..needs.len() {
        match made_line(lines, places[k]) {
            None => return Ok(None),
            Some(line) => sets.add(needs[k].kind, &line.id)?,
        }
    }
    let needed = sets.into_needed(alloc)?;
    Ok(Some(needed))
}

// The line of the node at a place, if it is made.
fn made_line(lines: &[Option<PlanNode>], place: usize) -> Option<&PlanNode>
    ensures { option_copied result ≡ slice_index_or lines.now place None }
{
    match lines.get(place) {
        Some(Some(line)) => Some(line),
        Some(None) => None,
        None => None,
    }
}
