// Lines, moved into build order.
ghost use Rattle.std.specs.Prelude.{◌≡◌, ◌≢◌, ◌<◌, ◌++◌, All, AllPairs, IfOk, OnOk, None, length, map, option_to_list, slice_index_or, slice_set};
ghost use Rattle.elaborate.specs.Plan.{line_at};
ghost use Rattle.elaborate.specs.Telling.{line_of, lined_of};

use crate::told::{LinedNode, PlacedLine};
use plan_nodes::PlanNode;
use plan_types::{List, NoMemory};
use std::alloc::Global;

/// The lines at these places. Each is moved, not copied.
pub(crate) fn lines_at(
    alloc: Global,
    all: Vec<PlacedLine>,
    places: &[usize],
) -> Result<List<PlanNode>, NoMemory>
    requires within { All (λ place. place < length all.items) places.now }
    requires once { AllPairs (λ a b. a ≢ b) places.now }
    ensures { IfOk result (λ lines. lines ≡ map (line_at (map lined_of all.items)) places.now) }
{
    let mut left = lines_of(alloc, all)?;
    let mut lines = List::new(alloc);
    for k in 0..places.len() {
        move_line(&mut left, places[k], &mut lines)?;
    }
    Ok(lines)
}

// The lines of these nodes, ready to be taken.
fn lines_of(alloc: Global, all: Vec<PlacedLine>) -> Result<Vec<Option<PlanNode>>, NoMemory>
    ensures { IfOk result (λ left. left.items ≡ map line_of (map lined_of all.items)) }
{
    let mut left = Vec::new(alloc);
    for placed in all {
        let PlacedLine { place: _, lined } = placed;
        let LinedNode { node: _, line } = lined;
        left.push(Some(line))?;
    }
    Ok(left)
}

fn move_line(
    left: &mut Vec<Option<PlanNode>>,
    place: usize,
    lines: &mut List<PlanNode>,
) -> Result<(), NoMemory>
    requires { place < length left.old.items }
    ensures left { OnOk result (left.new.items ≡ slice_set left.old.items place None) }
    ensures lines { OnOk result (lines.new ≡ lines.old
        ++ option_to_list (slice_index_or left.old.items place None)) }
{
    match left[place].take() {
        Some(line) => lines.push(line),
        None => Ok(()),
    }
}
