// The instances inside the cuts of a range.
ghost use Rattle.std.specs.Prelude.{◌≡◌, ◌++◌, ℕ, ◌<◌, ◌≤◌, Contains, IfOk, OnOk, filter, length, true};
ghost use Rattle.std.specs.List.Sorted.{IsNonDecreasing};
ghost use Rattle.plan_types.specs.Members.{members};
ghost use Rattle.plan_types.specs.declared.index.Entry.{Entry};
ghost use Rattle.version_range.specs.Cuts.{HasNumbers, inside};
ghost use Rattle.version_range.specs.Version.{has_versions};
ghost use Rattle.solver_index.specs.Blocks.{AreInBlocks, IsBlock, version_at};
ghost use Rattle.solver_index.specs.Places.{between, places};
ghost use Rattle.solver_index.specs.RangeBounds.{AreUniform, IsConstantWhere, IsUniform};

use crate::blocks::{Test, first_without};
use crate::place_runs::PlaceRuns;
use crate::range_bounds::push_bounds;
use plan_types::{Entry, List, NoMemory, Range};
use std::alloc::Global;
use std::ops;
use version_range::Cuts;

/// The places of the instances whose versions are inside the cuts of a range. Binary search finds the places at which
/// versions enter or leave an operator of the range. Between two of these, one version decides for all.
pub(crate) fn places_inside(
    alloc: Global,
    cuts: &Cuts,
    range: &Range,
    entries: &[Entry],
) -> Result<PlaceRuns, NoMemory>
    requires blocks { AreInBlocks entries.now }
    requires numbers { (e : Entry) → Contains entries.now e → HasNumbers e.instance.version }
    requires versions { has_versions range.now ≡ true }
    requires follows { IsConstantWhere (members range.now) (inside cuts.now) }
    ensures { IfOk result (λ found. found ≡ places (λ e. inside cuts.now e.instance.version) entries.now) }
{
    let count = entries.len();
    let releases = first_without(Test::IsSource, range, entries, 0, count);
    let mut found = PlaceRuns::new(alloc);
    push_block(alloc, &mut found, cuts, range, entries, 0..releases)?;
    push_block(alloc, &mut found, cuts, range, entries, releases..count)?;
    Ok(found)
}

fn push_block(
    alloc: Global,
    found: &mut PlaceRuns,
    cuts: &Cuts,
    range: &Range,
    entries: &[Entry],
    block: ops::Range<usize>,
) -> Result<(), NoMemory>
    requires block { IsBlock entries.now block.start block.end }
    requires versions { has_versions range.now ≡ true }
    requires follows { IsConstantWhere (members range.now) (inside cuts.now) }
    ensures { OnOk result (found.new ≡ found.old ++ filter (λ i. inside cuts.now (version_at entries.now i))
        (between block.start block.end)) }
{
    let mut bounds = List::new(alloc);
    push_bounds(&mut bounds, range, entries, block.start, block.end)?;
    let mut bounds = bounds.into_vec();
    bounds.sort_unstable();
    push_segments(
        found,
        cuts,
        bounds.as_slice(),
        entries,
        block.start,
        block.end,
    )
}

fn push_segments(
    found: &mut PlaceRuns,
    cuts: &Cuts,
    bounds: &[u64],
    entries: &[Entry],
    from: usize,
    to: usize,
) -> Result<(), NoMemory>
    requires low { from ≤ to }
    requires high { to ≤ length entries.now }
    requires rising { IsNonDecreasing bounds.now }
    requires within { (t : ℕ) → Contains bounds.now t → (from ≤ t) × (t ≤ to) }
    requires uniform { AreUniform cuts.now bounds.now entries.now from to }
    ensures { OnOk result (found.new ≡ found.old ++ filter (λ i. inside cuts.now (version_at entries.now i))
        (between from to)) }
{
    let mut first = from as u64;
    for bound in bounds {
        push_segment(found, cuts, entries, first, *bound)?;
        first = *bound;
    }
    push_segment(found, cuts, entries, first, to as u64)
}

// The versions of a segment are all inside or all outside, so one decides.
fn push_segment(
    found: &mut PlaceRuns,
    cuts: &Cuts,
    entries: &[Entry],
    first: u64,
    last: u64,
) -> Result<(), NoMemory>
    requires high { last ≤ length entries.now }
    requires uniform { IsUniform cuts.now entries.now first last }
    ensures { OnOk result (found.new ≡ found.old ++ filter (λ i. inside cuts.now (version_at entries.now i))
        (between first last)) }
{
    if first < last && cuts.has(&entries[first as usize].instance.version) {
        found.push_run(first, last)?;
    }
    Ok(())
}
