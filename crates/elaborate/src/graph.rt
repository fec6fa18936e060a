// The needs of each node, by ranks.
ghost use Rattle.std.specs.Prelude.{◌≡◌, IfOk, map, slice_index_or, []};
ghost use Rattle.elaborate.specs.Ranks.{rank_of, ranked_row};

use crate::told::PlacedLine;
use plan_types::{List, NoMemory};
use std::alloc::Global;

/// The graph of these nodes: an edge leads to each node that one needs. `places` has the needs of each reached node.
pub(crate) fn graph_of(
    alloc: Global,
    places: &[List<usize>],
    ranks: &[usize],
    all: &[PlacedLine],
) -> Result<List<List<usize>>, NoMemory>
    ensures { IfOk result (λ graph. graph ≡ map (ranked_row places.now ranks.now) all.now) }
{
    let mut graph = List::new(alloc);
    for placed in all {
        graph.push(ranked_row(alloc, places, ranks, placed)?)?;
    }
    Ok(graph)
}

fn ranked_row(
    alloc: Global,
    places: &[List<usize>],
    ranks: &[usize],
    placed: &PlacedLine,
) -> Result<List<usize>, NoMemory>
    ensures { IfOk result (λ row. row ≡ ranked_row places.now ranks.now placed.now) }
{
    let mut row = List::new(alloc);
    for need in needs_at(places, placed.place) {
        row.push(rank_of(ranks, *need))?;
    }
    Ok(row)
}

fn needs_at(places: &[List<usize>], place: usize) -> &[usize]
    ensures { result.now ≡ slice_index_or places.now place [] }
{
    match places.get(place) {
        Some(needs) => needs.as_slice(),
        None => &[],
    }
}

fn rank_of(ranks: &[usize], place: usize) -> usize
    ensures { result ≡ rank_of ranks.now place }
{
    match ranks.get(place) {
        Some(rank) => *rank,
        None => 0,
    }
}
