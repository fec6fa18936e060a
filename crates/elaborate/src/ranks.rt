// Ranks: the places of nodes in sorted order, by the places at which they were reached.
ghost use Rattle.std.specs.Prelude.{◌≡◌, IfOk, length, replicate};
ghost use Rattle.elaborate.specs.Ranks.{ranks_by, with_rank};

use crate::told::PlacedLine;
use plan_components::Reached;
use plan_types::NoMemory;
use std::alloc::Global;

/// The rank of each reached node: its place among these.
pub(crate) fn ranks_of(
    alloc: Global,
    reached: &Reached,
    all: &[PlacedLine],
) -> Result<Vec<usize>, NoMemory>
    ensures { IfOk result (λ ranks. ranks.items ≡ ranks_by (replicate (length reached.now.set.keys) 0) 0 all.now) }
{
    let mut ranks = vec![in alloc; 0; reached.nodes().len()]?;
    for rank in 0..all.len() {
        put_rank(&mut ranks, all[rank].place, rank);
    }
    Ok(ranks)
}

fn put_rank(ranks: &mut Vec<usize>, place: usize, rank: usize)
    ensures { ranks.new.items ≡ with_rank ranks.old.items place rank }
{
    if place < ranks.len() {
        ranks[place] = rank;
    }
}
