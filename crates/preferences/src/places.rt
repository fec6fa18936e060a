// The order in which instances are tried.
ghost use Rattle.std.specs.Prelude.{◌≡◌, IfOk, OnOk, map};
ghost use Rattle.std.specs.List.Sorted.{IsPermutation, IsSorted};
ghost use Rattle.preferences.specs.Places.{IsOrder};
ghost use Rattle.preferences.specs.Candidate.{candidate_cmp};

use crate::Policy;
use crate::candidate::{Candidate, candidates, compare};
use plan_types::{Instance, List, NoMemory, Range};
use std::alloc::Global;

/// The places of the instances, in the order in which they are tried.
pub fn order(
    alloc: Global,
    instances: &List<Instance>,
    preferred: &List<Range>,
    policy: Policy,
) -> Result<List<u64>, NoMemory>
    ensures { IfOk result (IsOrder policy preferred.now instances.now) }
{
    let mut candidates = candidates(alloc, instances.as_slice(), preferred.as_slice())?;
    sort(&mut candidates, policy)?;
    places_of(alloc, candidates.as_slice())
}

fn sort(candidates: &mut Vec<Candidate<'_>>, policy: Policy) -> Result<(), NoMemory>
    ensures each { IsPermutation candidates.old.items candidates.new.items }
    ensures sorted { OnOk result (IsSorted (candidate_cmp policy) candidates.new.items) }
{
    candidates.sort_by(|a, b| compare(policy, a, b))?;
    Ok(())
}

fn places_of(alloc: Global, candidates: &[Candidate<'_>]) -> Result<List<u64>, NoMemory>
    ensures { IfOk result (λ places. places ≡ map (λ c. c.place) candidates.now) }
{
    let mut places = List::new(alloc);
    for candidate in candidates {
        places.push(candidate.place)?;
    }
    Ok(places)
}
