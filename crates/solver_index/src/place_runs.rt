// Places kept as runs.
ghost use Rattle.std.specs.Prelude.{◌≡◌, ◌++◌, [], IfOk, OnOk};
ghost use Rattle.solver_index.specs.Places.{between};
ghost use Rattle.solver_index.specs.PlaceRuns.{places_in};

use plan_types::{List, NoMemory};
use std::alloc::Global;
use std::marker::Model;

/// The places from one up to another.
#[derive(Clone, Copy, Debug, Drop)]
pub(crate) struct PlaceRun {
    pub from: u64,
    pub to: u64,
}

/// A list of instances' places: consecutive places are kept as one run.
#[derive(Debug, Drop)]
pub struct PlaceRuns {
    runs: List<PlaceRun>,
}

impl Model for PlaceRuns {
    ghost use Rattle.std.specs.Prelude.{List, ℕ};
    ghost use Rattle.solver_index.specs.PlaceRuns.{places_in};

    ghost Value = { List ℕ };

    ghost view = { λ p. places_in p.runs };
}

impl PlaceRuns {
    pub(crate) fn new(alloc: Global) -> PlaceRuns
        ensures { result ≡ [] }
    {
        PlaceRuns {
            runs: List::new(alloc),
        }
    }

    /// Appends the places from one up to another; none where the run is empty.
    pub(crate) fn push_run(&mut self, from: u64, to: u64) -> Result<(), NoMemory>
        ensures { OnOk result (self.new ≡ self.old ++ between from to) }
    {
        if from < to {
            self.runs.push(PlaceRun { from, to })?;
        }
        Ok(())
    }

    pub(crate) fn runs(&self) -> &[PlaceRun]
        ensures { places_in result.now ≡ self.now }
    {
        self.runs.as_slice()
    }

    /// The places one by one.
    pub fn places(&self, alloc: Global) -> Result<List<u64>, NoMemory>
        ensures { IfOk result (λ places. places ≡ self.now) }
    {
        let mut places = List::new(alloc);
        for run in self.runs() {
            push_places(&mut places, *run)?;
        }
        Ok(places)
    }
}

fn push_places(places: &mut List<u64>, run: PlaceRun) -> Result<(), NoMemory>
    ensures { OnOk result (places.new ≡ places.old ++ between run.from run.to) }
{
    for place in run.from..run.to {
        places.push(place)?;
    }
    Ok(())
}
