// A selection of the demands of a list.
ghost use Rattle.std.specs.Prelude.{◌≡◌, ◌-◌, ◌<◌, ◌++◌, Some, IfOk, OnOk, length, find, slice_get, slice_index_or};
ghost use Rattle.choice_problem.specs.Conflict.{is_broken, set_of_first};
ghost use Rattle.choice_stack.specs.Stack.{AllBelow, demands_at, rising_from, sources_on, targets_by};

use crate::checks::{demand_in, first_broken, push_owners_on, set_at, targets_at};
use choice_problem::{ConflictSet, Demand, Values, Var};
use plan_types::{List, NoMemory};
use std::alloc::Global;
use std::marker::Model;

/// Demands of a list, by their places.
#[derive(Drop)]
pub struct Picked<'a> {
    listed: &'a [Demand],
    places: &'a [usize],
}

impl<'a> Model for Picked<'a> {
    ghost use Rattle.std.specs.Prelude.{List, length};
    ghost use Rattle.choice_problem.specs.declared.problem.Demand.{Demand};
    ghost use Rattle.choice_stack.specs.Stack.{AllBelow, demands_at};

    ghost Value = { List Demand };

    ghost view = { λ p. demands_at p.listed.now p.places.now };

    ghost invariant = { λ p. AllBelow (length p.listed.now) p.places.now };
}

impl<'a> Picked<'a> {
    /// The demands at these places.
    pub fn of(listed: &'a [Demand], places: &'a [usize]) -> Picked<'a>
        requires { AllBelow (length listed.now) places.now }
        ensures { result ≡ demands_at listed.now places.now }
    {
        Picked { listed, places }
    }

    /// The number of these demands.
    pub fn len(&self) -> usize
        ensures { result ≡ length self.now }
    {
        self.places.len()
    }

    /// The demand with this index.
    pub fn at(&self, index: usize) -> &Demand
        requires { index < length self.now }
        ensures { slice_get self.now index ≡ Some result.now }
    {
        let place = place_at(self.places, index);
        demand_in(self.listed, place)
    }

    /// The set of the first demand that the choices break.
    pub fn broken(&self, alloc: Global, trail: &Values<'_>) -> Result<Option<ConflictSet>, NoMemory>
        ensures { IfOk result (λ set. set ≡ set_of_first (find (is_broken trail.now) self.now)) }
    {
        let first = first_broken(self.listed, self.places, trail);
        let set = set_at(alloc, self.listed, first)?;
        Ok(set)
    }

    /// Appends the owners of the demands on a variable.
    pub fn push_sources(&self, found: &mut Vec<Var>, to: Var) -> Result<(), NoMemory>
        ensures { OnOk result (found.new.items ≡ found.old.items ++ sources_on to self.now) }
    {
        push_owners_on(found, self.listed, self.places, to)?;
        Ok(())
    }

    /// The targets of the demands that a variable owns.
    pub fn targets(&self, alloc: Global, from: Var) -> Result<List<Var>, NoMemory>
        ensures { IfOk result (λ found. found ≡ targets_by from self.now) }
    {
        let targets = targets_at(alloc, self.listed, self.places, from)?;
        Ok(List::from_vec(targets))
    }
}

fn place_at(places: &[usize], index: usize) -> usize
    requires { index < length places.now }
    ensures { result ≡ slice_index_or places.now index 0 }
{
    places[index]
}

/// Appends the places from `from` to below `to`. When out of memory, some of them may be appended.
pub fn push_range(places: &mut Vec<usize>, from: usize, to: usize) -> Result<(), NoMemory>
    ensures { OnOk result (places.new.items ≡ places.old.items ++ rising_from from (to - from)) }
{
    for place in from..to {
        places.push(place)?;
    }
    Ok(())
}
