// Records of variables: the number of conflict sets with each, and whether it is chosen.
ghost use Rattle.std.specs.Prelude.{◌≡◌, [], Some, None, cond, IfOk, IfSome, MatchOption, OnOk, OnErr};
ghost use Rattle.std.specs.Prelude.{is_some, option_map, slice_get, unwrap_or};
ghost use Rattle.qualified_goals.specs.declared.variable.Var.{Var};
ghost use Rattle.qualified_goals.specs.Variable.{same_var};
ghost use Rattle.choice_problem.specs.Trail.{value_in};
ghost use Rattle.count_search.specs.declared.records.Met.{Met};
ghost use Rattle.count_search.specs.Records.{record_in, marked, with_one_more, without_sets, IsPlaced};

use choice_problem::{Trail, Var};
use indexmap::IndexMap;
use plan_types::{NoMemory, drop_fields};
use std::alloc::Global;
use std::marker::Model;

/// The number of conflict sets with a variable, at most 2^64 - 1, and whether the variable is chosen.
#[derive(Clone, Copy, Debug, Drop)]
pub struct Met {
    pub sets: u64,
    pub chosen: bool,
}

// The number of hints. Packages whose numbers differ by less have hints of their own.
const HINTS: u64 = 4096;

/// The variables that were in a conflict set, each with its record.
pub struct Records {
    map: IndexMap<Var, Met>,
    // By package, the place of a record that is soon looked up. It is only tried, so it may be wrong.
    hints: Vec<usize>,
}

impl Drop for Records {
    fn drop(self) {
        drop_fields!(self; map, hints);
    }
}

impl Model for Records {
    ghost use Rattle.std.specs.Prelude.{List};
    ghost use Rattle.qualified_goals.specs.declared.variable.Var.{Var};
    ghost use Rattle.count_search.specs.declared.records.Met.{Met};

    ghost Value = { List (Var × Met) };

    ghost view = { λ r. r.map.entries };
}

impl Records {
    pub(crate) fn new(alloc: Global) -> Records
        ensures { result ≡ [] }
    {
        Records {
            map: IndexMap::new(alloc),
            hints: Vec::new(alloc),
        }
    }

    /// The record of a variable.
    pub(crate) fn get(&self, v: Var) -> Option<Met>
        ensures { result ≡ record_in self.now v }
    {
        let (_, met) = self.find(v)?;
        Some(met)
    }

    // The place of a variable's record, and the record.
    fn find(&self, v: Var) -> Option<(usize, Met)>
        ensures { MatchOption result (record_in self.now v ≡ None) (λ found. IsPlaced self.now v found.0 found.1) }
    {
        let hint = hint_of(&self.hints, v);
        match own_record(&self.map, hint, v) {
            Some(met) => Some((hint, met)),
            None => find_in(&self.map, v),
        }
    }

    /// The record of a variable. One is added where there is none.
    pub(crate) fn get_or_add(&mut self, v: Var, trail: &Trail) -> Result<Met, NoMemory>
        ensures met { IfOk result (λ met.
            met ≡ unwrap_or (record_in self.old v) (without_sets (is_some (value_in trail.now v)))) }
        ensures is { IfOk result (λ met. (w : Var) → record_in self.new w
            ≡ cond (same_var v w) (Some met) (record_in self.old w)) }
        ensures err { OnErr result (self.new ≡ self.old) }
    {
        if let Some((place, met)) = self.find(v) {
            set_hint(&mut self.hints, v, place);
            return Ok(met);
        }
        let met = Met {
            sets: 0,
            chosen: trail.has(v),
        };
        self.add(v, met)?;
        Ok(met)
    }

    fn add(&mut self, v: Var, met: Met) -> Result<(), NoMemory>
        ensures ok { OnOk result ((w : Var) → record_in self.new w
            ≡ cond (same_var v w) (Some met) (record_in self.old w)) }
        ensures err { OnErr result (self.new ≡ self.old) }
    {
        make_hints(&mut self.hints)?;
        let place = self.map.len();
        self.map.insert(v, met)?;
        set_hint(&mut self.hints, v, place);
        Ok(())
    }

    /// Counts one more set with a variable, if it has a record. It returns the old record, and allocates no memory.
    pub(crate) fn count_one(&mut self, v: Var) -> Option<Met>
        ensures was { result ≡ record_in self.old v }
        ensures is { (w : Var) → record_in self.new w
            ≡ cond (same_var v w) (option_map with_one_more (record_in self.old v)) (record_in self.old w) }
    {
        let (place, old) = self.find(v)?;
        let met = Met {
            sets: old.sets.saturating_add(1),
            chosen: old.chosen,
        };
        put_at(&mut self.map, place, met);
        Some(old)
    }

    /// Records whether a variable is chosen, if it has a record. It returns the old record, and allocates no memory.
    pub(crate) fn mark(&mut self, v: Var, chosen: bool) -> Option<Met>
        ensures was { result ≡ record_in self.old v }
        ensures is { (w : Var) → record_in self.new w
            ≡ cond (same_var v w) (option_map (marked chosen) (record_in self.old v)) (record_in self.old w) }
    {
        let (place, old) = self.find(v)?;
        let met = Met {
            sets: old.sets,
            chosen,
        };
        put_at(&mut self.map, place, met);
        Some(old)
    }
}

fn slot_of(v: Var) -> usize {
    (v.package % HINTS) as usize
}

fn make_hints(hints: &mut Vec<usize>) -> Result<(), NoMemory> {
    if hints.is_empty() {
        hints.resize(HINTS as usize, 0)?;
    }
    Ok(())
}

fn hint_of(hints: &[usize], v: Var) -> usize {
    match hints.get(slot_of(v)) {
        Some(hint) => *hint,
        None => 0,
    }
}

fn set_hint(hints: &mut [usize], v: Var, place: usize) {
    if let Some(hint) = hints.get_mut(slot_of(v)) {
        *hint = place;
    }
}

// The record at a place, if it is that of the variable.
fn own_record(map: &IndexMap<Var, Met>, place: usize, v: Var) -> Option<Met>
    ensures { IfSome result (λ met. IsPlaced map.now.entries v place met) }
{
    let (key, met) = map.get_index(place)?;
    if *key == v { Some(*met) } else { None }
}

// It is seldom called, so `find` is small without it.
#[inline(never)]
fn find_in(map: &IndexMap<Var, Met>, v: Var) -> Option<(usize, Met)>
    ensures { MatchOption result (record_in map.now.entries v ≡ None)
        (λ found. IsPlaced map.now.entries v found.0 found.1) }
{
    let (place, _, met) = map.get_full(&v)?;
    Some((place, *met))
}

// Puts a record at a place.
fn put_at(map: &mut IndexMap<Var, Met>, place: usize, met: Met)
    ensures { (v : Var) (was : Met) → slice_get map.old.entries place ≡ Some (v, was) → (w : Var)
        → record_in map.new.entries w ≡ cond (same_var v w) (Some met) (record_in map.old.entries w) }
{
    if let Some(old) = map.get_index_mut(place) {
        *old = met;
    }
}
