// Dependencies of an instance, with names as numbers and ranges as places.
use crate::place_runs::PlaceRuns;
use plan_types::{DepKind, List, drop_fields};
use qualified_goals::Part;

/// A flag or a stanza, and its value.
#[derive(Clone, Copy, Debug, Drop)]
pub struct Setting {
    pub part: Part,
    pub val: u64,
}

/// The package of a dependency, and the places of its instances that are allowed.
#[derive(Debug, Drop)]
pub struct Target {
    pub package: u64,
    pub allowed: PlaceRuns,
}

/// A dependency, and the settings under which it counts.
#[derive(Debug, Drop)]
pub struct ConditionalDep {
    pub when: List<Setting>,
    pub kind: DepKind,
    pub target: Target,
}

/// The package of a unit that another one needs, and the place of that unit.
#[derive(Debug, Drop)]
pub struct UnitNeed {
    pub package: u64,
    pub allowed: List<u64>,
}

/// What an instance depends on. Each list keeps the order of its source.
#[derive(Debug)]
pub struct Dependencies {
    /// The numbers of its flags.
    pub flags: List<u64>,
    pub deps: List<ConditionalDep>,
    pub setup: List<Target>,
    pub needs: List<UnitNeed>,
}

impl Drop for Dependencies {
    fn drop(self) {
        drop_fields!(self; flags, deps, setup, needs);
    }
}
