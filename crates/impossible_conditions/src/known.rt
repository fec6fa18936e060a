// Facts about a condition, from its paths or from its subconditions.
ghost use Rattle.std.specs.Prelude.{◌≡◌, ◌++◌, ◌∷◌, List, map, true, IfOk, IsTrue};
ghost use Rattle.std.specs.List.{list_any};
ghost use Rattle.plan_types.specs.Conditions.{cond_of, numbered};
ghost use Rattle.plan_types.specs.declared.condition.Cond.{Cond};
ghost use Rattle.conditionals.specs.Count.{numbers_of};
ghost use Rattle.conditionals.specs.Paths.{holds};
ghost use Rattle.conditionals.specs.Value.{Flags};
ghost use Rattle.impossible_conditions.specs.Known.{AreKnown, ArePathsOf, IsKnown, Allows, OneHolds, is_own};
ghost use Rattle.impossible_conditions.specs.FlagSettings.{AreSet};

use crate::flag_settings::FlagSettings;
use conditionals::{MOST_PATHS, PathCounts, paths};
use plan_types::{Conditions, Env, FlagSet, List, NoMemory, Row};
use std::alloc::Global;

/// Facts about a condition.
#[derive(Drop)]
pub struct Facts {
    /// The condition is never Yes. False if this isn't known.
    pub known_impossible: bool,
    /// Settings that flags have whenever the condition is Yes.
    required: FlagSettings,
}

impl Facts {
    fn unknown(alloc: Global) -> Facts
        ensures { (flags : Flags) → Allows flags result }
    {
        Facts {
            known_impossible: false,
            required: FlagSettings::new(alloc),
        }
    }
}

/// Facts about the condition of a row, from those about earlier rows.
pub fn known_of(
    alloc: Global,
    conds: &Conditions,
    numbers: &[PathCounts],
    all: &[Facts],
    row: &Row,
    env: &Env,
) -> Result<Facts, NoMemory>
    requires { numbers.now ≡ map (numbers_of env.now) conds.now }
    ensures { IfOk result (λ known. (before more : List Cond) → AreKnown env.now before all.now
        → conds.now ≡ before ++ cond_of before row.now ∷ more → IsKnown env.now (cond_of before row.now) known) }
{
    match row {
        Row::Both(front, last) => {
            let (Some(first), Some(second)) = (all.get(*front), all.get(*last)) else {
                return Ok(Facts::unknown(alloc));
            };
            let paths = own_paths(alloc, conds, numbers, *last, env)?;
            both(alloc, first, second, &paths)
        }
        Row::Own(_) | Row::Negated(_) => {
            let paths = own_paths(alloc, conds, numbers, all.len(), env)?;
            own(alloc, &paths)
        }
    }
}

// Whether a row is `Own`, or `!` of an `Own` row.
fn is_own(rows: &[Row], row: &Row) -> bool
    ensures { result ≡ is_own rows.now row.now }
{
    match row {
        Row::Own(_) => true,
        Row::Negated(inner) => match rows.get(*inner) {
            Some(Row::Own(_)) => true,
            Some(Row::Negated(_)) => false,
            Some(Row::Both(_, _)) => false,
            None => false,
        },
        Row::Both(_, _) => false,
    }
}

// Facts about a condition with these paths; none if the paths aren't known.
fn own(alloc: Global, paths: &Option<List<List<FlagSet>>>) -> Result<Facts, NoMemory>
    ensures { IfOk result (λ known. (flags : Flags) → OneHolds flags paths.now → Allows flags known) }
{
    match paths {
        Some(paths) => by_paths(alloc, paths.as_slice()),
        None => Ok(Facts::unknown(alloc)),
    }
}

fn by_paths(alloc: Global, paths: &[List<FlagSet>]) -> Result<Facts, NoMemory>
    ensures { IfOk result (λ known. (flags : Flags) → list_any (holds flags) paths.now ≡ true → Allows flags known) }
{
    let mut required = FlagSettings::new(alloc);
    if paths.len() == 1 {
        required.add(alloc, paths[0].as_slice())?;
    }
    Ok(Facts {
        known_impossible: paths.is_empty(),
        required,
    })
}

// Facts about `&&` of two conditions; the paths are those of the second, if they are known.
fn both(
    alloc: Global,
    first: &Facts,
    second: &Facts,
    paths: &Option<List<List<FlagSet>>>,
) -> Result<Facts, NoMemory>
    ensures { IfOk result (λ known. (flags : Flags) → Allows flags first.now → Allows flags second.now
        → OneHolds flags paths.now
        → Allows flags known) }
{
    let (required, fits) = joined(alloc, &first.required, &second.required)?;
    let some = allows_one(&first.required, paths);
    Ok(Facts {
        known_impossible: first.known_impossible || second.known_impossible || !fits || !some,
        required,
    })
}

// The settings of both sides, and whether they agree. If both sides are long, only the latest settings of the first are
// used, at most 64.
fn joined(
    alloc: Global,
    first: &FlagSettings,
    second: &FlagSettings,
) -> Result<(FlagSettings, bool), NoMemory>
    ensures { IfOk result (λ both. (flags : Flags) → AreSet flags first.now → AreSet flags second.now
        → AreSet flags both.0 × IsTrue both.1) }
{
    if second.is_short() {
        added(alloc, first.copy(alloc)?, second)
    } else {
        added(alloc, second.copy(alloc)?, first)
    }
}

fn added(
    alloc: Global,
    mut long: FlagSettings,
    short: &FlagSettings,
) -> Result<(FlagSettings, bool), NoMemory>
    ensures { IfOk result (λ both. (flags : Flags) → AreSet flags long → AreSet flags short.now
        → AreSet flags both.0 × IsTrue both.1) }
{
    let fits = long.add(alloc, short.recent())?;
    Ok((long, fits))
}

// Whether some path doesn't contradict the settings; true if the paths aren't known.
fn allows_one(required: &FlagSettings, paths: &Option<List<List<FlagSet>>>) -> bool
    ensures { (flags : Flags) → AreSet flags required.now → OneHolds flags paths.now → IsTrue result }
{
    match paths {
        Some(paths) => allows_some(required, paths.as_slice()),
        None => true,
    }
}

fn allows_some(required: &FlagSettings, paths: &[List<FlagSet>]) -> bool
    ensures { (flags : Flags) → AreSet flags required.now → list_any (holds flags) paths.now ≡ true → IsTrue result }
{
    for path in paths {
        if required.allows(path.as_slice()) {
            return true;
        }
    }
    false
}

// The paths of a row that `is_own`, if there are at most 256. The paths of a longer condition would be built again for
// each row that contains it.
fn own_paths(
    alloc: Global,
    conds: &Conditions,
    numbers: &[PathCounts],
    place: usize,
    env: &Env,
) -> Result<Option<List<List<FlagSet>>>, NoMemory>
    requires { numbers.now ≡ map (numbers_of env.now) conds.now }
    ensures { IfOk result (ArePathsOf env.now (numbered conds.now place)) }
{
    let rows = conds.rows();
    let (Some(row), Some(numbers)) = (rows.get(place), numbers.get(place)) else {
        return Ok(None);
    };
    if !is_own(rows, row) || MOST_PATHS < numbers.yes {
        return Ok(None);
    }
    let cond = conds.guard(alloc, place)?;
    let paths = paths(alloc, cond.get(), env, true)?;
    Ok(Some(paths))
}
