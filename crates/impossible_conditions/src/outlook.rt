// The outlooks of the conditions in a table.
ghost use Rattle.std.specs.Prelude.{IfOk};
ghost use Rattle.impossible_conditions.specs.Outlook.{AreOutlooks};

use crate::known::known_of;
use conditionals::count_all;
use plan_types::{Conditions, Env, NoMemory};
use std::alloc::Global;

/// The outlook of a condition, before its paths are built.
#[derive(Clone, Copy, Debug)]
pub struct Outlook {
    /// The number of its paths for true, at most 2^64 - 1.
    pub number: u64,
    /// The condition is never Yes. False if this isn't known.
    pub known_impossible: bool,
}

/// The outlook of each condition in a table, row by row.
pub fn outlooks(alloc: Global, conds: &Conditions, env: &Env) -> Result<Vec<Outlook>, NoMemory>
    ensures { IfOk result (λ all. AreOutlooks env.now conds.now all.items) }
{
    let numbers = count_all(alloc, conds, env)?;
    let rows = conds.rows();
    let mut before = Vec::new(alloc);
    let mut all = Vec::new(alloc);
    for row in rows {
        let known = known_of(alloc, conds, &numbers, &before, row, env)?;
        all.push(Outlook {
            number: numbers[before.len()].yes,
            known_impossible: known.known_impossible,
        })?;
        before.push(known)?;
    }
    Ok(all)
}
