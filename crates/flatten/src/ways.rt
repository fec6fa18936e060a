// The paths of a condition, with their number.

ghost use Rattle.std.specs.Prelude.{◌≡◌, IfOk};
ghost use Rattle.impossible_conditions.specs.Outlook.{IsOutlookAt};
ghost use Rattle.flatten.specs.Ways.{ways_of};

use conditionals::{MOST_PATHS, paths};
use impossible_conditions::Outlook;
use plan_types::{Cond, Env, FlagSet, List, NoMemory};
use std::alloc::Global;

/// The paths under which a condition is Yes.
#[derive(Drop)]
pub struct Ways {
    /// The number of all paths, contradictory ones too, at most 2^64 - 1.
    pub number: u64,
    /// The paths that aren't contradictory; empty if there are more than 256 in all.
    pub paths: List<List<FlagSet>>,
}

/// The paths of a condition in a table, by the outlooks of the table and its place there.
pub fn ways_of(
    alloc: Global,
    cond: &Cond,
    outlooks: &[Outlook],
    place: usize,
    env: &Env,
) -> Result<Ways, NoMemory>
    requires { IsOutlookAt env.now cond.now outlooks.now place }
    ensures { IfOk result (λ ways. ways ≡ ways_of env.now cond.now) }
{
    let Outlook {
        number,
        known_impossible,
    } = outlooks[place];
    if number == 0 || MOST_PATHS < number || known_impossible {
        return Ok(Ways {
            number,
            paths: List::new(alloc),
        });
    }
    let paths = paths(alloc, cond, env, true)?;
    Ok(Ways { number, paths })
}
