// The number of paths of a condition.
ghost use Rattle.std.specs.Prelude.{◌≡◌, ◌+◌, ◌*◌, ◌^◌, ◌-◌, min, length, true, false};
ghost use Rattle.conditionals.specs.Paths.{paths_of, fixed};

use crate::environment::{is_compiler, is_processor, is_system};
use plan_types::{Cond, Env};

/// The numbers of a condition's paths, or factors of such numbers.
#[derive(Clone, Copy, Debug)]
pub struct PathCounts {
    /// The number of paths on which it is Yes, at most 2^64 - 1.
    pub yes: u64,
    /// The number of paths on which it is No, at most 2^64 - 1.
    pub no: u64,
}

/// The numbers of a condition's paths. Both are computed at once, as those of a right side count towards both.
pub fn numbers_of(cond: &Cond, env: &Env) -> PathCounts
    ensures yes { result.yes ≡ min (length (paths_of env.now cond.now true)) (2 ^ 64 - 1) }
    ensures no { result.no ≡ min (length (paths_of env.now cond.now false)) (2 ^ 64 - 1) }
{
    // The weights of the left side's paths in the numbers of the whole, for Yes and for No.
    let mut for_yes = PathCounts { yes: 1, no: 0 };
    let mut for_no = PathCounts { yes: 0, no: 1 };
    let mut left = cond;
    loop {
        match left {
            Cond::Always => return whole(for_yes, for_no, one(true)),
            Cond::Never => return whole(for_yes, for_no, one(false)),
            Cond::Flag(_) => return whole(for_yes, for_no, PathCounts { yes: 1, no: 1 }),
            Cond::Os(name) => return whole(for_yes, for_no, one(is_system(env, name))),
            Cond::Arch(name) => return whole(for_yes, for_no, one(is_processor(env, name))),
            Cond::Impl(name, range) => {
                return whole(for_yes, for_no, one(is_compiler(env, name, range)));
            }
            Cond::Not(inner) => {
                for_yes = swapped(for_yes);
                for_no = swapped(for_no);
                left = inner.get();
            }
            Cond::And(l, r) => {
                let right = numbers_of(r.get(), env);
                for_yes.yes = weighed(for_yes, right);
                for_no.yes = weighed(for_no, right);
                left = l.get();
            }
            Cond::Or(l, r) => {
                let right = numbers_of(r.get(), env);
                for_yes.no = weighed(for_yes, right);
                for_no.no = weighed(for_no, right);
                left = l.get();
            }
        }
    }
}

/// The number of paths on which a condition has this value, at most 2^64 - 1.
pub fn count_paths(cond: &Cond, env: &Env, want: bool) -> u64
    ensures { result ≡ min (length (paths_of env.now cond.now want)) (2 ^ 64 - 1) }
{
    let numbers = numbers_of(cond, env);
    if want { numbers.yes } else { numbers.no }
}

fn one(holds: bool) -> PathCounts
    ensures yes { result.yes ≡ length (fixed holds true) }
    ensures no { result.no ≡ length (fixed holds false) }
{
    if holds {
        PathCounts { yes: 1, no: 0 }
    } else {
        PathCounts { yes: 0, no: 1 }
    }
}

pub fn swapped(numbers: PathCounts) -> PathCounts
    ensures yes { result.yes ≡ numbers.no }
    ensures no { result.no ≡ numbers.yes }
{
    PathCounts {
        yes: numbers.no,
        no: numbers.yes,
    }
}

fn whole(for_yes: PathCounts, for_no: PathCounts, numbers: PathCounts) -> PathCounts
    ensures yes { result.yes
        ≡ min (for_yes.yes * numbers.yes + for_yes.no * numbers.no) (2 ^ 64 - 1) }
    ensures no { result.no ≡ min (for_no.yes * numbers.yes + for_no.no * numbers.no) (2 ^ 64 - 1) }
{
    PathCounts {
        yes: weighed(for_yes, numbers),
        no: weighed(for_no, numbers),
    }
}

fn weighed(factors: PathCounts, numbers: PathCounts) -> u64
    ensures { result ≡ min (factors.yes * numbers.yes + factors.no * numbers.no) (2 ^ 64 - 1) }
{
    let yes = factors.yes.saturating_mul(numbers.yes);
    let no = factors.no.saturating_mul(numbers.no);
    yes.saturating_add(no)
}
