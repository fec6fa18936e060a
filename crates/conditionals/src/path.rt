// The paths of a condition.
ghost use Rattle.std.specs.Prelude.{◌≡◌, ◌≤◌, ◌++◌, ◌∷◌, [], length, map, nat_lt, true, false, IfOk, OnOk};
ghost use Rattle.std.specs.List.{All};
ghost use Rattle.conditionals.specs.Paths.{paths_of, fixed, followed, clean_paths, sets};
ghost use Rattle.conditionals.specs.Steps.{lists_of, swap_lists, join_and, finish, needed, IsSmaller, left_of_and, left_of_or, asked};

use crate::clean::clean;
use crate::count::{PathCounts, numbers_of};
use crate::environment::{is_compiler, is_processor, is_system};
use plan_types::{Cond, Env, FlagSet, List, NoMemory, Text};
use std::alloc::Global;

/// The limit on the paths of a condition. Callers don't ask for the paths of one with more.
pub const MOST_PATHS: u64 = 256;

/// The paths of a condition for true and for false.
#[derive(Drop)]
pub struct BothPaths {
    pub yes: List<List<FlagSet>>,
    pub no: List<List<FlagSet>>,
}

/// Which paths are needed.
#[derive(Clone, Copy)]
pub struct WantedPaths {
    pub yes: bool,
    pub no: bool,
}

/// A pending step from the paths of a left side to those of the whole: the right side, and which paths are needed.
#[derive(Clone, Copy)]
pub enum PathStep<'a> {
    Not,
    And(&'a Cond, WantedPaths),
    Or(&'a Cond, WantedPaths),
}

/// The paths of a condition for true or false. Contradictory paths (a flag on and off) are left out, and each path has
/// a setting only once.
pub fn paths(
    alloc: Global,
    cond: &Cond,
    env: &Env,
    want: bool,
) -> Result<List<List<FlagSet>>, NoMemory>
    requires { length (paths_of env.now cond.now want) ≤ 256 }
    ensures { IfOk result (λ paths. paths ≡ clean_paths (paths_of env.now cond.now want)) }
{
    let need = WantedPaths {
        yes: want,
        no: !want,
    };
    let lists = build(alloc, cond, env, need)?;
    if want {
        clean(alloc, lists.yes)
    } else {
        clean(alloc, lists.no)
    }
}

/// Each path of the first followed by each of the second. Contradictory paths are left out, and each path has a
/// setting only once.
pub fn joined_paths(
    alloc: Global,
    first: &List<List<FlagSet>>,
    second: &List<List<FlagSet>>,
) -> Result<List<List<FlagSet>>, NoMemory>
    ensures { IfOk result (λ paths. paths ≡ clean_paths (followed first.now second.now)) }
{
    let mut paths = List::new(alloc);
    push_joined(alloc, &mut paths, first, second)?;
    clean(alloc, paths)
}

fn build(alloc: Global, cond: &Cond, env: &Env, need: WantedPaths) -> Result<BothPaths, NoMemory>
    ensures { IfOk result (λ lists. lists ≡ lists_of env.now cond.now need) }
{
    let mut steps = Vec::new(alloc);
    let mut lists = first(alloc, &mut steps, cond, env, need)?;
    while let Some(step) = steps.pop() {
        match step {
            PathStep::Not => lists = swapped(lists),
            PathStep::And(right, need) => {
                let right = build(alloc, right, env, asked(need, &lists.yes))?;
                lists = and(alloc, lists, right, need)?;
            }
            // `a || b` is `!(!a && !b)`.
            PathStep::Or(right, need) => {
                let right = swapped(build(alloc, right, env, asked(need, &lists.no))?);
                let left = swapped(lists);
                lists = swapped(and(alloc, left, right, negated(need))?);
            }
        }
    }
    Ok(lists)
}

// The lists of the leftmost test. A loop pushes the steps, as left operands may nest as deep as a file is long. A list
// that is joined only with empty ones isn't built: it may be longer than any that is needed.
fn first<'a>(
    alloc: Global,
    steps: &mut Vec<PathStep<'a>>,
    cond: &'a Cond,
    env: &Env,
    need: WantedPaths,
) -> Result<BothPaths, NoMemory>
    requires { steps.old.items ≡ [] }
    ensures lists { IfOk result (λ lists.
        finish env.now steps.new.items lists ≡ lists_of env.now cond.now need) }
    ensures smaller { OnOk result (All (IsSmaller cond.now) steps.new.items) }
{
    let mut left = cond;
    let mut need = need;
    loop {
        match left {
            Cond::Always => return test(alloc, true, need),
            Cond::Never => return test(alloc, false, need),
            Cond::Flag(name) => return flag(alloc, name, need),
            Cond::Os(name) => return test(alloc, is_system(env, name), need),
            Cond::Arch(name) => return test(alloc, is_processor(env, name), need),
            Cond::Impl(name, range) => {
                return test(alloc, is_compiler(env, name, range), need);
            }
            Cond::Not(inner) => {
                steps.push(PathStep::Not)?;
                need = negated(need);
                left = inner.get();
            }
            Cond::And(l, r) => {
                steps.push(PathStep::And(r.get(), need))?;
                need = left_of_and(need, numbers_of(r.get(), env));
                left = l.get();
            }
            Cond::Or(l, r) => {
                steps.push(PathStep::Or(r.get(), need))?;
                need = left_of_or(need, numbers_of(r.get(), env));
                left = l.get();
            }
        }
    }
}

// What is needed of the negated condition.
fn negated(need: WantedPaths) -> WantedPaths
    ensures { result ≡ record { yes = need.no; no = need.yes } }
{
    WantedPaths {
        yes: need.no,
        no: need.yes,
    }
}

fn left_of_and(need: WantedPaths, right: PathCounts) -> WantedPaths
    ensures { result ≡ left_of_and need (nat_lt 0 right.yes) (nat_lt 0 right.no) }
{
    WantedPaths {
        yes: (need.yes && 0 < right.yes) || (need.no && 0 < right.no),
        no: need.no,
    }
}

fn left_of_or(need: WantedPaths, right: PathCounts) -> WantedPaths
    ensures { result ≡ left_of_or need (nat_lt 0 right.yes) (nat_lt 0 right.no) }
{
    WantedPaths {
        yes: need.yes,
        no: (need.yes && 0 < right.yes) || (need.no && 0 < right.no),
    }
}

fn asked(need: WantedPaths, left: &List<List<FlagSet>>) -> WantedPaths
    ensures { result ≡ asked need left.now }
{
    match left.as_slice() {
        [] => WantedPaths {
            yes: false,
            no: false,
        },
        [_, ..] => need,
    }
}

fn test(alloc: Global, is_true: bool, need: WantedPaths) -> Result<BothPaths, NoMemory>
    ensures { IfOk result (λ lists. lists ≡ record {
      yes = needed need.yes (fixed is_true true);
      no = needed need.no (fixed is_true false);
    }) }
{
    let mut yes = List::new(alloc);
    let mut no = List::new(alloc);
    if need.yes && is_true {
        yes.push(List::new(alloc))?;
    }
    if need.no && !is_true {
        no.push(List::new(alloc))?;
    }
    Ok(BothPaths { yes, no })
}

fn flag(alloc: Global, name: &Text, need: WantedPaths) -> Result<BothPaths, NoMemory>
    ensures { IfOk result (λ lists. lists ≡ record {
      yes = needed need.yes ((sets name.now true ∷ []) ∷ []);
      no = needed need.no ((sets name.now false ∷ []) ∷ []);
    }) }
{
    let yes = setting(alloc, name, true, need.yes)?;
    let no = setting(alloc, name, false, need.no)?;
    Ok(BothPaths { yes, no })
}

fn setting(
    alloc: Global,
    name: &Text,
    on: bool,
    is_needed: bool,
) -> Result<List<List<FlagSet>>, NoMemory>
    ensures { IfOk result (λ paths. paths ≡ needed is_needed ((sets name.now on ∷ []) ∷ [])) }
{
    let mut paths = List::new(alloc);
    if is_needed {
        let mut path = List::new(alloc);
        let name = name.copy()?;
        path.push(FlagSet { name, on })?;
        paths.push(path)?;
    }
    Ok(paths)
}

fn swapped(lists: BothPaths) -> BothPaths
    ensures { result ≡ swap_lists lists }
{
    let BothPaths { yes, no } = lists;
    BothPaths { yes: no, no: yes }
}

fn and(
    alloc: Global,
    left: BothPaths,
    right: BothPaths,
    need: WantedPaths,
) -> Result<BothPaths, NoMemory>
    ensures { IfOk result (λ lists. lists ≡ join_and need left right) }
{
    let BothPaths { yes, no } = left;
    let no = if need.no {
        let mut no = no;
        push_joined(alloc, &mut no, &yes, &right.no)?;
        no
    } else {
        List::new(alloc)
    };
    let yes = if need.yes {
        followed(alloc, yes, &right.yes)?
    } else {
        List::new(alloc)
    };
    Ok(BothPaths { yes, no })
}

// Each path of the first followed by each of the second. A path is moved for its last continuation and copied for the
// others, so the paths of a long chain grow in place.
fn followed(
    alloc: Global,
    first: List<List<FlagSet>>,
    second: &List<List<FlagSet>>,
) -> Result<List<List<FlagSet>>, NoMemory>
    ensures { IfOk result (λ paths. paths ≡ followed first second.now) }
{
    let mut paths = List::new(alloc);
    for path in first.into_vec() {
        push_followed(alloc, &mut paths, path, second.as_slice())?;
    }
    Ok(paths)
}

fn push_followed(
    alloc: Global,
    paths: &mut List<List<FlagSet>>,
    path: List<FlagSet>,
    nexts: &[List<FlagSet>],
) -> Result<(), NoMemory>
    ensures { OnOk result (paths.new ≡ paths.old ++ map (λ next. path ++ next) nexts.now) }
{
    let mut path = path;
    match nexts.split_last() {
        None => Ok(()),
        Some((last, front)) => {
            push_copies(alloc, paths, &path, front)?;
            push_settings(&mut path, last)?;
            paths.push(path)
        }
    }
}

// Appends each path of the first followed by each of the second.
fn push_joined(
    alloc: Global,
    paths: &mut List<List<FlagSet>>,
    first: &List<List<FlagSet>>,
    second: &List<List<FlagSet>>,
) -> Result<(), NoMemory>
    ensures { OnOk result (paths.new ≡ paths.old ++ followed first.now second.now) }
{
    for path in first.as_slice() {
        push_copies(alloc, paths, path, second.as_slice())?;
    }
    Ok(())
}

fn push_copies(
    alloc: Global,
    paths: &mut List<List<FlagSet>>,
    path: &List<FlagSet>,
    nexts: &[List<FlagSet>],
) -> Result<(), NoMemory>
    ensures { OnOk result (paths.new ≡ paths.old ++ map (λ next. path.now ++ next) nexts.now) }
{
    for next in nexts {
        let mut longer = List::new(alloc);
        push_settings(&mut longer, path)?;
        push_settings(&mut longer, next)?;
        paths.push(longer)?;
    }
    Ok(())
}

fn push_settings(path: &mut List<FlagSet>, next: &List<FlagSet>) -> Result<(), NoMemory>
    ensures { OnOk result (path.new ≡ path.old ++ next.now) }
{
    for setting in next.as_slice() {
        let name = setting.name.copy()?;
        path.push(FlagSet {
            name,
            on: setting.on,
        })?;
    }
    Ok(())
}
