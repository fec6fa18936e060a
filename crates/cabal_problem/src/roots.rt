// The demands without condition.
ghost use Rattle.std.specs.Prelude.{◌≡◌, ◌++◌, IfOk, OnOk, map};
ghost use Rattle.cabal_problem.specs.ListedDemands.{extra_root, local_root, local_roots};

use crate::values::package_var;
use choice_problem::Demand;
use plan_types::{List, Named, NoMemory, Package};
use qualified_goals::{Names, Qual};
use solver_index::{allowed_in, number, rising};
use std::alloc::Global;

/// The demands on the local packages, then those on the extra ones.
pub(crate) fn roots_of(
    alloc: Global,
    packages: &[Package],
    names: &Names,
    extra: &[Named],
) -> Result<List<Demand>, NoMemory>
    ensures { IfOk result (λ roots. roots
        ≡ local_roots packages.now ++ map (extra_root packages.now names.now) extra.now) }
{
    let mut roots = local_roots(alloc, packages)?;
    for named in extra {
        roots.push(extra_root(alloc, packages, names, named)?)?;
    }
    Ok(roots)
}

fn local_roots(alloc: Global, packages: &[Package]) -> Result<List<Demand>, NoMemory>
    ensures { IfOk result (λ roots. roots ≡ local_roots packages.now) }
{
    let mut roots = List::new(alloc);
    for (place, found) in packages.iter().enumerate() {
        if found.local {
            roots.push(local_root(alloc, packages, place as u64)?)?;
        }
    }
    Ok(roots)
}

fn local_root(alloc: Global, packages: &[Package], p: u64) -> Result<Demand, NoMemory>
    ensures { IfOk result (λ root. root ≡ local_root packages.now p) }
{
    let allowed = rising(alloc, Package::entries_at(packages, p).len())?;
    Ok(Demand {
        when: List::new(alloc),
        target: package_var(Qual::Top, p),
        allowed,
    })
}

fn extra_root(
    alloc: Global,
    packages: &[Package],
    names: &Names,
    named: &Named,
) -> Result<Demand, NoMemory>
    ensures { IfOk result (λ root. root ≡ extra_root packages.now names.now named.now) }
{
    let package = number(packages, names, &named.name);
    let allowed = allowed_in(alloc, &named.range, Package::entries_at(packages, package))?;
    Ok(Demand {
        when: List::new(alloc),
        target: package_var(Qual::Top, package),
        allowed,
    })
}
