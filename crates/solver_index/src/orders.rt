// The orders in which the instances of packages are tried.
ghost use Rattle.std.specs.Prelude.{◌≡◌, IfOk, map};
ghost use Rattle.solver_index.specs.Orders.{AreOrders, IsOrderOf, policy_of};
ghost use Rattle.solver_index.specs.Preferred.{ArePreferred};

use crate::preferred::{RangesByName, ranges_by_name, ranges_for};
use plan_types::{Entry, Instance, List, NoMemory, Package, Project};
use preferences::{Policy, order};
use std::alloc::Global;

/// The order in which the instances of each package are tried.
pub(crate) fn orders_of(
    alloc: Global,
    packages: &[Package],
    project: &Project,
) -> Result<List<List<u64>>, NoMemory>
    ensures { IfOk result (AreOrders project.now packages.now) }
{
    let preferred = ranges_by_name(alloc, project.preferences.as_slice())?;
    let mut orders = List::new(alloc);
    for found in packages {
        orders.push(instance_order(alloc, found, project, &preferred)?)?;
    }
    Ok(orders)
}

fn instance_order(
    alloc: Global,
    found: &Package,
    project: &Project,
    preferred: &RangesByName,
) -> Result<List<u64>, NoMemory>
    requires { ArePreferred project.now preferred.now }
    ensures { IfOk result (IsOrderOf project.now found.now) }
{
    let instances = instances_of(alloc, found.entries.as_slice())?;
    let preferred = ranges_for(alloc, preferred, &found.name)?;
    let policy = policy_of(project, found);
    order(alloc, &instances, &preferred, policy)
}

fn instances_of(alloc: Global, entries: &[Entry]) -> Result<List<Instance>, NoMemory>
    ensures { IfOk result (λ instances. instances ≡ map (λ e. e.instance) entries.now) }
{
    let mut instances = List::new(alloc);
    for entry in entries {
        instances.push(copied(alloc, &entry.instance)?)?;
    }
    Ok(instances)
}

fn copied(alloc: Global, instance: &Instance) -> Result<Instance, NoMemory>
    ensures { IfOk result (λ copy. copy ≡ instance.now) }
{
    let name = instance.name.copy()?;
    let version = instance.version.copy(alloc)?;
    let unit = instance.unit.copy()?;
    Ok(Instance {
        name,
        version,
        origin: instance.origin,
        unit,
    })
}

fn policy_of(project: &Project, found: &Package) -> Policy
    ensures { result ≡ policy_of project.now found.now }
{
    if project.prefer_oldest {
        Policy::Oldest
    } else if found.local || found.extra {
        Policy::Latest
    } else {
        Policy::Installed
    }
}
