// The orders of releases, units, packages and skipped files.
ghost use Rattle.std.specs.Prelude.{◌≡◌, OnOk};
ghost use Rattle.plan_types.specs.Members.{order};
ghost use Rattle.flatten.specs.Sound.{unit_order};
ghost use Rattle.qualified_goals.specs.Names.{class_of, package_cmp};
ghost use Rattle.index_assembly.specs.Order.{in_order};
ghost use Rattle.index_assembly.specs.Entries.{is_unit_below, is_version_below};
ghost use Rattle.index_assembly.specs.Index.{is_package_below, is_path_below};

use plan_types::{Entry, NoMemory, Package, Skipped};
use std::cmp::Ordering;

/// By version.
pub(crate) fn sort_releases(entries: &mut Vec<Entry>) -> Result<(), NoMemory>
    ensures { OnOk result (entries.new.items ≡ in_order is_version_below entries.old.items) }
{
    entries.sort_by(|one, other| by_version(one, other))?;
    Ok(())
}

/// By version, and then by id.
pub(crate) fn sort_units(entries: &mut Vec<Entry>) -> Result<(), NoMemory>
    ensures { OnOk result (entries.new.items ≡ in_order is_unit_below entries.old.items) }
{
    entries.sort_by(|one, other| by_unit(one, other))?;
    Ok(())
}

/// In goal order.
pub(crate) fn sort_packages(packages: &mut Vec<Package>) -> Result<(), NoMemory>
    ensures { OnOk result (packages.new.items ≡ in_order is_package_below packages.old.items) }
{
    packages.sort_by(|one, other| by_goal(one, other))?;
    Ok(())
}

/// By path.
pub(crate) fn sort_skipped(skipped: &mut Vec<Skipped>) -> Result<(), NoMemory>
    ensures { OnOk result (skipped.new.items ≡ in_order is_path_below skipped.old.items) }
{
    skipped.sort_by(|one, other| one.path.cmp(&other.path))?;
    Ok(())
}

fn by_version(one: &Entry, other: &Entry) -> Ordering
    ensures { result ≡ order one.now.instance.version.parts other.now.instance.version.parts }
{
    one.instance.version.compare(&other.instance.version)
}

fn by_unit(one: &Entry, other: &Entry) -> Ordering
    ensures { result ≡ unit_order one.now other.now }
{
    by_version(one, other).then(one.instance.unit.cmp(&other.instance.unit))
}

fn by_goal(one: &Package, other: &Package) -> Ordering
    ensures { result ≡ package_cmp one.now other.now }
{
    class_of(one)
        .cmp(&class_of(other))
        .then(one.name.cmp(&other.name))
}

fn class_of(found: &Package) -> u8
    ensures { result ≡ class_of found.now }
{
    if found.name.as_str() == "base" {
        0
    } else if found.local {
        1
    } else {
        2
    }
}
