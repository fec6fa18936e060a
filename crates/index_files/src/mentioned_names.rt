// The names on which descriptions and releases depend.
ghost use Rattle.std.specs.Prelude.{◌≡◌, map, flat_map, OnOk};
ghost use Rattle.flatten.specs.Demands.{outward_among, outward_in};
ghost use Rattle.plan_types.specs.Guarded.{of_group};
ghost use Rattle.plan_types.specs.declared.description.Component.{Component};
ghost use Rattle.flatten.specs.Sound.{asked_packages};
ghost use Rattle.index_files.specs.Releases.{asked_by, asked_in, outward_name};
ghost use Rattle.index_files.specs.Names.{put_all};

use crate::names::put;
use crate::release::{Judged, Release};
use indexmap::IndexSet;
use plan_types::{Component, Dep, DepGroup, Description, NoMemory, Text};

/// Adds the names on which releases depend.
pub(crate) fn put_asked(names: &mut IndexSet<Text>, releases: &[Release]) -> Result<(), NoMemory>
    ensures { OnOk result (names.new.keys ≡ put_all names.old.keys (asked_in releases.now)) }
{
    for release in releases {
        put_asked_by(names, &release.judged)?;
    }
    Ok(())
}

fn put_asked_by(names: &mut IndexSet<Text>, judged: &Judged) -> Result<(), NoMemory>
    ensures { OnOk result (names.new.keys ≡ put_all names.old.keys (asked_by judged.now)) }
{
    match judged {
        Judged::Readable(source) => put_asked_packages(names, &source.description),
        Judged::Faulty { .. } => Ok(()),
    }
}

/// Adds the names of the packages on which a description depends.
pub(crate) fn put_asked_packages(
    names: &mut IndexSet<Text>,
    d: &Description,
) -> Result<(), NoMemory>
    ensures { OnOk result (names.new.keys ≡ put_all names.old.keys (asked_packages d.now)) }
{
    put_outward(names, d.components.as_slice())?;
    put_packages(names, d.setup.as_slice())
}

fn put_outward(names: &mut IndexSet<Text>, components: &[Component]) -> Result<(), NoMemory>
    ensures { OnOk result (names.new.keys
        ≡ put_all names.old.keys (map outward_name (flat_map outward_in components.now))) }
{
    for component in components {
        put_component(names, component)?;
    }
    Ok(())
}

fn put_component(names: &mut IndexSet<Text>, component: &Component) -> Result<(), NoMemory>
    ensures { OnOk result (names.new.keys ≡ put_all names.old.keys (map outward_name (outward_in component.now))) }
{
    for group in component.build.groups() {
        put_group(names, group)?;
    }
    Ok(())
}

fn put_group(names: &mut IndexSet<Text>, group: &DepGroup) -> Result<(), NoMemory>
    ensures { OnOk result ((component : Component)
        → names.new.keys ≡ put_all names.old.keys (map outward_name (outward_among component (of_group group.now)))) }
{
    for dep in group.deps.as_slice() {
        if !dep.get().internal {
            put(names, &dep.get().package)?;
        }
    }
    Ok(())
}

fn put_packages(names: &mut IndexSet<Text>, deps: &[Dep]) -> Result<(), NoMemory>
    ensures { OnOk result (names.new.keys ≡ put_all names.old.keys (map (λ dep. dep.«package») deps.now)) }
{
    for dep in deps {
        put(names, &dep.package)?;
    }
    Ok(())
}
