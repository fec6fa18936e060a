// The dependencies of a description on other packages, by paths.

ghost use Rattle.std.specs.Prelude.{◌≡◌, ◌++◌, [], ◌∷◌, true, false, not, ◌≤◌, ◌<◌, IfOk, IfErr, OnOk, Some, None, map, flat_map, slice_get};
ghost use Rattle.std.specs.List.{list_any};
ghost use Rattle.plan_types.specs.Refusal.{RefusesAt};
ghost use Rattle.plan_types.specs.declared.refusal.Cause.TheVariants.{TooManyPaths};
ghost use Rattle.flatten.specs.Demands.{demands_of, demands_at, first_with_too_many_paths, outward_among, outward_in, first_among, stanza_of, flat_of, literal_of};
ghost use Rattle.flatten.specs.Ways.{number_of_both, paths_of_both, ways_of};
ghost use Rattle.plan_types.specs.Guarded.{of_group};
ghost use Rattle.impossible_conditions.specs.Outlook.{IsOutlookAt};

use crate::ways::{Ways, ways_of};
use conditionals::{MOST_PATHS, joined_paths};
use impossible_conditions::{Outlook, outlooks};
use plan_types::{
    Cause, CompKind, Component, Dep, DepGroup, Description, Env, Fault, FlagSet, FlatDep, List,
    Literal, NoMemory, PartName, Shared,
};
use std::alloc::Global;

/// A component, and the paths on which it is built.
#[derive(Drop)]
struct BuiltComponent<'a> {
    component: &'a Component,
    ways: &'a Ways,
}

/// One demand for each path of each dependency on another package, in file order. The first dependency with more than
/// 256 paths is refused, at its line.
pub fn demands_of(alloc: Global, d: &Description, env: &Env) -> Result<List<FlatDep>, Fault>
    ensures demands { IfOk result (λ flat. (first_with_too_many_paths env.now d.now ≡ None)
        × (flat ≡ demands_of env.now d.now)) }
    ensures refused { IfErr result (RefusesAt (λ line cause. (cause ≡ TooManyPaths)
        × (first_with_too_many_paths env.now d.now ≡ Some line))) }
{
    let mut flat = List::new(alloc);
    for component in d.components.as_slice() {
        push_component(alloc, &mut flat, component, env)?;
    }
    Ok(flat)
}

fn asks_others(component: &Component) -> bool
    ensures { result ≡ list_any (λ guarded. not guarded.dep.internal) component.now.build.deps }
{
    some_has_others(component.build.groups())
}

fn some_has_others(groups: &[DepGroup]) -> bool
    ensures { result ≡ list_any (λ group. list_any (λ dep. not dep.internal) group.deps) groups.now }
{
    groups.iter().any(|group| has_others(group))
}

fn has_others(group: &DepGroup) -> bool
    ensures { result ≡ list_any (λ dep. not dep.internal) group.now.deps }
{
    group.deps.as_slice().iter().any(|dep| !dep.get().internal)
}

// The demands of a component. The outlooks of all its conditions are computed once.
fn push_component(
    alloc: Global,
    flat: &mut List<FlatDep>,
    component: &Component,
    env: &Env,
) -> Result<(), Fault>
    ensures none_beyond { OnOk result (first_among env.now (outward_in component.now) ≡ None) }
    ensures demands { OnOk result (flat.new
        ≡ flat.old ++ flat_map (demands_at env.now) (outward_in component.now)) }
    ensures refused { IfErr result (RefusesAt (λ line cause. (cause ≡ TooManyPaths)
        × (first_among env.now (outward_in component.now) ≡ Some line))) }
{
    if !asks_others(component) {
        return Ok(());
    }
    let (conds, place, groups) = component.build.tabled();
    let outlooks = outlooks(alloc, conds, env)?;
    let ways = ways_of(alloc, component.build.buildable(), &outlooks, place, env)?;
    let built = BuiltComponent {
        component,
        ways: &ways,
    };
    for group in groups {
        push_group(alloc, flat, &built, group, &outlooks, env)?;
    }
    Ok(())
}

// The demands of one group. The paths of its condition are computed once.
fn push_group(
    alloc: Global,
    flat: &mut List<FlatDep>,
    built: &BuiltComponent<'_>,
    group: &DepGroup,
    outlooks: &[Outlook],
    env: &Env,
) -> Result<(), Fault>
    requires ways { built.now.ways.now ≡ ways_of env.now built.now.component.now.build.buildable }
    requires known { IsOutlookAt env.now group.now.when outlooks.now group.now.number }
    ensures none_beyond { OnOk result (first_among env.now
        (outward_among built.now.component.now (of_group group.now)) ≡ None) }
    ensures demands { OnOk result (flat.new
        ≡ flat.old ++ flat_map (demands_at env.now) (outward_among built.now.component.now (of_group group.now))) }
    ensures refused { IfErr result (RefusesAt (λ line cause. (cause ≡ TooManyPaths)
        × (first_among env.now (outward_among built.now.component.now (of_group group.now)) ≡ Some line))) }
{
    if !has_others(group) {
        return Ok(());
    }
    let met = ways_of(alloc, group.when.get(), outlooks, group.number, env)?;
    for dep in group.deps.as_slice() {
        if !dep.get().internal {
            push_demands(alloc, flat, built.component.kind, built.ways, &met, dep)?;
        }
    }
    Ok(())
}

// The demands of one dependency: the component's paths joined with those of its own condition.
fn push_demands(
    alloc: Global,
    flat: &mut List<FlatDep>,
    kind: CompKind,
    ways: &Ways,
    met: &Ways,
    dep: &Shared<Dep>,
) -> Result<(), Fault>
    ensures within { OnOk result (number_of_both ways.now met.now ≤ 256) }
    ensures demands { OnOk result (flat.new ≡ flat.old ++ map (flat_of kind dep.now) (paths_of_both ways.now met.now)) }
    ensures refused { IfErr result (RefusesAt (λ line cause. (cause ≡ TooManyPaths) × (line ≡ dep.now.line)
        × (256 < number_of_both ways.now met.now))) }
{
    let number = ways.number.saturating_mul(met.number);
    if MOST_PATHS < number {
        return Err(Fault::At {
            line: dep.get().line,
            cause: Cause::TooManyPaths,
        });
    }
    if number == 0 {
        return Ok(());
    }
    for path in joined_paths(alloc, &ways.paths, &met.paths)?.into_vec() {
        flat.push(flat_of(alloc, kind, path, dep)?)?;
    }
    Ok(())
}

// A dependency under one path.
fn flat_of(
    alloc: Global,
    kind: CompKind,
    path: List<FlagSet>,
    dep: &Shared<Dep>,
) -> Result<FlatDep, NoMemory>
    ensures { IfOk result (λ flat. flat ≡ flat_of kind dep.now path) }
{
    let mut when = stanza_of(alloc, kind)?;
    push_settings(&mut when, path)?;
    let dep = dep.copy()?;
    Ok(FlatDep { when, dep })
}

// The stanza that has to be on for a component to be built.
fn stanza_of(alloc: Global, kind: CompKind) -> Result<List<Literal>, NoMemory>
    ensures { IfOk result (λ stanza. stanza ≡ stanza_of kind) }
{
    match kind {
        CompKind::Library => Ok(List::new(alloc)),
        CompKind::Executable => Ok(List::new(alloc)),
        CompKind::Foreign => Ok(List::new(alloc)),
        CompKind::Test => on(alloc, PartName::Tests),
        CompKind::Bench => on(alloc, PartName::Benches),
    }
}

fn on(alloc: Global, part: PartName) -> Result<List<Literal>, NoMemory>
    ensures { IfOk result (λ literals. literals ≡ record { part = part; on = true } ∷ []) }
{
    let mut literals = List::new(alloc);
    literals.push(Literal { part, on: true })?;
    Ok(literals)
}

fn push_settings(when: &mut List<Literal>, path: List<FlagSet>) -> Result<(), NoMemory>
    ensures { OnOk result (when.new ≡ when.old ++ map literal_of path) }
{
    for setting in path.into_vec() {
        when.push(Literal {
            part: PartName::Flag(setting.name),
            on: setting.on,
        })?;
    }
    Ok(())
}
