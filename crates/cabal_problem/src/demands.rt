// The demands of a choice, made from the rows of the tables.
ghost use Rattle.std.specs.Prelude.{◌≡◌, ◌++◌, ◌∷◌, ◌&&◌, [], IfOk, OnOk, flat_map, map};
ghost use Rattle.qualified_goals.specs.declared.variable.Part.TheVariants.{Tests, Benches};
ghost use Rattle.cabal_problem.specs.Variables.{has_kind, is_benchmark, is_suite};
ghost use Rattle.cabal_problem.specs.ListedDemands.{has_stanzas, part_beside, qual_for, setup_if, stanza_demand, stanza_if};
ghost use Rattle.cabal_problem.specs.Rows.{can_be_set, choice_at, dep_row, has_variable, need_demand, setup_demand_to, target_demand};

use crate::values::package_var;
use crate::variables::{has_benchmark, has_suite, is_top};
use choice_problem::{Choice, Demand};
use plan_types::{DepKind, Description, List, NoMemory, Package};
use qualified_goals::{Part, Qual, Var};
use solver_index::{ConditionalDep, Setting, Target, UnitNeed, is_local};
use std::alloc::Global;

/// A part of the owner's package, under its qualifier.
pub(crate) fn part_beside(owner: Choice, part: Part) -> Var
    ensures { result ≡ part_beside owner part }
{
    Var {
        qual: owner.var.qual,
        package: owner.var.package,
        part,
    }
}

pub(crate) fn alone(alloc: Global, owner: Choice) -> Result<List<Choice>, NoMemory>
    ensures { IfOk result (λ when. when ≡ owner ∷ []) }
{
    Ok(List::from_vec(Vec::from_slice(alloc, &[owner])?))
}

// Whether the stanzas of the owner's package have variables.
fn has_stanzas(packages: &[Package], owner: Var) -> bool
    ensures { result ≡ has_stanzas packages.now owner }
{
    is_top(owner.qual) && is_local(packages, owner.package)
}

/// The demands on the stanzas of a local package at top level, the tests first.
pub(crate) fn push_stanzas(
    alloc: Global,
    found: &mut List<Demand>,
    packages: &[Package],
    owner: Choice,
    d: &Description,
) -> Result<(), NoMemory>
    ensures { OnOk result (found.new ≡ found.old
        ++ stanza_if (has_stanzas packages.now owner.var && has_kind is_suite d.now) owner Tests
        ++ stanza_if (has_stanzas packages.now owner.var && has_kind is_benchmark d.now) owner Benches) }
{
    let tests = wants_tests(packages, owner.var, d);
    let benchmarks = wants_benchmarks(packages, owner.var, d);
    push_stanza(alloc, found, tests, owner, Part::Tests)?;
    push_stanza(alloc, found, benchmarks, owner, Part::Benches)
}

fn wants_tests(packages: &[Package], owner: Var, d: &Description) -> bool
    ensures { result ≡ (has_stanzas packages.now owner && has_kind is_suite d.now) }
{
    has_stanzas(packages, owner) && has_suite(d)
}

fn wants_benchmarks(packages: &[Package], owner: Var, d: &Description) -> bool
    ensures { result ≡ (has_stanzas packages.now owner && has_kind is_benchmark d.now) }
{
    has_stanzas(packages, owner) && has_benchmark(d)
}

fn push_stanza(
    alloc: Global,
    found: &mut List<Demand>,
    wanted: bool,
    owner: Choice,
    stanza: Part,
) -> Result<(), NoMemory>
    ensures { OnOk result (found.new ≡ found.old ++ stanza_if wanted owner stanza) }
{
    if wanted {
        found.push(stanza_demand(alloc, owner, stanza)?)?;
    }
    Ok(())
}

fn stanza_demand(alloc: Global, owner: Choice, stanza: Part) -> Result<Demand, NoMemory>
    ensures { IfOk result (λ demand. demand ≡ stanza_demand owner stanza) }
{
    let when = alone(alloc, owner)?;
    let allowed = List::from_vec(Vec::from_slice(alloc, &[0, 1])?);
    Ok(Demand {
        when,
        target: part_beside(owner, stanza),
        allowed,
    })
}

/// The demands of an instance's dependencies, one for each path of a condition.
pub(crate) fn push_deps(
    alloc: Global,
    found: &mut List<Demand>,
    packages: &[Package],
    owner: Choice,
    deps: &[ConditionalDep],
) -> Result<(), NoMemory>
    ensures { OnOk result (found.new ≡ found.old ++ flat_map
        (dep_row (has_stanzas packages.now owner.var) owner) deps.now) }
{
    let stanzas = has_stanzas(packages, owner.var);
    for dep in deps {
        push_dep(alloc, found, owner, stanzas, dep)?;
    }
    Ok(())
}

fn push_dep(
    alloc: Global,
    found: &mut List<Demand>,
    owner: Choice,
    stanzas: bool,
    dep: &ConditionalDep,
) -> Result<(), NoMemory>
    ensures { OnOk result (found.new ≡ found.old ++ dep_row stanzas owner dep.now) }
{
    if can_be_set(stanzas, dep.when.as_slice()) {
        let when = when_of(alloc, owner, dep.when.as_slice())?;
        found.push(target_demand(alloc, owner, when, dep.kind, &dep.target)?)?;
    }
    Ok(())
}

fn can_be_set(stanzas: bool, settings: &[Setting]) -> bool
    ensures { result ≡ can_be_set stanzas settings.now }
{
    settings
        .iter()
        .all(|setting| has_variable(stanzas, setting.part))
}

fn has_variable(stanzas: bool, part: Part) -> bool
    ensures { result ≡ has_variable stanzas part }
{
    match part {
        Part::Package | Part::Flag(_) => true,
        Part::Tests | Part::Benches => stanzas,
    }
}

fn when_of(alloc: Global, owner: Choice, settings: &[Setting]) -> Result<List<Choice>, NoMemory>
    ensures { IfOk result (λ when. when ≡ owner ∷ map (choice_at owner) settings.now) }
{
    let mut when = alone(alloc, owner)?;
    for setting in settings {
        when.push(choice_at(owner, *setting))?;
    }
    Ok(when)
}

fn choice_at(owner: Choice, setting: Setting) -> Choice
    ensures { result ≡ choice_at owner setting }
{
    Choice {
        var: part_beside(owner, setting.part),
        val: setting.val,
    }
}

/// The qualifier under which the package of a dependency is chosen, given the owner's variable.
pub fn qual_for(kind: DepKind, owner: Var, package: u64) -> Qual
    ensures { result ≡ qual_for kind owner «package» }
{
    match kind {
        DepKind::Library => owner.qual,
        DepKind::Tool => Qual::Exe(owner.package, package),
        DepKind::Setup => Qual::Setup(owner.package),
    }
}

fn target_demand(
    alloc: Global,
    owner: Choice,
    when: List<Choice>,
    kind: DepKind,
    target: &Target,
) -> Result<Demand, NoMemory>
    ensures { IfOk result (λ demand. demand ≡ target_demand owner when kind target.now) }
{
    let package = target.package;
    let allowed = target.allowed.places(alloc)?;
    Ok(Demand {
        when,
        target: package_var(qual_for(kind, owner.var, package), package),
        allowed,
    })
}

/// The demands of the setup dependencies, where the instance has a setup script.
pub(crate) fn push_custom(
    alloc: Global,
    found: &mut List<Demand>,
    owner: Choice,
    d: &Description,
    targets: &[Target],
) -> Result<(), NoMemory>
    ensures { OnOk result (found.new ≡ found.old ++ setup_if d.now.custom (map (setup_demand_to owner) targets.now)) }
{
    if d.custom {
        push_setup(alloc, found, owner, targets)?;
    }
    Ok(())
}

fn push_setup(
    alloc: Global,
    found: &mut List<Demand>,
    owner: Choice,
    targets: &[Target],
) -> Result<(), NoMemory>
    ensures { OnOk result (found.new ≡ found.old ++ map (setup_demand_to owner) targets.now) }
{
    for target in targets {
        found.push(setup_demand_to(alloc, owner, target)?)?;
    }
    Ok(())
}

fn setup_demand_to(alloc: Global, owner: Choice, target: &Target) -> Result<Demand, NoMemory>
    ensures { IfOk result (λ demand. demand ≡ setup_demand_to owner target.now) }
{
    let when = alone(alloc, owner)?;
    target_demand(alloc, owner, when, DepKind::Setup, target)
}

/// The demands on the units that an installed unit needs.
pub(crate) fn unit_demands(
    alloc: Global,
    owner: Choice,
    needs: &[UnitNeed],
) -> Result<List<Demand>, NoMemory>
    ensures { IfOk result (λ found. found ≡ map (need_demand owner) needs.now) }
{
    let mut found = List::new(alloc);
    for need in needs {
        found.push(need_demand(alloc, owner, need)?)?;
    }
    Ok(found)
}

fn need_demand(alloc: Global, owner: Choice, need: &UnitNeed) -> Result<Demand, NoMemory>
    ensures { IfOk result (λ demand. demand ≡ need_demand owner need.now) }
{
    let when = alone(alloc, owner)?;
    let allowed = List::from_vec(Vec::from_slice(alloc, need.allowed.as_slice())?);
    Ok(Demand {
        when,
        target: package_var(owner.var.qual, need.package),
        allowed,
    })
}
