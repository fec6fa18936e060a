// A trail of choices as constraints.
ghost use Rattle.std.specs.Prelude.{◌≡◌, ◌++◌, ◌∷◌, [], ℕ, List, IfOk, OnOk};
ghost use Rattle.plan_types.specs.declared.condition.Env.{Env};
ghost use Rattle.plan_types.specs.declared.project.Project.{Project as TheProject};
ghost use Rattle.choice_problem.specs.Trail.{AreNew, value_in};
ghost use Rattle.flatten.specs.Sound.{IsSound};
ghost use Rattle.qualified_goals.specs.Names.{AreNumbers};
ghost use Rattle.cabal_problem.specs.WholeDemands.{IsWholeAssignment};
ghost use Rattle.freeze_text.specs.Reads.{project_with};
ghost use Rattle.frozen_choices.specs.Barred.{BarsNone};
ghost use Rattle.frozen_choices.specs.Frozen.{frozen, is_setup_of, setups_in};
ghost use Rattle.frozen_choices.specs.Plain.{ArePlain};
ghost use Rattle.freeze_file.specs.Steps.{AddsOwner, AreThose, is_setup_in};

use crate::numbers::{add, has};
use crate::packages::Frozen;
use choice_problem::{Choice, Trail};
use freeze_text::project_with;
use frozen_choices::{frozen_bars_none, frozen_is_plain};
use indexmap::IndexSet;
use plan_types::{Constraint, Index, List, NoMemory, Package, Project};
use qualified_goals::{Names, Qual};
use std::alloc::Global;

/// A project with the constraints of a trail, which reproduce its choices, and nothing else.
pub fn freeze(
    alloc: Global,
    trail: &List<Choice>,
    index: &Index,
    names: &Names,
) -> Result<Project, NoMemory>
    requires { AreNew trail.now }
    ensures project { IfOk result (λ project. project ≡ project_with (frozen index.now.packages names.now trail.now)) }
    ensures bars_none { IfOk result (λ made. (env : Env) (project : TheProject) (orders : List (List ℕ))
        → IsSound env index.now → AreNumbers index.now.packages names.now
        → IsWholeAssignment env index.now.packages project names.now orders (value_in trail.now)
        → BarsNone index.now.packages names.now made.constraints trail.now) }
    ensures plain { IfOk result (λ made. (env : Env) (project : TheProject) (orders : List (List ℕ))
        → IsSound env index.now
        → IsWholeAssignment env index.now.packages project names.now orders (value_in trail.now)
        → ArePlain made.constraints) }
{
    frozen_bars_none();
    frozen_is_plain();
    let constraints = frozen(alloc, trail.as_slice(), index.packages.as_slice(), names)?;
    Ok(project_with(alloc, constraints))
}

fn frozen(
    alloc: Global,
    choices: &[Choice],
    packages: &[Package],
    names: &Names,
) -> Result<List<Constraint>, NoMemory>
    requires { AreNew choices.now }
    ensures { IfOk result (λ constraints. constraints ≡ frozen packages.now names.now choices.now) }
{
    let trail = trail_of(alloc, choices)?;
    let setups = setups_in(alloc, packages, choices)?;
    let frozen = Frozen {
        packages,
        names,
        trail: &trail,
        setups: setups.as_slice(),
    };
    let mut constraints = List::new(alloc);
    for p in 0..packages.len() {
        frozen.push_package(alloc, &mut constraints, p as u64)?;
    }
    Ok(constraints)
}

fn trail_of(alloc: Global, choices: &[Choice]) -> Result<Trail, NoMemory>
    requires { AreNew choices.now }
    ensures { IfOk result (λ trail. trail ≡ choices.now) }
{
    let mut trail = Trail::new(alloc);
    for choice in choices {
        trail.push(alloc, *choice)?;
    }
    Ok(trail)
}

// The packages whose setups have choices, in goal order.
fn setups_in(alloc: Global, packages: &[Package], choices: &[Choice]) -> Result<List<u64>, NoMemory>
    ensures { IfOk result (λ setups. setups ≡ setups_in packages.now choices.now) }
{
    let owners = setup_owners(alloc, choices)?;
    let mut setups = List::new(alloc);
    for p in 0..packages.len() {
        if has(&owners, p as u64) {
            setups.push(p as u64)?;
        }
    }
    Ok(setups)
}

fn setup_owners(alloc: Global, choices: &[Choice]) -> Result<IndexSet<u64>, NoMemory>
    ensures { IfOk result (AreThose (is_setup_in choices.now)) }
{
    let mut owners = IndexSet::new(alloc);
    for choice in choices {
        add_owner(&mut owners, choice.var.qual)?;
    }
    Ok(owners)
}

fn add_owner(owners: &mut IndexSet<u64>, qual: Qual) -> Result<(), NoMemory>
    ensures { OnOk result (AddsOwner owners.old owners.new qual) }
{
    match qual {
        Qual::Top => Ok(()),
        Qual::Setup(p) => add(owners, p),
        Qual::Exe(_, _) => Ok(()),
    }
}
