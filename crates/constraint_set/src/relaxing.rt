// Whose ranges a project relaxes, kept by name.
ghost use Rattle.std.specs.Prelude.{◌≡◌, ◌++◌, [], ◌∷◌, IfOk, OnOk, if◌then◌else◌};
ghost use Rattle.std.specs.List.{list_any};
ghost use Rattle.qualified_goals.specs.Names.{Name};
ghost use Rattle.plan_types.specs.Bytes.{same_text};
ghost use Rattle.keyed_lists.specs.Lists.{items_at};
ghost use Rattle.constraint_set.specs.Relaxed.{is_owner, is_version};
ghost use Rattle.constraint_set.specs.Relaxing.{AddsOwner, AddsRelax, RelaxesAs, is_relaxing};

use indexmap::IndexMap;
use keyed_lists::{Lists, items_at, push_at};
use plan_types::{Instance, NoMemory, Relax, RelaxOwner, Text, Version, drop_fields};
use std::alloc::Global;

/// Whose ranges are relaxed.
#[derive(Debug)]
pub(crate) struct Relaxing {
    /// Whether all ranges of all packages are relaxed.
    pub everything: bool,
    /// Owners whose ranges are all relaxed, by the owner's name.
    pub owners: Lists<Text, RelaxOwner>,
    /// Owners whose ranges on one dependency are relaxed, by the dependency's name.
    pub dependencies: Lists<Text, RelaxOwner>,
}

impl Drop for Relaxing {
    fn drop(self) {
        drop_fields!(self; everything, owners, dependencies);
    }
}

impl Relaxing {
    /// What some settings of a project relax.
    pub(crate) fn of(alloc: Global, relaxed: &[Relax]) -> Result<Relaxing, NoMemory>
        ensures { IfOk result (RelaxesAs relaxed.now) }
    {
        let mut kept = Relaxing {
            everything: false,
            owners: IndexMap::new(alloc),
            dependencies: IndexMap::new(alloc),
        };
        for relax in relaxed {
            kept.add(alloc, relax)?;
        }
        Ok(kept)
    }

    fn add(&mut self, alloc: Global, relax: &Relax) -> Result<(), NoMemory>
        ensures { OnOk result (AddsRelax self.old self.new relax.now) }
    {
        match &relax.dep {
            Some(dep) => push_owner(alloc, &mut self.dependencies, dep, &relax.owner),
            None => self.add_owner(alloc, &relax.owner),
        }
    }

    fn add_owner(&mut self, alloc: Global, owner: &RelaxOwner) -> Result<(), NoMemory>
        ensures { OnOk result (AddsOwner self.old self.new owner.now) }
    {
        match owner {
            RelaxOwner::Any => {
                self.everything = true;
                Ok(())
            }
            RelaxOwner::Package(name) => push_owner(alloc, &mut self.owners, name, owner),
            RelaxOwner::Release(name, _) => push_owner(alloc, &mut self.owners, name, owner),
        }
    }

    /// Whether the dependencies of an instance on a package are relaxed.
    pub(crate) fn relaxes(&self, owner: &Instance, dep: &Text) -> bool
        ensures { result ≡ is_relaxing self.now owner.now dep.now }
    {
        self.everything
            || is_one_of(items_at(&self.owners, &owner.name), owner)
            || is_one_of(items_at(&self.dependencies, dep), owner)
    }
}

fn push_owner(
    alloc: Global,
    lists: &mut Lists<Text, RelaxOwner>,
    name: &Text,
    owner: &RelaxOwner,
) -> Result<(), NoMemory>
    ensures { OnOk result ((k : Name) → items_at same_text lists.new k
        ≡ items_at same_text lists.old k ++ (if same_text name.now k then owner.now ∷ [] else [])) }
{
    let key = name.copy()?;
    let owner = copied_owner(alloc, owner)?;
    push_at(alloc, lists, key, owner)
}

fn is_one_of(owners: &[RelaxOwner], instance: &Instance) -> bool
    ensures { result ≡ list_any (λ o. is_owner o instance.now) owners.now }
{
    owners.iter().any(|owner| is_owner(owner, instance))
}

fn is_owner(owner: &RelaxOwner, instance: &Instance) -> bool
    ensures { result ≡ is_owner owner.now instance.now }
{
    match owner {
        RelaxOwner::Any => true,
        RelaxOwner::Package(name) => *name == instance.name,
        RelaxOwner::Release(name, version) => {
            *name == instance.name && is_version(version, &instance.version)
        }
    }
}

fn is_version(version: &Version, other: &Version) -> bool
    ensures { result ≡ is_version version.now other.now }
{
    version.parts.as_slice() == other.parts.as_slice()
}

fn copied_owner(alloc: Global, owner: &RelaxOwner) -> Result<RelaxOwner, NoMemory>
    ensures { IfOk result (λ copy. copy ≡ owner.now) }
{
    match owner {
        RelaxOwner::Any => Ok(RelaxOwner::Any),
        RelaxOwner::Package(name) => {
            let name = name.copy()?;
            Ok(RelaxOwner::Package(name))
        }
        RelaxOwner::Release(name, version) => {
            let name = name.copy()?;
            let version = version.copy(alloc)?;
            Ok(RelaxOwner::Release(name, version))
        }
    }
}
