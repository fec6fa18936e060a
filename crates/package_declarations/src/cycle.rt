// Cycles among the components of a package.

ghost use Rattle.std.specs.Prelude.{◌≡◌, ◌++◌, ◌∷◌, [], if◌then◌else◌, map, flat_map, IfOk, OnOk};
ghost use Rattle.component_cycle.specs.Cycle.{IsFirstOnCycle};
ghost use Rattle.package_declarations.specs.Cycles.{needs};
ghost use Rattle.stanza_imports.specs.Names.{has, with_name};
ghost use Rattle.package_declarations.specs.Numbers.{Numbered, number_at, number_beside, needs_by, targets_by};
ghost use Rattle.plan_types.specs.Packages.{library_name};

use component_cycle::first_on_cycle;
use plan_types::{Component, Dep, DepGroup, DepKind, LibName, List, NoMemory};
use stanza_imports::NameSet;
use std::alloc::Global;

/// The number of the first component that is on a cycle of needs.
pub fn first_circular(alloc: Global, components: &[Component]) -> Result<Option<usize>, NoMemory>
    ensures { IfOk result (IsFirstOnCycle (needs components.now)) }
{
    let needs = needs(alloc, components)?;
    first_on_cycle(alloc, needs.as_slice())
}

/// For each component the numbers of those that it needs.
fn needs(alloc: Global, components: &[Component]) -> Result<Vec<List<usize>>, NoMemory>
    ensures { IfOk result (λ found. found.items ≡ needs components.now) }
{
    let numbers = Numbers::of(alloc, components)?;
    numbers.needs(alloc, components)
}

/// The number of the first component of each name.
#[derive(Drop)]
struct Numbers<'a> {
    names: NameSet<'a>,
    numbers: Vec<usize>,
}

impl<'a> Numbers<'a> {
    fn of(alloc: Global, components: &'a [Component]) -> Result<Numbers<'a>, NoMemory>
        ensures { IfOk result (λ table. Numbered table.names table.numbers.items components.now) }
    {
        let mut table = Numbers {
            names: NameSet::new(alloc),
            numbers: Vec::new(alloc),
        };
        for (number, component) in components.iter().enumerate() {
            table.add(component.name.as_str(), number)?;
        }
        Ok(table)
    }

    fn add(&mut self, name: &'a str, number: usize) -> Result<(), NoMemory>
        ensures names { OnOk result (self.new.names ≡ with_name self.old.names name.now) }
        ensures numbers { OnOk result (self.new.numbers.items
            ≡ (if has self.old.names name.now then self.old.numbers.items else self.old.numbers.items ++ number ∷ [])) }
    {
        if self.names.insert(name)? {
            self.numbers.push(number)?;
        }
        Ok(())
    }

    fn number_of(&self, name: &str) -> Option<usize>
        ensures { result ≡ number_beside self.now.names self.now.numbers.items name.now }
    {
        match self.names.number_of(name) {
            Some(place) => self.numbers.get(place).copied(),
            None => None,
        }
    }

    fn needs(&self, alloc: Global, components: &[Component]) -> Result<Vec<List<usize>>, NoMemory>
        ensures { IfOk result (λ found. found.items ≡ map (needs_by (number_at self.now)) components.now) }
    {
        let mut needs = Vec::new(alloc);
        for component in components {
            needs.push(self.needs_of(alloc, component)?)?;
        }
        Ok(needs)
    }

    fn needs_of(&self, alloc: Global, component: &Component) -> Result<List<usize>, NoMemory>
        ensures { IfOk result (λ found. found ≡ needs_by (number_at self.now) component.now) }
    {
        let mut found = List::new(alloc);
        for group in component.build.groups() {
            self.push_group(group, &mut found)?;
        }
        Ok(found)
    }

    fn push_group(&self, group: &DepGroup, found: &mut List<usize>) -> Result<(), NoMemory>
        ensures { OnOk result (found.new ≡ found.old ++ flat_map (targets_by (number_at self.now)) group.now.deps) }
    {
        for dep in group.deps.as_slice() {
            self.push_targets(dep.get(), found)?;
        }
        Ok(())
    }

    fn push_targets(&self, dep: &Dep, found: &mut List<usize>) -> Result<(), NoMemory>
        ensures { OnOk result (found.new ≡ found.old ++ targets_by (number_at self.now) dep.now) }
    {
        if !dep.internal {
            return Ok(());
        }
        match dep.kind {
            DepKind::Library => self.push_libraries(dep.libs.as_slice(), found),
            DepKind::Tool => self.push(dep.exe.as_str(), found),
            DepKind::Setup => Ok(()),
        }
    }

    fn push_libraries(&self, libs: &[LibName], found: &mut List<usize>) -> Result<(), NoMemory>
        ensures { OnOk result (found.new ≡ found.old ++ flat_map (λ l. number_at self.now (library_name l)) libs.now) }
    {
        for lib in libs {
            self.push(lib.as_str(), found)?;
        }
        Ok(())
    }

    fn push(&self, name: &str, found: &mut List<usize>) -> Result<(), NoMemory>
        ensures { OnOk result (found.new ≡ found.old ++ number_at self.now name.now) }
    {
        match self.number_of(name) {
            Some(number) => found.push(number),
            None => Ok(()),
        }
    }
}
