// The components of a package.

ghost use Rattle.std.specs.Prelude.{◌≡◌, List, map, flat_map, All, unwrap_or, IfOk};
ghost use Rattle.plan_types.specs.declared.condition.Cond.{Cond};
ghost use Rattle.section_syntax.specs.declared.branch.Branch.{Branch};
ghost use Rattle.section_syntax.specs.declared.part.File.{File};
ghost use Rattle.section_syntax.specs.declared.part.Section.{Section};
ghost use Rattle.package_declarations.specs.Components.{barrier, component, components, guarded, is_public, visibility_of};
ghost use Rattle.package_declarations.specs.Gathering.{RepresentsState, deps_in};
ghost use Rattle.section_syntax.specs.Chained.{AreSectionParts};
ghost use Rattle.stanza_imports.specs.Bodies.{table, built_component, placed_part, AreBodiesOf};
ghost use Rattle.package_declarations.specs.DeclaredNames.{RepresentsNames};

use crate::declarations::Declared;
use crate::gathered::Gathered;
use plan_types::{Component, List, NoMemory};
use section_syntax::Said;
use stanza_imports::{Bodies, Built, Placed, Stanzas};
use std::alloc::Global;

/// The components, in file order.
pub fn components(
    alloc: Global,
    declared: &Declared,
    bodies: &Bodies,
) -> Result<List<Component>, NoMemory>
    ensures { IfOk result (λ found. (file : File) → RepresentsNames declared.now file
        → AreBodiesOf file.sections bodies.now
        → All (λ section. AreSectionParts section.parts) file.sections → found ≡ components file) }
{
    let mut components = List::new(alloc);
    for one in bodies.built.as_slice() {
        components.push(component(alloc, declared, &bodies.stanzas, one)?)?;
    }
    Ok(components)
}

fn component<'a>(
    alloc: Global,
    declared: &Declared,
    stanzas: &Stanzas<'a>,
    built: &Built<'a>,
) -> Result<Component, NoMemory>
    ensures { IfOk result (λ found. (file : File) → RepresentsNames declared.now file
        → AreSectionParts (built_component (table stanzas.now.bodies.items) built.now).section.parts
        → found ≡ component file (built_component (table stanzas.now.bodies.items) built.now).section built.now.kind) }
{
    let placed = stanzas.replaced(alloc, &built.body)?;
    let name = built.section.name.copy()?;
    let public = built.is_named_library() && is_public(placed.as_slice());
    let gathered = gathered(alloc, declared, placed.as_slice())?;
    let build = gathered.into_build(alloc)?;
    Ok(Component {
        line: built.section.line,
        kind: built.kind,
        name,
        public,
        build,
    })
}

/// The last `visibility` outside of branches counts.
fn is_public(placed: &[Placed]) -> bool
    ensures { result ≡ is_public (map placed_part placed.now) }
{
    let mut public = false;
    for one in placed {
        public = visibility(one, public);
    }
    public
}

/// The visibility that a part gives, if it does, else the former one.
fn visibility(placed: &Placed, public: bool) -> bool
    ensures { result ≡ unwrap_or (visibility_of (placed_part placed.now)) public }
{
    match placed.part.said {
        Said::Visibility(Some(said)) if placed.branches.is_empty() => said,
        _ => public,
    }
}

// Goes through the parts in file order.
fn gathered(alloc: Global, declared: &Declared, placed: &[Placed]) -> Result<Gathered, NoMemory>
    ensures stands { IfOk result (λ gathered. (opened : List Branch) × (barred : List Cond)
        × RepresentsState gathered opened barred) }
    ensures barred { IfOk result (λ gathered. AreSectionParts (map placed_part placed.now)
        → (opened : List Branch) × RepresentsState gathered opened (flat_map barrier (map placed_part placed.now))) }
    ensures deps { IfOk result (λ gathered. (file : File) → RepresentsNames declared.now file
        → AreSectionParts (map placed_part placed.now)
        → deps_in gathered.groups ≡ flat_map (guarded file) (map placed_part placed.now)) }
{
    let mut gathered = Gathered::new(alloc)?;
    for one in placed {
        gathered = gathered.with(alloc, declared, one)?;
    }
    Ok(gathered)
}
