// What a node needs.
ghost use Rattle.std.specs.Prelude.{◌≡◌, ◌++◌, ◌&&◌, ◌||◌, IfOk, IfSome, OnOk, flat_map, filter, map, not, slice_get, true};
ghost use Rattle.std.specs.List.{list_any};
ghost use Rattle.std.specs.Option.{option_copied};
ghost use Rattle.flatten.specs.OwnComponents.{is_exe, is_lib};
ghost use Rattle.plan_components.specs.Apart.{are_apart};
ghost use Rattle.plan_components.specs.Chosen.{body_at, selection_of, condition_holds};
ghost use Rattle.plan_components.specs.Known.{AreNamed, IsKnown, IsSourceOf, Names, means_at};
ghost use Rattle.plan_components.specs.Needs.{meant_pieces, means, component_needs, dep_needs, is_asked, need_of, needs_among, needs_by, needs_of, needs_under, one_needs, piece_needs, qual_of_dep, source_needs, unit_need, wanted_needs};
ghost use Rattle.plan_components.specs.Wanted.{places};
ghost use Rattle.plan_types.specs.Guarded.{of_group};

use crate::chosen::Chosen;
use crate::components::{is_executable, is_lib};
use crate::known::known_of;
use crate::node::{Need, Node, Piece};
use crate::owner::{KnownOwner, Owner};
use crate::pieces::{as_pieces, node_of, only_whole};
use cabal_problem::{package_var, qual_for};
use plan_types::{
    Body, Component, Dep, DepGroup, DepKind, Description, LibName, List, NoMemory, Shared, Text,
};
use qualified_goals::Qual;
use std::alloc::Global;

/// A component, and whether its dependencies on the own package count.
#[derive(Drop)]
struct Dependent<'a> {
    component: &'a Component,
    own: bool,
}

/// What a node needs, in the order of its dependencies. The flags and places of the last node's package serve again.
pub(crate) fn needs_of(
    alloc: Global,
    chosen: &Chosen<'_>,
    last: &mut Option<KnownOwner>,
    node: Node,
) -> Result<List<Need>, NoMemory>
    requires { IfSome last.old (IsKnown (selection_of chosen.now)) }
    ensures needs { IfOk result (λ needs. needs ≡ needs_of (selection_of chosen.now) node) }
    ensures last { IfSome last.new (IsKnown (selection_of chosen.now)) }
{
    match chosen.body(node.qual, node.package) {
        None => Ok(List::new(alloc)),
        Some(Body::Installed { needs, .. }) => unit_needs(alloc, chosen, node, needs.as_slice()),
        Some(Body::Source(source)) => {
            source_needs(alloc, chosen, last, node, &source.description)
        }
    }
}

// The units that an installed unit needs, by their packages' names.
fn unit_needs(
    alloc: Global,
    chosen: &Chosen<'_>,
    node: Node,
    names: &[Text],
) -> Result<List<Need>, NoMemory>
    ensures { IfOk result (λ needs. needs ≡ map (unit_need (selection_of chosen.now) node) names.now) }
{
    let mut needs = List::new(alloc);
    for name in names {
        needs.push(unit_need(chosen, node, name))?;
    }
    Ok(needs)
}

fn unit_need(chosen: &Chosen<'_>, node: Node, name: &Text) -> Need
    ensures { result ≡ unit_need (selection_of chosen.now) node name.now }
{
    need_of(
        DepKind::Library,
        node.qual,
        chosen.number(name),
        Piece::Whole,
    )
}

fn need_of(kind: DepKind, qual: Qual, package: u64, piece: Piece) -> Need
    ensures { result ≡ need_of kind qual «package» piece }
{
    Need {
        kind,
        node: node_of(qual, package, piece),
    }
}

fn source_needs(
    alloc: Global,
    chosen: &Chosen<'_>,
    last: &mut Option<KnownOwner>,
    node: Node,
    d: &Description,
) -> Result<List<Need>, NoMemory>
    requires apart { are_apart (map (λ decl. decl.name) d.now.flags) ≡ true }
    requires source { IsSourceOf (selection_of chosen.now) node d.now }
    requires last { IfSome last.old (IsKnown (selection_of chosen.now)) }
    ensures needs { IfOk result (λ needs. needs ≡ source_needs (selection_of chosen.now) node d.now) }
    ensures last { IfSome last.new (IsKnown (selection_of chosen.now)) }
{
    let known = known_of(alloc, chosen, last.take(), node, d)?;
    let needs = piece_needs(alloc, chosen, node, &known, d)?;
    *last = Some(known);
    Ok(needs)
}

fn piece_needs(
    alloc: Global,
    chosen: &Chosen<'_>,
    node: Node,
    known: &KnownOwner,
    d: &Description,
) -> Result<List<Need>, NoMemory>
    requires { IsKnown (selection_of chosen.now) known.now }
    ensures { IfOk result (λ needs. needs
        ≡ piece_needs (selection_of chosen.now) node known.now.flags d.now node.piece) }
{
    let mut needs = List::new(alloc);
    let owner = Owner { node, known };
    push_piece(alloc, &mut needs, chosen, &owner, d)?;
    Ok(needs)
}

fn push_piece(
    alloc: Global,
    needs: &mut List<Need>,
    chosen: &Chosen<'_>,
    owner: &Owner<'_>,
    d: &Description,
) -> Result<(), NoMemory>
    requires { IsKnown (selection_of chosen.now) owner.now.known.now }
    ensures { OnOk result (needs.new ≡ needs.old
        ++ piece_needs (selection_of chosen.now) owner.now.node owner.now.known.now.flags d.now owner.now.node.piece) }
{
    match owner.node.piece {
        Piece::Whole => {
            push_wanted(alloc, needs, chosen, owner, d.components.as_slice())?;
            push_setup(alloc, needs, chosen, owner, d.setup.as_slice())
        }
        Piece::One(place) => {
            let component = d.components.as_slice().get(place as usize);
            push_one(alloc, needs, chosen, owner, component)
        }
    }
}

fn push_one(
    alloc: Global,
    needs: &mut List<Need>,
    chosen: &Chosen<'_>,
    owner: &Owner<'_>,
    component: Option<&Component>,
) -> Result<(), NoMemory>
    requires { IsKnown (selection_of chosen.now) owner.now.known.now }
    ensures { OnOk result (needs.new ≡ needs.old
        ++ one_needs (selection_of chosen.now) owner.now.node owner.now.known.now.flags
        (option_copied component.entry)) }
{
    match component {
        Some(component) => {
            let dependent = Dependent {
                component,
                own: true,
            };
            push_component(alloc, needs, chosen, owner, &dependent)
        }
        None => Ok(()),
    }
}

// The needs of the wanted components of a package that is built as a whole.
fn push_wanted(
    alloc: Global,
    needs: &mut List<Need>,
    chosen: &Chosen<'_>,
    owner: &Owner<'_>,
    components: &[Component],
) -> Result<(), NoMemory>
    requires { IsKnown (selection_of chosen.now) owner.now.known.now }
    ensures { OnOk result (needs.new ≡ needs.old
        ++ wanted_needs (selection_of chosen.now) owner.now.node owner.now.known.now.flags components.now) }
{
    for component in components {
        if owner.wants(chosen, component) {
            let dependent = Dependent {
                component,
                own: false,
            };
            push_component(alloc, needs, chosen, owner, &dependent)?;
        }
    }
    Ok(())
}

fn push_setup(
    alloc: Global,
    needs: &mut List<Need>,
    chosen: &Chosen<'_>,
    owner: &Owner<'_>,
    deps: &[Dep],
) -> Result<(), NoMemory>
    requires { IsKnown (selection_of chosen.now) owner.now.known.now }
    ensures { OnOk result (needs.new ≡ needs.old ++ flat_map
        (dep_needs (selection_of chosen.now) owner.now.node) deps.now) }
{
    for dep in deps {
        push_dep(alloc, needs, chosen, owner, dep)?;
    }
    Ok(())
}

// A component that isn't buildable has no needs.
fn push_component(
    alloc: Global,
    needs: &mut List<Need>,
    chosen: &Chosen<'_>,
    owner: &Owner<'_>,
    dependent: &Dependent<'_>,
) -> Result<(), NoMemory>
    requires { IsKnown (selection_of chosen.now) owner.now.known.now }
    ensures { OnOk result (needs.new ≡ needs.old
        ++ component_needs (selection_of chosen.now) owner.now.node owner.now.known.now.flags dependent.now.own
        dependent.now.component.now) }
{
    if chosen.condition_holds(&owner.known.flags, dependent.component.build.buildable()) {
        push_deps(alloc, needs, chosen, owner, dependent)?;
    }
    Ok(())
}

fn push_deps(
    alloc: Global,
    needs: &mut List<Need>,
    chosen: &Chosen<'_>,
    owner: &Owner<'_>,
    dependent: &Dependent<'_>,
) -> Result<(), NoMemory>
    requires known { IsKnown (selection_of chosen.now) owner.now.known.now }
    requires built { condition_holds chosen.now.env.now owner.now.known.now.flags
        dependent.now.component.now.build.buildable ≡ true }
    ensures { OnOk result (needs.new ≡ needs.old
        ++ component_needs (selection_of chosen.now) owner.now.node owner.now.known.now.flags dependent.now.own
        dependent.now.component.now) }
{
    for group in dependent.component.build.groups() {
        push_group(alloc, needs, chosen, owner, dependent, group)?;
    }
    Ok(())
}

// The component is buildable, so the branches alone decide. They are the same for the whole group.
fn push_group(
    alloc: Global,
    needs: &mut List<Need>,
    chosen: &Chosen<'_>,
    owner: &Owner<'_>,
    dependent: &Dependent<'_>,
    group: &DepGroup,
) -> Result<(), NoMemory>
    requires known { IsKnown (selection_of chosen.now) owner.now.known.now }
    requires built { condition_holds chosen.now.env.now owner.now.known.now.flags
        dependent.now.component.now.build.buildable ≡ true }
    ensures { OnOk result (needs.new ≡ needs.old
        ++ needs_among (selection_of chosen.now) owner.now.node owner.now.known.now.flags dependent.now.own
        dependent.now.component.now (of_group group.now)) }
{
    if chosen.condition_holds(&owner.known.flags, group.when.get()) {
        push_asked(
            alloc,
            needs,
            chosen,
            owner,
            dependent.own,
            group.deps.as_slice(),
        )?;
    }
    Ok(())
}

fn push_asked(
    alloc: Global,
    needs: &mut List<Need>,
    chosen: &Chosen<'_>,
    owner: &Owner<'_>,
    own: bool,
    deps: &[Shared<Dep>],
) -> Result<(), NoMemory>
    requires { IsKnown (selection_of chosen.now) owner.now.known.now }
    ensures { OnOk result (needs.new ≡ needs.old
        ++ flat_map (dep_needs (selection_of chosen.now) owner.now.node) (filter (is_asked own) deps.now)) }
{
    for dep in deps {
        if is_asked(own, dep.get()) {
            push_dep(alloc, needs, chosen, owner, dep.get())?;
        }
    }
    Ok(())
}

// Dependencies on the own package are skipped unless `own` is true.
fn is_asked(own: bool, dep: &Dep) -> bool
    ensures { result ≡ is_asked own dep.now }
{
    own || !dep.internal
}

fn push_dep(
    alloc: Global,
    needs: &mut List<Need>,
    chosen: &Chosen<'_>,
    owner: &Owner<'_>,
    dep: &Dep,
) -> Result<(), NoMemory>
    requires { IsKnown (selection_of chosen.now) owner.now.known.now }
    ensures { OnOk result (needs.new ≡ needs.old ++ dep_needs (selection_of chosen.now) owner.now.node dep.now) }
{
    let package = chosen.number(&dep.package);
    let qual = qual_of_dep(owner.node, dep, package);
    let pieces = meant_pieces(alloc, chosen, owner.known, dep, qual, package)?;
    push_pieces(needs, dep.kind, qual, package, pieces.as_slice())
}

fn push_pieces(
    needs: &mut List<Need>,
    kind: DepKind,
    qual: Qual,
    package: u64,
    pieces: &[Piece],
) -> Result<(), NoMemory>
    ensures { OnOk result (needs.new ≡ needs.old ++ map (need_of kind qual «package») pieces.now) }
{
    for piece in pieces {
        needs.push(need_of(kind, qual, package, *piece))?;
    }
    Ok(())
}

fn qual_of_dep(node: Node, dep: &Dep, package: u64) -> Qual
    ensures { result ≡ qual_of_dep node dep.now «package» }
{
    if dep.internal {
        return node.qual;
    }
    qual_for(dep.kind, package_var(node.qual, node.package), package)
}

fn meant_pieces(
    alloc: Global,
    chosen: &Chosen<'_>,
    known: &KnownOwner,
    dep: &Dep,
    qual: Qual,
    package: u64,
) -> Result<List<Piece>, NoMemory>
    requires { IsKnown (selection_of chosen.now) known.now }
    ensures { IfOk result (λ pieces. pieces ≡ meant_pieces dep.now (body_at (selection_of chosen.now) qual «package»)) }
{
    match chosen.body(qual, package) {
        None => Ok(List::new(alloc)),
        Some(Body::Installed { .. }) => only_whole(alloc),
        Some(Body::Source(source)) => {
            let components = source.description.components.as_slice();
            let own = known.is_of(qual, package);
            let places = meant_places(alloc, known, own, dep, components)?;
            as_pieces(alloc, source.description.custom, places.as_slice())
        }
    }
}

// If the package is the known one and the dependency is on one name, only components of that name are tested.
fn meant_places(
    alloc: Global,
    known: &KnownOwner,
    own: bool,
    dep: &Dep,
    components: &[Component],
) -> Result<List<u64>, NoMemory>
    requires { own ≡ true → AreNamed components.now known.now.places }
    ensures { IfOk result (λ found. found ≡ places (means dep.now.kind dep.now) components.now) }
{
    if own {
        if let Some(name) = asked_name(alloc, dep)? {
            return asked_among(alloc, known, dep, components, &name);
        }
    }
    all_asked(alloc, dep, components)
}

fn asked_among(
    alloc: Global,
    known: &KnownOwner,
    dep: &Dep,
    components: &[Component],
    name: &Text,
) -> Result<List<u64>, NoMemory>
    requires names { Names (means dep.now.kind dep.now) name.now }
    requires named { AreNamed components.now known.now.places }
    ensures { IfOk result (λ found. found ≡ places (means dep.now.kind dep.now) components.now) }
{
    let found = asked_at(alloc, dep, components, known.named(name))?;
    Ok(found)
}

fn asked_at(
    alloc: Global,
    dep: &Dep,
    components: &[Component],
    places: &[u64],
) -> Result<List<u64>, NoMemory>
    ensures { IfOk result (λ found. found ≡ filter (means_at dep.now components.now) places.now) }
{
    let mut found = List::new(alloc);
    for place in places {
        if means_at(dep, components, *place) {
            found.push(*place)?;
        }
    }
    Ok(found)
}

fn means_at(dep: &Dep, components: &[Component], place: u64) -> bool
    ensures { result ≡ means_at dep.now components.now place }
{
    match components.get(place as usize) {
        Some(component) => means(dep, component),
        None => false,
    }
}

// The name of the components that a dependency means, if it names only one.
fn asked_name(alloc: Global, dep: &Dep) -> Result<Option<Text>, NoMemory>
    ensures { IfOk result (λ name. IfSome name (Names (means dep.now.kind dep.now))) }
{
    match dep.kind {
        DepKind::Library => only_library(alloc, dep.libs.as_slice()),
        DepKind::Tool => {
            let name = dep.exe.copy()?;
            Ok(Some(name))
        }
        DepKind::Setup => only_library(alloc, dep.libs.as_slice()),
    }
}

fn only_library(alloc: Global, libs: &[LibName]) -> Result<Option<Text>, NoMemory>
    ensures { IfOk result (λ name. IfSome name (Names (λ component. list_any (is_lib component) libs.now))) }
{
    match libs {
        [lib] => {
            let name = Text::from_str(alloc, lib.as_str())?;
            Ok(Some(name))
        }
        _ => Ok(None),
    }
}

fn all_asked(alloc: Global, dep: &Dep, components: &[Component]) -> Result<List<u64>, NoMemory>
    ensures { IfOk result (λ found. found ≡ places (means dep.now.kind dep.now) components.now) }
{
    let mut found = List::new(alloc);
    for place in 0..components.len() {
        if means(dep, &components[place]) {
            found.push(place as u64)?;
        }
    }
    Ok(found)
}

fn means(dep: &Dep, component: &Component) -> bool
    ensures { result ≡ means dep.now.kind dep.now component.now }
{
    match dep.kind {
        DepKind::Library => asks_for_library(dep, component),
        DepKind::Tool => is_exe(component, &dep.exe),
        DepKind::Setup => asks_for_library(dep, component),
    }
}

fn asks_for_library(dep: &Dep, component: &Component) -> bool
    ensures { result ≡ list_any (is_lib component.now) dep.now.libs }
{
    dep.libs.as_slice().iter().any(|lib| is_lib(component, lib))
}

fn is_exe(component: &Component, exe: &Text) -> bool
    ensures { result ≡ is_exe component.now exe.now }
{
    is_executable(component.kind) && component.name == *exe
}
