// The first nodes of a plan.
ghost use Rattle.std.specs.Prelude.{◌≡◌, ◌++◌, IfOk, OnOk, map, true};
ghost use Rattle.plan_types.specs.Packages.{package_at};
ghost use Rattle.qualified_goals.specs.declared.variable.Qual.TheVariants.{Top};
ghost use Rattle.plan_components.specs.Apart.{are_apart};
ghost use Rattle.plan_components.specs.Chosen.{body_at, selection_of};
ghost use Rattle.plan_components.specs.Steps.{is_among, is_wanted_among, wanted_of};
ghost use Rattle.plan_components.specs.Wanted.{first_nodes, first_of, first_pieces, first_places, has_first_nodes, node_of, or_else, places, source_pieces};

use crate::chosen::Chosen;
use crate::components::{is_executable, is_lib};
use crate::node::{Node, Piece};
use crate::owner::{KnownOwner, Owner};
use crate::pieces::{as_pieces, node_of, only_whole};
use plan_types::{Body, Component, Description, LibName, List, NoMemory, Package};
use qualified_goals::Qual;
use std::alloc::Global;

/// The components of a package among which wanted ones are sought.
#[derive(Clone, Copy, Drop)]
pub(crate) enum Among {
    All,
    MainLibrary,
    Executables,
}

/// The first nodes of all packages.
pub(crate) fn first_nodes(alloc: Global, chosen: &Chosen<'_>) -> Result<List<Node>, NoMemory>
    ensures { IfOk result (λ nodes. nodes ≡ first_nodes (selection_of chosen.now)) }
{
    let mut nodes = List::new(alloc);
    let packages = chosen.packages();
    for place in 0..packages.len() {
        push_first(alloc, &mut nodes, chosen, place as u64, &packages[place])?;
    }
    Ok(nodes)
}

// The first nodes of one package.
fn push_first(
    alloc: Global,
    nodes: &mut List<Node>,
    chosen: &Chosen<'_>,
    place: u64,
    package: &Package,
) -> Result<(), NoMemory>
    requires { «package».now ≡ package_at (selection_of chosen.now).packages place }
    ensures { OnOk result (nodes.new ≡ nodes.old ++ first_of (selection_of chosen.now) place) }
{
    if has_first_nodes(package) {
        let pieces = first_pieces(alloc, chosen, package.local, place)?;
        push_nodes(nodes, place, pieces.as_slice())?;
    }
    Ok(())
}

fn has_first_nodes(package: &Package) -> bool
    ensures { result ≡ has_first_nodes «package».now }
{
    package.local || package.extra
}

fn push_nodes(nodes: &mut List<Node>, package: u64, pieces: &[Piece]) -> Result<(), NoMemory>
    ensures { OnOk result (nodes.new ≡ nodes.old ++ map (node_of Top «package») pieces.now) }
{
    for piece in pieces {
        nodes.push(node_of(Qual::Top, package, *piece))?;
    }
    Ok(())
}

fn first_pieces(
    alloc: Global,
    chosen: &Chosen<'_>,
    local: bool,
    package: u64,
) -> Result<List<Piece>, NoMemory>
    ensures { IfOk result (λ pieces. pieces
        ≡ first_pieces (selection_of chosen.now) local «package» (body_at (selection_of chosen.now) Top «package»)) }
{
    match chosen.body(Qual::Top, package) {
        None => Ok(List::new(alloc)),
        Some(Body::Installed { .. }) => only_whole(alloc),
        Some(Body::Source(source)) => {
            source_pieces(alloc, chosen, local, package, &source.description)
        }
    }
}

fn source_pieces(
    alloc: Global,
    chosen: &Chosen<'_>,
    local: bool,
    package: u64,
    d: &Description,
) -> Result<List<Piece>, NoMemory>
    requires { are_apart (map (λ decl. decl.name) d.now.flags) ≡ true }
    ensures { IfOk result (λ pieces. pieces ≡ source_pieces (selection_of chosen.now) local «package» d.now) }
{
    let node = node_of(Qual::Top, package, Piece::Whole);
    let known = KnownOwner::of(alloc, chosen, node, d)?;
    let owner = Owner {
        node,
        known: &known,
    };
    let places = first_places(alloc, chosen, &owner, local, d.components.as_slice())?;
    as_pieces(alloc, d.custom, places.as_slice())
}

fn first_places(
    alloc: Global,
    chosen: &Chosen<'_>,
    owner: &Owner<'_>,
    local: bool,
    components: &[Component],
) -> Result<List<u64>, NoMemory>
    ensures { IfOk result (λ found. found
        ≡ first_places local (wanted_of (selection_of chosen.now) owner.now) components.now) }
{
    if local {
        return wanted_places(alloc, chosen, owner, Among::All, components);
    }
    let library = wanted_places(alloc, chosen, owner, Among::MainLibrary, components)?;
    let executables = wanted_places(alloc, chosen, owner, Among::Executables, components)?;
    Ok(or_else(library, executables))
}

fn or_else(places: List<u64>, others: List<u64>) -> List<u64>
    ensures { result ≡ or_else places others }
{
    if places.is_empty() { others } else { places }
}

fn wanted_places(
    alloc: Global,
    chosen: &Chosen<'_>,
    owner: &Owner<'_>,
    among: Among,
    components: &[Component],
) -> Result<List<u64>, NoMemory>
    ensures { IfOk result (λ found. found
        ≡ places (is_wanted_among (selection_of chosen.now) owner.now among) components.now) }
{
    let mut found = List::new(alloc);
    for place in 0..components.len() {
        if is_wanted_among(chosen, owner, among, &components[place]) {
            found.push(place as u64)?;
        }
    }
    Ok(found)
}

fn is_wanted_among(
    chosen: &Chosen<'_>,
    owner: &Owner<'_>,
    among: Among,
    component: &Component,
) -> bool
    ensures { result ≡ is_wanted_among (selection_of chosen.now) owner.now among component.now }
{
    is_among(among, component) && owner.wants(chosen, component)
}

fn is_among(among: Among, component: &Component) -> bool
    ensures { result ≡ is_among among component.now }
{
    match among {
        Among::All => true,
        Among::MainLibrary => is_lib(component, &LibName::Main),
        Among::Executables => is_executable(component.kind),
    }
}
