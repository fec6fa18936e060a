// The line of a plan's node.
ghost use Rattle.std.specs.Prelude.{◌≡◌, ◌&&◌, [], IfOk, IsTrue, map, slice_get, true};
ghost use Rattle.std.specs.Option.{option_copied};
ghost use Rattle.plan_components.specs.Apart.{are_apart};
ghost use Rattle.plan_components.specs.Chosen.{chosen_flags, selection_of};
ghost use Rattle.conditionals.specs.Value.{each_once};
ghost use Rattle.cabal_problem.specs.Variables.{is_top};
ghost use Rattle.plan_nodes.specs.declared.node.NodeKind.TheVariants.{Local};
ghost use Rattle.plan_types.specs.Packages.{package_at};
ghost use Rattle.plan_types.specs.declared.condition.Cond.TheVariants.{Always};
ghost use Rattle.plan_lines.specs.Plain.{AreAlwaysBuildable, IsAlwaysBuildable};
ghost use Rattle.plan_lines.specs.Line.{is_unbuildable_one, is_unbuildable, line_of, source_kind, source_line, source_with_id, unit_line};

use crate::component_name::piece_name;
use crate::identifier::id_by;
use crate::needed::Needed;
use plan_components::{Chosen, Node, Piece};
use plan_nodes::{NodeKind, PlanNode};
use plan_types::{Body, Component, Cond, Description, FlagSet, List, NoMemory, Text, UnitRecord};
use qualified_goals::Qual;
use std::alloc::Global;
use store_id::in_place_id;

/// The line of a node with these needs; `None` without a chosen instance.
pub fn line_of(
    alloc: Global,
    chosen: &Chosen<'_>,
    node: Node,
    needed: Needed,
) -> Result<Option<PlanNode>, NoMemory>
    ensures { IfOk result (λ line. line ≡ line_of (selection_of chosen.now) node needed) }
{
    match chosen.body(node.qual, node.package) {
        None => Ok(None),
        Some(Body::Installed { record_of, .. }) => {
            let line = unit_line(alloc, record_of, needed)?;
            Ok(Some(line))
        }
        Some(Body::Source(source)) => {
            let line = source_with_id(alloc, chosen, node, &source.description, needed)?;
            Ok(Some(line))
        }
    }
}

fn unit_line(alloc: Global, unit: &UnitRecord, needed: Needed) -> Result<PlanNode, NoMemory>
    ensures { IfOk result (λ line. line ≡ unit_line unit.now.name unit.now.version unit.now.id needed) }
{
    Ok(PlanNode {
        kind: NodeKind::Installed,
        name: unit.name.copy()?,
        version: unit.version.copy(alloc)?,
        component: Text::from_str(alloc, "lib")?,
        id: unit.id.copy()?,
        unbuildable: false,
        libs: needed.libs,
        tools: needed.tools,
        setups: needed.setups,
    })
}

fn source_with_id(
    alloc: Global,
    chosen: &Chosen<'_>,
    node: Node,
    d: &Description,
    needed: Needed,
) -> Result<PlanNode, NoMemory>
    requires { are_apart (map (λ decl. decl.name) d.now.flags) ≡ true }
    ensures { IfOk result (λ line. line ≡ source_with_id (selection_of chosen.now) node
        (chosen_flags (selection_of chosen.now) node.qual node.«package» d.now) d.now needed) }
{
    if is_in_place(chosen, node) && is_always_built(d.components.as_slice(), node.piece) {
        return plain_line(alloc, chosen, node, d, needed);
    }
    let flags = chosen.flags(alloc, node.qual, node.package, d)?;
    let mut line = source_line(alloc, chosen, node, &flags, d, needed)?;
    line.id = id_by(alloc, &line, d, &flags, chosen.env())?;
    Ok(line)
}

// If a node is built in place and buildable under all flags, its line doesn't depend on flags.
fn plain_line(
    alloc: Global,
    chosen: &Chosen<'_>,
    node: Node,
    d: &Description,
    needed: Needed,
) -> Result<PlanNode, NoMemory>
    requires local { source_kind (selection_of chosen.now) node ≡ Local }
    requires built { AreAlwaysBuildable d.now.components node.piece }
    ensures { IfOk result (λ line. line ≡ source_with_id (selection_of chosen.now) node
        (chosen_flags (selection_of chosen.now) node.qual node.«package» d.now) d.now needed) }
{
    let none = List::new(alloc);
    let mut line = source_line(alloc, chosen, node, &none, d, needed)?;
    line.id = in_place_id(alloc, &line)?;
    Ok(line)
}

fn is_always_built(components: &[Component], piece: Piece) -> bool
    ensures { IsTrue result → AreAlwaysBuildable components.now piece }
{
    match piece {
        Piece::Whole => true,
        Piece::One(place) => is_open_one(components.get(place as usize)),
    }
}

fn is_open_one(component: Option<&Component>) -> bool
    ensures { IsTrue result → IsAlwaysBuildable (option_copied component.entry) }
{
    match component {
        None => true,
        Some(component) => is_always(component.build.buildable()),
    }
}

fn is_always(cond: &Cond) -> bool
    ensures { IsTrue result → cond.now ≡ Always }
{
    match cond {
        Cond::Always => true,
        Cond::Never => false,
        Cond::Flag(_) => false,
        Cond::Os(_) => false,
        Cond::Arch(_) => false,
        Cond::Impl(_, _) => false,
        Cond::Not(_) => false,
        Cond::And(_, _) => false,
        Cond::Or(_, _) => false,
    }
}

// The line without its identifier.
fn source_line(
    alloc: Global,
    chosen: &Chosen<'_>,
    node: Node,
    flags: &List<FlagSet>,
    d: &Description,
    needed: Needed,
) -> Result<PlanNode, NoMemory>
    requires { each_once flags.now ≡ true }
    ensures { IfOk result (λ line. line ≡ source_line (selection_of chosen.now) node flags.now d.now needed) }
{
    let component = piece_name(alloc, d, node.piece)?;
    Ok(PlanNode {
        kind: source_kind(chosen, node),
        name: d.name.copy()?,
        version: d.version.copy(alloc)?,
        component,
        id: Text::new(alloc),
        unbuildable: is_unbuildable(chosen, flags, d.components.as_slice(), node.piece),
        libs: needed.libs,
        tools: needed.tools,
        setups: needed.setups,
    })
}

fn is_in_place(chosen: &Chosen<'_>, node: Node) -> bool
    ensures { result ≡ is_top node.qual && (package_at (selection_of chosen.now).packages node.«package»).local }
{
    is_top(node.qual) && chosen.is_local(node.package)
}

fn source_kind(chosen: &Chosen<'_>, node: Node) -> NodeKind
    ensures { result ≡ source_kind (selection_of chosen.now) node }
{
    if is_in_place(chosen, node) {
        NodeKind::Local
    } else {
        NodeKind::Store
    }
}

fn is_top(qual: Qual) -> bool
    ensures { result ≡ is_top qual }
{
    match qual {
        Qual::Top => true,
        Qual::Setup(_) => false,
        Qual::Exe(_, _) => false,
    }
}

fn is_unbuildable(
    chosen: &Chosen<'_>,
    flags: &List<FlagSet>,
    components: &[Component],
    piece: Piece,
) -> bool
    requires { each_once flags.now ≡ true }
    ensures { result ≡ is_unbuildable (selection_of chosen.now).env flags.now components.now piece }
{
    match piece {
        Piece::Whole => false,
        Piece::One(place) => is_unbuildable_one(chosen, flags, components.get(place as usize)),
    }
}

fn is_unbuildable_one(
    chosen: &Chosen<'_>,
    flags: &List<FlagSet>,
    component: Option<&Component>,
) -> bool
    requires { each_once flags.now ≡ true }
    ensures { result ≡ is_unbuildable_one (selection_of chosen.now).env flags.now (option_copied component.entry) }
{
    match component {
        None => false,
        Some(component) => !chosen.condition_holds(flags, component.build.buildable()),
    }
}
