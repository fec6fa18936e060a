// Flags and component places of a node's package, kept for the next node of the same package.
ghost use Rattle.std.specs.Prelude.{◌≡◌, IfOk, IfSome, map, true};
ghost use Rattle.plan_components.specs.Apart.{are_apart};
ghost use Rattle.plan_components.specs.Chosen.{chosen_flags, selection_of};
ghost use Rattle.cabal_problem.specs.Values.{package_var};
ghost use Rattle.keyed_lists.specs.Lists.{items_at};
ghost use Rattle.plan_types.specs.Bytes.{same_text};
ghost use Rattle.plan_components.specs.Known.{AreNamed, IsKnown, IsSourceOf};

use crate::chosen::Chosen;
use crate::node::Node;
use crate::owner::KnownOwner;
use cabal_problem::package_var;
use choice_problem::is_same;
use indexmap::IndexMap;
use keyed_lists::{Lists, items_at, push_at};
use plan_types::{Component, Description, NoMemory, Text};
use qualified_goals::Qual;
use std::alloc::Global;

/// The flags and component places of a node's package. Those of the last node serve again for the same package.
pub(crate) fn known_of(
    alloc: Global,
    chosen: &Chosen<'_>,
    last: Option<KnownOwner>,
    node: Node,
    d: &Description,
) -> Result<KnownOwner, NoMemory>
    requires apart { are_apart (map (λ decl. decl.name) d.now.flags) ≡ true }
    requires source { IsSourceOf (selection_of chosen.now) node d.now }
    requires last { IfSome last (IsKnown (selection_of chosen.now)) }
    ensures flags { IfOk result (λ known. known.flags
        ≡ chosen_flags (selection_of chosen.now) node.qual node.«package» d.now) }
    ensures known { IfOk result (IsKnown (selection_of chosen.now)) }
{
    match last {
        Some(known) if known.is_of(node.qual, node.package) => Ok(known),
        _ => KnownOwner::of(alloc, chosen, node, d),
    }
}

fn named_places(alloc: Global, components: &[Component]) -> Result<Lists<Text, u64>, NoMemory>
    ensures { IfOk result (AreNamed components.now) }
{
    let mut named = IndexMap::new(alloc);
    for place in 0..components.len() {
        let name = components[place].name.copy()?;
        push_at(alloc, &mut named, name, place as u64)?;
    }
    Ok(named)
}

impl KnownOwner {
    pub(crate) fn of(
        alloc: Global,
        chosen: &Chosen<'_>,
        node: Node,
        d: &Description,
    ) -> Result<KnownOwner, NoMemory>
        requires { are_apart (map (λ decl. decl.name) d.now.flags) ≡ true }
        ensures flags { IfOk result (λ known. known.flags
            ≡ chosen_flags (selection_of chosen.now) node.qual node.«package» d.now) }
        ensures known { IsSourceOf (selection_of chosen.now) node d.now
            → IfOk result (IsKnown (selection_of chosen.now)) }
    {
        let owner = package_var(node.qual, node.package);
        let flags = chosen.flags(alloc, node.qual, node.package, d)?;
        let places = named_places(alloc, d.components.as_slice())?;
        Ok(KnownOwner {
            owner,
            flags,
            places,
        })
    }

    /// Whether these are of the package under this qualifier.
    pub(crate) fn is_of(&self, qual: Qual, package: u64) -> bool
        ensures { result ≡ true → self.now.owner ≡ package_var qual «package» }
    {
        is_same(self.owner, package_var(qual, package))
    }

    /// The places of the components with a name.
    pub(crate) fn named(&self, name: &Text) -> &[u64]
        ensures { result.now ≡ items_at same_text self.now.places name.now }
    {
        items_at(&self.places, name)
    }
}
