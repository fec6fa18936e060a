// A node of a source instance, with what is kept of its package.
ghost use Rattle.std.specs.Prelude.{◌≡◌, true};
ghost use Rattle.conditionals.specs.Value.{each_once};

use crate::node::Node;
use keyed_lists::Lists;
use plan_types::{FlagSet, List, Text, drop_fields};
use qualified_goals::Var;

/// A package under a qualifier, its flags with their values, and the places of its components by name.
pub(crate) struct KnownOwner {
    pub owner: Var,
    pub flags: List<FlagSet>,
    pub places: Lists<Text, u64>,
    ghost once: { each_once flags ≡ true },
}

impl Drop for KnownOwner {
    fn drop(self) {
        drop_fields!(self; owner, flags, places);
    }
}

/// A node, with the flags and component places of its package.
#[derive(Drop)]
pub(crate) struct Owner<'a> {
    pub node: Node,
    pub known: &'a KnownOwner,
}
