// A node: a component with its identifier and the identifiers of its needs.
ghost use Rattle.std.specs.Prelude.{◌≡◌};
ghost use Rattle.plan_nodes.specs.Line.{kind_word};

use plan_types::{List, Text, Version, drop_fields};

/// Whether a node is installed, and where it is built otherwise.
#[derive(Clone, Copy, Debug, PartialEq, Eq)]
pub enum NodeKind {
    /// An installed unit.
    Installed,
    /// A component of a local package at top level, built in place.
    Local,
    /// Any other component, built into the store.
    Store,
}

impl NodeKind {
    /// The printed word of the kind.
    pub fn word(self) -> &'static str
        ensures { result.now ≡ kind_word self }
    {
        match self {
            NodeKind::Installed => "installed",
            NodeKind::Local => "local",
            NodeKind::Store => "store",
        }
    }
}

/// A component of a plan. Each list of needs has identifiers in byte order, each once.
#[derive(Debug, PartialEq, Eq)]
pub struct PlanNode {
    pub kind: NodeKind,
    /// The name of the package.
    pub name: Text,
    pub version: Version,
    /// `lib`, `lib:NAME`, `exe:NAME`, `test:NAME`, `bench:NAME`, `flib:NAME`, or `package` for a whole package.
    pub component: Text,
    pub id: Text,
    /// Whether it isn't buildable under the chosen flags. Then it has no needs.
    pub unbuildable: bool,
    pub libs: List<Text>,
    pub tools: List<Text>,
    pub setups: List<Text>,
}

impl Drop for PlanNode {
    fn drop(self) {
        drop_fields!(self; kind, name, version, component, id, unbuildable, libs, tools, setups);
    }
}
