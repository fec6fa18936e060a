// Which components are wanted, and which of them a name means.
ghost use Rattle.std.specs.Prelude.{◌≡◌};
ghost use Rattle.flatten.specs.OwnComponents.{is_executable, is_lib};
ghost use Rattle.plan_types.specs.Packages.{is_library};
ghost use Rattle.plan_components.specs.Chosen.{selection_of};
ghost use Rattle.plan_components.specs.Steps.{wanted_of};
ghost use Rattle.plan_components.specs.Wanted.{is_asked};

use crate::chosen::Chosen;
use crate::node::Node;
use crate::owner::Owner;
use plan_types::{CompKind, Component, LibName};
use qualified_goals::Part;

impl Owner<'_> {
    /// Whether a component is asked for and buildable. Tests and benchmarks are asked for if their stanza is on.
    pub(crate) fn wants(&self, chosen: &Chosen<'_>, component: &Component) -> bool
        ensures { result ≡ wanted_of (selection_of chosen.now) self.now component.now }
    {
        is_asked(chosen, self.node, component.kind)
            && chosen.condition_holds(&self.known.flags, component.build.buildable())
    }
}

fn is_asked(chosen: &Chosen<'_>, node: Node, kind: CompKind) -> bool
    ensures { result ≡ is_asked (selection_of chosen.now) node.qual node.«package» kind }
{
    match kind {
        CompKind::Library => true,
        CompKind::Executable => true,
        CompKind::Test => chosen.is_turned_on(node.qual, node.package, Part::Tests),
        CompKind::Bench => chosen.is_turned_on(node.qual, node.package, Part::Benches),
        CompKind::Foreign => true,
    }
}

/// Whether a component is the library of this name.
pub(crate) fn is_lib(component: &Component, lib: &LibName) -> bool
    ensures { result ≡ is_lib component.now lib.now }
{
    is_library(component.kind) && component.name.as_str() == lib.as_str()
}

fn is_library(kind: CompKind) -> bool
    ensures { result ≡ is_library kind }
{
    match kind {
        CompKind::Library => true,
        CompKind::Executable => false,
        CompKind::Test => false,
        CompKind::Bench => false,
        CompKind::Foreign => false,
    }
}

/// Whether a component is an executable.
pub(crate) fn is_executable(kind: CompKind) -> bool
    ensures { result ≡ is_executable kind }
{
    match kind {
        CompKind::Library => false,
        CompKind::Executable => true,
        CompKind::Test => false,
        CompKind::Bench => false,
        CompKind::Foreign => false,
    }
}
