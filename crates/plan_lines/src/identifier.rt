// Identifiers of nodes of source instances.
ghost use Rattle.std.specs.Prelude.{◌≡◌, IfOk, true};
ghost use Rattle.store_id.specs.NodeText.{names_each_once};
ghost use Rattle.plan_lines.specs.Line.{id_by};

use plan_nodes::{NodeKind, PlanNode};
use plan_types::{Description, Env, FlagSet, List, NoMemory, Text};
use std::alloc::Global;
use store_id::{id_of, in_place_id};

/// The identifier of a source instance's line, by its kind.
pub(crate) fn id_by(
    alloc: Global,
    line: &PlanNode,
    d: &Description,
    flags: &List<FlagSet>,
    env: &Env,
) -> Result<Text, NoMemory>
    requires { names_each_once d.now.flags flags.now ≡ true }
    ensures { IfOk result (λ id. id ≡ id_by line.now.kind line.now d.now flags.now env.now) }
{
    match line.kind {
        NodeKind::Installed => Ok(Text::new(alloc)),
        NodeKind::Local => in_place_id(alloc, line),
        NodeKind::Store => id_of(alloc, line, d, flags, env),
    }
}
