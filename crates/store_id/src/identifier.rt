// Identifiers of nodes that are built, in place or into the store.
ghost use Rattle.std.specs.Prelude.{◌≡◌, ◌++◌, IfOk, IsTrue, OnOk};
ghost use Rattle.store_id.specs.NodeText.{names_each_once};
ghost use Rattle.store_id.specs.Identifier.{digest_of, id_of, in_place_id, own_name};
ghost use Rattle.plan_nodes.specs.declared.node.NodeKind.TheVariants.{Store};

use crate::node_text::id_text;
use plan_nodes::{PlanNode, package_text};
use plan_types::{Description, Env, FlagSet, List, NoMemory, Text};
use sha2::{Digest, Sha256};
use std::alloc::Global;

/// The identifier of a node in the store: package and version, the part of the component's name behind the colon, and
/// the digest of the node's text.
pub fn id_of(
    alloc: Global,
    node: &PlanNode,
    d: &Description,
    flags: &List<FlagSet>,
    env: &Env,
) -> Result<Text, NoMemory>
    requires flags { IsTrue (names_each_once d.now.flags flags.now) }
    requires store { node.now.kind ≡ Store }
    ensures { IfOk result (λ id. id ≡ id_of node.now d.now flags.now env.now) }
{
    let text = id_text(alloc, node, d, flags, env)?;
    let digest = digest_of(alloc, text.as_bytes())?;
    let mut id = package_text(alloc, node)?;
    push_own_name(&mut id, node.component.as_str())?;
    id.push_str("-")?;
    id.push_str(digest.as_str())?;
    Ok(id)
}

/// The identifier of a node built in place: package and version, `inplace`, and the part of the component's name
/// behind the colon.
pub fn in_place_id(alloc: Global, node: &PlanNode) -> Result<Text, NoMemory>
    ensures { IfOk result (λ id. id ≡ in_place_id node.now) }
{
    let mut id = package_text(alloc, node)?;
    id.push_str("-inplace")?;
    let component = node.component.as_str();
    push_own_name(&mut id, component)?;
    Ok(id)
}

fn digest_of(alloc: Global, bytes: &[u8]) -> Result<Text, NoMemory>
    ensures { IfOk result (λ digest. digest ≡ digest_of bytes.now) }
{
    let digits = hex::encode(alloc, Sha256::digest(bytes))?;
    Ok(Text::from_string(digits))
}

fn push_own_name(id: &mut Text, component: &str) -> Result<(), NoMemory>
    ensures { OnOk result (id.new ≡ id.old ++ own_name component.now) }
{
    match component.split_once(':') {
        Some((_, name)) => {
            id.push_str("-")?;
            id.push_str(name)
        }
        None => Ok(()),
    }
}
