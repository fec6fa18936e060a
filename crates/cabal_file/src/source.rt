// The source of a `.cabal` file, from its bytes.

ghost use Rattle.std.specs.Prelude.{◌≡◌, ◌≤◌, length, IfOk, IfErr};
ghost use Rattle.std.specs.declared.result.Result.TheVariants.{Ok, Err};
ghost use Rattle.plan_types.specs.Refusal.{RefusesAt};
ghost use Rattle.description.specs.Description.{Describes};
ghost use Rattle.description.specs.FaultOrder.{IsOnly, is_at};
ghost use Rattle.cabal_file.specs.Source.{IsSource, OfDescription, OfTree, digest_of};

use crate::laws::one_source;
use cabal_lexer::read_elements;
use description::read_description;
use flatten::{demands_of, exposed};
use plan_types::{Description, Element, Env, Fault, List, NoMemory, Source, Text};
use sha2::{Digest, Sha256};
use std::alloc::Global;

/// Reads a `.cabal` file. A fault of the layout comes first, then one of the description, then a dependency with more
/// than 256 paths.
pub fn read_source(alloc: Global, bytes: &[u8], env: &Env) -> Result<Source, Fault>
    requires { length bytes.now ≤ 1048576 }
    ensures source { IfOk result (λ source. IsSource env.now bytes.now (Ok source)) }
    ensures fault { IfErr result (RefusesAt (λ line cause. IsSource env.now bytes.now (Err (is_at line cause)))) }
    ensures only { IsOnly (IsSource env.now bytes.now) result }
{
    one_source();
    source_of_bytes(alloc, bytes, env)
}

fn source_of_bytes(alloc: Global, bytes: &[u8], env: &Env) -> Result<Source, Fault>
    requires { length bytes.now ≤ 1048576 }
    ensures source { IfOk result (λ source. IsSource env.now bytes.now (Ok source)) }
    ensures fault { IfErr result (RefusesAt (λ line cause. IsSource env.now bytes.now (Err (is_at line cause)))) }
{
    let items = read_elements(alloc, bytes)?;
    let digest = digest_of(alloc, bytes)?;
    let source = source_of_tree(alloc, &items, digest, env)?;
    Ok(source)
}

fn digest_of(alloc: Global, bytes: &[u8]) -> Result<Text, NoMemory>
    ensures { IfOk result (λ digest. digest ≡ digest_of bytes.now) }
{
    let digits = hex::encode(alloc, Sha256::digest(bytes))?;
    Ok(Text::from_string(digits))
}

fn source_of_tree(
    alloc: Global,
    items: &List<Element>,
    digest: Text,
    env: &Env,
) -> Result<Source, Fault>
    ensures source { IfOk result (λ source. OfTree env.now items.now digest (Ok source)) }
    ensures fault { IfErr result (RefusesAt (λ line cause. OfTree env.now items.now digest (Err (is_at line cause)))) }
{
    let description = read_description(alloc, items, digest)?;
    let source = source_of(alloc, description, env)?;
    Ok(source)
}

fn source_of(alloc: Global, description: Description, env: &Env) -> Result<Source, Fault>
    ensures source { IfOk result (λ source. OfDescription env.now (Ok description) (Ok source)) }
    ensures fault { IfErr result (RefusesAt
        (λ line cause. OfDescription env.now (Ok description) (Err (is_at line cause)))) }
{
    let flat = demands_of(alloc, &description, env)?;
    let exposed = exposed(alloc, &description, env)?;
    Ok(Source {
        description,
        flat,
        exposed,
    })
}
