// The text that distinguishes the builds of a node, line by line.
ghost use Rattle.std.specs.Prelude.{◌≡◌, ◌++◌, IfOk, IsTrue, OnOk, flat_map, count_by};
ghost use Rattle.store_id.specs.NodeText.{names_each_once, id_text, line, head_lines, compiler_text, env_lines, is_on, set_line, flag_line, needs_lines};
ghost use Rattle.plan_types.specs.Bytes.{same_text};

use plan_nodes::{PlanNode, name_and_version, package_text};
use plan_types::{Description, Env, FlagDecl, FlagSet, List, NoMemory, Text};
use std::alloc::Global;

/// Whether the flags have each declared one exactly once.
pub fn names_each_once(declared: &List<FlagDecl>, flags: &List<FlagSet>) -> bool
    ensures { result ≡ names_each_once declared.now flags.now }
{
    declared
        .as_slice()
        .iter()
        .all(|flag| count_of(flags.as_slice(), &flag.name) == 1)
}

fn count_of(flags: &[FlagSet], name: &Text) -> usize
    ensures { result ≡ count_by (λ set. same_text set.name name.now) flags.now }
{
    flags.iter().filter(|set| set.name == *name).count()
}

/// The text of a node: its package and component, the environment, each declared flag with its value, the digest of the
/// file that describes its package, and the identifiers of its needs.
pub fn id_text(
    alloc: Global,
    node: &PlanNode,
    d: &Description,
    flags: &List<FlagSet>,
    env: &Env,
) -> Result<Text, NoMemory>
    requires { IsTrue (names_each_once d.now.flags flags.now) }
    ensures { IfOk result (λ text. text ≡ id_text node.now d.now flags.now env.now) }
{
    let mut text = Text::from_str(alloc, "store 1\n")?;
    push_head(alloc, &mut text, node)?;
    push_env(alloc, &mut text, env)?;
    push_flags(&mut text, d.flags.as_slice(), flags.as_slice())?;
    push_line(&mut text, "cabal ", d.digest.as_str())?;
    push_needs(&mut text, node)?;
    Ok(text)
}

fn push_head(alloc: Global, text: &mut Text, node: &PlanNode) -> Result<(), NoMemory>
    ensures { OnOk result (text.new ≡ text.old ++ head_lines node.now) }
{
    let package = package_text(alloc, node)?;
    push_line(text, "package ", package.as_str())?;
    push_line(text, "component ", node.component.as_str())
}

fn compiler_text(alloc: Global, env: &Env) -> Result<Text, NoMemory>
    ensures { IfOk result (λ text. text ≡ compiler_text env.now) }
{
    name_and_version(alloc, &env.compiler, &env.compiler_version)
}

fn push_env(alloc: Global, text: &mut Text, env: &Env) -> Result<(), NoMemory>
    ensures { OnOk result (text.new ≡ text.old ++ env_lines env.now) }
{
    let compiler = compiler_text(alloc, env)?;
    push_line(text, "compiler ", compiler.as_str())?;
    push_line(text, "os ", env.os.as_str())?;
    push_line(text, "arch ", env.arch.as_str())
}

fn push_flags(text: &mut Text, declared: &[FlagDecl], flags: &[FlagSet]) -> Result<(), NoMemory>
    ensures { OnOk result (text.new ≡ text.old ++ flat_map (flag_line flags.now) declared.now) }
{
    for flag in declared {
        push_flag(text, flag.name.as_str(), is_on(flags, &flag.name))?;
    }
    Ok(())
}

fn is_on(flags: &[FlagSet], name: &Text) -> bool
    ensures { result ≡ is_on flags.now name.now }
{
    flags.iter().any(|flag| flag.name == *name && flag.on)
}

fn push_flag(text: &mut Text, name: &str, on: bool) -> Result<(), NoMemory>
    ensures { OnOk result (text.new ≡ text.old ++ set_line name.now on) }
{
    text.push_str("flag ")?;
    text.push_str(name)?;
    if on {
        text.push_str(" on\n")
    } else {
        text.push_str(" off\n")
    }
}

fn push_needs(text: &mut Text, node: &PlanNode) -> Result<(), NoMemory>
    ensures { OnOk result (text.new ≡ text.old ++ needs_lines node.now) }
{
    push_ids(text, "lib ", node.libs.as_slice())?;
    push_ids(text, "tool ", node.tools.as_slice())?;
    push_ids(text, "setup ", node.setups.as_slice())
}

fn push_ids(text: &mut Text, word: &str, ids: &[Text]) -> Result<(), NoMemory>
    ensures { OnOk result (text.new ≡ text.old ++ flat_map (line word.now) ids.now) }
{
    for id in ids {
        push_line(text, word, id.as_str())?;
    }
    Ok(())
}

fn push_line(text: &mut Text, word: &str, rest: &str) -> Result<(), NoMemory>
    ensures { OnOk result (text.new ≡ text.old ++ line word.now rest.now) }
{
    text.push_str(word)?;
    text.push_str(rest)?;
    text.push_str("\n")
}
