// `tree`: the tree of a condition. `value`, a condition and the known values of the flags `a` and `b`: its value. A run
// knows all flags or none. `chain`: the value of `flag(a)` followed by this text 100,000 times, with `a` on. `paths`: on
// how many paths a condition is Yes, and on how many No; `many`: so many `flag(a) || flag(b)`, joined by `&&`.
ghost use Rattle.std.specs.Prelude.{◌≡◌, true, IfOk};
ghost use Rattle.conditionals.specs.Value.{each_once};

use condition_text::read_cond;
use conditionals::{count_paths, eval};
use plan_types::{Cond, Env, FlagSet, List, NoMemory, Spec, Text, TextFault, Version};
use std::alloc::Global;
use std::test::Fail;

pub const CASES: &str = "\
tree true || false && true || false => Or(Or(Always, And(Never, Always)), Never)
tree true&&(false||true) => And(Always, Or(Never, Always))
tree !true && ! ! false => And(Not(Always), Not(Not(Never)))
value !flag(a)\t+? => No
value !flag(a)\t-? => Yes
value !flag(a)\t?? => Unknown
value flag(a) && flag(b)\t++ => Yes
value flag(a) && flag(b)\t+- => No
value flag(a) && flag(b)\t+? => Unknown
value flag(a) && flag(b)\t-+ => No
value flag(a) && flag(b)\t-- => No
value flag(a) && flag(b)\t-? => No
value flag(a) && flag(b)\t?+ => Unknown
value flag(a) && flag(b)\t?- => Unknown
value flag(a) && flag(b)\t?? => Unknown
value flag(a) || flag(b)\t++ => Yes
value flag(a) || flag(b)\t+- => Yes
value flag(a) || flag(b)\t+? => Yes
value flag(a) || flag(b)\t-+ => Yes
value flag(a) || flag(b)\t-- => No
value flag(a) || flag(b)\t-? => Unknown
value flag(a) || flag(b)\t?+ => Unknown
value flag(a) || flag(b)\t?- => Unknown
value flag(a) || flag(b)\t?? => Unknown
chain &&flag(a) => Yes
chain ||flag(a) => Yes
paths true => 1 0
paths false => 0 1
paths flag(a) => 1 1
paths !flag(a) => 1 1
paths os(linux) => 1 0
paths os(windows) => 0 1
paths flag(a) && flag(b) => 1 2
paths flag(a) || flag(b) => 2 1
paths flag(a) && !flag(a) => 1 2
paths flag(a) && os(windows) => 0 2
paths os(windows) && flag(a) => 0 1
paths (flag(a) || flag(b)) && (flag(c) || flag(d)) => 4 3
many 63 => 9223372036854775808 9223372036854775807
many 64 => 18446744073709551615 18446744073709551615
many 65 => 18446744073709551615 18446744073709551615
";

pub fn environment(alloc: Global) -> Result<Env, NoMemory> {
    Ok(Env {
        os: Text::from_str(alloc, "linux")?,
        arch: Text::from_str(alloc, "x86_64")?,
        compiler: Text::from_str(alloc, "ghc")?,
        compiler_version: Version {
            parts: List::from_vec([9, 4, 7].to_vec(alloc)?),
        },
    })
}

/// A copy of the condition of a text.
pub fn condition(alloc: Global, text: &str) -> Result<Cond, TextFault> {
    let cond = read_cond(alloc, text.as_bytes(), Spec::V3_0)?;
    Ok(cond.copy(alloc)?)
}

fn setting(alloc: Global, name: &str, on: bool) -> Result<FlagSet, NoMemory>
    ensures { IfOk result (λ setting. setting.name ≡ name.now) }
{
    let name = Text::from_str(alloc, name)?;
    Ok(FlagSet { name, on })
}

fn known(alloc: Global, text: &str) -> Result<List<FlagSet>, NoMemory>
    ensures { IfOk result (λ flags. each_once flags ≡ true) }
{
    let mut flags = List::new(alloc);
    let a = setting(alloc, "a", text.starts_with('+'))?;
    let b = setting(alloc, "b", text.ends_with('+'))?;
    match (text.starts_with('?'), text.ends_with('?')) {
        (true, true) => {}
        (true, false) => flags.push(b)?,
        (false, true) => flags.push(a)?,
        (false, false) => {
            flags.push(b)?;
            flags.push(a)?;
        }
    }
    Ok(flags)
}

fn value(alloc: Global, text: &str, signs: &str) -> Result<String, Fail> {
    let cond = condition(alloc, text)?;
    let env = environment(alloc)?;
    let flags = known(alloc, signs)?;
    let value = eval(&cond, &env, &flags);
    Ok(format!(in alloc; "{value:?}")?)
}

// The tree, without the names of the pointers to its branches.
fn tree(alloc: Global, text: &str) -> Result<String, Fail> {
    let cond = condition(alloc, text)?;
    let shown = format!(in alloc; "{cond:?}")?;
    let shown = shown.as_str().replace(alloc, "Shared { inner: ", "")?;
    Ok(shown.as_str().replace(alloc, " }", "")?)
}

// Recursion on the left side would run out of stack.
fn chain(alloc: Global, link: &str) -> Result<String, Fail> {
    let mut text = String::from_str(alloc, "flag(a)")?;
    text.push_str(link.repeat(alloc, 100_000)?.as_str())?;
    value(alloc, text.as_str(), "+?")
}

fn paths(alloc: Global, text: &str) -> Result<String, Fail> {
    let cond = condition(alloc, text)?;
    let env = environment(alloc)?;
    let (yes, no) = (
        count_paths(&cond, &env, true),
        count_paths(&cond, &env, false),
    );
    Ok(format!(in alloc; "{yes} {no}")?)
}

// The numbers of paths are 2^n and 2^n - 1, cut at 2^64 - 1.
fn many(alloc: Global, count: &str) -> Result<String, Fail> {
    let mut text = String::from_str(alloc, "true")?;
    for _ in 0..count.parse::<u32>()? {
        text.push_str(" && (flag(a) || flag(b))")?;
    }
    paths(alloc, text.as_str())
}

pub fn answer(alloc: Global, case: &str) -> Result<String, Fail> {
    let (call, rest) = case.split_once(' ').ok_or("no text")?;
    match call {
        "tree" => tree(alloc, rest),
        "chain" => chain(alloc, rest),
        "paths" => paths(alloc, rest),
        "many" => many(alloc, rest),
        _ => {
            let (text, signs) = rest.split_once('\t').ok_or("no flags")?;
            value(alloc, text, signs)
        }
    }
}
