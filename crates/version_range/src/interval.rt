// The cuts of ranges with one operator.
ghost use Rattle.std.specs.Prelude.{◌≡◌, ◌<◌, ◌&&◌, ◌++◌, ◌∷◌, [], IfOk, true, not, nat_eq};
ghost use Rattle.std.specs.List.{starts_with};
ghost use Rattle.std.specs.Ordering.{is_eq, is_ge, is_gt, is_le, is_lt};
ghost use Rattle.plan_types.specs.declared.version.Version.{Version};
ghost use Rattle.plan_types.specs.Members.{order, major_end};
ghost use Rattle.version_range.specs.Version.{IsVersion};
ghost use Rattle.version_range.specs.Cuts.{inside, are_ends, is_below, prefix_end, HasNumbers, AreEndsOf};

use plan_types::{List, NoMemory, Version};
use std::alloc::Global;

// The versions at or above `low`.
fn from(alloc: Global, low: Version) -> Result<List<Version>, NoMemory>
    requires { HasNumbers low }
    ensures ends { IfOk result (λ ends. are_ends ends ≡ true) }
    ensures members { IfOk result (λ ends. (v : Version) → inside ends v ≡ not (is_below v low)) }
{
    let mut ends = List::new(alloc);
    ends.push(low)?;
    Ok(ends)
}

// The versions at or above `low` and below `high`.
fn between(alloc: Global, low: Version, high: Version) -> Result<List<Version>, NoMemory>
    requires numbers { HasNumbers low }
    requires order { is_below low high ≡ true }
    ensures ends { IfOk result (λ ends. are_ends ends ≡ true) }
    ensures members { IfOk result (λ ends. (v : Version)
        → inside ends v ≡ (not (is_below v low) && is_below v high)) }
{
    let mut ends = List::new(alloc);
    ends.push(low)?;
    ends.push(high)?;
    Ok(ends)
}

fn least(alloc: Global) -> Result<Version, NoMemory>
    ensures { IfOk result (λ v. v.parts ≡ 0 ∷ []) }
{
    let mut parts = List::new(alloc);
    parts.push(0)?;
    Ok(Version { parts })
}

// The least version above x.
fn next(alloc: Global, x: &Version) -> Result<Version, NoMemory>
    ensures { IfOk result (λ v. v.parts ≡ x.now.parts ++ 0 ∷ []) }
{
    let mut v = x.copy(alloc)?;
    v.parts.push(0)?;
    Ok(v)
}

fn after_prefix(alloc: Global, x: &Version) -> Result<Version, NoMemory>
    requires { IsVersion x.now.parts }
    ensures { IfOk result (λ v. v.parts ≡ prefix_end x.now.parts) }
{
    let mut parts = x.copy(alloc)?.parts;
    match parts.pop() {
        None => Ok(Version { parts }),
        Some(last) => {
            parts.push(last + 1)?;
            Ok(Version { parts })
        }
    }
}

fn after_major(alloc: Global, x: &Version) -> Result<Version, NoMemory>
    requires { IsVersion x.now.parts }
    ensures { IfOk result (λ v. v.parts ≡ major_end x.now.parts) }
{
    match x.parts.as_slice() {
        [] => Ok(Version {
            parts: List::new(alloc),
        }),
        [a] => pair(alloc, *a, 1),
        [a, b, ..] => pair(alloc, *a, *b + 1),
    }
}

fn pair(alloc: Global, a: u32, b: u32) -> Result<Version, NoMemory>
    ensures { IfOk result (λ v. v.parts ≡ a ∷ b ∷ []) }
{
    let mut parts = List::new(alloc);
    parts.push(a)?;
    parts.push(b)?;
    Ok(Version { parts })
}

/// The ends of `-any`. The functions below give those of each operator.
pub fn any(alloc: Global) -> Result<List<Version>, NoMemory>
    ensures { IfOk result (AreEndsOf (λ v. true)) }
{
    let low = least(alloc)?;
    from(alloc, low)
}

pub fn equal(alloc: Global, x: &Version) -> Result<List<Version>, NoMemory>
    requires { IsVersion x.now.parts }
    ensures { IfOk result (AreEndsOf (λ v. is_eq (order v.parts x.now.parts))) }
{
    let low = x.copy(alloc)?;
    let high = next(alloc, x)?;
    between(alloc, low, high)
}

pub fn prefix(alloc: Global, x: &Version) -> Result<List<Version>, NoMemory>
    requires { IsVersion x.now.parts }
    ensures { IfOk result (AreEndsOf (λ v. starts_with nat_eq v.parts x.now.parts)) }
{
    let low = x.copy(alloc)?;
    let high = after_prefix(alloc, x)?;
    between(alloc, low, high)
}

pub fn at_least(alloc: Global, x: &Version) -> Result<List<Version>, NoMemory>
    requires { IsVersion x.now.parts }
    ensures { IfOk result (AreEndsOf (λ v. is_ge (order v.parts x.now.parts))) }
{
    let low = x.copy(alloc)?;
    from(alloc, low)
}

pub fn above(alloc: Global, x: &Version) -> Result<List<Version>, NoMemory>
    requires { IsVersion x.now.parts }
    ensures { IfOk result (AreEndsOf (λ v. is_gt (order v.parts x.now.parts))) }
{
    let low = next(alloc, x)?;
    from(alloc, low)
}

pub fn at_most(alloc: Global, x: &Version) -> Result<List<Version>, NoMemory>
    requires { IsVersion x.now.parts }
    ensures { IfOk result (AreEndsOf (λ v. is_le (order v.parts x.now.parts))) }
{
    let low = least(alloc)?;
    let high = next(alloc, x)?;
    between(alloc, low, high)
}

pub fn below(alloc: Global, x: &Version) -> Result<List<Version>, NoMemory>
    requires { IsVersion x.now.parts }
    ensures { IfOk result (AreEndsOf (λ v. is_lt (order v.parts x.now.parts))) }
{
    let low = least(alloc)?;
    if low.compare(x).is_lt() {
        let high = x.copy(alloc)?;
        between(alloc, low, high)
    } else {
        Ok(List::new(alloc))
    }
}

pub fn major(alloc: Global, x: &Version) -> Result<List<Version>, NoMemory>
    requires { IsVersion x.now.parts }
    ensures { IfOk result (AreEndsOf (λ v. is_ge (order v.parts x.now.parts)
        && is_lt (order v.parts (major_end x.now.parts)))) }
{
    let low = x.copy(alloc)?;
    let high = after_major(alloc, x)?;
    between(alloc, low, high)
}
