// Sets of versions as sorted cuts.
ghost use Rattle.std.specs.Prelude.{◌≡◌, ◌<◌, ◌↔◌, IsTrue, IfOk, MatchOption, true, false, length};
ghost use Rattle.plan_types.specs.declared.version.Version.{Version};
ghost use Rattle.plan_types.specs.Members.{members};
ghost use Rattle.version_range.specs.Version.{has_versions};
ghost use Rattle.version_range.specs.Cuts.{inside, are_ends, join, joined, is_joined, HasNumbers, IsSplit, Relaxes};

use crate::interval::{above, any, at_least, at_most, below, equal, major, prefix};
use crate::merge::{Connective, merged};
use plan_types::{List, NoMemory, Range, Version};
use std::alloc::Global;
use std::collections::VecDeque;
use std::marker::Model;

/// A set of versions, as the sorted ends of half-open intervals.
#[derive(Debug, Drop)]
pub struct Cuts {
    ends: Vec<Version>,
}

impl Model for Cuts {
    ghost use Rattle.std.specs.Prelude.{List, IsTrue};
    ghost use Rattle.plan_types.specs.declared.version.Version.{Version};

    ghost Value = { List Version };

    ghost use Rattle.version_range.specs.Cuts.{are_ends};

    ghost view = { λ c. c.ends.items };

    ghost invariant = { λ c. IsTrue (are_ends c.ends.items) };
}

impl Cuts {
    /// Whether the version is a member: the number of ends at or below it is odd.
    pub fn has(&self, v: &Version) -> bool
        ensures { result ≡ inside self.now v.now }
    {
        let reached = self
            .ends
            .as_slice()
            .partition_point(|end| v.compare(end).is_ge());
        reached % 2 == 1
    }

    /// Whether no version is a member.
    pub fn is_empty(&self) -> bool
        ensures { IsTrue result ↔ ((v : Version) → HasNumbers v → inside self.now v ≡ false) }
    {
        self.ends.is_empty()
    }

    /// The cuts of a range, with the same members.
    #[cycle(cuts)]
    pub fn of(alloc: Global, range: &Range) -> Result<Cuts, NoMemory>
        requires { has_versions range.now ≡ true }
        ensures { IfOk result (λ c. (v : Version) → HasNumbers v → inside c v ≡ members range.now v) }
    {
        match range {
            Range::Any => Ok(Cuts::from_ends(any(alloc)?)),
            Range::Nothing => Ok(Cuts::from_ends(List::new(alloc))),
            Range::Equal(x) => Ok(Cuts::from_ends(equal(alloc, x)?)),
            Range::Prefix(x) => Ok(Cuts::from_ends(prefix(alloc, x)?)),
            Range::AtLeast(x) => Ok(Cuts::from_ends(at_least(alloc, x)?)),
            Range::Above(x) => Ok(Cuts::from_ends(above(alloc, x)?)),
            Range::AtMost(x) => Ok(Cuts::from_ends(at_most(alloc, x)?)),
            Range::Below(x) => Ok(Cuts::from_ends(below(alloc, x)?)),
            Range::Major(x) => Ok(Cuts::from_ends(major(alloc, x)?)),
            Range::Both(left, right) => chain(alloc, left.get(), right.get(), Connective::Both),
            Range::Either(left, right) => chain(alloc, left.get(), right.get(), Connective::Either),
        }
    }

    fn from_ends(ends: List<Version>) -> Cuts
        requires { are_ends ends ≡ true }
        ensures { result ≡ ends }
    {
        Cuts {
            ends: ends.into_vec(),
        }
    }

    fn merge(self, alloc: Global, other: Cuts, joint: Connective) -> Result<Cuts, NoMemory>
        ensures { IfOk result (λ c. (v : Version)
            → inside c v ≡ join joint (inside self v) (inside other v)) }
    {
        let ends = merged(alloc, self.ends, other.ends, joint)?;
        Ok(Cuts::from_ends(ends))
    }

    /// Admits newer versions: the last interval loses its end.
    pub fn relax_upper(&mut self)
        ensures { Relaxes true false (inside self.old) (inside self.new) }
    {
        without_stop(&mut self.ends);
    }

    /// Admits older versions: the first interval begins at the least version.
    pub fn relax_lower(&mut self)
        ensures { Relaxes false true (inside self.old) (inside self.new) }
    {
        from_least(&mut self.ends);
    }
}

// If the number of ends is even, the last interval has an end.
fn without_stop(ends: &mut Vec<Version>)
    requires { are_ends ends.old.items ≡ true }
    ensures ends { are_ends ends.new.items ≡ true }
    ensures relaxed { Relaxes true false (inside ends.old.items) (inside ends.new.items) }
{
    if ends.len() % 2 == 0 {
        ends.pop();
    }
}

fn from_least(ends: &mut Vec<Version>)
    requires { are_ends ends.old.items ≡ true }
    ensures ends { are_ends ends.new.items ≡ true }
    ensures relaxed { Relaxes false true (inside ends.old.items) (inside ends.new.items) }
{
    if ends.is_empty() {
        return;
    }
    let first = &mut ends[0];
    first.make_least();
}

// The cuts of a chain. A loop takes the operands from the right, and then merges them pairwise.
#[cycle(cuts)]
fn chain(alloc: Global, left: &Range, right: &Range, joint: Connective) -> Result<Cuts, NoMemory>
    requires left { has_versions left.now ≡ true }
    requires right { has_versions right.now ≡ true }
    ensures { IfOk result (λ c. (v : Version) → HasNumbers v
        → inside c v ≡ join joint (members left.now v) (members right.now v)) }
{
    let mut operands = List::new(alloc);
    operands.push(Cuts::of(alloc, right)?)?;
    let mut rest = left;
    while let Some((left, right)) = sides(rest, joint) {
        operands.push(Cuts::of(alloc, right)?)?;
        rest = left;
    }
    operands.push(Cuts::of(alloc, rest)?)?;
    combined(alloc, operands, joint)
}

// The two operands of a range, if its operator is this one.
fn sides(range: &Range, joint: Connective) -> Option<(&Range, &Range)>
    ensures { MatchOption result (is_joined joint range.now ≡ false)
        (λ p. IsSplit joint range.now p.0.now p.1.now) }
{
    match range {
        Range::Any => None,
        Range::Nothing => None,
        Range::Equal(_) => None,
        Range::Prefix(_) => None,
        Range::AtLeast(_) => None,
        Range::Above(_) => None,
        Range::AtMost(_) => None,
        Range::Below(_) => None,
        Range::Major(_) => None,
        Range::Both(left, right) => match joint {
            Connective::Both => Some((left.get(), right.get())),
            Connective::Either => None,
        },
        Range::Either(left, right) => match joint {
            Connective::Both => None,
            Connective::Either => Some((left.get(), right.get())),
        },
    }
}

// Merges the first two and appends the result, until one is left.
fn combined(alloc: Global, operands: List<Cuts>, joint: Connective) -> Result<Cuts, NoMemory>
    requires { 0 < length operands }
    ensures { IfOk result (λ c. (v : Version) → inside c v ≡ joined joint operands v) }
{
    let mut waiting = VecDeque::from_vec(operands.into_vec());
    let mut first = waiting.pop_front().unwrap();
    while let Some(second) = waiting.pop_front() {
        waiting.push_back(first.merge(alloc, second, joint)?)?;
        first = waiting.pop_front().unwrap();
    }
    Ok(first)
}
