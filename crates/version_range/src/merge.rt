// The merge of two lists of ends.
ghost use Rattle.std.specs.Prelude.{◌≡◌, [], IfOk, OnOk, IfSome, IfNone, true};
ghost use Rattle.plan_types.specs.declared.version.Version.{Version};
ghost use Rattle.version_range.specs.Cuts.{inside, are_ends, rises, join, flip, pushed, IsStep};

use plan_types::{List, NoMemory, Version};
use std::alloc::Global;
use std::cmp::Ordering;
use std::collections::VecDeque;

/// How two sets are joined: intersection or union.
#[derive(Clone, Copy)]
pub enum Connective {
    Both,
    Either,
}

impl Connective {
    pub fn join(self, a: bool, b: bool) -> bool
        ensures { result ≡ join self a b }
    {
        match self {
            Connective::Both => a && b,
            Connective::Either => a || b,
        }
    }
}

// The least end of two lists, and the lists that it is removed from.
struct LeastEnd {
    end: Version,
    from_first: bool,
    from_second: bool,
}

/// The ends of the intersection or union of two sets. The versions are moved, not copied.
pub fn merged(
    alloc: Global,
    first: Vec<Version>,
    second: Vec<Version>,
    joint: Connective,
) -> Result<List<Version>, NoMemory>
    requires first_rises { are_ends first.items ≡ true }
    requires second_rises { are_ends second.items ≡ true }
    ensures rises { IfOk result (λ ends. are_ends ends ≡ true) }
    ensures members { IfOk result (λ ends. (v : Version)
        → inside ends v ≡ join joint (inside first.items v) (inside second.items v)) }
{
    let mut ends = List::new(alloc);
    let mut in_first = false;
    let mut in_second = false;
    let mut rest_first = VecDeque::from_vec(first);
    let mut rest_second = VecDeque::from_vec(second);
    while let Some(least) = take_least(&mut rest_first, &mut rest_second) {
        let LeastEnd {
            end,
            from_first,
            from_second,
        } = least;
        let was = joint.join(in_first, in_second);
        in_first = flip(from_first, in_first);
        in_second = flip(from_second, in_second);
        let now = joint.join(in_first, in_second);
        push_if(&mut ends, end, flip(was, now))?;
    }
    Ok(ends)
}

fn flip(turns: bool, b: bool) -> bool
    ensures { result ≡ flip turns b }
{
    if turns { !b } else { b }
}

fn push_if(ends: &mut List<Version>, end: Version, wanted: bool) -> Result<(), NoMemory>
    ensures { OnOk result (ends.new ≡ pushed wanted ends.old end) }
{
    if wanted {
        ends.push(end)?;
    }
    Ok(())
}

fn take_least(first: &mut VecDeque<Version>, second: &mut VecDeque<Version>) -> Option<LeastEnd>
    requires first_rises { rises first.old.items ≡ true }
    requires second_rises { rises second.old.items ≡ true }
    ensures some { IfSome result (λ s. IsStep first.old.items second.old.items s.end
        s.from_first first.new.items s.from_second second.new.items) }
    ensures none { IfNone result ((first.old.items ≡ []) × (second.old.items ≡ [])) }
{
    match (first.front(), second.front()) {
        (None, None) => None,
        (Some(_), None) => Some(LeastEnd {
            end: first.pop_front()?,
            from_first: true,
            from_second: false,
        }),
        (None, Some(_)) => Some(LeastEnd {
            end: second.pop_front()?,
            from_first: false,
            from_second: true,
        }),
        (Some(x), Some(y)) => match x.compare(y) {
            Ordering::Less => Some(LeastEnd {
                end: first.pop_front()?,
                from_first: true,
                from_second: false,
            }),
            Ordering::Equal => {
                second.pop_front();
                Some(LeastEnd {
                    end: first.pop_front()?,
                    from_first: true,
                    from_second: true,
                })
            }
            Ordering::Greater => Some(LeastEnd {
                end: second.pop_front()?,
                from_first: false,
                from_second: true,
            }),
        },
    }
}
