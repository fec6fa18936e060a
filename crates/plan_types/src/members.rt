// The members of a range.
ghost use Rattle.std.specs.Prelude.{◌≡◌, ◌+◌, ◌&&◌, [], ◌∷◌};
ghost use Rattle.std.specs.Ordering.{is_lt};
ghost use Rattle.plan_types.specs.Members.{members, major_end, order};

use crate::{Range, Version};

impl Range {
    /// Whether the version is a member.
    pub fn has(&self, v: &Version) -> bool
        ensures { result ≡ members self.now v.now }
    {
        // Chains are left-associative, so the loop descends on the left and recursion takes the right.
        let mut range = self;
        loop {
            match range {
                Range::Any => return true,
                Range::Nothing => return false,
                Range::Equal(x) => return v.compare(x).is_eq(),
                Range::Prefix(x) => return v.parts.as_slice().starts_with(x.parts.as_slice()),
                Range::AtLeast(x) => return v.compare(x).is_ge(),
                Range::Above(x) => return v.compare(x).is_gt(),
                Range::AtMost(x) => return v.compare(x).is_le(),
                Range::Below(x) => return v.compare(x).is_lt(),
                Range::Major(x) => {
                    return v.compare(x).is_ge()
                        && ends_before(v.parts.as_slice(), x.parts.as_slice());
                }
                Range::Both(left, right) => {
                    if !right.get().has(v) {
                        return false;
                    }
                    range = left.get();
                }
                Range::Either(left, right) => {
                    if right.get().has(v) {
                        return true;
                    }
                    range = left.get();
                }
            }
        }
    }
}

// Whether the numbers are below the end of the major version of x.
fn ends_before(numbers: &[u32], x: &[u32]) -> bool
    ensures { result ≡ is_lt (order numbers.now (major_end x.now)) }
{
    match x {
        [] => false,
        [a] => are_at_most(numbers, *a, 0),
        [a, b, ..] => are_at_most(numbers, *a, *b),
    }
}

// Whether the first two numbers are at most a and b.
fn are_at_most(numbers: &[u32], a: u32, b: u32) -> bool
    ensures { result ≡ is_lt (order numbers.now (a ∷ (b + 1) ∷ [])) }
{
    match numbers {
        [] => true,
        [n] => *n <= a,
        [n, m, ..] => *n < a || (*n == a && *m <= b),
    }
}
