// The operators before a version.
ghost use Rattle.std.specs.Prelude.{◌≡◌};
ghost use Rattle.version_range.specs.Grammar.{of_version, has_sets};

use plan_types::{Range, Spec, Version};

/// A comparison with a version.
#[derive(Clone, Copy)]
pub enum Operator {
    Equal,
    AtLeast,
    Above,
    AtMost,
    Below,
    Major,
}

impl Operator {
    pub fn of_version(self, v: Version) -> Range
        ensures { result ≡ of_version self v }
    {
        match self {
            Operator::Equal => Range::Equal(v),
            Operator::AtLeast => Range::AtLeast(v),
            Operator::Above => Range::Above(v),
            Operator::AtMost => Range::AtMost(v),
            Operator::Below => Range::Below(v),
            Operator::Major => Range::Major(v),
        }
    }

    /// Whether a set may follow it.
    pub fn has_sets(self, spec: Spec) -> bool
        ensures { result ≡ has_sets self spec }
    {
        match self {
            Operator::Equal => !spec.is_old(),
            Operator::AtLeast => false,
            Operator::Above => false,
            Operator::AtMost => false,
            Operator::Below => false,
            Operator::Major => !spec.is_old(),
        }
    }
}
