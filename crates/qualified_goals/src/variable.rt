// Variables, and their goal order.
ghost use Rattle.std.specs.Prelude.{◌≡◌};
ghost use Rattle.qualified_goals.specs.Variable.{same_var, is_before};

/// The qualifier of a goal: top level, the setup of a package, or a tool of a package.
#[derive(Clone, Copy, Debug, Drop, PartialEq, Eq, PartialOrd, Ord, Hash)]
pub enum Qual {
    Top,
    /// The number of the package whose setup it is.
    Setup(u64),
    /// The numbers of the package and of the tool.
    Exe(u64, u64),
}

/// The part of a package that a variable is for: its instance, a flag by number, its tests, or its benchmarks.
#[derive(Clone, Copy, Debug, Drop, PartialEq, Eq, PartialOrd, Ord, Hash)]
pub enum Part {
    Package,
    Flag(u64),
    Tests,
    Benches,
}

/// A variable. The derived order is the goal order: by qualifier, then package, then part.
#[derive(Clone, Copy, Debug, Drop, PartialEq, Eq, PartialOrd, Ord, Hash)]
pub struct Var {
    pub qual: Qual,
    pub package: u64,
    pub part: Part,
}

/// Whether two variables are equal.
pub fn is_same(v: Var, w: Var) -> bool
    ensures { result ≡ same_var v w }
{
    v == w
}

/// Whether a variable is before another in goal order.
pub fn is_before(v: Var, w: Var) -> bool
    ensures { result ≡ is_before v w }
{
    v.cmp(&w).is_lt()
}
