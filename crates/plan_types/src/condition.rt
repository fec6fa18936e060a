// Conditions, the environment that decides them, and settings of flags.
ghost use Rattle.std.specs.Prelude.{◌≡◌, IfOk};

use crate::{NoMemory, Range, Shared, Text, Version};
use std::alloc::Global;

/// The syntax tree of a condition. Names are in lower case. The name of an operating system is its usual one.
#[derive(Debug)]
pub enum Cond {
    /// `true`
    Always,
    /// `false`
    Never,
    /// `flag(f)`
    Flag(Text),
    /// `os(x)`
    Os(Text),
    /// `arch(x)`
    Arch(Text),
    /// `impl(c range)`
    Impl(Text, Range),
    /// `!`
    Not(Shared<Cond>),
    /// `&&`
    And(Shared<Cond>, Shared<Cond>),
    /// `||`
    Or(Shared<Cond>, Shared<Cond>),
}

/// The system, processor and compiler that decide tests other than flags. All names are in lower case.
#[derive(Debug, Drop)]
pub struct Env {
    pub os: Text,
    pub arch: Text,
    pub compiler: Text,
    pub compiler_version: Version,
}

/// A flag that is on or off. Its name is in lower case.
#[derive(Debug, PartialEq, Eq, Drop)]
pub struct FlagSet {
    pub name: Text,
    pub on: bool,
}

impl Cond {
    /// A copy of the first layer, which shares the parts below.
    pub fn copy(&self, alloc: Global) -> Result<Cond, NoMemory>
        ensures { IfOk result (λ copied. copied ≡ self.now) }
    {
        match self {
            Cond::Always => Ok(Cond::Always),
            Cond::Never => Ok(Cond::Never),
            Cond::Flag(name) => Ok(Cond::Flag(name.copy()?)),
            Cond::Os(name) => Ok(Cond::Os(name.copy()?)),
            Cond::Arch(name) => Ok(Cond::Arch(name.copy()?)),
            Cond::Impl(name, range) => Ok(Cond::Impl(name.copy()?, range.copy(alloc)?)),
            Cond::Not(inner) => Ok(Cond::Not(inner.copy()?)),
            Cond::And(left, right) => Ok(Cond::And(left.copy()?, right.copy()?)),
            Cond::Or(left, right) => Ok(Cond::Or(left.copy()?, right.copy()?)),
        }
    }
}

// Chains are left-associative, so left operands may nest as deep as a file is long: a loop, not recursion.
// The loop ends at the first part that is still shared.
impl Drop for Cond {
    fn drop(mut self) {
        loop {
            match self {
                Cond::Always => return,
                Cond::Never => return,
                Cond::Flag(_) => return,
                Cond::Os(_) => return,
                Cond::Arch(_) => return,
                Cond::Impl(_, _) => return,
                Cond::Not(inner) => match inner.into_inner() {
                    Some(inner) => self = inner,
                    None => return,
                },
                Cond::And(left, right) | Cond::Or(left, right) => {
                    drop(right);
                    match left.into_inner() {
                        Some(left) => self = left,
                        None => return,
                    }
                }
            }
        }
    }
}
