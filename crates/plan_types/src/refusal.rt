// Why an input is refused.
ghost use Rattle.plan_types.specs.declared.refusal.Fault.TheVariants.{NoMemory as fault_no_memory};
ghost use Rattle.plan_types.specs.declared.refusal.Halt.TheVariants.{NoMemory as halt_no_memory};
ghost use Rattle.plan_types.specs.declared.refusal.TextFault.TheVariants.{NoMemory as text_fault_no_memory};
ghost use Rattle.std.specs.Prelude.{◌≡◌};

use crate::{NoMemory, Text};
use std::alloc::Global;

/// Why an input is refused.
#[derive(Clone, Copy, Debug, PartialEq, Eq)]
pub enum Cause {
    /// The bytes aren't UTF-8.
    NotUtf8,
    /// A brace where none is allowed.
    StrayBrace,
    /// A brace that is never closed.
    UnclosedBrace,
    /// The name of a field, section, package or component is missing, or isn't well-formed.
    BadName,
    /// More than 64 constructs are open at once.
    TooDeep,
    /// A version isn't well-formed.
    BadVersion,
    /// A range of versions can't be read.
    BadRange,
    /// The text is of a later cabal-version than its file.
    NeedsVersion,
    /// A condition can't be read.
    BadCond,
    /// A dependency can't be read.
    BadDepend,
    /// A constraint, named range or relaxing of a project can't be read.
    BadConstraint,
    /// A description doesn't begin with its cabal-version, or lacks its name or its version.
    MissingField,
    /// A description has a cabal-version that isn't supported.
    WrongCabalVersion,
    /// A value or a section that isn't allowed here.
    BadField,
    /// A name that is already taken, or a library with the name of its package.
    DuplicateName,
    /// An import names no common stanza before it.
    UnknownStanza,
    /// A condition names a flag that isn't declared.
    UnknownFlag,
    /// An import after something else, or in a branch before cabal-version 3.0.
    ImportNotFirst,
    /// `elif` or `else` not directly after `if` or `elif`.
    ElseWithoutIf,
    /// A dependency is on a component that the package itself doesn't have.
    UnknownComponent,
    /// Components of a package need each other.
    ComponentCycle,
    /// More than 256 ways to set the flags of a dependency's condition.
    TooManyPaths,
    /// In a project: a feature of Cabal's that this planner doesn't have.
    Unsupported,
    /// An entry of a project matches no file.
    NoMatch,
    /// A directory of a project has more than one `.cabal` file.
    TwoCabalFiles,
    /// There is no local package.
    NoPackages,
    /// A file has more than 1,048,576 bytes.
    TooLarge,
    /// A file of the index states another name or version than its path.
    WrongPlace,
    /// The record of an installed unit can't be read.
    BadRecord,
    /// A local package has the name of an earlier one.
    DuplicateLocal,
    /// A unit has the id of an earlier one.
    DuplicateUnit,
    /// There are more files, or more bytes in them, than the limit.
    TooMany,
    /// A line of a file of build events can't be read.
    BadEvent,
}

/// Why a file can't be read. Lines are numbered from 1.
#[derive(Clone, Copy, Debug, PartialEq, Eq)]
pub enum Fault {
    NoMemory,
    At { line: u32, cause: Cause },
}

impl From<NoMemory> for Fault {
    ghost from_gives = { λ _ fault. fault ≡ fault_no_memory };

    fn from(_: NoMemory) -> Self {
        Fault::NoMemory
    }
}

/// Why a step of a run ends without a result.
#[derive(Debug, PartialEq, Eq, Drop)]
pub enum Halt {
    NoMemory,
    /// A failed read.
    Failed,
    Refused(Refusal),
}

impl From<NoMemory> for Halt {
    ghost from_gives = { λ _ halt. halt ≡ halt_no_memory };

    fn from(_: NoMemory) -> Self {
        Halt::NoMemory
    }
}

/// Why a text within a file can't be read.
#[derive(Clone, Copy, Debug, PartialEq, Eq)]
pub enum TextFault {
    NoMemory,
    Bad(Cause),
}

impl From<NoMemory> for TextFault {
    ghost from_gives = { λ _ fault. fault ≡ text_fault_no_memory };

    fn from(_: NoMemory) -> Self {
        TextFault::NoMemory
    }
}

/// A refusal: the file, the line (0 for none), the cause, and a detail that depends on the cause.
#[derive(Debug, PartialEq, Eq, Drop)]
pub struct Refusal {
    pub path: Text,
    pub line: u32,
    pub cause: Cause,
    pub detail: Text,
}

impl Refusal {
    ghost use Rattle.plan_types.specs.Refusal.{refusal_at};

    /// A refusal without a detail.
    pub fn at(alloc: Global, path: Text, line: u32, cause: Cause) -> Refusal
        ensures { result ≡ refusal_at path line cause }
    {
        Refusal {
            path,
            line,
            cause,
            detail: Text::new(alloc),
        }
    }
}
