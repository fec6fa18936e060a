// The parsed file as data.

use crate::words::BranchWord;
use plan_types::{Cause, CompKind, Dep, Guard, List, Spec, Text, Version};

/// The content of a field, or of a section inside a section.
#[derive(Debug, Drop)]
pub enum Said {
    /// `import`: the names of common stanzas, and whether an import may come here.
    Import {
        names: List<Text>,
        fits: bool,
    },
    /// `build-depends`, `build-tool-depends` and `setup-depends`, or the cause of their fault.
    Depends(Result<List<Dep>, Cause>),
    /// `buildable`; none if it is neither true nor false. So for the next three.
    Buildable(Option<bool>),
    /// `visibility` of a library: whether it is public.
    Visibility(Option<bool>),
    /// `default` of a flag.
    Default(Option<bool>),
    /// `manual` of a flag.
    Manual(Option<bool>),
    /// `build-tools`, whose value isn't read.
    BuildTools,
    /// `if`, `elif` or `else`: the word, its own condition, and whether it fits: an `if`, or directly after one or an
    /// `elif`.
    Branch {
        word: BranchWord,
        condition: Result<Guard, Cause>,
        fits: bool,
    },
    /// Any other section.
    Misplaced,
}

/// A field of a section, or a section inside it.
#[derive(Debug, Drop)]
pub struct SectionPart {
    /// From 1.
    pub line: u32,
    /// The conditions of its branches, the outermost first; `false` if one can't be read.
    pub branches: List<Guard>,
    pub said: Said,
}

/// The kinds of sections that are read.
#[derive(Clone, Copy, Debug, PartialEq, Eq)]
pub enum SectionKind {
    Component(CompKind),
    Common,
    Flag,
    Setup,
}

/// A section with its parts.
#[derive(Debug, Drop)]
pub struct Section {
    /// From 1.
    pub line: u32,
    pub kind: SectionKind,
    /// As written; a flag's in lower case, a setup's empty.
    pub name: Text,
    /// In file order.
    pub parts: List<SectionPart>,
}

/// The content of a field beside the sections; none if its value is ill-formed.
#[derive(Debug, Drop)]
pub enum Head {
    Name(Option<Text>),
    Version(Option<Version>),
    /// Whether it is `Custom`.
    BuildType(Option<bool>),
}

/// A field beside the sections.
#[derive(Debug, Drop)]
pub struct HeadField {
    /// From 1.
    pub line: u32,
    pub head: Head,
}

/// The fields and sections of a file, in file order.
#[derive(Debug, Drop)]
pub struct File {
    pub spec: Spec,
    pub heads: List<HeadField>,
    pub sections: List<Section>,
}
