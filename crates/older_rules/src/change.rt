// What a rewriting changed.

/// A change to a file. Lines are those of the older file, from 1.
#[derive(Clone, Copy, Debug, PartialEq, Eq)]
pub enum Change {
    /// The cabal-version is another one, or stands elsewhere.
    Header,
    /// `build-type: Custom` is written out.
    BuildType,
    /// A setup script gets its implicit dependencies.
    Setup,
    /// Fields without sections have sections of their own.
    Sections,
    /// A part that Cabal passes over is left out.
    Dropped { line: u32 },
    /// `build-tools` is written as `build-tool-depends`.
    Tools { line: u32 },
    /// A tool that Cabal doesn't know is left out.
    UnknownTool { line: u32 },
    /// A component has another name.
    Name { line: u32 },
}
