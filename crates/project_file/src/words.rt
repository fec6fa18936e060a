// Names of fields and sections.
ghost use Rattle.std.specs.Prelude.{◌≡◌};
ghost use Rattle.project_file.specs.Words.{field_word, section_word};

use crate::part::Switch;

/// A field, by its name.
#[derive(Clone, Copy, Debug, PartialEq, Eq)]
pub(crate) enum ProjectFieldWord {
    Read(FieldKind),
    Warned,
    Unsupported,
    Unread,
}

/// The fields that are read.
#[derive(Clone, Copy, Debug, PartialEq, Eq)]
pub(crate) enum FieldKind {
    Packages,
    OptionalPackages,
    Extra,
    Constraints,
    Preferences,
    Newer,
    Older,
    Switch(Switch),
    Limit,
}

/// A section, by its name.
#[derive(Clone, Copy, Debug, PartialEq, Eq)]
pub(crate) enum SectionWord {
    Branch(ProjectBranchWord),
    Package,
    Warned,
    Unsupported,
    Unread,
}

/// A branch.
#[derive(Clone, Copy, Debug, PartialEq, Eq)]
pub(crate) enum ProjectBranchWord {
    If,
    Elif,
    Else,
}

pub(crate) fn field_word(name: &str) -> ProjectFieldWord
    ensures { result ≡ field_word name.now }
{
    match name {
        "packages" => ProjectFieldWord::Read(FieldKind::Packages),
        "optional-packages" => ProjectFieldWord::Read(FieldKind::OptionalPackages),
        "extra-packages" => ProjectFieldWord::Read(FieldKind::Extra),
        "constraints" => ProjectFieldWord::Read(FieldKind::Constraints),
        "preferences" => ProjectFieldWord::Read(FieldKind::Preferences),
        "allow-newer" => ProjectFieldWord::Read(FieldKind::Newer),
        "allow-older" => ProjectFieldWord::Read(FieldKind::Older),
        "tests" => ProjectFieldWord::Read(FieldKind::Switch(Switch::Tests)),
        "benchmarks" => ProjectFieldWord::Read(FieldKind::Switch(Switch::Benchmarks)),
        "prefer-oldest" => ProjectFieldWord::Read(FieldKind::Switch(Switch::PreferOldest)),
        "allow-boot-library-installs" => {
            ProjectFieldWord::Read(FieldKind::Switch(Switch::BootInstalls))
        }
        "max-backjumps" => ProjectFieldWord::Read(FieldKind::Limit),
        "index-state" => ProjectFieldWord::Warned,
        "active-repositories" => ProjectFieldWord::Warned,
        "import" => ProjectFieldWord::Unsupported,
        _ => ProjectFieldWord::Unread,
    }
}

pub(crate) fn section_word(name: &str) -> SectionWord
    ensures { result ≡ section_word name.now }
{
    match name {
        "if" => SectionWord::Branch(ProjectBranchWord::If),
        "elif" => SectionWord::Branch(ProjectBranchWord::Elif),
        "else" => SectionWord::Branch(ProjectBranchWord::Else),
        "package" => SectionWord::Package,
        "repository" => SectionWord::Warned,
        "source-repository-package" => SectionWord::Unsupported,
        _ => SectionWord::Unread,
    }
}
