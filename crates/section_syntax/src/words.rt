// Names of fields and sections, and values that are words.

ghost use Rattle.std.specs.Prelude.{◌≡◌, ◌==◌, map, IfOk};
ghost use Rattle.std.specs.List.{slice_split};
ghost use Rattle.cabal_lexer.specs.Lines.{trim};
ghost use Rattle.section_syntax.specs.Words.{field_word, inner_word, component_section, head_word, section_kind, visibility, build_type, between_commas};
ghost use Rattle.text_grammar.specs.Words.{boolean};

use crate::part::SectionKind;
use cabal_lexer::trim;
use plan_types::{CompKind, List, NoMemory, Text};
use std::alloc::{AllocError, Global};

/// Fields of a section, by their names.
#[derive(Clone, Copy, Debug, PartialEq, Eq)]
pub enum FieldWord {
    Import,
    Depends,
    ToolDepends,
    SetupDepends,
    Buildable,
    Visibility,
    Default,
    Manual,
    BuildTools,
    Unread,
}

/// A section inside a section.
#[derive(Clone, Copy, Debug, PartialEq, Eq)]
pub enum InnerWord {
    Branch(BranchWord),
    /// Not allowed there.
    Misplaced,
    Unread,
}

/// A branch.
#[derive(Clone, Copy, Debug, PartialEq, Eq)]
pub enum BranchWord {
    If,
    Elif,
    Else,
}

/// Fields beside the sections, by their names.
#[derive(Clone, Copy, Debug, PartialEq, Eq)]
pub enum HeadWord {
    Name,
    Version,
    BuildType,
    Unread,
}

pub fn field_word(kind: SectionKind, name: &str) -> FieldWord
    ensures { result ≡ field_word kind name.now }
{
    match kind {
        SectionKind::Component(_) | SectionKind::Common => match name {
            "import" => FieldWord::Import,
            "build-depends" => FieldWord::Depends,
            "build-tool-depends" => FieldWord::ToolDepends,
            "buildable" => FieldWord::Buildable,
            "visibility" => FieldWord::Visibility,
            "build-tools" => FieldWord::BuildTools,
            _ => FieldWord::Unread,
        },
        SectionKind::Flag => match name {
            "default" => FieldWord::Default,
            "manual" => FieldWord::Manual,
            _ => FieldWord::Unread,
        },
        SectionKind::Setup => match name {
            "setup-depends" => FieldWord::SetupDepends,
            _ => FieldWord::Unread,
        },
    }
}

pub fn inner_word(kind: SectionKind, name: &str) -> InnerWord
    ensures { result ≡ inner_word kind name.now }
{
    match kind {
        SectionKind::Component(_) | SectionKind::Common => component_section(name),
        SectionKind::Flag => InnerWord::Unread,
        SectionKind::Setup => InnerWord::Misplaced,
    }
}

fn component_section(name: &str) -> InnerWord
    ensures { result ≡ component_section name.now }
{
    match name {
        "if" => InnerWord::Branch(BranchWord::If),
        "elif" => InnerWord::Branch(BranchWord::Elif),
        "else" => InnerWord::Branch(BranchWord::Else),
        _ => InnerWord::Misplaced,
    }
}

pub fn head_word(name: &str) -> HeadWord
    ensures { result ≡ head_word name.now }
{
    match name {
        "name" => HeadWord::Name,
        "version" => HeadWord::Version,
        "build-type" => HeadWord::BuildType,
        _ => HeadWord::Unread,
    }
}

pub fn section_kind(name: &str) -> Option<SectionKind>
    ensures { result ≡ section_kind name.now }
{
    match name {
        "library" => Some(SectionKind::Component(CompKind::Library)),
        "executable" => Some(SectionKind::Component(CompKind::Executable)),
        "test-suite" => Some(SectionKind::Component(CompKind::Test)),
        "benchmark" => Some(SectionKind::Component(CompKind::Bench)),
        "foreign-library" => Some(SectionKind::Component(CompKind::Foreign)),
        "common" => Some(SectionKind::Common),
        "flag" => Some(SectionKind::Flag),
        "custom-setup" => Some(SectionKind::Setup),
        _ => None,
    }
}

/// Whether the value is `public`; none if it is neither that nor `private`.
pub fn visibility(text: &[u8]) -> Option<bool>
    ensures { result ≡ visibility text.now }
{
    if text.eq_ignore_ascii_case(b"public") {
        Some(true)
    } else if text.eq_ignore_ascii_case(b"private") {
        Some(false)
    } else {
        None
    }
}

/// Whether the value is `Custom`; none if it is neither that, `Simple` nor `Configure`.
pub fn build_type(text: &[u8]) -> Option<bool>
    ensures { result ≡ build_type text.now }
{
    if text.eq_ignore_ascii_case(b"custom") {
        Some(true)
    } else if text.eq_ignore_ascii_case(b"simple") || text.eq_ignore_ascii_case(b"configure") {
        Some(false)
    } else {
        None
    }
}

/// The pieces between the commas of a text, without blanks at both ends.
pub fn between_commas(alloc: Global, text: &str) -> Result<List<Text>, NoMemory>
    ensures { IfOk result (λ names. names ≡ between_commas text.now) }
{
    let pieces = pieces(alloc, text)?;
    trimmed(alloc, pieces.as_slice())
}

fn pieces(alloc: Global, text: &str) -> Result<Vec<&str>, AllocError>
    ensures { IfOk result (λ pieces. map (λ piece. piece.now) pieces.items ≡ slice_split (λ b. b == 44) text.now) }
{
    text.split(',').collect(alloc)
}

fn trimmed(alloc: Global, pieces: &[&str]) -> Result<List<Text>, NoMemory>
    ensures { IfOk result (λ names. names ≡ map trim (map (λ piece. piece.now) pieces.now)) }
{
    let mut names = List::new(alloc);
    for piece in pieces {
        let name = Text::from_str(alloc, trim(piece))?;
        names.push(name)?;
    }
    Ok(names)
}
