// The pattern of an entry's text: names, in which a star matches any bytes.
ghost use Rattle.std.specs.Prelude.{◌≡◌, ◌||◌, ◌==◌, filter, map, IfOk};
ghost use Rattle.std.specs.List.{list_any, slice_split};
ghost use Rattle.plan_types.specs.Bytes.{begins_with, same_text};
ghost use Rattle.project_paths.specs.Patterns.{ends_in_slash, has, has_brace, has_mark, is_name, is_unsupported, leaves_root, names_in, names_of, pattern_of, stem};

use plan_types::{List, NoMemory, Text};
use std::alloc::{AllocError, Global};

/// The pattern of an entry.
#[derive(Debug, Drop)]
pub(crate) struct Pattern {
    /// The names of the directories from the root down, and last of the files or directories searched for.
    pub names: List<Text>,
    /// Whether it is for directories only.
    pub folders: bool,
}

/// The pattern of a text; `None` if it isn't supported, because Cabal would search elsewhere for it.
pub(crate) fn pattern_of(alloc: Global, text: &str) -> Result<Option<Pattern>, NoMemory>
    ensures { IfOk result (λ found. found ≡ pattern_of text.now) }
{
    let (stem, folders) = without_slash(text);
    let names = names_in(alloc, stem)?;
    if is_unsupported(text.as_bytes(), names.as_slice()) {
        return Ok(None);
    }
    Ok(Some(Pattern { names, folders }))
}

// A slash at the end means a directory.
fn without_slash(text: &str) -> (&str, bool)
    ensures stem { result.0.now ≡ stem text.now }
    ensures slash { result.1 ≡ ends_in_slash text.now }
{
    match text.strip_suffix('/') {
        Some(stem) => (stem, true),
        None => (text, false),
    }
}

fn names_in(alloc: Global, stem: &str) -> Result<List<Text>, NoMemory>
    ensures { IfOk result (λ names. names ≡ names_in stem.now) }
{
    let pieces = pieces(alloc, stem)?;
    names_among(alloc, pieces.as_slice())
}

fn pieces(alloc: Global, text: &str) -> Result<Vec<&str>, AllocError>
    ensures { IfOk result (λ pieces. map (λ piece. piece.now) pieces.items ≡ slice_split
        (λ b. b == 47) text.now) }
{
    text.split('/').collect(alloc)
}

fn names_among(alloc: Global, pieces: &[&str]) -> Result<List<Text>, NoMemory>
    ensures { IfOk result (λ names. names ≡ filter is_name (map (λ piece. piece.now) pieces.now)) }
{
    let mut names = List::new(alloc);
    for piece in pieces {
        if is_name(piece) {
            names.push(Text::from_str(alloc, piece)?)?;
        }
    }
    Ok(names)
}

fn is_name(piece: &str) -> bool
    ensures { result ≡ is_name piece.now }
{
    piece != "."
}

fn is_unsupported(text: &[u8], names: &[Text]) -> bool
    ensures { result ≡ (has_mark text.now || leaves_root names.now) }
{
    has_mark(text) || leaves_root(names)
}

fn leaves_root(names: &[Text]) -> bool
    ensures { result ≡ leaves_root names.now }
{
    names.iter().any(|name| name.as_str() == "..")
}

fn has_mark(text: &[u8]) -> bool
    ensures { result ≡ has_mark text.now }
{
    begins_elsewhere(text) || has_brace(text) || has(text, b"**") || has(text, b"://")
}

fn begins_elsewhere(text: &[u8]) -> bool
    ensures { result ≡ (begins_with 47 text.now || begins_with 126 text.now) }
{
    match text {
        [] => false,
        [first, ..] => *first == b'/' || *first == b'~',
    }
}

fn has_brace(text: &[u8]) -> bool
    ensures { result ≡ has_brace text.now }
{
    text.iter().any(|byte| *byte == b'{' || *byte == b'}')
}

fn has(text: &[u8], part: &[u8]) -> bool
    ensures { result ≡ has part.now text.now }
{
    let mut rest = text;
    while let [_, more @ ..] = rest {
        if rest.starts_with(part) {
            return true;
        }
        rest = more;
    }
    rest.starts_with(part)
}
