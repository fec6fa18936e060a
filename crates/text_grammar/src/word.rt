// The words of a text, and readers of one word: a boolean, a package's name.
ghost use Rattle.std.specs.Prelude.{◌≡◌, ◌<◌, [], ◌∷◌, length, not, IfOk, MatchOption};
ghost use Rattle.std.specs.List.{prefix_len};
ghost use Rattle.text_grammar.specs.Words.{boolean, is_between, package_name, words};

use plan_types::{List, NoMemory, Text, is_package_name};
use std::alloc::Global;

/// The separators of words.
#[derive(Clone, Copy, Debug, PartialEq, Eq)]
pub enum Between {
    Spaces,
    SpacesAndCommas,
    /// Spaces, tabs and commas.
    BlanksAndCommas,
}

/// The boolean of `true` or `false`, in any case.
pub fn boolean(text: &[u8]) -> Option<bool>
    ensures { result ≡ boolean text.now }
{
    if text.eq_ignore_ascii_case(b"true") {
        Some(true)
    } else if text.eq_ignore_ascii_case(b"false") {
        Some(false)
    } else {
        None
    }
}

/// The text, if it is a package's name.
pub fn package_name(text: Text) -> Option<Text>
    ensures { result ≡ package_name text }
{
    if is_package_name(text.as_bytes()) {
        Some(text)
    } else {
        None
    }
}

/// The words of a text.
pub fn words(alloc: Global, between: Between, text: &str) -> Result<List<Text>, NoMemory>
    ensures { IfOk result (λ found. found ≡ words between text.now) }
{
    let mut found = List::new(alloc);
    let mut rest = text;
    while let Some((word, more)) = first_word(between, rest) {
        found.push(Text::from_str(alloc, word)?)?;
        rest = more;
    }
    Ok(found)
}

// The first word of a text, and the rest.
fn first_word(between: Between, text: &str) -> Option<(&str, &str)>
    ensures { MatchOption result (words between text.now ≡ [])
        (λ p. (words between text.now ≡ p.0.now ∷ words between p.1.now) × (length p.1.now < length text.now)) }
{
    let (_, text) = text.split_at(separators(between, text.as_bytes()));
    let length = word_length(between, text.as_bytes());
    if length == 0 {
        return None;
    }
    Some(text.split_at(length))
}

// The number of leading separators.
fn separators(between: Between, text: &[u8]) -> usize
    ensures { result ≡ prefix_len (is_between between) text.now }
{
    text.iter()
        .take_while(|byte| is_between(between, **byte))
        .count()
}

fn word_length(between: Between, text: &[u8]) -> usize
    ensures { result ≡ prefix_len (λ b. not (is_between between b)) text.now }
{
    text.iter()
        .take_while(|byte| !is_between(between, **byte))
        .count()
}

/// Whether a byte is a separator.
pub fn is_between(between: Between, byte: u8) -> bool
    ensures { result ≡ is_between between byte }
{
    match between {
        Between::Spaces => byte == b' ',
        Between::SpacesAndCommas => byte == b' ' || byte == b',',
        Between::BlanksAndCommas => byte == b' ' || byte == b'\t' || byte == b',',
    }
}
