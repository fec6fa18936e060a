// The tree of a file.
ghost use Rattle.std.specs.Prelude.{◌≡◌, ◌≤◌, ◌<◌, ◌-◌, ◌*◌, ◌^◌, ℕ, List, true, length, IfOk, IfErr, MatchResult};
ghost use Rattle.std.specs.Str.{chars};
ghost use Rattle.plan_types.specs.declared.element.Element.{Element};
ghost use Rattle.plan_types.specs.declared.refusal.Cause.{Cause};
ghost use Rattle.plan_types.specs.Refusal.{RefusesAt};
ghost use Rattle.cabal_lexer.specs.Fault.{StandsFor, FirstFault};
ghost use Rattle.cabal_lexer.specs.Printable.{Printable};
ghost use Rattle.cabal_lexer.specs.RoundTrip.{without_returns};
ghost use Rattle.older_layout.specs.OlderTree.{plain, plain_text, decoded, older_lines, IsOlderTree, IsOlderFault};

use crate::relaid::{borrowed, relaid};
use cabal_lexer::{items_of, kept_lines};
use plan_types::{Element, Fault, List, NoMemory, Text};
use std::alloc::Global;
use std::str;

/// The tree of a file in the older layout, or its first fault.
///
/// Bytes that aren't UTF-8 are read as Latin-1, and U+00A0 as a space. The fault is on the least line. `UnclosedBrace` comes only if there is
/// no other fault.
pub fn read_older(alloc: Global, bytes: &[u8]) -> Result<List<Element>, Fault>
    requires { length bytes.now ≤ 1048576 }
    ensures tree { IfOk result (λ items. IsOlderTree bytes.now items) }
    ensures fault { IfErr result (RefusesAt (IsOlderFault bytes.now)) }
    // A tree that was read is printable, unless a value or args end with a carriage return.
    ensures printable { IfOk result (λ items. without_returns items ≡ true → Printable 1 items) }
    // Complete for trees: a file with a tree gives it, or out of memory.
    ensures exactly_trees { (items : List Element) → IsOlderTree bytes.now items →
        MatchResult result (λ found. found ≡ items) (RefusesAt (λ _ _. ⊥)) }
    // Complete for faults: a file with a fault gives it, or out of memory.
    ensures exactly_faults { (line : ℕ) (cause : Cause) → IsOlderFault bytes.now line cause →
        MatchResult result (λ _. ⊥) (RefusesAt (λ at why. (at ≡ line) × (why ≡ cause))) }
{
    read_tree(alloc, bytes)
}

fn read_tree(alloc: Global, bytes: &[u8]) -> Result<List<Element>, Fault>
    requires { length bytes.now ≤ 1048576 }
    ensures tree { IfOk result (λ items. IsOlderTree bytes.now items) }
    ensures fault { IfErr result (RefusesAt (IsOlderFault bytes.now)) }
    ensures printable { IfOk result (λ items. without_returns items ≡ true → Printable 1 items) }
{
    let text = decoded(alloc, bytes)?;
    tree_of(alloc, text.as_str())
}

// The text of a file.
fn decoded(alloc: Global, bytes: &[u8]) -> Result<Text, NoMemory>
    ensures value { IfOk result (λ text. text ≡ decoded bytes.now) }
    ensures bound { IfOk result (λ text. length text ≤ 4 * length bytes.now) }
{
    match str::from_utf8(bytes) {
        Ok(text) => from_utf8(alloc, text),
        Err(_) => from_latin1(alloc, bytes),
    }
}

fn from_utf8(alloc: Global, text: &str) -> Result<Text, NoMemory>
    ensures value { IfOk result (λ found. found ≡ plain_text (chars text.now)) }
    ensures bound { IfOk result (λ found. length found ≤ 4 * length text.now) }
{
    let mut string = String::new(alloc);
    for character in text.chars() {
        string.push(plain(character))?;
    }
    Ok(Text::from_string(string))
}

// The text of bytes in Latin-1.
fn from_latin1(alloc: Global, bytes: &[u8]) -> Result<Text, NoMemory>
    ensures value { IfOk result (λ text. text ≡ plain_text bytes.now) }
    ensures bound { IfOk result (λ text. length text ≤ 4 * length bytes.now) }
{
    let mut string = String::new(alloc);
    for byte in bytes {
        string.push(plain(char::from(*byte)))?;
    }
    Ok(Text::from_string(string))
}

fn plain(character: char) -> char
    ensures { result ≡ plain character }
{
    if character == '\u{a0}' {
        ' '
    } else {
        character
    }
}

fn tree_of(alloc: Global, text: &str) -> Result<List<Element>, Fault>
    requires { length text.now < 2 ^ 32 - 1 }
    ensures tree { IfOk result (λ items. StandsFor (older_lines text.now) items) }
    ensures fault { IfErr result (RefusesAt (FirstFault (older_lines text.now))) }
    ensures printable { IfOk result (λ items. without_returns items ≡ true → Printable 1 items) }
{
    let kept = kept_lines(alloc, text)?;
    let lines = relaid(alloc, kept.as_slice())?;
    let lines = borrowed(alloc, lines.as_slice())?;
    items_of(alloc, lines.as_slice())
}
