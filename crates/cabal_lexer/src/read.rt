// The tree of a file.
ghost use Rattle.std.specs.Prelude.{◌≡◌, ◌+◌, ◌≤◌, ◌<◌, ◌==◌, ℕ, List, take, length, count_by, IfOk, IfErr, MatchResult};
ghost use Rattle.std.specs.Str.Lossy.{utf8_valid_len};
ghost use Rattle.plan_types.specs.declared.element.Element.{Element};
ghost use Rattle.plan_types.specs.declared.refusal.Cause.{Cause};
ghost use Rattle.cabal_lexer.specs.Fault.{StandsFor, FirstFault, IsTree, IsFault, bad_line};
ghost use Rattle.plan_types.specs.Refusal.{RefusesAt};

use crate::elements::read_items;
use crate::lines::{Line, kept_lines};
use plan_types::{Cause, Element, Fault, List, Text};
use std::alloc::Global;
use std::str;

/// The tree of a text, or its first fault.
///
/// `NotUtf8` comes before every other fault, then the fault on the least line. `UnclosedBrace` comes only
/// if there is no other fault.
pub fn read_elements(alloc: Global, bytes: &[u8]) -> Result<List<Element>, Fault>
    requires { length bytes.now ≤ 1048576 }
    ensures tree { IfOk result (λ items. IsTree bytes.now items) }
    ensures fault { IfErr result (RefusesAt (IsFault bytes.now)) }
    // Complete for trees: a text with a tree gives it, or out of memory.
    ensures exactly_trees { (items : List Element) → IsTree bytes.now items →
        MatchResult result (λ found. found ≡ items) (RefusesAt (λ _ _. ⊥)) }
    // Complete for faults: a text with a fault gives it, or out of memory.
    ensures exactly_faults { (line : ℕ) (cause : Cause) → IsFault bytes.now line cause →
        MatchResult result (λ _. ⊥) (RefusesAt (λ at why. (at ≡ line) × (why ≡ cause))) }
{
    read_tree(alloc, bytes)
}

fn read_tree(alloc: Global, bytes: &[u8]) -> Result<List<Element>, Fault>
    requires { length bytes.now ≤ 1048576 }
    ensures tree { IfOk result (λ items. IsTree bytes.now items) }
    ensures fault { IfErr result (RefusesAt (IsFault bytes.now)) }
{
    let text = as_text(bytes)?;
    elements_of(alloc, text)
}

/// The tree of a text that is known to be UTF-8, or its first fault.
pub fn elements_of(alloc: Global, text: &str) -> Result<List<Element>, Fault>
    requires { length text.now ≤ 1048576 }
    ensures tree { IfOk result (λ items. IsTree text.now items) }
    ensures fault { IfErr result (RefusesAt (IsFault text.now)) }
{
    let lines = kept_lines(alloc, text)?;
    items_of(alloc, lines.as_slice())
}

/// The tree of lines, or their first fault.
pub fn items_of(alloc: Global, lines: &[Line]) -> Result<List<Element>, Fault>
    ensures tree { IfOk result (λ items. StandsFor lines.now items) }
    ensures fault { IfErr result (RefusesAt (FirstFault lines.now)) }
{
    let (items, _) = read_items(alloc, lines, 0, 1, false)?;
    Ok(items)
}

/// The bytes of a file as a text, or the fault `NotUtf8`.
pub fn as_text(bytes: &[u8]) -> Result<&str, Fault>
    requires { length bytes.now ≤ 1048576 }
    ensures { MatchResult result (λ text. text.now ≡ bytes.now) (RefusesAt (IsFault bytes.now)) }
{
    match str::from_utf8(bytes) {
        Ok(text) => Ok(text),
        Err(error) => Err(not_utf8(bytes, error.valid_up_to())),
    }
}

/// The same of bytes that are owned. They become the text without a copy.
pub fn into_text(bytes: List<u8>) -> Result<Text, Fault>
    requires { length bytes ≤ 1048576 }
    ensures { MatchResult result (λ text. text ≡ bytes) (RefusesAt (IsFault bytes)) }
{
    match String::from_utf8(bytes.into_vec()) {
        Ok(text) => Ok(Text::from_string(text)),
        Err(error) => {
            let valid = error.utf8_error().valid_up_to();
            Err(not_utf8(error.as_bytes(), valid))
        }
    }
}

// The fault of bytes of which only so many begin a valid text.
fn not_utf8(bytes: &[u8], valid: usize) -> Fault
    requires few { length bytes.now ≤ 1048576 }
    requires valid { valid ≡ utf8_valid_len bytes.now }
    ensures { result ≡ Fault.At (bad_line bytes.now) Cause.NotUtf8 }
{
    let (front, _) = bytes.split_at(valid);
    Fault::At {
        line: newlines(front) + 1,
        cause: Cause::NotUtf8,
    }
}

fn newlines(bytes: &[u8]) -> u32
    requires { length bytes.now ≤ 1048576 }
    ensures value { result ≡ count_by (λ b. b == 10) bytes.now }
    ensures few { result ≤ 1048576 }
{
    let mut count = 0;
    for byte in bytes {
        if *byte == b'\n' {
            count += 1;
        }
    }
    count
}
