// What becomes of a file.
ghost use Rattle.std.specs.Prelude.{◌≡◌, ◌≤◌, length, IfOk, IfErr};
ghost use Rattle.std.specs.Bool.{Decides};
ghost use Rattle.plan_types.specs.Refusal.{RefusesAt};
ghost use Rattle.cabal_lexer.specs.Canonical.{canonical};
ghost use Rattle.cabal_lexer.specs.Tree.{Tree, in_front};
ghost use Rattle.older_headers.specs.Answers.{IsAnswer, IsRead, IsRefusal, IsSaid, IsUnsaid, Says, heads_read, is_read_version, states_read};

use crate::same::are_same;
use cabal_lexer::{one_tree, print_elements, read_elements, tree_or_fault};
use older_layout::read_older;
use older_rules::{Change, Modern, modern_elements};
use plan_types::{Cause, Element, Fault, List, NoMemory, Text, joined_text};
use std::alloc::Global;

/// The most bytes of a file that the planner reads.
const FILE_LIMIT: usize = 1_048_576;

/// What becomes of a file.
#[derive(Debug, Drop)]
pub enum Answer {
    /// The planner reads the file as it is.
    Unchanged,
    /// A text that says the same under a cabal-version that is read. Without a change only the layout is another one.
    Rewritten { text: Text, changes: List<Change> },
}

/// What becomes of a file, or why it is refused.
///
/// A refusal is the first fault of the file's layout, or one of the rules; `TooLarge` if the text would have more than
/// 1,048,576 bytes; or `BadField` at line 1 if no text says what the rules make of the file.
pub fn modern_file(alloc: Global, bytes: &[u8]) -> Result<Answer, Fault>
    requires { length bytes.now ≤ 1048576 }
    ensures answer { IfOk result (IsAnswer bytes.now) }
    ensures refusal { IfErr result (RefusesAt (IsRefusal bytes.now)) }
{
    if is_read(alloc, bytes)? {
        return Ok(Answer::Unchanged);
    }
    rewritten(alloc, bytes)
}

/// Whether the planner reads a file as it is.
fn is_read(alloc: Global, bytes: &[u8]) -> Result<bool, NoMemory>
    requires { length bytes.now ≤ 1048576 }
    ensures { IfOk result (λ found. Decides found (IsRead bytes.now)) }
{
    one_tree();
    tree_or_fault();
    match read_elements(alloc, bytes) {
        Ok(items) => states_read(alloc, items.as_slice()),
        Err(Fault::At { line: _, cause: _ }) => Ok(false),
        Err(Fault::NoMemory) => Err(NoMemory),
    }
}

/// Whether a file's first element is a cabal-version that the planner reads.
fn states_read(alloc: Global, items: &[Element]) -> Result<bool, NoMemory>
    ensures { IfOk result (λ found. found ≡ states_read items.now) }
{
    match items {
        [] => Ok(false),
        [first, ..] => is_read_header(alloc, first),
    }
}

fn is_read_header(alloc: Global, first: &Element) -> Result<bool, NoMemory>
    ensures { IfOk result (λ found. (behind : Tree) → found ≡ heads_read (in_front first.now behind)) }
{
    match first {
        Element::Field {
            line: _,
            name,
            values,
        } => {
            if name.as_str() != "cabal-version" {
                return Ok(false);
            }
            let text = joined_text(alloc, values.as_slice())?;
            Ok(is_read_version(text.as_str()))
        }
        Element::Section {
            line: _,
            name: _,
            args: _,
            items: _,
        } => Ok(false),
    }
}

fn is_read_version(text: &str) -> bool
    ensures { result ≡ is_read_version text.now }
{
    matches!(text, "2.4" | "3.0" | "3.4")
}

fn rewritten(alloc: Global, bytes: &[u8]) -> Result<Answer, Fault>
    requires { length bytes.now ≤ 1048576 }
    ensures answer { (IsRead bytes.now → ⊥) → IfOk result (IsAnswer bytes.now) }
    ensures refusal { (IsRead bytes.now → ⊥) → IfErr result (RefusesAt (IsRefusal bytes.now)) }
{
    let older = read_older(alloc, bytes)?;
    let modern = modern_elements(alloc, &older)?;
    said(alloc, modern)
}

/// The text of elements, with their changes, if it says them.
fn said(alloc: Global, modern: Modern) -> Result<Answer, Fault>
    ensures answer { IfOk result (IsSaid modern) }
    ensures refusal { IfErr result (RefusesAt (IsUnsaid modern)) }
{
    let text = print_elements(alloc, &modern.items)?;
    if FILE_LIMIT < text.as_bytes().len() {
        return Err(too_large());
    }
    if says(alloc, &text, modern.items.as_slice())? {
        Ok(Answer::Rewritten {
            text,
            changes: modern.changes,
        })
    } else {
        Err(unsayable())
    }
}

fn too_large() -> Fault
    ensures { result ≡ Fault.At 0 Cause.TooLarge }
{
    Fault::At {
        line: 0,
        cause: Cause::TooLarge,
    }
}

fn unsayable() -> Fault
    ensures { result ≡ Fault.At 1 Cause.BadField }
{
    Fault::At {
        line: 1,
        cause: Cause::BadField,
    }
}

/// Whether the text of elements is read as these elements.
fn says(alloc: Global, text: &Text, items: &[Element]) -> Result<bool, NoMemory>
    requires { length text.now ≤ 1048576 }
    ensures { IfOk result (λ found. Decides found (Says text.now items.now)) }
{
    one_tree();
    tree_or_fault();
    match read_elements(alloc, text.as_bytes()) {
        Ok(again) => Ok(are_same(again.as_slice(), items)),
        Err(Fault::At { line: _, cause: _ }) => Ok(false),
        Err(Fault::NoMemory) => Err(NoMemory),
    }
}
