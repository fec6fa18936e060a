// Tools of older files.

ghost use Rattle.std.specs.Prelude.{◌≡◌, ◌++◌, ◌∷◌, ◌≤◌, [], IfOk, OnOk, length, take, drop, map, flat_map, ◌==◌};
ghost use Rattle.std.specs.List.{prefix_len, slice_split};
ghost use Rattle.older_rules.specs.Tools.{is_tool_byte, is_known, known, full_name, depended, tool_texts, tools_told, tool_of, tool_told, entry_tool, entry_told, commas};

use crate::change::Change;
use cabal_lexer::trim;
use entry_text::is_component_byte;
use older_fields::NameMap;
use plan_types::{List, NoMemory, Text};
use std::alloc::{AllocError, Global};

fn is_tool_byte(byte: u8) -> bool
    ensures { result ≡ is_tool_byte byte }
{
    is_component_byte(byte) || byte == b'+'
}

fn name_len(entry: &[u8]) -> usize
    ensures count { result ≡ prefix_len is_tool_byte entry.now }
    ensures within { result ≤ length entry.now }
{
    entry.iter().take_while(|byte| is_tool_byte(**byte)).count()
}

// The name of a tool, and the rest of its entry.
fn cut(entry: &str) -> (&str, &str)
    ensures name { result.0.now ≡ take (prefix_len is_tool_byte entry.now) entry.now }
    ensures rest { result.1.now ≡ drop (prefix_len is_tool_byte entry.now) entry.now }
{
    entry.split_at(name_len(entry.as_bytes()))
}

/// Whether the tool comes from the package of the same name.
fn is_known(name: &str) -> bool
    ensures { result ≡ is_known name.now }
{
    match name {
        "hscolour" => true,
        "haddock" => true,
        "happy" => true,
        "alex" => true,
        "hsc2hs" => true,
        "c2hs" => true,
        "cpphs" => true,
        "greencard" => true,
        "hspec-discover" => true,
        _ => false,
    }
}

fn known(alloc: Global, name: &str) -> Result<Option<Text>, NoMemory>
    ensures { IfOk result (λ full. full ≡ known name.now) }
{
    if is_known(name) {
        let mut full = Text::from_str(alloc, name)?;
        full.push_str(":")?;
        full.push_str(name)?;
        Ok(Some(full))
    } else {
        Ok(None)
    }
}

// The tool of a name, with its package.
fn full_name(alloc: Global, own: &NameMap, name: &str) -> Result<Option<Text>, NoMemory>
    ensures { IfOk result (λ full. full ≡ full_name own.now.entries name.now) }
{
    let key = Text::from_str(alloc, name)?;
    match own.get(&key) {
        Some(full) => Ok(Some(full.copy()?)),
        None => known(alloc, name),
    }
}

/// The entry of `build-tool-depends` for an entry of `build-tools`.
fn depended(alloc: Global, own: &NameMap, entry: &str) -> Result<Option<Text>, NoMemory>
    ensures { IfOk result (λ found. found ≡ depended own.now.entries entry.now) }
{
    let (name, rest) = cut(entry);
    match full_name(alloc, own, name)? {
        Some(full) => Ok(Some(joined(full, rest)?)),
        None => Ok(None),
    }
}

fn joined(mut front: Text, back: &str) -> Result<Text, NoMemory>
    ensures { IfOk result (λ text. text ≡ front ++ back.now) }
{
    front.push_str(back)?;
    Ok(front)
}

/// The entries for those of a text, without tools that Cabal doesn't know.
pub fn tool_texts(
    alloc: Global,
    own: &NameMap,
    line: u32,
    text: &str,
    changes: &mut List<Change>,
) -> Result<List<Text>, NoMemory>
    ensures tools { IfOk result (λ found. found ≡ tool_texts own.now.entries text.now) }
    ensures changes { OnOk result (changes.new ≡ changes.old ++ tools_told own.now.entries line text.now) }
{
    let pieces = pieces(alloc, text)?;
    each_tool(alloc, own, line, pieces.as_slice(), changes)
}

fn pieces(alloc: Global, text: &str) -> Result<Vec<&str>, AllocError>
    ensures { IfOk result (λ pieces. map (λ piece. piece.now) pieces.items ≡ slice_split (λ b. b == 44) text.now) }
{
    text.split(',').collect(alloc)
}

fn each_tool(
    alloc: Global,
    own: &NameMap,
    line: u32,
    pieces: &[&str],
    changes: &mut List<Change>,
) -> Result<List<Text>, NoMemory>
    ensures tools { IfOk result (λ found. found ≡ flat_map (tool_of own.now.entries) (map (λ piece. piece.now) pieces.now)) }
    ensures changes { OnOk result (changes.new ≡ changes.old
        ++ flat_map (tool_told own.now.entries line) (map (λ piece. piece.now) pieces.now)) }
{
    let mut found = List::new(alloc);
    for piece in pieces {
        push_tool(alloc, own, line, trim(piece), &mut found, changes)?;
    }
    Ok(found)
}

fn push_tool(
    alloc: Global,
    own: &NameMap,
    line: u32,
    entry: &str,
    found: &mut List<Text>,
    changes: &mut List<Change>,
) -> Result<(), NoMemory>
    ensures tools { OnOk result (found.new ≡ found.old ++ entry_tool own.now.entries entry.now) }
    ensures changes { OnOk result (changes.new ≡ changes.old ++ entry_told own.now.entries line entry.now) }
{
    if entry.is_empty() {
        return Ok(());
    }
    match depended(alloc, own, entry)? {
        Some(text) => found.push(text),
        None => changes.push(Change::UnknownTool { line }),
    }
}

/// Texts joined by commas.
pub fn commas(alloc: Global, texts: &[Text]) -> Result<Text, NoMemory>
    ensures { IfOk result (λ text. text ≡ commas texts.now) }
{
    let mut text = Text::new(alloc);
    let mut rest = texts;
    while let [one, more @ ..] = rest {
        text.push_str(one.as_str())?;
        if !more.is_empty() {
            text.push_str(", ")?;
        }
        rest = more;
    }
    Ok(text)
}
