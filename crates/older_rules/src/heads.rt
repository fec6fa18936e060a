// The fields before the sections.

ghost use Rattle.std.specs.Prelude.{◌≡◌, ◌++◌, flat_map, IfOk, OnOk};
ghost use Rattle.std.specs.List.{list_any};
ghost use Rattle.older_rules.specs.Heads.{is_default_value, type_rule, head_rule, head_kept, head_told, is_custom_text, is_custom, is_header, is_wanted, is_single, is_headed, header_said, header_told, type_said, type_told, lacks_type, type_line};

use crate::change::Change;
use older_fields::{
    Edition, Header, is_field_named, last_named, line_of, push_copy, push_word, text_of,
};
use plan_types::{Element, List, NoMemory, Text};
use std::alloc::Global;

/// What becomes of a field before the sections.
#[derive(Clone, Copy, Debug, PartialEq, Eq)]
pub enum HeadRule {
    /// A `cabal-version`, which the new one replaces.
    Header,
    /// A build type that means `Custom`.
    Custom,
    Kept,
}

fn is_default_value(values: &[Text]) -> bool
    ensures { result ≡ is_default_value values.now }
{
    match values {
        [value] => value.as_str() == "Default",
        _ => false,
    }
}

fn head_rule(edition: Edition, name: &str, values: &[Text]) -> HeadRule
    ensures { result ≡ head_rule edition name.now values.now }
{
    match name {
        "cabal-version" => HeadRule::Header,
        "build-type" => type_rule(edition, values),
        _ => HeadRule::Kept,
    }
}

fn type_rule(edition: Edition, values: &[Text]) -> HeadRule
    ensures { result ≡ type_rule edition values.now }
{
    if edition.is_before(Edition::V1_20) && is_default_value(values) {
        HeadRule::Custom
    } else {
        HeadRule::Kept
    }
}

fn push_head(
    alloc: Global,
    edition: Edition,
    item: &Element,
    out: &mut List<Element>,
    changes: &mut List<Change>,
) -> Result<(), NoMemory>
    ensures items { OnOk result (out.new ≡ out.old ++ head_kept edition item.now) }
    ensures changes { OnOk result (changes.new ≡ changes.old ++ head_told edition item.now) }
{
    match item {
        Element::Field { line, name, values } => {
            match head_rule(edition, name.as_str(), values.as_slice()) {
                HeadRule::Header => Ok(()),
                HeadRule::Custom => {
                    changes.push(Change::BuildType)?;
                    push_word(alloc, *line, "build-type", "Custom", out)
                }
                HeadRule::Kept => push_copy(alloc, *line, name, values, out),
            }
        }
        Element::Section { .. } => Ok(()),
    }
}

pub fn push_heads(
    alloc: Global,
    edition: Edition,
    heads: &[Element],
    out: &mut List<Element>,
    changes: &mut List<Change>,
) -> Result<(), NoMemory>
    ensures items { OnOk result (out.new ≡ out.old ++ flat_map (head_kept edition) heads.now) }
    ensures changes { OnOk result (changes.new ≡ changes.old ++ flat_map (head_told edition) heads.now) }
{
    for item in heads {
        push_head(alloc, edition, item, out, changes)?;
    }
    Ok(())
}

fn is_custom_text(edition: Edition, text: &Text) -> bool
    ensures { result ≡ is_custom_text edition text.now }
{
    text.as_bytes().eq_ignore_ascii_case(b"custom")
        || (edition.is_before(Edition::V1_20) && text.as_str() == "Default")
}

/// Whether the package has a setup script of its own.
pub fn is_custom(alloc: Global, edition: Edition, heads: &[Element]) -> Result<bool, NoMemory>
    ensures { IfOk result (λ custom. custom ≡ is_custom edition heads.now) }
{
    match last_named(heads, "build-type") {
        None => Ok(edition.is_before(Edition::V2_2)),
        Some(item) => {
            let text = text_of(alloc, item)?;
            Ok(is_custom_text(edition, &text))
        }
    }
}

/// The line of the build type, or that of the header.
pub fn type_line(header: Header, heads: &[Element]) -> u32
    ensures { result ≡ type_line header heads.now }
{
    match last_named(heads, "build-type") {
        None => header.line,
        Some(item) => line_of(item),
    }
}

/// Whether Cabal takes the build type to be `Custom` without a word of it.
fn lacks_type(edition: Edition, heads: &[Element]) -> bool
    ensures { result ≡ lacks_type edition heads.now }
{
    edition.is_before(Edition::V2_2) && last_named(heads, "build-type").is_none()
}

pub fn push_type(
    alloc: Global,
    header: Header,
    heads: &[Element],
    out: &mut List<Element>,
    changes: &mut List<Change>,
) -> Result<(), NoMemory>
    ensures items { OnOk result (out.new ≡ out.old ++ type_said header heads.now) }
    ensures changes { OnOk result (changes.new ≡ changes.old ++ type_told header heads.now) }
{
    if !lacks_type(header.edition, heads) {
        return Ok(());
    }
    changes.push(Change::BuildType)?;
    push_word(alloc, header.line, "build-type", "Custom", out)
}

fn is_single(values: &[Text], wanted: &str) -> bool
    ensures { result ≡ is_single wanted.now values.now }
{
    match values {
        [value] => value.as_str() == wanted,
        _ => false,
    }
}

fn is_wanted(edition: Edition, item: &Element) -> bool
    ensures { result ≡ is_wanted edition item.now }
{
    match item {
        Element::Field { name, values, .. } => {
            name.as_str() == "cabal-version" && is_single(values.as_slice(), edition.header_text())
        }
        Element::Section { .. } => false,
    }
}

fn has_header(items: &[Element]) -> bool
    ensures { result ≡ list_any is_header items.now }
{
    items
        .iter()
        .any(|item| is_field_named(item, "cabal-version"))
}

fn is_headed(edition: Edition, heads: &[Element]) -> bool
    ensures { result ≡ is_headed edition heads.now }
{
    match heads {
        [] => false,
        [first, others @ ..] => is_wanted(edition, first) && !has_header(others),
    }
}

fn tell_header(
    header: Header,
    heads: &[Element],
    changes: &mut List<Change>,
) -> Result<(), NoMemory>
    ensures { OnOk result (changes.new ≡ changes.old ++ header_told header heads.now) }
{
    if is_headed(header.edition, heads) {
        Ok(())
    } else {
        changes.push(Change::Header)
    }
}

/// Pushes the new header.
pub fn push_header(
    alloc: Global,
    header: Header,
    heads: &[Element],
    out: &mut List<Element>,
    changes: &mut List<Change>,
) -> Result<(), NoMemory>
    ensures items { OnOk result (out.new ≡ out.old ++ header_said header) }
    ensures changes { OnOk result (changes.new ≡ changes.old ++ header_told header heads.now) }
{
    tell_header(header, heads, changes)?;
    let value = header.edition.header_text();
    push_word(alloc, header.line, "cabal-version", value, out)
}
