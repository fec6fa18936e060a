// The names of components.

ghost use Rattle.std.specs.Prelude.{◌≡◌, [], fold, IfOk, OnOk};
ghost use Rattle.std.specs.List.{list_all};
ghost use Rattle.plan_types.specs.Name.{is_component_byte};
ghost use Rattle.older_fields.specs.Names.{is_odd, is_quote, plain_byte, plain_bytes, plain_name, candidates, first_free, fresh, put, so_far, with_new, lacks_name, with_name, renamed, new_name};

use crate::name_map::{NameMap, put_first};
use entry_text::is_component_byte;
use indexmap::{IndexMap, IndexSet};
use plan_types::{NoMemory, Text};
use std::alloc::{AllocError, Global};

/// The most names that are tried for a component.
const TRIES: usize = 16;

/// Whether a name has other characters than letters, digits, `-` and `_`.
pub fn is_odd(name: &[u8]) -> bool
    ensures { result ≡ is_odd name.now }
{
    !has_plain_bytes(name)
}

fn has_plain_bytes(name: &[u8]) -> bool
    ensures { result ≡ list_all is_component_byte name.now }
{
    name.iter().all(|byte| is_component_byte(*byte))
}

fn is_quote(byte: u8) -> bool
    ensures { result ≡ is_quote byte }
{
    byte == b'"'
}

fn plain_byte(byte: u8) -> u8
    ensures { result ≡ plain_byte byte }
{
    if is_component_byte(byte) { byte } else { b'_' }
}

fn plain_bytes(alloc: Global, name: &[u8]) -> Result<Vec<u8>, AllocError>
    ensures { IfOk result (λ bytes. bytes.items ≡ plain_bytes name.now) }
{
    name.iter()
        .filter(|byte| !is_quote(**byte))
        .map(|byte| plain_byte(*byte))
        .collect(alloc)
}

/// The name without quotes, with `_` for each other byte.
fn plain_name(alloc: Global, name: &[u8]) -> Result<Text, NoMemory>
    ensures { IfOk result (λ text. text ≡ plain_name name.now) }
{
    let bytes = plain_bytes(alloc, name)?;
    if bytes.is_empty() {
        return Text::from_str(alloc, "_");
    }
    Text::from_ascii(alloc, bytes.as_slice())
}

/// The first free one of this name and the same with more `_`, if it is among the first 16.
fn first_free(taken: &IndexSet<Text>, name: Text) -> Result<Option<Text>, NoMemory>
    ensures { IfOk result (λ found. found ≡ first_free taken.now.keys (candidates 16 name)) }
{
    let mut name = name;
    let mut left = TRIES;
    while left > 0 {
        if !taken.contains(&name) {
            return Ok(Some(name));
        }
        name.push_str("_")?;
        left -= 1;
    }
    Ok(None)
}

/// The new name of a component.
fn fresh(alloc: Global, taken: &IndexSet<Text>, name: &Text) -> Result<Option<Text>, NoMemory>
    ensures { IfOk result (λ found. found ≡ fresh taken.now.keys name.now) }
{
    let plain = plain_name(alloc, name.as_bytes())?;
    first_free(taken, plain)
}

fn put(names: &mut IndexSet<Text>, name: &Text) -> Result<(), NoMemory>
    ensures { OnOk result (names.new.keys ≡ put names.old.keys name.now) }
{
    let name = name.copy()?;
    names.insert(name)?;
    Ok(())
}

/// The set of these names.
fn set_of(alloc: Global, names: &[Text]) -> Result<IndexSet<Text>, NoMemory>
    ensures { IfOk result (λ set. set.keys ≡ fold put [] names.now) }
{
    let mut set = IndexSet::new(alloc);
    for name in names {
        put(&mut set, name)?;
    }
    Ok(set)
}

fn add_new(
    taken: &mut IndexSet<Text>,
    found: &mut NameMap,
    name: &Text,
    new: Option<Text>,
) -> Result<(), NoMemory>
    ensures { OnOk result (so_far taken.new.keys found.new.entries
        ≡ with_new (so_far taken.old.keys found.old.entries) name.now new) }
{
    match new {
        None => Ok(()),
        Some(new) => {
            put(taken, &new)?;
            let name = name.copy()?;
            put_first(found, name, new)
        }
    }
}

/// Whether a component needs a new name and has none.
pub fn lacks_name(found: &NameMap, name: &Text) -> bool
    ensures { result ≡ lacks_name found.now.entries name.now }
{
    is_odd(name.as_bytes()) && !found.contains_key(name)
}

fn add_name(
    alloc: Global,
    taken: &mut IndexSet<Text>,
    found: &mut NameMap,
    name: &Text,
) -> Result<(), NoMemory>
    ensures { OnOk result (so_far taken.new.keys found.new.entries
        ≡ with_name (so_far taken.old.keys found.old.entries) name.now) }
{
    if !lacks_name(found, name) {
        return Ok(());
    }
    let new = fresh(alloc, taken, name)?;
    add_new(taken, found, name, new)
}

/// The new names of these components.
pub fn renamed(alloc: Global, names: &[Text]) -> Result<NameMap, NoMemory>
    ensures { IfOk result (λ found. found.entries ≡ renamed names.now) }
{
    let mut taken = set_of(alloc, names)?;
    let mut found = IndexMap::new(alloc);
    for name in names {
        add_name(alloc, &mut taken, &mut found, name)?;
    }
    Ok(found)
}

/// The name under which a component is written.
pub fn new_name(names: &NameMap, name: &Text) -> Result<Text, NoMemory>
    ensures { IfOk result (λ text. text ≡ new_name names.now.entries name.now) }
{
    match names.get(name) {
        Some(new) => new.copy(),
        None => name.copy(),
    }
}
