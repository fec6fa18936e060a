// Maps from keys to lists.
ghost use Rattle.std.specs.Prelude.{◌≡◌, ◌++◌, [], ◌∷◌, OnOk, OnErr, if◌then◌else◌};
ghost use Rattle.keyed_lists.specs.Lists.{all_but_last, items_at};

use indexmap::IndexMap;
use plan_types::{List, NoMemory};
use std::alloc::Global;
use std::hash::Hash;

/// A map from keys to lists.
pub type Lists<K, T> = IndexMap<K, List<T>>;

/// Appends an item to the list of a key.
pub fn push_at<K: Eq + Hash + Drop, T: Drop>(
    alloc: Global,
    lists: &mut Lists<K, T>,
    key: K,
    item: T,
) -> Result<(), NoMemory>
    ensures ok { OnOk result ((k : K) → items_at K.eq lists.new k
        ≡ items_at K.eq lists.old k ++ (if K.eq key k then item ∷ [] else [])) }
    ensures err { OnErr result ((k : K) → items_at K.eq lists.new k ≡ items_at K.eq lists.old k) }
{
    if let Some(items) = lists.get_mut(&key) {
        return items.push(item);
    }
    let mut items = List::new(alloc);
    items.push(item)?;
    lists.insert(key, items)?;
    Ok(())
}

/// Removes the last item from the list of a key.
pub fn pop_at<K: Eq + Hash, T: Drop>(lists: &mut Lists<K, T>, key: &K)
    ensures { (k : K) → items_at K.eq lists.new k
        ≡ (if K.eq key.now k then all_but_last (items_at K.eq lists.old k) else items_at K.eq lists.old k) }
{
    if let Some(items) = lists.get_mut(key) {
        items.pop();
    }
}

/// The list of a key; empty if it has none.
pub fn items_at<'a, K: Eq + Hash, T>(lists: &'a Lists<K, T>, key: &K) -> &'a [T]
    ensures { result.now ≡ items_at K.eq lists.now key.now }
{
    match lists.get(key) {
        Some(items) => items.as_slice(),
        None => &[],
    }
}
