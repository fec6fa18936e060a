// A set of names, kept in the order of insertion.

ghost use Rattle.std.specs.Prelude.{◌≡◌, [], not, IfOk, OnErr, OnOk};
ghost use Rattle.stanza_imports.specs.Names.{has, number_of, with_name};

use indexmap::IndexSet;
use plan_types::{NoMemory, drop_fields};
use std::alloc::Global;
use std::marker::Model;

/// A set of names in the order of insertion. The place of a name is its number.
pub struct NameSet<'a> {
    set: IndexSet<&'a str>,
}

impl<'a> Drop for NameSet<'a> {
    fn drop(self) {
        drop_fields!(self; set);
    }
}

impl<'a> Model for NameSet<'a> {
    ghost use Rattle.std.specs.Prelude.{ℕ, List, map};

    ghost Value = { List (List ℕ) };

    ghost view = { λ n. map (λ k. k.now) n.set.keys };
}

impl<'a> NameSet<'a> {
    pub fn new(alloc: Global) -> NameSet<'a>
        ensures { result ≡ [] }
    {
        NameSet {
            set: IndexSet::new(alloc),
        }
    }

    /// Whether the name is new.
    pub fn insert(&mut self, name: &'a str) -> Result<bool, NoMemory>
        ensures new { IfOk result (λ new. new ≡ not (has self.old name.now)) }
        ensures names { OnOk result (self.new ≡ with_name self.old name.now) }
        ensures unchanged { OnErr result (self.new ≡ self.old) }
    {
        let new = self.set.insert(name)?;
        Ok(new)
    }

    pub fn has(&self, name: &str) -> bool
        ensures { result ≡ has self.now name.now }
    {
        self.set.contains(&name)
    }

    pub fn number_of(&self, name: &str) -> Option<usize>
        ensures { result ≡ number_of self.now name.now }
    {
        self.set.get_index_of(&name)
    }
}
