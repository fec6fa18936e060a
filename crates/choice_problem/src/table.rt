// A table of numbers by variable.
ghost use Rattle.std.specs.Prelude.{◌≡◌, Some, None, OnOk, OnErr, is_some};
ghost use Rattle.qualified_goals.specs.declared.variable.Var.{Var};
ghost use Rattle.choice_problem.specs.Table.{entry, with_entry, without_entry};

use crate::Var;
use indexmap::IndexMap;
use plan_types::{NoMemory, drop_fields};
use std::alloc::Global;
use std::marker::Model;

/// A partial map from variables to numbers, seen as its entries.
pub struct Table {
    entries: IndexMap<Var, u64>,
}

impl Drop for Table {
    fn drop(self) {
        drop_fields!(self; entries);
    }
}

impl Model for Table {
    ghost use Rattle.std.specs.Prelude.{ℕ, List};
    ghost use Rattle.qualified_goals.specs.declared.variable.Var.{Var};

    ghost Value = { List (Var × ℕ) };

    ghost view = { λ t. t.entries.entries };
}

impl Table {
    pub fn new(alloc: Global) -> Table
        ensures { (v : Var) → entry result v ≡ None }
    {
        Table {
            entries: IndexMap::new(alloc),
        }
    }

    pub fn get(&self, v: Var) -> Option<u64>
        ensures { result ≡ entry self.now v }
    {
        self.entries.get(&v).copied()
    }

    pub fn has(&self, v: Var) -> bool
        ensures { result ≡ is_some (entry self.now v) }
    {
        self.entries.contains_key(&v)
    }

    pub fn set(&mut self, v: Var, n: u64) -> Result<(), NoMemory>
        ensures ok { OnOk result ((w : Var) → entry self.new w ≡ with_entry v n (entry self.old) w) }
        ensures err { OnErr result (self.new ≡ self.old) }
        ensures absent { OnErr result (entry self.old v ≡ None) }
    {
        match self.entries.insert(v, n) {
            Ok(_) => Ok(()),
            Err(_) => Err(NoMemory),
        }
    }

    pub fn remove(&mut self, v: Var)
        ensures { (w : Var) → entry self.new w ≡ without_entry v (entry self.old) w }
    {
        let _ = self.entries.swap_remove(&v);
    }
}
