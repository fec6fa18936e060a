// Variables by number, in the order in which they were added.
ghost use Rattle.std.specs.Prelude.{◌≡◌, ◌<◌, ◌++◌, [], ◌∷◌, Some, OnOk, OnErr, MatchOption, false};
ghost use Rattle.std.specs.Prelude.{length, take, slice_get};
ghost use Rattle.choice_problem.specs.ConflictSet.{has};

use choice_problem::Var;
use indexmap::IndexSet;
use plan_types::{NoMemory, drop_fields};
use std::alloc::Global;
use std::marker::Model;

/// A list of variables, each once.
pub(crate) struct Vars {
    keys: IndexSet<Var>,
}

impl Drop for Vars {
    fn drop(self) {
        drop_fields!(self; keys);
    }
}

impl Model for Vars {
    ghost use Rattle.std.specs.Prelude.{List};
    ghost use Rattle.qualified_goals.specs.declared.variable.Var.{Var};

    ghost Value = { List Var };

    ghost view = { λ v. v.keys.keys };
}

impl Vars {
    pub(crate) fn new(alloc: Global) -> Vars
        ensures { result ≡ [] }
    {
        Vars {
            keys: IndexSet::new(alloc),
        }
    }

    pub(crate) fn len(&self) -> usize
        ensures { result ≡ length self.now }
    {
        self.keys.len()
    }

    pub(crate) fn find(&self, v: Var) -> Option<usize>
        ensures { MatchOption result (has self.now v ≡ false) (λ n. slice_get self.now n ≡ Some v) }
    {
        self.keys.get_index_of(&v)
    }

    pub(crate) fn at(&self, n: usize) -> Var
        requires { n < length self.now }
        ensures { slice_get self.now n ≡ Some result }
    {
        self.keys[n]
    }

    pub(crate) fn add(&mut self, v: Var) -> Result<(), NoMemory>
        requires { has self.old v ≡ false }
        ensures ok { OnOk result (self.new ≡ self.old ++ v ∷ []) }
        ensures err { OnErr result (self.new ≡ self.old) }
    {
        self.keys.insert(v)?;
        Ok(())
    }

    /// Keeps the first `len` variables.
    pub(crate) fn cut(&mut self, len: usize)
        ensures { self.new ≡ take len self.old }
    {
        self.keys.truncate(len);
    }
}
