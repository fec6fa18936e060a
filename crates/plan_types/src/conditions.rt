// Tables of conditions that share subconditions.
ghost use Rattle.std.specs.Prelude.{◌≡◌, ◌++◌, [], ◌∷◌, length, IfOk, OnErr, OnOk};
ghost use Rattle.plan_types.specs.Conditions.{cond_of, conds_of, numbered};

use crate::{Cond, Guard, List, NoMemory};
use std::alloc::Global;
use std::marker::Model;

/// A condition in a table, built from conditions of earlier rows by their numbers.
#[derive(Debug, Drop)]
pub enum Row {
    /// A condition that isn't built from earlier rows.
    Own(Guard),
    /// `!` of an earlier one.
    Negated(usize),
    /// `&&` of two earlier ones.
    Both(usize, usize),
}

/// A table of conditions, which a contract sees as a list. Work on all of them goes row by row. Written out, the
/// conditions of a chain of branches would have a total length quadratic in the chain.
#[derive(Debug, Drop)]
pub struct Conditions {
    rows: List<Row>,
    /// The condition of each row.
    guards: List<Guard>,
}

impl Model for Conditions {
    ghost use Rattle.std.specs.Prelude.{◌≡◌, List};
    ghost use Rattle.std.specs.Coded.{codes};
    ghost use Rattle.plan_types.specs.contracts.condition.Cond as conditions;
    ghost use Rattle.plan_types.specs.declared.condition.Cond.{Cond};
    ghost use Rattle.plan_types.specs.Conditions.{conds_of};

    ghost Value = { List Cond };

    ghost coded = { Prim.hlevel (codes, conditions.the_row.coded) };

    ghost view = { λ c. c.guards };

    ghost invariant = { λ c. conds_of c.rows ≡ c.guards };
}

impl Conditions {
    /// The empty table.
    pub fn new(alloc: Global) -> Conditions
        ensures { result ≡ [] }
    {
        Conditions {
            rows: List::new(alloc),
            guards: List::new(alloc),
        }
    }

    /// Adds a condition and returns its number.
    pub fn push(&mut self, alloc: Global, row: Row) -> Result<usize, NoMemory>
        ensures added { OnOk result (self.new ≡ self.old ++ cond_of self.old row ∷ []) }
        ensures same { OnErr result (self.new ≡ self.old) }
        ensures number { IfOk result (λ number. number ≡ length self.old) }
    {
        let number = self.guards.len();
        let guard = self.guard_of(alloc, &row)?;
        self.guards.push(guard)?;
        match self.rows.push(row) {
            Ok(()) => Ok(number),
            Err(wanting) => {
                self.guards.pop();
                Err(wanting)
            }
        }
    }

    fn guard_of(&self, alloc: Global, row: &Row) -> Result<Guard, NoMemory>
        ensures { IfOk result (λ guard. guard ≡ cond_of self.now row.now) }
    {
        match row {
            Row::Own(guard) => guard.copy(),
            Row::Negated(inner) => self.guard(alloc, *inner)?.negated(alloc),
            Row::Both(front, last) => {
                let front = self.guard(alloc, *front)?;
                let last = self.guard(alloc, *last)?;
                front.and(alloc, last)
            }
        }
    }

    /// A shared copy of the condition with this number; `true` if there is none.
    pub fn guard(&self, alloc: Global, number: usize) -> Result<Guard, NoMemory>
        ensures { IfOk result (λ guard. guard ≡ numbered self.now number) }
    {
        match self.guards.as_slice().get(number) {
            Some(guard) => guard.copy(),
            None => Guard::new(alloc, Cond::Always),
        }
    }

    /// The rows of the table.
    pub fn rows(&self) -> &[Row]
        ensures { conds_of result.now ≡ self.now }
    {
        self.rows.as_slice()
    }
}
