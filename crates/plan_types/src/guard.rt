// A shared condition.
ghost use Rattle.std.specs.Prelude.{◌≡◌, IfOk};
ghost use Rattle.plan_types.specs.declared.condition.Cond.TheVariants.{Not, And};

use crate::{Cond, NoMemory, Shared};
use std::alloc::Global;
use std::marker::Model;

/// A shared condition, which a contract sees as the condition itself.
#[derive(Debug, Drop)]
pub struct Guard {
    cond: Shared<Cond>,
}

impl Model for Guard {
    ghost use Rattle.std.specs.Coded.{codes};
    ghost use Rattle.plan_types.specs.contracts.condition.Cond as conditions;
    ghost use Rattle.plan_types.specs.declared.condition.Cond.{Cond};

    ghost Value = { Cond };

    ghost coded = { Prim.hlevel (codes, conditions.the_row.coded) };

    ghost view = { λ g. g.cond };
}

impl Guard {
    /// Makes a condition that can be shared.
    pub fn new(alloc: Global, cond: Cond) -> Result<Guard, NoMemory>
        ensures { IfOk result (λ guard. guard ≡ cond) }
    {
        let cond = Shared::new(alloc, cond)?;
        Ok(Guard { cond })
    }

    /// One more reference to the same condition.
    pub fn copy(&self) -> Result<Guard, NoMemory>
        ensures { IfOk result (λ copied. copied ≡ self.now) }
    {
        let cond = self.cond.copy()?;
        Ok(Guard { cond })
    }

    /// The condition itself.
    pub fn get(&self) -> &Cond
        ensures { result.now ≡ self.now }
    {
        self.cond.get()
    }

    /// `!` of the condition.
    pub fn negated(&self, alloc: Global) -> Result<Guard, NoMemory>
        ensures { IfOk result (λ other. other ≡ Not self.now) }
    {
        let cond = self.cond.copy()?;
        Guard::new(alloc, Cond::Not(cond))
    }

    /// `&&` of two conditions.
    pub fn and(self, alloc: Global, right: Guard) -> Result<Guard, NoMemory>
        ensures { IfOk result (λ both. both ≡ And self right) }
    {
        Guard::new(alloc, Cond::And(self.cond, right.cond))
    }
}
