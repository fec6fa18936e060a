// The branches of a component, with their conditions in a table.

ghost use Rattle.std.specs.Prelude.{◌≡◌, List, [], ◌∷◌, ◌++◌, Option, Some, slice_get, take, IfOk, OnOk};
ghost use Rattle.plan_types.specs.Conditions.{cond_of};
ghost use Rattle.plan_types.specs.declared.condition.Cond.{Cond};
ghost use Rattle.plan_types.specs.declared.condition.Cond.TheVariants.{Always};
ghost use Rattle.section_syntax.specs.Branch.{branch_of, last, or_never, if_branch};
ghost use Rattle.section_syntax.specs.Chained.{begun, chain_after};
ghost use Rattle.section_syntax.specs.declared.branch.Branch.{Branch};
ghost use Rattle.package_declarations.specs.Levels.{AreLevels, Grown, IsConjunction, IsBranch, IsNext, IsNumbered, chain_at, innermost, number_at};

use plan_types::{Cause, Cond, Conditions, Guard, List, NoMemory, Row};
use section_syntax::{BranchWord, Said, or_never};
use std::alloc::Global;

/// An open branch, or the last closed one on its level, by the numbers of conditions in the table.
#[derive(Clone, Copy, Debug)]
pub struct Level {
    /// The branch and all those around it are taken.
    pub taken: usize,
    /// No branch of its chain so far is taken. None after an `else`.
    pub chain: Option<usize>,
}

/// Drops the levels from this depth on. The result is the chain of the first one dropped.
pub(crate) fn leave(levels: &mut List<Level>, depth: usize) -> Option<usize>
    ensures levels { levels.new ≡ take depth levels.old }
    ensures chain { result ≡ chain_at levels.old depth }
{
    let chain = match levels.as_slice().get(depth) {
        Some(level) => level.chain,
        None => None,
    };
    levels.truncate(depth);
    chain
}

/// The number of the condition that all of these branches are taken; 0, which is `true`, if there are none.
pub(crate) fn number_at(levels: &[Level]) -> usize
    ensures { result ≡ number_at levels.now }
{
    innermost(levels).unwrap_or(0)
}

fn innermost(levels: &[Level]) -> Option<usize>
    ensures { result ≡ innermost levels.now }
{
    match levels {
        [] => None,
        [.., last] => Some(last.taken),
    }
}

/// Pushes the branch that a part begins, if it begins one.
pub(crate) fn enter(
    alloc: Global,
    conds: &mut Conditions,
    levels: &mut List<Level>,
    said: &Said,
    chain: Option<usize>,
) -> Result<(), NoMemory>
    ensures grown { OnOk result (Grown conds.old conds.new) }
    ensures levels { OnOk result ((opened : List Branch) (before : Option Branch)
        → AreLevels conds.old [] levels.old opened
        → IsNumbered conds.old chain (chain_after before)
        → AreLevels conds.new [] levels.new (opened ++ begun said.now before)) }
{
    match said {
        Said::Branch {
            word,
            condition,
            fits,
        } => {
            let chain = if *fits { chain } else { None };
            let branch = branch_of(alloc, conds, *word, condition, chain)?;
            push_branch(alloc, conds, levels, branch)
        }
        Said::Import { names: _, fits: _ } => Ok(()),
        Said::Depends(_) => Ok(()),
        Said::Buildable(_) => Ok(()),
        Said::Visibility(_) => Ok(()),
        Said::Default(_) => Ok(()),
        Said::Manual(_) => Ok(()),
        Said::BuildTools => Ok(()),
        Said::Misplaced => Ok(()),
    }
}

// The branch becomes the innermost one.
fn push_branch(
    alloc: Global,
    conds: &mut Conditions,
    levels: &mut List<Level>,
    branch: Level,
) -> Result<(), NoMemory>
    ensures grown { OnOk result (Grown conds.old conds.new) }
    ensures levels { OnOk result ((opened : List Branch) (one : Branch) → AreLevels conds.old [] levels.old opened
        → IsBranch conds.old branch one → AreLevels conds.new [] levels.new (opened ++ one ∷ [])) }
{
    let around = innermost(levels.as_slice());
    let taken = conjunction(alloc, conds, around, branch.taken)?;
    levels.push(Level {
        taken,
        chain: branch.chain,
    })
}

// The branch of a word in this chain, without the branches around it.
fn branch_of(
    alloc: Global,
    conds: &mut Conditions,
    word: BranchWord,
    own: &Result<Guard, Cause>,
    chain: Option<usize>,
) -> Result<Level, NoMemory>
    ensures grown { OnOk result (Grown conds.old conds.new) }
    ensures branch { IfOk result (IsNext conds.old conds.new chain (λ left. branch_of word left own.now)) }
{
    match word {
        BranchWord::If => if_branch(alloc, conds, None, own),
        BranchWord::Elif => if_branch(alloc, conds, chain, own),
        BranchWord::Else => last(alloc, conds, chain),
    }
}

fn if_branch(
    alloc: Global,
    conds: &mut Conditions,
    chain: Option<usize>,
    own: &Result<Guard, Cause>,
) -> Result<Level, NoMemory>
    ensures grown { OnOk result (Grown conds.old conds.new) }
    ensures branch { IfOk result (IsNext conds.old conds.new chain (λ left. if_branch left (or_never own.now))) }
{
    let own = or_never(alloc, own)?;
    let own = added(alloc, conds, Row::Own(own))?;
    let other = added(alloc, conds, Row::Negated(own))?;
    let taken = conjunction(alloc, conds, chain, own)?;
    let left = conjunction(alloc, conds, chain, other)?;
    Ok(Level {
        taken,
        chain: Some(left),
    })
}

fn last(alloc: Global, conds: &mut Conditions, chain: Option<usize>) -> Result<Level, NoMemory>
    ensures grown { OnOk result (Grown conds.old conds.new) }
    ensures branch { IfOk result (IsNext conds.old conds.new chain last) }
{
    let taken = match chain {
        Some(left) => left,
        None => added(alloc, conds, Row::Own(Guard::new(alloc, Cond::Always)?))?,
    };
    Ok(Level { taken, chain: None })
}

/// The number of `front && last`, or of `last` alone.
pub(crate) fn conjunction(
    alloc: Global,
    conds: &mut Conditions,
    front: Option<usize>,
    last: usize,
) -> Result<usize, NoMemory>
    ensures grown { OnOk result (Grown conds.old conds.new) }
    ensures number { IfOk result (IsConjunction conds.old conds.new front last) }
{
    match front {
        Some(front) => added(alloc, conds, Row::Both(front, last)),
        None => Ok(last),
    }
}

/// Adds a condition to the table.
pub(crate) fn added(alloc: Global, conds: &mut Conditions, row: Row) -> Result<usize, NoMemory>
    ensures grown { OnOk result (Grown conds.old conds.new) }
    ensures number { IfOk result (λ number. slice_get conds.new number ≡ Some (cond_of conds.old row)) }
{
    let number = conds.push(alloc, row)?;
    Ok(number)
}
