// Branches and the conditions under which their parts count.

ghost use Rattle.std.specs.Prelude.{◌≡◌, IfOk, map};
ghost use Rattle.section_syntax.specs.Branch.{bare, branch_of, condition, last, or_never, if_branch, with_chain, OwnCondition, IsOutcome};

use crate::words::BranchWord;
use condition_text::read_cond;
use plan_types::{Cause, Cond, Guard, List, NoMemory, Spec, Text, TextFault};
use std::alloc::Global;

/// A branch. `condition`: it is taken. `chain`: no branch of its chain so far is taken; none after an `else`.
#[derive(Drop)]
pub struct Branch {
    pub condition: Guard,
    pub chain: Option<Guard>,
}

impl Branch {
    /// The branch of a word. `chain` is the condition that no earlier branch of its chain is taken.
    pub fn of(
        alloc: Global,
        word: BranchWord,
        chain: Option<Guard>,
        own: &Result<Guard, Cause>,
    ) -> Result<Branch, NoMemory>
        ensures { IfOk result (λ branch. branch ≡ branch_of word chain own.now) }
    {
        match word {
            BranchWord::If => if_branch(alloc, None, own),
            BranchWord::Elif => if_branch(alloc, chain, own),
            BranchWord::Else => last(alloc, chain),
        }
    }
}

/// An `if` or `elif`.
fn if_branch(
    alloc: Global,
    chain: Option<Guard>,
    own: &Result<Guard, Cause>,
) -> Result<Branch, NoMemory>
    ensures { IfOk result (λ branch. branch ≡ if_branch chain (or_never own.now)) }
{
    let own = or_never(alloc, own)?;
    let other = own.negated(alloc)?;
    let condition = with_chain(alloc, &chain, own)?;
    let chain = with_chain(alloc, &chain, other)?;
    Ok(Branch {
        condition,
        chain: Some(chain),
    })
}

/// An `else`.
fn last(alloc: Global, chain: Option<Guard>) -> Result<Branch, NoMemory>
    ensures { IfOk result (λ branch. branch ≡ last chain) }
{
    let condition = match chain {
        Some(if_branch) => if_branch,
        None => Guard::new(alloc, Cond::Always)?,
    };
    Ok(Branch {
        condition,
        chain: None,
    })
}

fn with_chain(alloc: Global, chain: &Option<Guard>, cond: Guard) -> Result<Guard, NoMemory>
    ensures { IfOk result (λ found. found ≡ with_chain chain.now cond) }
{
    match chain {
        None => Ok(cond),
        Some(if_branch) => {
            let left = if_branch.copy()?;
            left.and(alloc, cond)
        }
    }
}

/// The condition of each branch.
pub fn conditions(alloc: Global, branches: &[Branch]) -> Result<List<Guard>, NoMemory>
    ensures { IfOk result (λ conds. conds ≡ map condition branches.now) }
{
    let mut conds = List::new(alloc);
    for branch in branches {
        conds.push(branch.condition.copy()?)?;
    }
    Ok(conds)
}

/// A branch's own condition, without those of earlier branches in its chain.
pub fn own_condition(
    alloc: Global,
    spec: Spec,
    word: BranchWord,
    args: &Text,
) -> Result<Result<Guard, Cause>, NoMemory>
    ensures { IfOk result (OwnCondition spec word args.now) }
{
    let read = match word {
        BranchWord::Else => bare(args.as_bytes()),
        BranchWord::If | BranchWord::Elif => outcome(read_cond(alloc, args.as_bytes(), spec))?,
    };
    guarded(alloc, read)
}

fn guarded(alloc: Global, read: Result<Cond, Cause>) -> Result<Result<Guard, Cause>, NoMemory>
    ensures { IfOk result (λ found. found ≡ read) }
{
    match read {
        Ok(cond) => Ok(Ok(Guard::new(alloc, cond)?)),
        Err(cause) => Ok(Err(cause)),
    }
}

// `else` has no arguments.
fn bare(args: &[u8]) -> Result<Cond, Cause>
    ensures { result ≡ bare args.now }
{
    if args.is_empty() {
        Ok(Cond::Always)
    } else {
        Err(Cause::BadField)
    }
}

/// The value, or the cause of its fault.
pub fn outcome<T: Drop>(read: Result<T, TextFault>) -> Result<Result<T, Cause>, NoMemory>
    ensures { IfOk result (IsOutcome read) }
{
    match read {
        Ok(found) => Ok(Ok(found)),
        Err(TextFault::Bad(cause)) => Ok(Err(cause)),
        Err(TextFault::NoMemory) => Err(NoMemory),
    }
}

/// The condition, `false` if it can't be read.
pub fn or_never(alloc: Global, condition: &Result<Guard, Cause>) -> Result<Guard, NoMemory>
    ensures { IfOk result (λ cond. cond ≡ or_never condition.now) }
{
    match condition {
        Ok(cond) => cond.copy(),
        Err(_) => Guard::new(alloc, Cond::Never),
    }
}
