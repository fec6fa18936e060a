// A branch: whether it is taken, and its fault.
ghost use Rattle.std.specs.Prelude.{◌≡◌, ◌||◌, ◌&&◌, not, IfOk};
ghost use Rattle.project_file.specs.Branches.{Decides, HasValue, bare, branch_fault, chain_behind, decided, fits, has_flag, holds, is_taken, is_yes, was_taken};

use crate::part::ProjectSaid;
use crate::words::ProjectBranchWord;
use condition_text::read_cond;
use conditionals::{Tri, eval};
use plan_types::{Cause, Cond, Env, List, NoMemory, Spec, Text, TextFault};
use std::alloc::Global;

/// The value of a branch's own condition, or the cause why it has none.
pub(crate) fn own_condition(
    alloc: Global,
    env: &Env,
    word: ProjectBranchWord,
    args: &Text,
) -> Result<Result<bool, Cause>, NoMemory>
    ensures { IfOk result (Decides env.now word args.now) }
{
    match word {
        ProjectBranchWord::If | ProjectBranchWord::Elif => settled(alloc, env, args),
        ProjectBranchWord::Else => Ok(bare(args.as_bytes())),
    }
}

// `else` has no arguments.
fn bare(args: &[u8]) -> Result<bool, Cause>
    ensures { result ≡ bare args.now }
{
    if args.is_empty() {
        Ok(true)
    } else {
        Err(Cause::BadField)
    }
}

fn settled(alloc: Global, env: &Env, args: &Text) -> Result<Result<bool, Cause>, NoMemory>
    ensures { IfOk result (HasValue env.now args.now) }
{
    match read_cond(alloc, args.as_bytes(), Spec::V3_0) {
        Ok(cond) => Ok(decided(alloc, env, &cond)),
        Err(TextFault::Bad(cause)) => Ok(Err(cause)),
        Err(TextFault::NoMemory) => Err(NoMemory),
    }
}

fn decided(alloc: Global, env: &Env, cond: &Cond) -> Result<bool, Cause>
    ensures { result ≡ decided env.now cond.now }
{
    if has_flag(cond) {
        return Err(Cause::BadField);
    }
    let no_flags = List::new(alloc);
    let value = eval(cond, env, &no_flags);
    Ok(is_yes(value))
}

fn is_yes(value: Tri) -> bool
    ensures { result ≡ is_yes value }
{
    match value {
        Tri::Yes => true,
        Tri::No | Tri::Unknown => false,
    }
}

// A loop on the left side, which may be as deep as a file is long.
fn has_flag(cond: &Cond) -> bool
    ensures { result ≡ has_flag cond.now }
{
    let mut left = cond;
    loop {
        match left {
            Cond::Always => return false,
            Cond::Never => return false,
            Cond::Flag(_) => return true,
            Cond::Os(_) => return false,
            Cond::Arch(_) => return false,
            Cond::Impl(_, _) => return false,
            Cond::Not(inner) => left = inner.get(),
            Cond::And(one, other) => {
                if has_flag(other.get()) {
                    return true;
                }
                left = one.get();
            }
            Cond::Or(one, other) => {
                if has_flag(other.get()) {
                    return true;
                }
                left = one.get();
            }
        }
    }
}

/// Whether an earlier branch of the chain was taken. The chain is that of the branch directly before.
fn was_taken(word: ProjectBranchWord, chain: Option<bool>) -> bool
    ensures { result ≡ was_taken word chain }
{
    match word {
        ProjectBranchWord::If => false,
        ProjectBranchWord::Elif | ProjectBranchWord::Else => chain.unwrap_or(false),
    }
}

fn holds(own: Result<bool, Cause>) -> bool
    ensures { result ≡ holds own }
{
    match own {
        Ok(value) => value,
        Err(_) => false,
    }
}

/// A branch: its word, the chain directly before it, and the value of its own condition.
#[derive(Drop)]
pub(crate) struct ProjectBranch {
    pub word: ProjectBranchWord,
    pub chain: Option<bool>,
    pub own: Result<bool, Cause>,
}

impl ProjectBranch {
    /// Whether the items inside are read.
    pub fn is_taken(&self) -> bool
        ensures { result ≡ is_taken self.now.word self.now.chain self.now.own }
    {
        holds(self.own) && !was_taken(self.word, self.chain)
    }

    /// Whether a branch of the chain was taken, for the branch directly after. None ends the chain.
    pub fn chain_behind(&self) -> Option<bool>
        ensures { result ≡ chain_behind self.now.word self.now.chain self.now.own }
    {
        match self.word {
            ProjectBranchWord::If | ProjectBranchWord::Elif => Some(
                holds(self.own) || was_taken(self.word, self.chain),
            ),
            ProjectBranchWord::Else => None,
        }
    }

    /// The fault: the condition has no value, or else the branch isn't allowed here.
    pub fn fault(&self) -> Option<ProjectSaid>
        ensures { result ≡ branch_fault self.now.word self.now.chain self.now.own }
    {
        match self.own {
            Err(cause) => Some(ProjectSaid::Bad(cause)),
            Ok(_) => {
                if fits(self.word, self.chain) {
                    None
                } else {
                    Some(ProjectSaid::Bad(Cause::ElseWithoutIf))
                }
            }
        }
    }
}

fn fits(word: ProjectBranchWord, chain: Option<bool>) -> bool
    ensures { result ≡ fits word chain }
{
    match word {
        ProjectBranchWord::If => true,
        ProjectBranchWord::Elif | ProjectBranchWord::Else => chain.is_some(),
    }
}
