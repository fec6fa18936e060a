// Ranks of variables, the greatest score first.
ghost use Rattle.std.specs.Prelude.{◌≡◌, ◌||◌, ◌&&◌, not, [], OnOk, OnErr, find, option_to_list};
ghost use Rattle.std.specs.List.Sorted.{IsStrictlySortedBy};
ghost use Rattle.choice_problem.specs.Active.{is_open};
ghost use Rattle.choice_problem.specs.Problem.{Problem, Lawful};
ghost use Rattle.validation.specs.View.{Represents};
ghost use Rattle.count_search.specs.Ranks.{rank_of, rank_cmp, same_rank, has_rank, lesser, passing, IsFirst};

use choice_problem::Var;
use plan_types::{NoMemory, drop_fields};
use std::alloc::Global;
use std::collections::BTreeSet;
use std::marker::Model;
use validation::State;

/// A variable, and the difference of 2^64 - 1 and its score. So the derived order has the greatest score first, and of
/// equal scores the least variable.
#[derive(Clone, Copy, Debug, Drop, PartialEq, Eq, PartialOrd, Ord)]
pub struct Rank {
    pub rest: u64,
    pub var: Var,
}

pub(crate) fn rank_of(score: u64, var: Var) -> Rank
    ensures { result ≡ rank_of score var }
{
    Rank {
        rest: u64::MAX - score,
        var,
    }
}

/// A set of ranks. The last two that were added lie outside of the tree, since most of these are soon removed.
pub struct Ranks {
    last: Option<Rank>,
    second: Option<Rank>,
    tree: BTreeSet<Rank>,
}

impl Drop for Ranks {
    fn drop(self) {
        drop_fields!(self; last, second, tree);
    }
}

impl Model for Ranks {
    ghost use Rattle.std.specs.Prelude.{◌++◌, List, option_to_list};
    ghost use Rattle.count_search.specs.declared.ranks.Rank.{Rank};
    ghost use Rattle.count_search.specs.Ranks.{AreApart};

    ghost Value = { List Rank };

    ghost view = { λ s. option_to_list s.last ++ (option_to_list s.second ++ s.tree.keys) };

    ghost invariant = { λ s. AreApart s.last s.second s.tree.keys };
}

impl Ranks {
    pub(crate) fn new(alloc: Global) -> Ranks
        ensures { result ≡ [] }
    {
        Ranks {
            last: None,
            second: None,
            tree: BTreeSet::new(alloc),
        }
    }

    fn has(&self, rank: Rank) -> bool
        ensures { result ≡ has_rank self.now rank }
    {
        is_held(self.last, rank) || is_held(self.second, rank) || is_in(&self.tree, rank)
    }

    /// Adds a rank.
    pub(crate) fn add(&mut self, rank: Rank) -> Result<(), NoMemory>
        ensures ok { OnOk result ((r : Rank) → has_rank self.new r ≡ (same_rank rank r || has_rank self.old r)) }
        ensures err { OnErr result (self.new ≡ self.old) }
    {
        if self.has(rank) {
            return Ok(());
        }
        put_held(&mut self.tree, self.second)?;
        self.second = self.last;
        self.last = Some(rank);
        Ok(())
    }

    /// Removes a rank, if it is there. It allocates no memory.
    pub(crate) fn remove(&mut self, rank: Rank)
        ensures { (r : Rank) → has_rank self.new r ≡ (not (same_rank rank r) && has_rank self.old r) }
    {
        if is_held(self.last, rank) {
            self.last = self.second;
            self.second = None;
            return;
        }
        if is_held(self.second, rank) {
            self.second = None;
            return;
        }
        take_out(&mut self.tree, rank);
    }

    /// The first rank whose variable is open.
    pub(crate) fn first_open(&self, state: &State) -> Option<Rank>
        ensures { (p : Problem) → Lawful p → Represents p state.now
            → IsFirst (is_open p state.now.trail) (has_rank self.now) result }
    {
        let last = only_open(self.last, state);
        let second = only_open(self.second, state);
        lesser(last, lesser(second, first_in(&self.tree, state)))
    }
}

fn is_held(held: Option<Rank>, rank: Rank) -> bool
    ensures { result ≡ has_rank (option_to_list held) rank }
{
    match held {
        Some(other) => rank == other,
        None => false,
    }
}

fn is_in(tree: &BTreeSet<Rank>, rank: Rank) -> bool
    ensures { result ≡ has_rank tree.now.keys rank }
{
    tree.contains(&rank)
}

fn put(tree: &mut BTreeSet<Rank>, rank: Rank) -> Result<(), NoMemory>
    ensures ok { OnOk result ((r : Rank) → has_rank tree.new.keys r ≡ (same_rank rank r || has_rank tree.old.keys r)) }
    ensures err { OnErr result (tree.new.keys ≡ tree.old.keys) }
{
    match tree.insert(rank) {
        Ok(_) => Ok(()),
        Err(_) => Err(NoMemory),
    }
}

fn put_held(tree: &mut BTreeSet<Rank>, held: Option<Rank>) -> Result<(), NoMemory>
    ensures ok { OnOk result ((r : Rank) → has_rank tree.new.keys r
        ≡ (has_rank (option_to_list held) r || has_rank tree.old.keys r)) }
    ensures err { OnErr result (tree.new.keys ≡ tree.old.keys) }
{
    match held {
        Some(rank) => put(tree, rank),
        None => Ok(()),
    }
}

fn take_out(tree: &mut BTreeSet<Rank>, rank: Rank)
    ensures { (r : Rank) → has_rank tree.new.keys r ≡ (not (same_rank rank r) && has_rank tree.old.keys r) }
{
    let _ = tree.remove(&rank);
}

// The rank, if its variable is open.
fn only_open(held: Option<Rank>, state: &State) -> Option<Rank>
    ensures { (p : Problem) → Lawful p → Represents p state.now → result ≡ passing (is_open p state.now.trail) held }
{
    let rank = held?;
    if state.is_open(rank.var) {
        Some(rank)
    } else {
        None
    }
}

// The lesser of at most two ranks.
fn lesser(first: Option<Rank>, second: Option<Rank>) -> Option<Rank>
    ensures { result ≡ lesser first second }
{
    match (first, second) {
        (Some(r), Some(q)) => Some(if q < r { q } else { r }),
        (Some(r), None) => Some(r),
        (None, q) => q,
    }
}

// The first rank of the tree whose variable is open.
fn first_in(tree: &BTreeSet<Rank>, state: &State) -> Option<Rank>
    ensures sorted { IsStrictlySortedBy rank_cmp tree.now.keys }
    ensures first { (p : Problem) → Lawful p → Represents p state.now
        → result ≡ find (λ r. is_open p state.now.trail r.var) tree.now.keys }
{
    for rank in tree.iter() {
        if state.is_open(rank.var) {
            return Some(*rank);
        }
    }
    None
}
