// The targets of active demands. The open ones are linked in goal order.
ghost use Rattle.std.specs.Prelude.{◌≡◌, ◌+◌, ◌<◌, ◌≤◌, ◌||◌, ◌&&◌, ◌++◌, [], ◌∷◌, List, ℕ, true, false, IsTrue};
ghost use Rattle.std.specs.Prelude.{Some, IfSome, MatchOption, IfOk, OnErr, length, take, drop};
ghost use Rattle.std.specs.Prelude.{slice_get, slice_index_or};
ghost use Rattle.std.specs.Option.{option_map};
ghost use Rattle.qualified_goals.specs.declared.variable.Var.{Var};
ghost use Rattle.qualified_goals.specs.Variable.{same_var};
ghost use Rattle.choice_problem.specs.ConflictSet.{first_behind, is_rising, has};
ghost use Rattle.goal_links.specs.Links.{var_at};
ghost use Rattle.goal_links.specs.Mentions.{indices_on, places_on, vars_at};
ghost use Rattle.goal_links.specs.declared.mentions.Mention.{Mention};
ghost use Rattle.choice_stack.specs.Open.{KeepsNeighbours, StayKept, MayComeBack, any_var, is_other, is_behind};

use choice_problem::{Var, is_before};
use goal_links::{Mention, MentionPlaces, Mentions};
use plan_types::NoMemory;
use std::alloc::Global;
use std::marker::Model;

/// The mentions of the targets of active demands, with an entry for each variable. Those that are open are linked in
/// goal order.
#[derive(Drop)]
pub(crate) struct Goals {
    mentions: Mentions,
}

impl Model for Goals {
    ghost use Rattle.goal_links.specs.Mentions.{Mentioned};
    ghost use Rattle.choice_stack.specs.Open.{AreInOrder};

    ghost Value = { Mentioned };

    ghost view = { λ g. g.mentions };

    ghost invariant = { λ g. AreInOrder g.mentions.row };
}

// The mentions.
impl Goals {
    pub(crate) fn new(alloc: Global) -> Goals
        ensures said { result.said ≡ [] }
        ensures linked { result.row.linked ≡ [] }
        ensures spare { result.spare ≡ [] }
    {
        Goals {
            mentions: Mentions::new(alloc),
        }
    }

    pub(crate) fn len(&self) -> usize
        ensures { result ≡ length self.now.said }
    {
        self.mentions.len()
    }

    pub(crate) fn at(&self, index: usize) -> Mention
        requires { index < length self.now.said }
        ensures { result ≡ slice_index_or self.now.said index result }
    {
        self.mentions.at(index)
    }

    pub(crate) fn entry_at(&self, index: usize) -> usize
        requires { index < length self.now.said + length self.now.spare }
        ensures { (m : Mention) → slice_get (self.now.said ++ self.now.spare) index ≡ Some m
            → slice_get self.now.row.vars result ≡ Some m.var }
    {
        self.mentions.entry_at(index)
    }

    pub(crate) fn names(&self, v: Var) -> bool
        ensures { result ≡ has (vars_at self.now.said) v }
    {
        self.mentions.names(v)
    }

    pub(crate) fn names_entry(&self, entry: usize) -> bool
        requires { entry < length self.now.row.vars }
        ensures { result ≡ has (vars_at self.now.said) (var_at self.now.row.vars entry) }
    {
        self.mentions.names_entry(entry)
    }

    pub(crate) fn places(&self, v: Var) -> MentionPlaces<'_>
        ensures { result ≡ places_on v self.now.said }
    {
        self.mentions.places(v)
    }

    pub(crate) fn indices(&self, alloc: Global, v: Var) -> Result<Vec<usize>, NoMemory>
        ensures { IfOk result (λ found. found.items ≡ indices_on v self.now.said) }
    {
        let found = self.mentions.indices(alloc, v)?;
        Ok(found)
    }

    /// Makes a mention ready behind the first `index` ready ones, and returns `index + 1`. Only this allocates.
    pub(crate) fn prepare(&mut self, index: usize, mention: Mention) -> Result<usize, NoMemory>
        requires { index ≤ length self.old.spare }
        ensures said { self.new.said ≡ self.old.said }
        ensures linked { self.new.row.linked ≡ self.old.row.linked }
        ensures kept { StayKept any_var self.old.row self.new.row }
        ensures spare { IfOk result (λ ready. take ready self.new.spare ≡ take index self.old.spare ++ mention ∷ []) }
        ensures ready { IfOk result (λ ready. ready ≤ length self.new.spare) }
        ensures err { OnErr result (self.new.spare ≡ self.old.spare) }
    {
        let ready = self.mentions.prepare(index, mention)?;
        Ok(ready)
    }

    /// Appends the first ready mention.
    pub(crate) fn take_up(&mut self)
        requires { 0 < length self.old.spare }
        ensures said { self.new.said ≡ self.old.said ++ take 1 self.old.spare }
        ensures spare { self.new.spare ≡ drop 1 self.old.spare }
        ensures vars { (n : ℕ) (v : Var) → slice_get self.old.row.vars n ≡ Some v
            → slice_get self.new.row.vars n ≡ Some v }
        ensures linked { self.new.row.linked ≡ self.old.row.linked }
        ensures kept { StayKept any_var self.old.row self.new.row }
    {
        self.mentions.take_up();
    }

    /// Removes the last mention.
    pub(crate) fn pop(&mut self) -> Option<Mention>
        ensures last { MatchOption result ((self.old.said ≡ []) × (self.new.said ≡ []))
            (λ last. self.old.said ≡ self.new.said ++ last ∷ []) }
        ensures vars { (n : ℕ) (v : Var) → slice_get self.old.row.vars n ≡ Some v
            → slice_get self.new.row.vars n ≡ Some v }
        ensures linked { self.new.row.linked ≡ self.old.row.linked }
        ensures kept { StayKept any_var self.old.row self.new.row }
    {
        self.mentions.pop()
    }
}

// The open variables.
impl Goals {
    pub(crate) fn var_of(&self, entry: usize) -> Var
        requires { entry < length self.now.row.vars }
        ensures { result ≡ var_at self.now.row.vars entry }
    {
        self.mentions.var_of(entry)
    }

    /// Opens the variable of an entry.
    pub(crate) fn add(&mut self, entry: usize)
        requires entry { entry < length self.old.row.vars }
        requires closed { has self.old.row.linked (var_at self.old.row.vars entry) ≡ false }
        ensures said { self.new.said ≡ self.old.said }
        ensures spare { self.new.spare ≡ self.old.spare }
        ensures linked { (u : Var) → has self.new.row.linked u
            ≡ (same_var (var_at self.old.row.vars entry) u || has self.old.row.linked u) }
        ensures kept { StayKept (is_other (var_at self.old.row.vars entry)) self.old.row self.new.row }
    {
        self.mentions.link(entry);
    }

    /// The entry of an open variable.
    pub(crate) fn entry(&self, v: Var) -> usize
        requires { IsTrue (has self.now.row.linked v) }
        ensures { slice_get self.now.row.vars result ≡ Some v }
    {
        self.mentions.entry_of(v).unwrap()
    }

    /// Unlinks an open variable. Its entry keeps its neighbours.
    pub(crate) fn take_out(&mut self, entry: usize)
        requires entry { entry < length self.old.row.vars }
        requires open { IsTrue (has self.old.row.linked (var_at self.old.row.vars entry)) }
        ensures said { self.new.said ≡ self.old.said }
        ensures spare { self.new.spare ≡ self.old.spare }
        ensures linked { (u : Var) → has self.new.row.linked u
            ≡ (is_other (var_at self.old.row.vars entry) u && has self.old.row.linked u) }
        ensures taken { KeepsNeighbours self.old.row self.new.row entry }
        ensures rising { IsTrue (is_rising self.old.row.linked) }
        ensures kept { StayKept any_var self.old.row self.new.row }
    {
        self.mentions.unlink(entry);
    }

    /// Relinks a variable where it was unlinked.
    pub(crate) fn put_back(&mut self, entry: usize)
        requires { MayComeBack self.old.row entry }
        ensures said { self.new.said ≡ self.old.said }
        ensures linked { (u : Var) → has self.new.row.linked u
            ≡ (same_var (var_at self.old.row.vars entry) u || has self.old.row.linked u) }
        ensures kept { StayKept (is_other (var_at self.old.row.vars entry)) self.old.row self.new.row }
    {
        self.mentions.relink(entry);
    }

    /// The first open variable behind `v`, or the first of all for `None`. The search is linear.
    pub(crate) fn after(&self, v: Option<Var>) -> Option<Var>
        ensures after { result ≡ first_behind v self.now.row.linked }
        ensures rising { IsTrue (is_rising self.now.row.linked) }
    {
        let mut at = self.mentions.first();
        while let Some(entry) = at {
            let w = self.mentions.var_of(entry);
            if is_behind(v, w) {
                return Some(w);
            }
            at = self.mentions.next(entry);
        }
        None
    }

    /// The next open variable behind an open one.
    pub(crate) fn next(&self, v: Var) -> Option<Var>
        requires { IsTrue (has self.now.row.linked v) }
        ensures next { result ≡ first_behind (Some v) self.now.row.linked }
        ensures rising { IsTrue (is_rising self.now.row.linked) }
    {
        let entry = self.entry(v);
        let next = self.mentions.next(entry);
        self.var_at(next)
    }

    fn var_at(&self, entry: Option<usize>) -> Option<Var>
        requires { IfSome entry (λ n. n < length self.now.row.vars) }
        ensures { result ≡ option_map (var_at self.now.row.vars) entry }
    {
        match entry {
            Some(entry) => Some(self.mentions.var_of(entry)),
            None => None,
        }
    }
}

fn is_behind(v: Option<Var>, w: Var) -> bool
    ensures { result ≡ is_behind v w }
{
    match v {
        Some(v) => is_before(v, w),
        None => true,
    }
}
