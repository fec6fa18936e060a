// Mentions of variables by demands. Those of one variable are a chain.
ghost use Rattle.std.specs.Prelude.{◌≡◌, ◌+◌, ◌<◌, ◌≤◌, ◌++◌, List, [], ◌∷◌, Some, false, IsTrue, IfSome, MatchOption};
ghost use Rattle.std.specs.Prelude.{IfOk, OnOk, OnErr, length, take, drop, slice_get, slice_index_or};
ghost use Rattle.std.specs.Option.{option_map};
ghost use Rattle.choice_problem.specs.ConflictSet.{has, is_rising};
ghost use Rattle.goal_links.specs.Beside.{first_of};
ghost use Rattle.goal_links.specs.Chains.{chain_at};
ghost use Rattle.goal_links.specs.Links.{Entries, MayReturn, WasLinked, linked, unlinked, var_at, vars_behind};
ghost use Rattle.goal_links.specs.Mentions.{KeepRow, indices_on, places_on, vars_at};

use crate::links::Links;
use crate::places::MentionPlaces;
use choice_problem::Var;
use plan_types::NoMemory;
use std::alloc::Global;
use std::marker::Model;

/// A variable that a demand names, and the demand's place.
#[derive(Clone, Copy, Debug, Drop)]
pub struct Mention {
    pub var: Var,
    pub place: usize,
}

/// Mentions in order, and the entries of their variables. The mentions of one variable are a chain. A popped mention
/// stays ready, and a ready mention is appended without allocation.
#[derive(Drop)]
pub struct Mentions {
    // A cell of its variable's entry for each mention. It has the mention's place.
    links: Links,
    // The number of cells in use. The others are in no chain.
    count: usize,
}

impl Model for Mentions {
    ghost use Rattle.goal_links.specs.Mentions.{Mentioned, mentioned, AreSaid};

    ghost Value = { Mentioned };

    ghost view = { λ m. mentioned m.links m.count };

    ghost invariant = { λ m. AreSaid m.links m.count };
}

impl Mentions {
    /// No mentions.
    pub fn new(alloc: Global) -> Mentions
        ensures said { result.said ≡ [] }
        ensures linked { result.row.linked ≡ [] }
        ensures spare { result.spare ≡ [] }
    {
        Mentions {
            links: Links::new(alloc),
            count: 0,
        }
    }

    /// The number of mentions.
    pub fn len(&self) -> usize
        ensures { result ≡ length self.now.said }
    {
        self.count
    }

    /// Whether a variable is mentioned.
    pub fn names(&self, v: Var) -> bool
        ensures { result ≡ has (vars_at self.now.said) v }
    {
        match self.links.entry_of(v) {
            Some(entry) => self.names_entry(entry),
            None => false,
        }
    }

    /// Whether the variable of an entry is mentioned.
    pub fn names_entry(&self, entry: usize) -> bool
        requires { entry < length self.now.row.vars }
        ensures { result ≡ has (vars_at self.now.said) (var_at self.now.row.vars entry) }
    {
        self.links.chain_first(entry).is_some()
    }

    /// The places of the demands that mention a variable.
    pub fn places(&self, v: Var) -> MentionPlaces<'_>
        ensures { result ≡ places_on v self.now.said }
    {
        match self.links.entry_of(v) {
            Some(entry) => MentionPlaces::of(&self.links, entry),
            None => MentionPlaces::none(&self.links),
        }
    }

    /// The indices of the mentions of a variable.
    pub fn indices(&self, alloc: Global, v: Var) -> Result<Vec<usize>, NoMemory>
        ensures { IfOk result (λ found. found.items ≡ indices_on v self.now.said) }
    {
        let Some(entry) = self.links.entry_of(v) else {
            return Ok(Vec::new(alloc));
        };
        let found = self.cells_in(alloc, entry)?;
        Ok(found)
    }

    /// The mention with an index.
    pub fn at(&self, index: usize) -> Mention
        requires { index < length self.now.said }
        ensures { result ≡ slice_index_or self.now.said index result }
    {
        let entry = self.links.owner_of(index);
        Mention {
            var: self.links.var_of(entry),
            place: self.links.place_of(index),
        }
    }

    /// The entry of the variable of the mention with an index. Ready mentions come behind the others.
    pub fn entry_at(&self, index: usize) -> usize
        requires { index < length self.now.said + length self.now.spare }
        ensures { (m : Mention) → slice_get (self.now.said ++ self.now.spare) index ≡ Some m
            → slice_get self.now.row.vars result ≡ Some m.var }
    {
        self.links.owner_of(index)
    }
}

impl Mentions {
    /// Makes a mention ready behind the first `index` ready ones, and returns `index + 1`. Only this allocates.
    /// When out of memory, the mentions are unchanged, but the variable may have an entry without mentions.
    pub fn prepare(&mut self, index: usize, mention: Mention) -> Result<usize, NoMemory>
        requires { index ≤ length self.old.spare }
        ensures said { self.new.said ≡ self.old.said }
        ensures spare { IfOk result (λ ready. take ready self.new.spare ≡ take index self.old.spare ++ mention ∷ []) }
        ensures ready { IfOk result (λ ready. (ready ≡ index + 1) × (ready ≤ length self.new.spare)) }
        ensures err { OnErr result (self.new.spare ≡ self.old.spare) }
        ensures row { KeepRow self.old.row self.new.row }
    {
        let entry = self.links.register(mention.var)?;
        let known = self.links.cell_count();
        let cell = self.count + index;
        if cell < known {
            self.links.set_cell(cell, entry, mention.place);
            return Ok(index + 1);
        }
        self.links.register_cell(entry, mention.place)?;
        prove!(cell < self.links.cell_count());
        Ok(index + 1)
    }

    /// Appends the first ready mention.
    pub fn take_up(&mut self)
        requires { 0 < length self.old.spare }
        ensures said { self.new.said ≡ self.old.said ++ take 1 self.old.spare }
        ensures spare { self.new.spare ≡ drop 1 self.old.spare }
        ensures row { KeepRow self.old.row self.new.row }
    {
        prove!(self.count < self.links.cell_count());
        self.links.chain_push(self.count);
        self.count += 1;
    }

    /// Appends the first `count` ready mentions.
    pub fn take_up_all(&mut self, count: usize)
        requires { count ≤ length self.old.spare }
        ensures { self.new.said ≡ self.old.said ++ take count self.old.spare }
    {
        for _ in 0..count {
            self.take_up();
        }
    }

    /// Removes the last mention.
    pub fn pop(&mut self) -> Option<Mention>
        ensures last { MatchOption result ((self.old.said ≡ []) × (self.new.said ≡ []))
            (λ last. self.old.said ≡ self.new.said ++ last ∷ []) }
        ensures row { KeepRow self.old.row self.new.row }
    {
        if self.count == 0 {
            return None;
        }
        let last = self.count - 1;
        let mention = self.at(last);
        self.links.chain_pop(last);
        self.count = last;
        Some(mention)
    }

    /// Keeps the first `len` mentions.
    pub fn cut(&mut self, len: usize)
        ensures { self.new.said ≡ take len self.old.said }
    {
        while self.len() > len {
            self.pop();
        }
    }
}

// The entries of the variables. Some are linked in goal order.
impl Mentions {
    /// The entry of a variable, if it was ever made ready.
    pub fn entry_of(&self, v: Var) -> Option<usize>
        ensures { MatchOption result (has self.now.row.vars v ≡ false)
            (λ entry. slice_get self.now.row.vars entry ≡ Some v) }
    {
        self.links.entry_of(v)
    }

    pub fn var_of(&self, entry: usize) -> Var
        requires { entry < length self.now.row.vars }
        ensures { result ≡ var_at self.now.row.vars entry }
    {
        self.links.var_of(entry)
    }

    /// Links an entry at its place in goal order.
    pub fn link(&mut self, entry: usize)
        requires entry { entry < length self.old.row.vars }
        requires new { has self.old.row.linked (var_at self.old.row.vars entry) ≡ false }
        ensures said { self.new.said ≡ self.old.said }
        ensures spare { self.new.spare ≡ self.old.spare }
        ensures row { self.new.row ≡ linked self.old.row entry }
    {
        self.links.link(entry);
    }

    /// Unlinks an entry. It keeps its neighbours.
    pub fn unlink(&mut self, entry: usize)
        requires entry { entry < length self.old.row.vars }
        requires linked { IsTrue (has self.old.row.linked (var_at self.old.row.vars entry)) }
        ensures said { self.new.said ≡ self.old.said }
        ensures spare { self.new.spare ≡ self.old.spare }
        ensures row { self.new.row ≡ unlinked self.old.row entry }
        ensures was { WasLinked self.old.row entry }
    {
        self.links.unlink(entry);
    }

    /// Links an entry between the neighbours that it keeps.
    pub fn relink(&mut self, entry: usize)
        requires { MayReturn self.old.row entry }
        ensures said { self.new.said ≡ self.old.said }
        ensures spare { self.new.spare ≡ self.old.spare }
        ensures row { self.new.row ≡ linked self.old.row entry }
    {
        self.links.relink(entry);
    }

    /// The first entry in goal order that is linked.
    pub fn first(&self) -> Option<usize>
        ensures first { option_map (var_at self.now.row.vars) result ≡ first_of self.now.row.linked }
        ensures within { IfSome result (λ entry. entry < length self.now.row.vars) }
        ensures linked { IfSome result (λ entry. IsTrue (has self.now.row.linked (var_at self.now.row.vars entry))) }
    {
        self.links.first()
    }

    /// The next linked entry.
    pub fn next(&self, entry: usize) -> Option<usize>
        requires entry { entry < length self.now.row.vars }
        requires linked { IsTrue (has self.now.row.linked (var_at self.now.row.vars entry)) }
        ensures next { option_map (var_at self.now.row.vars) result ≡ first_of (vars_behind self.now.row entry) }
        ensures within { IfSome result (λ next. next < length self.now.row.vars) }
        ensures linked { IfSome result (λ next. IsTrue (has self.now.row.linked (var_at self.now.row.vars next))) }
    {
        self.links.next(entry)
    }
}

impl Mentions {
    // The numbers of the cells of an entry's chain.
    fn cells_in(&self, alloc: Global, entry: usize) -> Result<Vec<usize>, NoMemory>
        requires { entry < length self.now.row.vars }
        ensures { IfOk result (λ found. found.items ≡ chain_at self.now.row.chains entry) }
    {
        let links = &self.links;
        let mut found = Vec::new(alloc);
        let mut at = links.chain_first(entry);
        while let Some(cell) = at {
            found.push(cell)?;
            at = links.chain_next(cell);
        }
        Ok(found)
    }
}
