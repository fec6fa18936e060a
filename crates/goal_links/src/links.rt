// Entries of variables, each with a chain of cells. Some entries are linked in goal order.
ghost use Rattle.std.specs.Prelude.{◌≡◌, ◌<◌, List, [], Some, None, Option, IfSome, MatchOption, true, false, IsTrue};
ghost use Rattle.std.specs.Prelude.{IfOk, OnOk, OnErr, length, slice_get, slice_index_or};
ghost use Rattle.std.specs.Option.{option_map};
ghost use Rattle.qualified_goals.specs.Variable.{is_before};
ghost use Rattle.choice_problem.specs.ConflictSet.{is_rising, has};
ghost use Rattle.goal_links.specs.declared.chains.Cell.{Cell};
ghost use Rattle.goal_links.specs.Beside.{first_of, last_of};
ghost use Rattle.goal_links.specs.Row.{has_node, without_node, behind, StandsIn, AreBelow};
ghost use Rattle.goal_links.specs.Chains.{cell_at, chain_at};
ghost use Rattle.goal_links.specs.Links.{Entries, HaveOneEntry, MayReturn, WasLinked, is_entry_before, var_at};
ghost use Rattle.goal_links.specs.Links.{vars_behind, registered, with_cell, with_cell_at, linked, unlinked};
ghost use Rattle.goal_links.specs.Links.{chain_with, lengthened, shortened};

use crate::chains::{Cell, Chains};
use crate::row::LinkRow;
use crate::vars::Vars;
use choice_problem::{Var, is_before};
use plan_types::{NoMemory, drop_fields};
use std::alloc::Global;
use std::marker::Model;

/// Entries of variables, each with a chain of cells. Some entries are linked in goal order.
pub struct Links {
    vars: Vars,
    row: LinkRow,
    // A linked entry, near which the next search starts.
    recent: Option<usize>,
    chains: Chains,
}

impl Drop for Links {
    fn drop(self) {
        drop_fields!(self; vars, row, recent, chains);
    }
}

impl Model for Links {
    ghost use Rattle.goal_links.specs.Links.{Entries, AreLinks, entries_of};

    ghost Value = { Entries };

    ghost view = { λ l. entries_of l.vars l.row l.chains };

    ghost invariant = { λ l. AreLinks l.vars l.row l.recent l.chains };
}

impl Links {
    pub fn new(alloc: Global) -> Links
        ensures { result ≡ record { vars = []; linked = []; kept = []; cells = []; chains = [] } }
    {
        Links {
            vars: Vars::new(alloc),
            row: LinkRow::new(alloc),
            recent: None,
            chains: Chains::new(alloc),
        }
    }

    /// The entry of a variable, if it is registered.
    pub fn entry_of(&self, v: Var) -> Option<usize>
        ensures entry { MatchOption result (has self.now.vars v ≡ false)
            (λ entry. slice_get self.now.vars entry ≡ Some v) }
        ensures one { HaveOneEntry self.now.vars }
    {
        self.vars.find(v)
    }

    /// The entry of a variable, the same at each call. A new one isn't linked, and its chain is empty.
    pub fn register(&mut self, v: Var) -> Result<usize, NoMemory>
        ensures ok { OnOk result (self.new ≡ registered self.old v) }
        ensures entry { IfOk result (λ entry. slice_get self.new.vars entry ≡ Some v) }
        ensures new { OnOk result (has self.old.vars v ≡ false → has self.new.linked v ≡ false) }
        ensures err { OnErr result (self.new ≡ self.old) }
    {
        if let Some(entry) = self.vars.find(v) {
            return Ok(entry);
        }
        let entry = self.vars.len();
        self.vars.add(v)?;
        if self.row.add().is_err() {
            self.vars.cut(entry);
            return Err(NoMemory);
        }
        if self.chains.add_entry().is_err() {
            self.row.drop_last();
            self.vars.cut(entry);
            return Err(NoMemory);
        }
        Ok(entry)
    }

    /// A new cell of an entry, outside its chain.
    pub fn register_cell(&mut self, entry: usize, place: usize) -> Result<usize, NoMemory>
        requires { entry < length self.old.vars }
        ensures ok { OnOk result (self.new ≡ with_cell self.old (record { entry = entry; place = place })) }
        ensures cell { IfOk result (λ cell. cell ≡ length self.old.cells) }
        ensures new { IfOk result (λ cell. has_node (chain_at self.old.chains entry) cell ≡ false) }
        ensures err { OnErr result (self.new ≡ self.old) }
    {
        self.chains.add_cell(Cell { entry, place })
    }

    /// The number of cells.
    pub fn cell_count(&self) -> usize
        ensures { result ≡ length self.now.cells }
    {
        self.chains.len()
    }

    /// Replaces a cell outside its chain by a cell of this entry and place.
    pub fn set_cell(&mut self, cell: usize, entry: usize, place: usize)
        requires cell { cell < length self.old.cells }
        requires entry { entry < length self.old.vars }
        requires outside { has_node (chain_with self.old cell) cell ≡ false }
        ensures { self.new ≡ with_cell_at self.old cell (record { entry = entry; place = place }) }
    {
        self.chains.set_cell(cell, Cell { entry, place });
    }

    /// The variable of an entry.
    pub fn var_of(&self, entry: usize) -> Var
        requires { entry < length self.now.vars }
        ensures { result ≡ var_at self.now.vars entry }
    {
        self.vars.at(entry)
    }

    /// The entry of a cell.
    pub fn owner_of(&self, cell: usize) -> usize
        requires { cell < length self.now.cells }
        ensures { result ≡ (cell_at self.now.cells cell).entry }
    {
        self.chains.entry(cell)
    }

    /// The place of a cell's demand.
    pub fn place_of(&self, cell: usize) -> usize
        requires { cell < length self.now.cells }
        ensures { result ≡ (cell_at self.now.cells cell).place }
    {
        self.chains.place(cell)
    }
}

impl Links {
    /// Links an entry at its place in goal order.
    pub fn link(&mut self, entry: usize)
        requires entry { entry < length self.old.vars }
        requires new { has self.old.linked (var_at self.old.vars entry) ≡ false }
        ensures { self.new ≡ linked self.old entry }
    {
        let v = self.vars.at(entry);
        let place = place_before(&self.vars, &self.row, self.recent, v);
        self.row.link(place, entry);
        self.recent = Some(entry);
    }

    /// Unlinks an entry. It keeps its neighbours.
    pub fn unlink(&mut self, entry: usize)
        requires entry { entry < length self.old.vars }
        requires linked { IsTrue (has self.old.linked (var_at self.old.vars entry)) }
        ensures unlinked { self.new ≡ unlinked self.old entry }
        ensures kept { slice_get self.old.kept entry ≡ Some None }
        ensures rising { IsTrue (is_rising self.old.linked) }
    {
        self.recent = recent_without(&self.row, self.recent, entry);
        self.row.unlink(entry);
    }

    /// Links an entry between the neighbours that it keeps.
    pub fn relink(&mut self, entry: usize)
        requires { MayReturn self.old entry }
        ensures linked { self.new ≡ linked self.old entry }
        ensures back { (before : Entries) → self.old ≡ unlinked before entry → WasLinked before entry
            → self.new ≡ before }
    {
        self.row.relink(entry);
    }

    /// The first linked entry in goal order.
    pub fn first(&self) -> Option<usize>
        ensures first { option_map (var_at self.now.vars) result ≡ first_of self.now.linked }
        ensures within { IfSome result (λ entry. entry < length self.now.vars) }
        ensures linked { IfSome result (λ entry. IsTrue (has self.now.linked (var_at self.now.vars entry))) }
    {
        self.row.next(None)
    }

    /// The next linked entry.
    pub fn next(&self, entry: usize) -> Option<usize>
        requires entry { entry < length self.now.vars }
        requires linked { IsTrue (has self.now.linked (var_at self.now.vars entry)) }
        ensures next { option_map (var_at self.now.vars) result ≡ first_of (vars_behind self.now entry) }
        ensures within { IfSome result (λ next. next < length self.now.vars) }
        ensures linked { IfSome result (λ next. IsTrue (has self.now.linked (var_at self.now.vars next))) }
    {
        self.row.next(Some(entry))
    }
}

impl Links {
    /// Appends a cell to its chain.
    pub fn chain_push(&mut self, cell: usize)
        requires cell { cell < length self.old.cells }
        requires new { has_node (chain_with self.old cell) cell ≡ false }
        ensures { self.new ≡ lengthened self.old cell }
    {
        self.chains.append(cell);
    }

    /// Removes the last cell of a chain.
    pub fn chain_pop(&mut self, cell: usize)
        requires cell { cell < length self.old.cells }
        requires last { last_of (chain_with self.old cell) ≡ Some cell }
        ensures { self.new ≡ shortened self.old cell }
    {
        self.chains.shorten(cell);
    }

    /// The first cell of an entry's chain.
    pub fn chain_first(&self, entry: usize) -> Option<usize>
        requires { entry < length self.now.vars }
        ensures first { result ≡ first_of (chain_at self.now.chains entry) }
        ensures within { IfSome result (λ cell. cell < length self.now.cells) }
        ensures linked { IfSome result (λ cell. IsTrue (has_node (chain_with self.now cell) cell)) }
        ensures owner { IfSome result (λ cell. (cell_at self.now.cells cell).entry ≡ entry) }
        ensures one { HaveOneEntry self.now.vars }
    {
        self.chains.first(entry)
    }

    /// The next cell of a chain.
    pub fn chain_next(&self, cell: usize) -> Option<usize>
        requires cell { cell < length self.now.cells }
        requires linked { IsTrue (has_node (chain_with self.now cell) cell) }
        ensures next { result ≡ first_of (behind (Some cell) (chain_with self.now cell)) }
        ensures within { IfSome result (λ next. next < length self.now.cells) }
        ensures linked { IfSome result (λ next. IsTrue (has_node (chain_with self.now next) next)) }
        ensures owner { IfSome result (λ next.
            (cell_at self.now.cells next).entry ≡ (cell_at self.now.cells cell).entry) }
    {
        self.chains.next(cell)
    }
}

// The last linked entry before a variable.
fn place_before(vars: &Vars, row: &LinkRow, recent: Option<usize>, v: Var) -> Option<usize>
    requires below { AreBelow (length vars.now) row.now.linked }
    requires recent { StandsIn row.now.linked recent }
    ensures linked { StandsIn row.now.linked result }
    ensures before { IfSome result (λ n. is_before (var_at vars.now n) v ≡ true) }
    ensures behind { IfSome (first_of (behind result row.now.linked)) (λ n. is_before (var_at vars.now n) v ≡ false) }
{
    let mut place = start(vars, row, recent, v);
    while let Some(next) = row.next(place) {
        if !is_before(vars.at(next), v) {
            return place;
        }
        place = Some(next);
    }
    place
}

// A place before a variable. It searches back from the recent entry and on from the front, by alternate steps, so
// that the nearer of the two decides how long it takes.
fn start(vars: &Vars, row: &LinkRow, recent: Option<usize>, v: Var) -> Option<usize>
    requires below { AreBelow (length vars.now) row.now.linked }
    requires recent { StandsIn row.now.linked recent }
    ensures linked { StandsIn row.now.linked result }
    ensures before { IfSome result (λ n. is_before (var_at vars.now n) v ≡ true) }
{
    let mut place = None;
    let mut back = recent;
    while let Some(ahead) = row.next(place) {
        if is_entry_before(vars, back, v) {
            return back;
        }
        if !is_before(vars.at(ahead), v) {
            return place;
        }
        place = Some(ahead);
        back = in_front(row, back);
    }
    place
}

fn is_entry_before(vars: &Vars, place: Option<usize>, v: Var) -> bool
    requires { IfSome place (λ n. n < length vars.now) }
    ensures { result ≡ is_entry_before vars.now v place }
{
    match place {
        Some(n) => is_before(vars.at(n), v),
        None => false,
    }
}

// The place before an entry.
fn in_front(row: &LinkRow, place: Option<usize>) -> Option<usize>
    requires { StandsIn row.now.linked place }
    ensures { StandsIn row.now.linked result }
{
    match place {
        Some(n) => row.prev(n),
        None => None,
    }
}

// The recent entry after one is unlinked.
fn recent_without(row: &LinkRow, recent: Option<usize>, entry: usize) -> Option<usize>
    requires linked { IsTrue (has_node row.now.linked entry) }
    requires recent { StandsIn row.now.linked recent }
    ensures { StandsIn (without_node entry row.now.linked) result }
{
    match recent {
        Some(n) if n == entry => row.prev(entry),
        _ => recent,
    }
}
