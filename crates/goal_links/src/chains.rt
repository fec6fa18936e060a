// Chains of cells, one chain for each entry.
ghost use Rattle.std.specs.Prelude.{◌≡◌, ◌<◌, [], Some, OnOk, OnErr, IsTrue, IfOk, IfSome, false, length};
ghost use Rattle.goal_links.specs.declared.chains.Cell.{Cell};
ghost use Rattle.goal_links.specs.Beside.{first_of, last_of};
ghost use Rattle.goal_links.specs.Row.{has_node, behind};
ghost use Rattle.goal_links.specs.Chains.{Chained, cell_at, chain_at, chain_with, with_chain, with_cell, with_cell_at};
ghost use Rattle.goal_links.specs.Chains.{appended, shortened};

use crate::ring::{RingNode, alone, relink, unlink};
use plan_types::NoMemory;
use std::alloc::Global;
use std::marker::Model;

/// An item of its entry's chain: the place of a demand.
#[derive(Clone, Copy, Debug, Drop)]
pub(crate) struct Cell {
    pub(crate) entry: usize,
    pub(crate) place: usize,
}

/// Cells by number. Some cells of an entry are linked in its chain.
#[derive(Drop)]
pub(crate) struct Chains {
    // The ends of each entry's chain.
    ends: Vec<RingNode>,
    nodes: Vec<RingNode>,
    cells: Vec<Cell>,
}

impl Model for Chains {
    ghost use Rattle.goal_links.specs.Chains.{Chained, AreChains, chains_of};

    ghost Value = { Chained };

    ghost view = { λ c. record { cells = c.cells.items; chains = chains_of c.ends.items c.nodes.items } };

    ghost invariant = { λ c. AreChains c.ends.items c.nodes.items c.cells.items };
}

impl Chains {
    pub(crate) fn new(alloc: Global) -> Chains
        ensures { result ≡ record { cells = []; chains = [] } }
    {
        Chains {
            ends: Vec::new(alloc),
            nodes: Vec::new(alloc),
            cells: Vec::new(alloc),
        }
    }

    /// Adds an entry with an empty chain.
    pub(crate) fn add_entry(&mut self) -> Result<(), NoMemory>
        ensures ok { OnOk result (self.new ≡ with_chain self.old) }
        ensures err { OnErr result (self.new ≡ self.old) }
    {
        self.ends.push(alone())?;
        Ok(())
    }

    /// Adds a cell outside its chain.
    pub(crate) fn add_cell(&mut self, cell: Cell) -> Result<usize, NoMemory>
        requires { cell.entry < length self.old.chains }
        ensures ok { OnOk result (self.new ≡ with_cell self.old cell) }
        ensures place { IfOk result (λ place. place ≡ length self.old.cells) }
        ensures new { IfOk result (λ place. has_node (chain_at self.old.chains cell.entry) place ≡ false) }
        ensures err { OnErr result (self.new ≡ self.old) }
    {
        let place = self.cells.len();
        self.cells.reserve(1)?;
        self.nodes.push(alone())?;
        let _ = self.cells.push(cell);
        Ok(place)
    }

    pub(crate) fn len(&self) -> usize
        ensures { result ≡ length self.now.cells }
    {
        self.cells.len()
    }

    /// Replaces a cell outside its chain.
    pub(crate) fn set_cell(&mut self, place: usize, cell: Cell)
        requires place { place < length self.old.cells }
        requires entry { cell.entry < length self.old.chains }
        requires outside { has_node (chain_with self.old place) place ≡ false }
        ensures { self.new ≡ with_cell_at self.old place cell }
    {
        self.cells[place] = cell;
    }

    pub(crate) fn entry(&self, cell: usize) -> usize
        requires { cell < length self.now.cells }
        ensures { result ≡ (cell_at self.now.cells cell).entry }
    {
        self.cells[cell].entry
    }

    pub(crate) fn place(&self, cell: usize) -> usize
        requires { cell < length self.now.cells }
        ensures { result ≡ (cell_at self.now.cells cell).place }
    {
        self.cells[cell].place
    }

    pub(crate) fn first(&self, entry: usize) -> Option<usize>
        requires { entry < length self.now.chains }
        ensures first { result ≡ first_of (chain_at self.now.chains entry) }
        ensures within { IfSome result (λ cell. cell < length self.now.cells) }
        ensures linked { IfSome result (λ cell. IsTrue (has_node (chain_with self.now cell) cell)) }
        ensures owner { IfSome result (λ cell. (cell_at self.now.cells cell).entry ≡ entry) }
    {
        self.ends[entry].next
    }

    pub(crate) fn next(&self, cell: usize) -> Option<usize>
        requires cell { cell < length self.now.cells }
        requires linked { IsTrue (has_node (chain_with self.now cell) cell) }
        ensures next { result ≡ first_of (behind (Some cell) (chain_with self.now cell)) }
        ensures within { IfSome result (λ next. next < length self.now.cells) }
        ensures linked { IfSome result (λ next. IsTrue (has_node (chain_with self.now next) next)) }
        ensures owner { IfSome result (λ next.
            (cell_at self.now.cells next).entry ≡ (cell_at self.now.cells cell).entry) }
    {
        self.nodes[cell].next
    }
}

impl Chains {
    /// Appends a cell to its chain.
    pub(crate) fn append(&mut self, cell: usize)
        requires cell { cell < length self.old.cells }
        requires new { has_node (chain_with self.old cell) cell ≡ false }
        ensures { self.new ≡ appended self.old cell }
    {
        let entry = self.cells[cell].entry;
        let prev = self.ends[entry].prev;
        self.nodes[cell] = RingNode { prev, next: None };
        relink(&mut self.ends[entry], &mut self.nodes, cell);
    }

    /// Removes the last cell of a chain.
    pub(crate) fn shorten(&mut self, cell: usize)
        requires cell { cell < length self.old.cells }
        requires last { last_of (chain_with self.old cell) ≡ Some cell }
        ensures { self.new ≡ shortened self.old cell }
    {
        let entry = self.cells[cell].entry;
        unlink(&mut self.ends[entry], &mut self.nodes, cell);
    }
}
