// A row of linked nodes. Unlinked nodes keep their neighbours.
ghost use Rattle.std.specs.Prelude.{◌≡◌, ◌<◌, ◌-◌, ◌++◌, [], ◌∷◌, List, ℕ, true, false, IsTrue, Some, None, Option};
ghost use Rattle.std.specs.Prelude.{IfSome, OnOk, OnErr, length, slice_get, slice_set};
ghost use Rattle.goal_links.specs.Beside.{first_of};
ghost use Rattle.goal_links.specs.Row.{Line, has_node, without_node, behind, StandsIn, MayReturn, IsParted, IsGap};
ghost use Rattle.goal_links.specs.Row.{with_node, unlinked};

use crate::ring::{RingNode, alone, relink, unlink};
use plan_types::NoMemory;
use std::alloc::Global;
use std::marker::Model;

/// Nodes by number. Some are linked.
#[derive(Drop)]
pub(crate) struct LinkRow {
    ends: RingNode,
    nodes: Vec<RingNode>,
}

impl Model for LinkRow {
    ghost use Rattle.goal_links.specs.Ring.{IsRing, ring_of};
    ghost use Rattle.goal_links.specs.Row.{Line, kept_from};

    ghost Value = { Line };

    ghost view = { λ r. record {
      linked = ring_of r.ends r.nodes.items;
      kept = kept_from (ring_of r.ends r.nodes.items) 0 r.nodes.items;
    } };

    ghost invariant = { λ r. IsRing r.ends r.nodes.items (ring_of r.ends r.nodes.items) };
}

impl LinkRow {
    pub(crate) fn new(alloc: Global) -> LinkRow
        ensures { result ≡ record { linked = []; kept = [] } }
    {
        LinkRow {
            ends: alone(),
            nodes: Vec::new(alloc),
        }
    }

    /// Adds an unlinked node without neighbours.
    pub(crate) fn add(&mut self) -> Result<(), NoMemory>
        ensures ok { OnOk result (self.new ≡ with_node self.old) }
        ensures err { OnErr result (self.new ≡ self.old) }
    {
        self.nodes.push(alone())?;
        Ok(())
    }

    /// Removes the last node, which is unlinked.
    pub(crate) fn drop_last(&mut self)
        requires { has_node self.old.linked (length self.old.kept - 1) ≡ false }
        ensures { (line : Line) → self.old ≡ with_node line → self.new ≡ line }
    {
        let _ = self.nodes.pop();
    }

    /// The next node of a place. `None` is the place before all nodes.
    pub(crate) fn next(&self, place: Option<usize>) -> Option<usize>
        requires { StandsIn self.now.linked place }
        ensures next { result ≡ first_of (behind place self.now.linked) }
        ensures rest { IfSome result (λ next.
            behind place self.now.linked ≡ next ∷ behind (Some next) self.now.linked) }
        ensures linked { IfSome result (λ next. has_node self.now.linked next ≡ true) }
    {
        match place {
            Some(node) => self.nodes[node].next,
            None => self.ends.next,
        }
    }

    pub(crate) fn prev(&self, node: usize) -> Option<usize>
        requires { IsTrue (has_node self.now.linked node) }
        ensures { StandsIn (without_node node self.now.linked) result }
    {
        self.nodes[node].prev
    }

    /// Links a node behind a place.
    pub(crate) fn link(&mut self, place: Option<usize>, node: usize)
        requires node { node < length self.old.kept }
        requires new { has_node self.old.linked node ≡ false }
        requires place { StandsIn self.old.linked place }
        ensures linked { (front rest : List ℕ) → IsParted self.old.linked place front rest
            → self.new.linked ≡ front ++ node ∷ rest }
        ensures kept { self.new.kept ≡ slice_set self.old.kept node None }
    {
        let next = self.next(place);
        self.nodes[node] = RingNode { prev: place, next };
        relink(&mut self.ends, &mut self.nodes, node);
    }

    /// Unlinks a node. It keeps its neighbours.
    pub(crate) fn unlink(&mut self, node: usize)
        requires { IsTrue (has_node self.old.linked node) }
        ensures unlinked { self.new ≡ unlinked self.old node }
        ensures kept { slice_get self.old.kept node ≡ Some None }
    {
        unlink(&mut self.ends, &mut self.nodes, node);
    }

    /// Links a node between the neighbours that it keeps.
    pub(crate) fn relink(&mut self, node: usize)
        requires { MayReturn self.old node }
        ensures linked { (front rest : List ℕ) → IsGap self.old node front rest
            → self.new.linked ≡ front ++ node ∷ rest }
        ensures kept { self.new.kept ≡ slice_set self.old.kept node None }
    {
        relink(&mut self.ends, &mut self.nodes, node);
    }
}
