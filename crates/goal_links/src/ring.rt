// Rings of nodes by number: the previous and the next node of each.
ghost use Rattle.std.specs.Prelude.{◌≡◌, ◌<◌, length, Some, Option, ℕ};
ghost use Rattle.goal_links.specs.Ring.{next_at, prev_at, with_place, next_without, prev_without, next_with, prev_with};
ghost use Rattle.goal_links.specs.Ring.{IsWithin};

/// The neighbours of a node. The ends of a ring are a node too: its last and its first node are their neighbours.
#[derive(Clone, Copy, Debug, Drop)]
pub(crate) struct RingNode {
    pub(crate) prev: Option<usize>,
    pub(crate) next: Option<usize>,
}

/// A node without neighbours, or the ends of an empty ring.
pub(crate) fn alone() -> RingNode
    ensures { result ≡ record { prev = Option.None; next = Option.None } }
{
    RingNode {
        prev: None,
        next: None,
    }
}

// Sets the next node of a place. For `None` it is the first node of the ring.
fn set_next(ends: &mut RingNode, nodes: &mut [RingNode], place: Option<usize>, to: Option<usize>)
    requires { IsWithin (length nodes.old) place }
    ensures next { (at : Option ℕ) →
        next_at ends.new nodes.new at ≡ with_place place to (next_at ends.old nodes.old) at }
    ensures prev { (at : Option ℕ) → prev_at ends.new nodes.new at ≡ prev_at ends.old nodes.old at }
{
    match place {
        Some(node) => nodes[node].next = to,
        None => ends.next = to,
    }
}

// Sets the previous node of a place. For `None` it is the last node of the ring.
fn set_prev(ends: &mut RingNode, nodes: &mut [RingNode], place: Option<usize>, to: Option<usize>)
    requires { IsWithin (length nodes.old) place }
    ensures prev { (at : Option ℕ) →
        prev_at ends.new nodes.new at ≡ with_place place to (prev_at ends.old nodes.old) at }
    ensures next { (at : Option ℕ) → next_at ends.new nodes.new at ≡ next_at ends.old nodes.old at }
{
    match place {
        Some(node) => nodes[node].prev = to,
        None => ends.prev = to,
    }
}

/// Joins the neighbours of a node. The node keeps them.
pub(crate) fn unlink(ends: &mut RingNode, nodes: &mut [RingNode], node: usize)
    requires node { node < length nodes.old }
    requires prev { IsWithin (length nodes.old) (prev_at ends.old nodes.old (Some node)) }
    requires next { IsWithin (length nodes.old) (next_at ends.old nodes.old (Some node)) }
    ensures next { (at : Option ℕ) → next_at ends.new nodes.new at ≡ next_without ends.old nodes.old node at }
    ensures prev { (at : Option ℕ) → prev_at ends.new nodes.new at ≡ prev_without ends.old nodes.old node at }
{
    let RingNode { prev, next } = nodes[node];
    set_next(ends, nodes, prev, next);
    set_prev(ends, nodes, next, prev);
}

/// Puts a node between its neighbours.
pub(crate) fn relink(ends: &mut RingNode, nodes: &mut [RingNode], node: usize)
    requires node { node < length nodes.old }
    requires prev { IsWithin (length nodes.old) (prev_at ends.old nodes.old (Some node)) }
    requires next { IsWithin (length nodes.old) (next_at ends.old nodes.old (Some node)) }
    ensures next { (at : Option ℕ) → next_at ends.new nodes.new at ≡ next_with ends.old nodes.old node at }
    ensures prev { (at : Option ℕ) → prev_at ends.new nodes.new at ≡ prev_with ends.old nodes.old node at }
{
    let RingNode { prev, next } = nodes[node];
    set_next(ends, nodes, prev, Some(node));
    set_prev(ends, nodes, next, Some(node));
}
