// Marks on places. The least marked place is found in logarithmic time, and only creation takes memory.
ghost use Rattle.std.specs.Prelude.{◌≡◌, ◌<◌, ◌≤◌, length, drop, slice_set, IfOk, MatchOption};
ghost use Rattle.plan_jobs.specs.Marks.{IsLeastMarked, IsPower, IsTree, NoneMarked};

use plan_types::NoMemory;
use std::alloc::Global;
use std::marker::Model;

/// A mark for each place, as the leaves of a binary tree. The root is at 1, and the children of `i` are at `2 * i` and
/// `2 * i + 1`. A node is marked iff one of its children is.
#[derive(Drop)]
pub(crate) struct Marks {
    /// The number of leaves, a power of two. They are last in the tree.
    width: usize,
    tree: Vec<bool>,
}

impl Model for Marks {
    ghost use Rattle.std.specs.Prelude.{List, Bool, drop};
    ghost use Rattle.plan_jobs.specs.Marks.{IsTree};

    ghost Value = { List Bool };

    ghost view = { λ marks. drop marks.width marks.tree.items };

    ghost invariant = { λ marks. IsTree marks.width marks.tree.items };
}

impl Marks {
    /// Room for this many places, none of them marked.
    pub(crate) fn new(alloc: Global, places: usize) -> Result<Marks, NoMemory>
        ensures room { IfOk result (λ marks. places ≤ length marks) }
        ensures none { IfOk result NoneMarked }
    {
        let width = width_for(places)?;
        let Some(size) = width.checked_mul(2) else {
            return Err(NoMemory);
        };
        let tree = vec![in alloc; false; size]?;
        Ok(Marks { width, tree })
    }

    /// Sets or clears the mark of a place.
    pub(crate) fn set(&mut self, place: usize, mark: bool)
        requires { place < length self.old }
        ensures { self.new ≡ slice_set self.old place mark }
    {
        set_leaf(&mut self.tree, self.width, place, mark);
    }

    /// The least marked place.
    pub(crate) fn first(&self) -> Option<usize>
        ensures { MatchOption result (NoneMarked self.now) (IsLeastMarked self.now) }
    {
        first_leaf(&self.tree, self.width)
    }
}

// The least power of two that is at least `places`.
fn width_for(places: usize) -> Result<usize, NoMemory>
    ensures room { IfOk result (λ width. places ≤ width) }
    ensures power { IfOk result IsPower }
{
    let mut width: usize = 1;
    while width < places {
        let Some(double) = width.checked_mul(2) else {
            return Err(NoMemory);
        };
        width = double;
    }
    Ok(width)
}

// Sets the mark of a leaf, and updates the nodes above it.
fn set_leaf(tree: &mut [bool], width: usize, place: usize, mark: bool)
    requires tree { IsTree width tree.old }
    requires place { place < width }
    ensures tree { IsTree width tree.new }
    ensures leaves { drop width tree.new ≡ slice_set (drop width tree.old) place mark }
{
    let mut at = width + place;
    tree[at] = mark;
    at /= 2;
    while at > 0 {
        tree[at] = tree[2 * at] || tree[2 * at + 1];
        at /= 2;
    }
}

// Goes down from the root, to the left child if that is marked.
fn first_leaf(tree: &[bool], width: usize) -> Option<usize>
    requires { IsTree width tree.now }
    ensures { MatchOption result (NoneMarked (drop width tree.now)) (IsLeastMarked (drop width tree.now)) }
{
    if !tree[1] {
        return None;
    }
    let mut at = 1;
    while at < width {
        at = if tree[2 * at] { 2 * at } else { 2 * at + 1 };
    }
    Some(at - width)
}
