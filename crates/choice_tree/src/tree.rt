// The path of nodes from a search's first choice to its last.
ghost use Rattle.std.specs.Prelude.{◌≡◌, ◌≢◌, ◌+◌, ◌-◌, ◌<◌, ◌≤◌, List, [], ◌∷◌, ◌++◌, length, drop, slice_index_or, MatchOption, OnOk, OnErr};
ghost use Rattle.choice_tree.specs.declared.tree.TreeNode.{TreeNode};
ghost use Rattle.choice_tree.specs.Tree.{fresh, stepped, values_left, choice_at, Gives, GivesNext, HasGiven, IsGrown};

use choice_problem::{Choice, Var};
use plan_types::{List, NoMemory};
use std::alloc::Global;
use std::marker::Model;

/// A variable with its values in order. The first `given` of them were given.
#[derive(Drop)]
pub struct TreeNode {
    var: Var,
    values: List<u64>,
    given: usize,
}

// The next value, if one is left.
fn give(node: &mut TreeNode) -> Option<u64>
    ensures next { MatchOption result ((values_left node.old ≡ []) × (node.new ≡ node.old)) (Gives node.old node.new) }
    ensures within { node.old.given ≤ length node.old.values → node.new.given ≤ length node.new.values }
{
    if node.given >= node.values.len() {
        return None;
    }
    let value = node.values.as_slice()[node.given];
    node.given += 1;
    Some(value)
}

fn last_given(node: &TreeNode) -> Choice
    requires some { 0 < node.now.given }
    requires within { node.now.given ≤ length node.now.values }
    ensures { result ≡ choice_at node.now }
{
    Choice {
        var: node.var,
        val: node.values.as_slice()[node.given - 1],
    }
}

/// A path of nodes. Each but the last has given a value.
#[derive(Drop)]
pub struct Tree {
    nodes: Vec<TreeNode>,
}

impl Model for Tree {
    ghost use Rattle.std.specs.Prelude.{List};
    ghost use Rattle.choice_tree.specs.declared.tree.TreeNode.{TreeNode};
    ghost use Rattle.choice_tree.specs.Tree.{IsGrown};

    ghost Value = { List TreeNode };

    ghost view = { λ t. t.nodes.items };

    ghost invariant = { λ t. IsGrown t.nodes.items };
}

impl Tree {
    /// The path without nodes.
    pub fn new(alloc: Global) -> Tree
        ensures { result ≡ [] }
    {
        Tree {
            nodes: Vec::new(alloc),
        }
    }

    /// The number of nodes. Each but the last has given a value.
    pub fn depth(&self) -> u64
        ensures count { result ≡ length self.now }
        ensures grown { IsGrown self.now }
    {
        self.nodes.len() as u64
    }

    /// The variable of the last node.
    pub fn top(&self) -> Var
        requires { self.now ≢ [] }
        ensures { (outer : List TreeNode) (node : TreeNode) → self.now ≡ outer ++ node ∷ [] → result ≡ node.var }
    {
        self.nodes[self.nodes.len() - 1].var
    }

    /// Appends a node that has given no value yet.
    pub fn grow(&mut self, var: Var, values: List<u64>) -> Result<(), NoMemory>
        requires { HasGiven self.old }
        ensures ok { OnOk result (self.new ≡ self.old ++ fresh var values ∷ []) }
        ensures err { OnErr result (self.new ≡ self.old) }
    {
        self.nodes.push(TreeNode {
            var,
            values,
            given: 0,
        })?;
        Ok(())
    }

    /// The next value of the last node, or `None` where all were given.
    pub fn next_value(&mut self) -> Option<u64>
        requires { self.old ≢ [] }
        ensures { (outer : List TreeNode) (node : TreeNode) → self.old ≡ outer ++ node ∷ [] → MatchOption result
            ((values_left node ≡ []) × (self.new ≡ self.old))
            (GivesNext outer node self.new) }
    {
        let last = self.nodes.len() - 1;
        give(&mut self.nodes[last])
    }

    /// Removes the last node.
    pub fn back(&mut self)
        requires { self.old ≢ [] }
        ensures { (outer : List TreeNode) (node : TreeNode) → self.old ≡ outer ++ node ∷ [] → self.new ≡ outer }
    {
        self.nodes.pop();
    }

    /// The choice of a node: its variable, with the value given last.
    pub fn trail_at(&self, i: u64) -> Choice
        requires node { i < length self.now }
        requires given { (d : TreeNode) → 0 < (slice_index_or self.now i d).given }
        ensures { (d : TreeNode) → result ≡ choice_at (slice_index_or self.now i d) }
    {
        last_given(&self.nodes[i as usize])
    }
}
