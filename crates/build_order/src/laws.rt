// Laws of build orders: a graph has one, and in it each node comes after its needs. Without a cycle it has all nodes.
ghost use Rattle.std.specs.Prelude.{◌≡◌, ℕ, List};
ghost use Rattle.build_order.specs.Order.{AreBehindNeeds, HasAll, IsBuildOrder};
ghost use Rattle.common_laws.specs.Graphs.{HasNoCycle, IsGraph, Needs};

/// Any lists of needs have a build order, even with cycles.
pub fn some_order()
    ensures { (needs : List (List ℕ)) → (order : List ℕ) × IsBuildOrder needs order }
{}

/// The build order of a graph is unique.
pub fn one_order()
    ensures { (needs : List (List ℕ)) (a b : List ℕ) → IsBuildOrder needs a → IsBuildOrder needs b → a ≡ b }
{}

/// Each node comes after its needs.
pub fn each_behind_its_needs()
    ensures { (needs : List (List ℕ)) (order : List ℕ) → IsBuildOrder needs order → AreBehindNeeds needs order }
{}

/// Without a cycle, every node is placed.
pub fn every_node_is_placed()
    ensures { (needs : List (List ℕ)) (order : List ℕ) → IsGraph needs → HasNoCycle (Needs needs)
        → IsBuildOrder needs order
        → HasAll needs order }
{}
