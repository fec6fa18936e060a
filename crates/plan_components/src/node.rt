// Nodes of a plan, and what they need.
use plan_types::DepKind;
use qualified_goals::Qual;

/// What is built or used of a package: one component, by its place in file order, or the whole package. An installed
/// unit is whole, and so is a package with a setup script of its own.
#[derive(Clone, Copy, Debug, Drop, PartialEq, Eq, PartialOrd, Ord, Hash)]
pub enum Piece {
    Whole,
    One(u64),
}

/// A node: a piece of a package that is chosen under a qualifier.
#[derive(Clone, Copy, Debug, Drop, PartialEq, Eq, PartialOrd, Ord, Hash)]
pub struct Node {
    pub qual: Qual,
    pub package: u64,
    pub piece: Piece,
}

/// A needed node, and the kind of the dependency on it.
#[derive(Clone, Copy, Debug, Drop, PartialEq, Eq)]
pub struct Need {
    pub kind: DepKind,
    pub node: Node,
}
