/// How many backjumps a search may make.
#[derive(Clone, Copy, Debug, Drop, PartialEq, Eq)]
pub enum Limit {
    Unlimited,
    /// At most this many exhausted points. One more ends the search, unless it is the root.
    At(u64),
}
