// The identifiers of a node's needs.
use plan_types::{List, Text};

/// The identifiers of a node's needs by kind of dependency. Each list is in byte order, each once.
#[derive(Debug, Drop)]
pub struct Needed {
    pub libs: List<Text>,
    pub tools: List<Text>,
    pub setups: List<Text>,
}
