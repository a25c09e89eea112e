use mesh_base::{Items, Mac};

/// A list of nodes, by their addresses.
pub type NodeList = Items<Mac>;

/// A list of loops.
pub type LoopList = Items<Loop>;

/// A loop of routes to an originator: its nodes, the least first, each with the one behind it as its
/// next node, the last with the first.
#[derive(Debug, Drop)]
pub struct Loop {
    pub orig: Mac,
    pub nodes: NodeList,
}
