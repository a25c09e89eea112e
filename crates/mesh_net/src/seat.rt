use mesh_algo::Algo;
use mesh_base::Mac;
use mesh_node::Node;

/// A node at its place in a net.
#[derive(Drop)]
pub struct Seat<A: Algo> {
    pub(crate) node: Node<A>,
    pub(crate) mac: Mac,
    /// How many ticks it had.
    pub(crate) ticks: u64,
}
