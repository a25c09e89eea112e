//! A node as it is seen.

use mesh_algo::Algo;
use mesh_base::Millis;
use mesh_node::Node;
use std::alloc::Global;

/// A node that is seen at a moment, under its name.
#[derive(Drop)]
pub struct Seen<'a, A: Algo> {
    pub alloc: Global,
    pub node: &'a Node<A>,
    pub name: &'a [u8],
    pub moment: Millis,
}
