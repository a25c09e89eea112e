use mesh_base::{Mac, Millis};

/// Where and when something is at a node: the node's address, and the moment.
#[derive(Clone, Copy, Debug)]
pub struct Place {
    pub me: Mac,
    pub now: Millis,
}
