use mesh_base::{Mac, Millis};

/// Where a client went: when the mark was made, the node that the client is at, and the byte that
/// this node had told by then, where it had told one.
#[derive(Clone, Copy, Debug, PartialEq, Eq)]
pub struct RoamingMark {
    pub moment: Millis,
    pub target: Mac,
    pub told: Option<u8>,
}
