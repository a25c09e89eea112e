use mesh_base::{Mac, Millis};

/// How a packet came: when, from which neighbour, and with the throughput of the link to it, or 0.
#[derive(Clone, Copy, Debug)]
pub struct Coming {
    pub now: Millis,
    pub from: Mac,
    pub tp: u32,
}
