//! The distributed ARP table at a node: the pairs of an IP address and a VLAN that it learned, and
//! which nodes keep a pair.

#![tactic(auto)]

mod cache;
mod kept;
mod nearest;

pub use cache::Cache;
pub use mesh_model::{ArpRow, Pair};
pub use nearest::candidates;
