//! A node as a gateway of a LAN: the LAN with who holds its clients, and what the gateway puts on it
//! for what comes from the mesh.

#![tactic(auto)]

pub mod bridge;
pub mod bridging;

pub use bridge::{Bridge, LanOf};
