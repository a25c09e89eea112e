//! Fragments of packets that are too long for a link: how a packet is cut, and how the fragments
//! that come are put together.

#![tactic(auto)]

mod assembly;
mod cuts;
mod frag;
mod frags;
pub mod laws;
mod parts;

pub use cuts::{Cuts, HEAD_SIZE, cut, reach_of, reach_of_head};
pub use frag::Frag;
pub use frags::Frags;
pub use mesh_model::Head;
pub use parts::MOST_FRAGMENTS;
