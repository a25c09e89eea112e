//! The picture of the network: what a node tells of itself as a fact, from bytes and to bytes, and
//! the pictures of all nodes as one text in JSON.

#![tactic(auto)]

mod json;
pub mod laws;
pub mod layout;
mod network;
mod text;
mod view;
mod writing;

pub use network::{put_network, report};
pub use view::{VisView, read_vis};
pub use writing::write_vis;
