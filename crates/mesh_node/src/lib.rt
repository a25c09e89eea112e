//! A node of a mesh: what it is given, and what it then puts into a port.

#![tactic(auto)]

mod asking;
mod carrying;
mod fragments;
pub mod input;
pub mod node;
mod rebooting;
mod rows;
mod serving;
mod storing;
mod taking;

pub use input::Input;
pub use mesh_model::Act;
pub use node::Node;
pub use node_ground::{NodeErr, Port, PortErr};
