//! The acts of a node, from its rows to its port: a row puts whole packets into a list, and the list
//! is handed over with long packets cut.

#![tactic(auto)]

pub mod acts;
pub mod cutter;
pub mod handing;

pub use acts::Acts;
pub use cutter::Cutter;
pub use handing::hand_over;
