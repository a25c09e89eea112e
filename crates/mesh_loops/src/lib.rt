//! Loops of routes over time: which come and which go, as the next nodes of pairs of an originator
//! and a node are set.

#![tactic(auto)]

mod failure;
pub mod laws;
mod report;
mod watch;
mod when;

pub use failure::WatchErr;
pub use mesh_model::{Loop, LoopList, NodeList};
pub use report::LoopReport;
pub use watch::Watch;
