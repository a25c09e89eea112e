//! The sessions of ping and traceroute at a node: which probes wait for an answer, and what an
//! answer to one means.

#![tactic(auto)]

mod sessions;
mod waiting;

pub use mesh_model::{OpenProbe, Probe, Told};
pub use sessions::Sessions;
