//! The mesh of a scenario: its nodes and links by name, and what each command does to it.

#![tactic(auto)]

mod command;
mod counts;
mod fault;
mod given;
mod lans;
mod link_ends;
mod places;
mod scene;
mod sessions;
mod slice;
mod stage;
mod tables;
mod topology;

pub use fault::{LineFault, refused};
pub use scene::Scene;
pub use slice::Passage;
pub use stage::Stage;
