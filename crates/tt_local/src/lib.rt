//! A node's local clients: noted where they are sighted, present while a sighting counts.

#![tactic(auto)]

mod aliases;
mod announcing;
mod client;
mod clients;
mod commit;
pub mod commit_laws;
pub mod failure;
mod journal;
mod kind;
pub mod locals;
mod moments;
mod pending;
mod rebuilding;
mod restart;
mod roster;
mod run;
mod sighting;
mod vlans;

pub use failure::LocalErr;
pub use locals::{CLIENTS_LIMIT, Locals};
pub use mesh_model::LocalRow;
