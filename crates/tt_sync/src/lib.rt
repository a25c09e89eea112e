//! What a node remembers of clients that roamed and of what it sent for tables: marks of clients,
//! requests to originators, advertisements of clients. With the answers to requests for the own
//! table and for another's.

#![tactic(auto)]

mod answers;
mod failure;
mod sync;

pub use answers::{Reply, answer_other, answer_own};
pub use failure::{AdviseErr, AnswerErr, AskErr};
pub use mesh_model::RoamingMark;
pub use sync::Sync;
