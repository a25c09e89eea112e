//! What a node knows of the tables of others: what each originator announced last, the table
//! that is held of it and the parts of a full answer, changed by announcements and by answers.

#![tactic(auto)]

mod gathered;
mod globals;
mod judging;
mod known;

pub use globals::Globals;
pub use judging::wanted_request;
pub use mesh_model::{GlobalRow, Heard, Request, Taken};
