//! Bridge loop avoidance: which gateway of a LAN holds a client of it, by the claim frames that
//! came, and what a gateway does with a client's frames.

#![tactic(auto)]

mod claims;
mod hold;
mod kept;

pub use claims::Claims;
pub use mesh_model::{ClaimRow, Spread, Verdict};
