//! The choices of services, as functions without memory: which gateway a client takes, which groups
//! a node wants, and how a frame goes to the receivers of a group. And what originators offered
//! last.

#![tactic(auto)]

mod gateways;
mod groups;
mod offers;

pub use gateways::choose;
pub use groups::{plan, wants};
pub use mesh_model::{Fan, GwRow, Policy};
pub use offers::{Bandwidth, Offer, Offers};
