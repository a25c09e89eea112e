//! The rows of a node for the distributed ARP table: the questions of its own clients, behind their
//! sighting, and packets with their sender, for it and on the way.

#![tactic(auto)]

mod came;
mod pairs;
pub mod passing;
pub mod question;
mod sending;

pub use passing::Unicast4;
pub use question::Question;
