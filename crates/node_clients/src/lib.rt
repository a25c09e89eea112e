//! The rows of a node for client frames: those of its own clients, with their sightings, those of
//! its LAN, those that come in packets, and what advertisements say of clients that roamed away.

#![tactic(auto)]

pub mod calls;
pub mod carried;
pub mod client_frames;
mod groups;
mod keys;
pub mod lan_frames;
pub mod roaming;
pub mod seeing;
mod sending;
mod sightings;
