//! What every row of a node stands on: what a node keeps of the others, the port that takes its
//! acts, how packets are put, how containers are made and read, and how client frames are handed
//! out.

#![tactic(auto)]

pub mod addressee;
pub mod asks;
mod broadcast_round;
pub mod broadcasts;
pub mod coming;
pub mod deliveries;
pub mod failure;
pub mod gateways;
pub mod groups;
pub mod knowledge;
pub mod messages;
pub mod packing;
pub mod pairs;
pub mod place;
pub mod port;
pub mod reading;
pub mod services;
pub mod settings;

pub use addressee::Way;
pub use coming::Coming;
pub use failure::{NodeErr, PortErr};
pub use knowledge::NodeKnowledge;
pub use place::Place;
pub use port::Port;
pub use services::Services;
pub use settings::{GatewayPart, Setting, Settings};
