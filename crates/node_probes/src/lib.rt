//! The rows of a node for ping and traceroute: its own sessions, and messages for it and on the
//! way.

#![tactic(auto)]

pub mod echoes;
pub mod icmp_message;
pub mod probes;

pub use icmp_message::IcmpMessage;
