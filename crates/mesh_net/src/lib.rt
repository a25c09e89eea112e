//! The net: nodes, links between them, and LANs beside them. Happenings are carried out one after
//! another, each exactly in its order.

#![tactic(auto)]

mod failure;
mod gateways;
mod give;
mod joins;
mod kept;
mod lans;
mod link;
mod net;
mod runs;
mod seat;
mod steps;
mod watch;

pub use failure::NetErr;
pub use link::Link;
pub use mesh_node::{Input, Node};
pub use net::Net;
pub use runs::CLOCK_LIMIT;
