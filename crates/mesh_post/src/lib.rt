//! What a net keeps besides its nodes: links and LANs, all frames that were ever sent, and what is
//! to come. A node's act on links or on its LAN is carried out over it.

#![tactic(auto)]

mod arrivals;
mod frames;
mod leaving;
mod marks;
mod pattern;
mod port;
mod post;
mod posted;
mod puts;
mod queue;
mod rising;
mod row;
mod rows;
mod sends;
mod shown;
mod turns;

pub use frames::Frames;
pub use pattern::Pattern;
pub use port::NetPort;
pub use post::{Post, place_of};
pub use puts::Putting;
pub use queue::Queue;
pub use row::{Arrival, Gateways, Put, Row, Sender, Sending};
pub use rows::Rows;
