use mesh_base::{Bytes, Event, Mac, Reason};

/// What a node puts when it was given something.
#[derive(Debug, Drop)]
pub enum Act {
    /// A frame to the neighbour of this address, or on all the node's links. A reason stands
    /// exactly with a packet of kind unicast.
    Link {
        to: Option<Mac>,
        reason: Option<Reason>,
        bytes: Bytes,
    },
    /// A frame on the node's LAN.
    Lan {
        bytes: Bytes,
    },
    /// An event of its own.
    Print(Event),
}
