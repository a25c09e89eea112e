use mesh_base::Millis;

/// What a happening is, in the order of those of one moment.
#[derive(Clone, Copy, Debug, PartialEq, Eq, PartialOrd, Ord)]
pub enum Class {
    /// A link frame is delivered.
    LinkDelivery,
    /// A LAN frame is delivered.
    LanDelivery,
    /// A node ticks.
    NodeTick,
}

/// What happens at a moment: a delivery of the link frame at a place in the order of sending, one
/// of the LAN frame at a place in the order of putting, or a tick of the node at a place in the
/// order of the nodes; all from 0. Happenings are ordered by moment, then class, then place.
#[derive(Clone, Copy, Debug, PartialEq, Eq, PartialOrd, Ord)]
pub struct Happening {
    pub moment: Millis,
    pub class: Class,
    pub place: u32,
}
