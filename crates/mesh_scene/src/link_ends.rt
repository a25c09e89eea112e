//! The ends of a link.

/// Where a link leads, by the places of its nodes.
#[derive(Clone, Copy, Debug, PartialEq, Eq)]
pub struct LinkEnds {
    pub from: u32,
    pub to: u32,
}
