//! The sizes and the limits of a picture.

/// The bytes of the number of neighbours, and of that of clients.
pub(crate) const COUNT_SIZE: usize = 1;
/// The bytes of a neighbour: address 6, metric 4.
pub(crate) const NEIGHBOUR_SIZE: usize = 10;
/// The offset of the metric in a neighbour.
pub(crate) const METRIC_OFFSET: usize = 6;
/// The bytes of a client: address 6, wire number of its VLAN 2.
pub(crate) const CLIENT_SIZE: usize = 8;
/// The offset of the wire number in a client.
pub(crate) const VID_OFFSET: usize = 6;

/// The most neighbours of a picture that is written.
pub const MOST_NEIGHBOURS: usize = 16;
/// The most clients of a picture that is written.
pub const MOST_CLIENTS: usize = 128;
/// The type of a fact that is a picture.
pub const PICTURE_TYPE: u8 = 1;
/// The version of a fact that is a picture.
pub const PICTURE_VERSION: u8 = 1;
