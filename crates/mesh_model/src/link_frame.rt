use thiserror::Error;

/// Why bytes begin no packet: the first cause that applies, in this order. `Short` stands for type
/// and version and, behind `Kind`, for the header of the kind.
#[derive(Clone, Copy, Debug, PartialEq, Eq)]
pub enum NoPacket {
    /// There are fewer bytes than type and version, or than the header of the kind, need.
    Short { have: usize, need: usize },
    /// The version byte isn't 15.
    Version { byte: u8 },
    /// No kind has this type byte.
    Kind { byte: u8 },
    /// The header tells more bytes of containers than are left.
    Length { told: usize, left: usize },
}

/// Why containers or a body could not be read.
#[derive(Clone, Copy, Debug, PartialEq, Eq, Error)]
pub enum TvlvErr {
    /// No whole container begins at this place, counted from the first byte of the first container.
    #[error("a container is cut at {place}")]
    Cut { place: usize },
    /// The body of a container of this type is too short: its length in bytes.
    #[error("a body of {len} bytes is too short for type {kind}")]
    BadLength { kind: u8, len: usize },
}

/// What ends the packets of a link frame.
#[derive(Clone, Copy, Debug, PartialEq, Eq)]
pub enum Ending {
    /// So many bytes behind the last packet, in which no further one is looked for.
    Rest { len: usize },
    /// The bytes behind the last packet begin none.
    BadPacket(NoPacket),
    /// The containers of the last packet can't be read to their end.
    BadContainer(TvlvErr),
}
