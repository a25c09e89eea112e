ghost use Rattle.std.specs.Prelude.{◌≡◌};
ghost use Rattle.mesh_codec.specs.declared.failure.CodecErr.TheVariants.{Memory};
ghost use Rattle.mesh_codec.specs.Decoding.{error_of};

use mesh_model::NoPacket;
use std::alloc::{AllocError, AllocFailed};
use thiserror::Error;

/// Why bytes begin no packet, or why a packet can't be written: the first cause that applies, in
/// this order.
#[derive(Clone, Copy, Debug, PartialEq, Eq, Error)]
pub enum CodecErr {
    /// There are fewer bytes than type and version, or than the header of the kind, need.
    #[error("{have} bytes, where {need} are needed")]
    Short { have: usize, need: usize },
    /// The version byte isn't 15.
    #[error("version {byte}")]
    Version { byte: u8 },
    /// No kind has this type byte.
    #[error("no kind of packet has type {byte}")]
    Kind { byte: u8 },
    /// The header tells more bytes of containers than are left.
    #[error("{told} bytes of containers are told, and {left} are left")]
    Length { told: usize, left: usize },
    /// The containers are longer than a header can tell.
    #[error("{len} bytes of containers are more than 65535")]
    Long { len: usize },
    /// Bytes are given as the tail of a packet that has none.
    #[error("{len} bytes follow a packet that has no tail")]
    Tail { len: usize },
    #[error("out of memory")]
    Memory,
}

impl From<NoPacket> for CodecErr {
    ghost from_gives = { λ cause error. error ≡ error_of cause };

    fn from(cause: NoPacket) -> CodecErr {
        match cause {
            NoPacket::Short { have, need } => CodecErr::Short { have, need },
            NoPacket::Version { byte } => CodecErr::Version { byte },
            NoPacket::Kind { byte } => CodecErr::Kind { byte },
            NoPacket::Length { told, left } => CodecErr::Length { told, left },
        }
    }
}

impl From<AllocError> for CodecErr {
    ghost from_gives = { λ _ error. error ≡ Memory };

    fn from(_error: AllocError) -> CodecErr {
        CodecErr::Memory
    }
}

impl<T: Drop> From<AllocFailed<T>> for CodecErr {
    ghost from_gives = { λ _ error. error ≡ Memory };

    fn from(_error: AllocFailed<T>) -> CodecErr {
        CodecErr::Memory
    }
}
