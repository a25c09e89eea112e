//! The packets of B.A.T.M.A.N. advanced, compat version 15, read from bytes and written to them.

#![tactic(auto)]

mod cursor;
mod decoding;
mod ether;
mod failure;
mod first_packet;
mod header;
mod lan;
pub mod laws;
mod link_frame;
pub mod numbers;
mod payload;
mod put;
mod put_header;
mod writing;

pub use decoding::decode;
pub use ether::{EtherFrame, read_ether_frame};
pub use failure::CodecErr;
pub use first_packet::Packet;
pub use lan::{
    CLAIM_TYPE, LanMessage, UNCLAIM_TYPE, announce_bytes, claim_bytes, gateway_type, read_lan,
};
pub use link_frame::LinkFrame;
pub use mesh_model::{Ending, Head, NoPacket, TvlvErr};
pub use payload::{ClientFrame, read_client_frame, write_client_frame};
pub use writing::{encode, encode_head};
