//! The messages of services that unicast packets carry, read where they lie and written: those of
//! the distributed ARP table and those of the fact store.

#![tactic(auto)]

mod address;
mod arp;
mod fact_message;
mod facts;
mod frame_bytes;
pub mod laws;
mod part;
mod part_writing;
mod parts;
mod small_messages;

pub use arp::{ARP_REPLY, ARP_REQUEST, ArpMessage, arp_bytes, read_arp};
pub use fact_message::{CameFact, FactMessage, read_fact_message};
pub use facts::{FactRef, Facts};
pub use frame_bytes::FrameBytes;
pub use part::Part;
pub use part_writing::write_part;
pub use parts::{Parts, part_count};
pub use small_messages::{end_bytes, primary_bytes, request_bytes};
