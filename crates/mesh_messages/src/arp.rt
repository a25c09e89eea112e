//! The messages of the distributed ARP table: ARP over Ethernet and IPv4 (RFC 826).

ghost use Rattle.std.specs.Prelude.{◌≡◌, ◌++◌, length, option_map};
ghost use Rattle.byteorder.specs.Endian.{big_bytes};
ghost use Rattle.mesh_model.specs.Packets.ArpMessages.{arp_body, arp_in, arp_message_of, arp_spelling, is_arp_body};
ghost use Rattle.mesh_model.specs.Packets.Numbers.{arp_ethertype};
ghost use Rattle.mesh_codec.specs.Payloads.{seen_ether};
ghost use Rattle.mesh_messages.specs.Arp.{seen_arp};

use crate::address::{ADDRESS, address_at};
use crate::frame_bytes::FrameBytes;
use byteorder::{BigEndian, ByteOrder};
use mesh_base::{Mac, Vid};
use mesh_codec::{EtherFrame, read_ether_frame};

/// The operation of a message that asks for an address (`ares_op$REQUEST`).
pub const ARP_REQUEST: u16 = 1;
/// The operation of a message that tells one (`ares_op$REPLY`).
pub const ARP_REPLY: u16 = 2;

/// The type of an Ethernet frame that carries ARP (`ETH_P_ARP`).
const ARP_ETHERTYPE: u16 = 0x0806;
/// The bytes of a message before its operation: Ethernet, IPv4, and the sizes of their addresses.
const FRONT: [u8; 6] = [0, 1, 8, 0, 6, 4];
/// The bytes of a message.
const ARP_SIZE: usize = 28;

const OPERATION_OFFSET: usize = FRONT.len();

const SENDER_OFFSET: usize = OPERATION_OFFSET + 2;

const SENDER_IP_OFFSET: usize = SENDER_OFFSET + ADDRESS;

const TARGET_OFFSET: usize = SENDER_IP_OFFSET + 4;

const TARGET_IP_OFFSET: usize = TARGET_OFFSET + ADDRESS;

/// A message of ARP in a VLAN: its operation, and the address and the IP address of the one that
/// asks or tells, and of the other.
#[derive(Clone, Copy, Debug, PartialEq, Eq)]
pub struct ArpMessage {
    pub vid: Vid,
    pub operation: u16,
    pub sender: Mac,
    pub sender_ip: u32,
    pub target: Mac,
    pub target_ip: u32,
}

// Whether bytes are a message's body.
fn is_body(rest: &[u8]) -> bool
    ensures { result ≡ is_arp_body rest.now }
{
    rest.len() == ARP_SIZE && rest.starts_with(&FRONT)
}

// The message of a frame.
fn message_in(frame: EtherFrame<'_>) -> Option<ArpMessage>
    ensures { option_map seen_arp result ≡ arp_in (seen_ether frame.entry) }
{
    let rest = frame.rest;
    if !is_body(rest) {
        return None;
    }
    Some(ArpMessage {
        vid: frame.vid,
        operation: BigEndian::read_u16(&rest[OPERATION_OFFSET..]),
        sender: address_at(rest, SENDER_OFFSET),
        sender_ip: BigEndian::read_u32(&rest[SENDER_IP_OFFSET..]),
        target: address_at(rest, TARGET_OFFSET),
        target_ip: BigEndian::read_u32(&rest[TARGET_IP_OFFSET..]),
    })
}

/// The message that bytes are, where they are one. Takes no memory.
pub fn read_arp(bytes: &[u8]) -> Option<ArpMessage>
    ensures { option_map seen_arp result ≡ arp_message_of bytes.now }
{
    message_in(read_ether_frame(ARP_ETHERTYPE, bytes)?)
}

/// How a message from one address to another is carried, without taking memory: in 42 bytes, or
/// 46 in a VLAN.
pub fn arp_bytes(dst: Mac, src: Mac, message: &ArpMessage) -> FrameBytes
    ensures { result ≡ arp_spelling dst src (seen_arp message.now) }
{
    let mut frame = FrameBytes::head(ARP_ETHERTYPE, dst, src, message.vid);
    frame.put(&FRONT);
    frame.put(&message.operation.to_be_bytes());
    frame.put(&message.sender.0);
    frame.put(&message.sender_ip.to_be_bytes());
    frame.put(&message.target.0);
    frame.put(&message.target_ip.to_be_bytes());
    frame
}
