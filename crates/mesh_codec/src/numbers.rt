//! The type bytes, the version byte, and the sizes of headers with both of them
//! (`batadv_packet.h`, compat version 15); the message types of ping and traceroute; and the
//! numbers of client frames.

/// The version byte, the second of each packet.
pub const VERSION: u8 = 15;
/// The bytes of type and version.
pub(crate) const PREFIX: usize = 2;
/// The bytes of an address.
pub(crate) const ADDRESS: usize = 6;
/// The type byte of an originator message of algorithm IV (`BATADV_IV_OGM`).
pub const IV_OGM: u8 = 0x00;
/// The type byte of a broadcast (`BATADV_BCAST`).
pub const BCAST: u8 = 0x01;
/// The type byte of a message of the echo location protocol (`BATADV_ELP`).
pub const ELP: u8 = 0x03;
/// The type byte of an originator message of algorithm V (`BATADV_OGM2`).
pub const OGM2: u8 = 0x04;
/// The type byte of a frame for one node (`BATADV_UNICAST`).
pub const UNICAST: u8 = 0x40;
/// The type byte of a fragment (`BATADV_UNICAST_FRAG`).
pub const FRAG: u8 = 0x41;
/// The type byte of a frame for one node with its sender (`BATADV_UNICAST_4ADDR`).
pub const UNICAST4: u8 = 0x42;
/// The type byte of a message of ping or traceroute (`BATADV_ICMP`).
pub const ICMP: u8 = 0x43;
/// The type byte of containers for one node (`BATADV_UNICAST_TVLV`).
pub const UTVLV: u8 = 0x44;
/// The message type that answers an echo request (`BATADV_ECHO_REPLY`).
pub const ECHO_REPLY: u8 = 0;
/// The message type that says that no route leads on (`BATADV_DESTINATION_UNREACHABLE`).
pub const DESTINATION_UNREACHABLE: u8 = 3;
/// The message type that asks for an answer (`BATADV_ECHO_REQUEST`).
pub const ECHO_REQUEST: u8 = 8;
/// The message type that says that no hop was left (`BATADV_TTL_EXCEEDED`).
pub const TTL_EXCEEDED: u8 = 11;

pub(crate) const IV_OGM_SIZE: usize = 24;

pub(crate) const BCAST_SIZE: usize = 14;

pub(crate) const ELP_SIZE: usize = 16;

pub(crate) const OGM2_SIZE: usize = 20;

pub(crate) const UNICAST_SIZE: usize = 10;

pub(crate) const FRAG_SIZE: usize = 20;

pub(crate) const UNICAST4_SIZE: usize = 18;

pub(crate) const ICMP_SIZE: usize = 20;

pub(crate) const UTVLV_SIZE: usize = 20;
/// The bytes of the longest header.
pub(crate) const LONGEST_HEADER: usize = IV_OGM_SIZE;
/// The bytes of the two addresses of a client frame.
pub(crate) const ADDRESSES_SIZE: usize = 2 * ADDRESS;
/// The bytes of the type of an Ethernet frame.
pub(crate) const ETHERTYPE_SIZE: usize = 2;
/// The bytes of the tag of a VLAN: a type, and the VLAN's number.
pub(crate) const TAG_SIZE: usize = 4;
/// The type that says that a VLAN's number follows (`ETH_P_8021Q`).
pub(crate) const VLAN_ETHERTYPE: u16 = 0x8100;
/// The type of a client frame.
pub(crate) const CLIENT_ETHERTYPE: u16 = 0x88b5;
/// The type of a frame by which gateways claim clients.
pub(crate) const CLAIM_ETHERTYPE: u16 = 0x88b6;
/// The greatest number of a tagged VLAN.
pub(crate) const LAST_VLAN: u16 = 4094;
