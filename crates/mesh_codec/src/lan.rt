//! Frames on a LAN: client frames, and the frames by which the gateways of a LAN agree on who
//! passes a client's frames, after batman-adv's bridge loop avoidance (`bridge_loop_avoidance.c`).

ghost use Rattle.std.specs.Prelude.{◌≡◌, ◌++◌, ◌≤◌, length, slice_index_or, Some, None, IsTrue, if◌then◌else◌};
ghost use Rattle.byteorder.specs.Endian.{big_bytes};
ghost use Rattle.mesh_model.specs.Packets.BodySpellings.{key_spelling};
ghost use Rattle.mesh_model.specs.Packets.Numbers.{claim_ethertype};
ghost use Rattle.mesh_model.specs.Packets.LanFrames.{announce_spelling, claim_in, claim_spelling, is_claiming, is_of_gateway, lan_message_of};
ghost use Rattle.mesh_codec.specs.Lans.{seen_lan};

use crate::cursor::Cursor;
use crate::ether::begins_type;
use crate::numbers::{ADDRESS, ADDRESSES_SIZE, CLAIM_ETHERTYPE};
use crate::payload::{ClientFrame, read_client_frame};
use mesh_base::{Key, Mac, Vid};
use mesh_tvlv::key_bytes;

/// The first bytes of a gateway's frame.
const GATEWAY_MARK: [u8; 3] = [0xff, 0x43, 0x05];
/// The type of a claim, in the byte behind these.
pub const CLAIM_TYPE: u8 = 0;
/// The type of an unclaim.
pub const UNCLAIM_TYPE: u8 = 1;

const ANNOUNCE: u8 = 2;
/// The bytes of these, of the type, and of the number of the LAN.
const NUMBER_END: usize = 6;
/// The bytes of a gateway's frame before what it tells.
const FRONT_SIZE: usize = 14;
/// The bytes of a claim or an unclaim.
const CLAIM_SIZE: usize = FRONT_SIZE + 8;
/// The bytes of an announcement.
const ANNOUNCE_SIZE: usize = FRONT_SIZE + 4;

/// What a frame on a LAN is.
#[derive(Clone, Copy, Debug, PartialEq, Eq)]
pub enum LanMessage<'a> {
    /// A claim of a client by a gateway, or for `claim` false the end of one.
    Claims { claim: bool, sender: Mac, key: Key },
    /// A client frame.
    Carries(ClientFrame<'a>),
    /// What a gateway doesn't look at, as an announcement.
    Nothing,
}

// Whether bytes begin as a gateway's frame.
fn is_of_gateway(bytes: &[u8]) -> bool
    ensures { result ≡ is_of_gateway bytes.now }
{
    bytes.starts_with(&GATEWAY_MARK)
        && bytes.len() >= ADDRESSES_SIZE
        && begins_type(CLAIM_ETHERTYPE, &bytes[ADDRESSES_SIZE..])
}

/// The type of a gateway's frame, or `None` where bytes don't begin as one. Takes no memory.
pub fn gateway_type(bytes: &[u8]) -> Option<u8>
    ensures { result
        ≡ (if is_of_gateway bytes.now then Some (slice_index_or bytes.now 3 255) else None) }
{
    if is_of_gateway(bytes) {
        Some(bytes[GATEWAY_MARK.len()])
    } else {
        None
    }
}

// Whether a gateway's frame is a claim or an unclaim, and whole.
fn is_claiming(bytes: &[u8]) -> bool
    ensures claiming { result ≡ is_claiming bytes.now }
    ensures whole { IsTrue result → CLAIM_SIZE ≤ length bytes.now }
{
    if bytes.len() < CLAIM_SIZE {
        return false;
    }
    let kind = bytes[GATEWAY_MARK.len()];
    kind == CLAIM_TYPE || kind == UNCLAIM_TYPE
}

// The claim or unclaim that a gateway's frame is.
fn claim_in(bytes: &[u8]) -> LanMessage<'_>
    ensures { seen_lan result ≡ claim_in bytes.now }
{
    if !is_claiming(bytes) {
        return LanMessage::Nothing;
    }
    let claim = bytes[GATEWAY_MARK.len()] == CLAIM_TYPE;
    let sender = Cursor::new(&bytes[ADDRESS..]).mac();
    let mut client = Cursor::new(&bytes[FRONT_SIZE..]);
    let mac = client.mac();
    let vid = Vid(client.u16());
    LanMessage::Claims {
        claim,
        sender,
        key: Key { mac, vid },
    }
}

/// What a frame on a LAN is. Takes no memory.
#[tactic(auto, unfolding(mesh_model::specs::Packets::LanFrames::lan_message_of))]
pub fn read_lan(bytes: &[u8]) -> LanMessage<'_>
    ensures { seen_lan result ≡ lan_message_of bytes.now }
{
    if is_of_gateway(bytes) {
        return claim_in(bytes);
    }
    match read_client_frame(bytes) {
        None => LanMessage::Nothing,
        Some(frame) => LanMessage::Carries(frame),
    }
}

// A gateway's address, the type of its frames, and a client.
fn claimed(me: Mac, key: Key) -> [u8; CLAIM_SIZE - NUMBER_END]
    ensures { result ≡ me.0 ++ big_bytes 2 claim_ethertype ++ key_spelling key }
{
    let [a, b, c, d, e, f] = me.0;
    let [high, low] = CLAIM_ETHERTYPE.to_be_bytes();
    let mut bytes = [a, b, c, d, e, f, high, low, 0, 0, 0, 0, 0, 0, 0, 0];
    bytes[FRONT_SIZE - NUMBER_END..].copy_from_slice(&key_bytes(key));
    bytes
}

/// The claim of a client by the gateway of an address on the LAN of a number, or for `claim` false
/// the end of its claim.
pub fn claim_bytes(claim: bool, lan: u16, me: Mac, key: Key) -> [u8; CLAIM_SIZE]
    ensures { result ≡ claim_spelling claim lan me key }
{
    let kind = if claim { CLAIM_TYPE } else { UNCLAIM_TYPE };
    let [x, y, z] = GATEWAY_MARK;
    let [high, low] = lan.to_be_bytes();
    let mut bytes = [
        x, y, z, kind, high, low, 0, 0, 0, 0, 0, 0, 0, 0, 0, 0, 0, 0, 0, 0, 0, 0,
    ];
    bytes[NUMBER_END..].copy_from_slice(&claimed(me, key));
    bytes
}

// A gateway's address, the type of its frames, and a number of claims.
fn counted(me: Mac, count: u32) -> [u8; ANNOUNCE_SIZE - NUMBER_END]
    ensures { result ≡ me.0 ++ big_bytes 2 claim_ethertype ++ big_bytes 4 count }
{
    let [a, b, c, d, e, f] = me.0;
    let [high, low] = CLAIM_ETHERTYPE.to_be_bytes();
    let mut bytes = [a, b, c, d, e, f, high, low, 0, 0, 0, 0];
    bytes[FRONT_SIZE - NUMBER_END..].copy_from_slice(&count.to_be_bytes());
    bytes
}

/// The announcement of how many claims the gateway of an address holds on the LAN of a number.
pub fn announce_bytes(lan: u16, me: Mac, count: u32) -> [u8; ANNOUNCE_SIZE]
    ensures { result ≡ announce_spelling lan me count }
{
    let [x, y, z] = GATEWAY_MARK;
    let [high, low] = lan.to_be_bytes();
    let mut bytes = [
        x, y, z, ANNOUNCE, high, low, 0, 0, 0, 0, 0, 0, 0, 0, 0, 0, 0, 0,
    ];
    bytes[NUMBER_END..].copy_from_slice(&counted(me, count));
    bytes
}
