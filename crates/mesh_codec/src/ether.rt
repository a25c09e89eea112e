//! Ethernet frames, as the packets and the LANs that carry them have them for payload: read by
//! their type where they lie, and put at the end of a list that has room.

ghost use Rattle.std.specs.Prelude.{◌≡◌, ◌≤◌, ◌+◌, ◌++◌, length, option_map};
ghost use Rattle.std.specs.Vec.{vec_len, vec_capacity};
ghost use Rattle.byteorder.specs.Endian.{big_bytes};
ghost use Rattle.mesh_model.specs.Packets.Ethernet.{begin_type, ether_frame_of, frame_behind, frame_by_type, tag_spelling, tagged_frame};
ghost use Rattle.mesh_codec.specs.Inner.Writing.{HasRoom};
ghost use Rattle.mesh_codec.specs.Payloads.{seen_ether};

use crate::cursor::Cursor;
use crate::numbers::{ADDRESSES_SIZE, ETHERTYPE_SIZE, LAST_VLAN, TAG_SIZE, VLAN_ETHERTYPE};
use crate::put::{put_mac, put_u16};
use mesh_base::{Mac, Vid};

/// An Ethernet frame where it lies: where it goes, where it comes from, its VLAN, and what follows
/// its type.
#[derive(Clone, Copy, Debug, PartialEq, Eq)]
pub struct EtherFrame<'a> {
    pub dst: Mac,
    pub src: Mac,
    pub vid: Vid,
    pub rest: &'a [u8],
}

/// Whether bytes begin with a type.
pub(crate) fn begins_type(ethertype: u16, bytes: &[u8]) -> bool
    ensures { result ≡ begin_type ethertype bytes.now }
{
    bytes.len() >= ETHERTYPE_SIZE && Cursor::new(bytes).u16() == ethertype
}

// The frame of a type in a VLAN whose addresses these bytes begin with, where type and rest follow.
fn frame_behind<'a>(
    ethertype: u16,
    bytes: &[u8],
    vid: Vid,
    after: &'a [u8],
) -> Option<EtherFrame<'a>>
    requires { ADDRESSES_SIZE ≤ length bytes.now }
    ensures { option_map seen_ether result ≡ frame_behind ethertype bytes.now vid after.now }
{
    if !begins_type(ethertype, after) {
        return None;
    }
    let mut addresses = Cursor::new(bytes);
    let dst = addresses.mac();
    let src = addresses.mac();
    let rest = &after[ETHERTYPE_SIZE..];
    Some(EtherFrame {
        dst,
        src,
        vid,
        rest,
    })
}

// The frame of a type whose addresses these bytes begin with, where a VLAN's number follows.
fn tagged_frame<'a>(ethertype: u16, bytes: &[u8], after: &'a [u8]) -> Option<EtherFrame<'a>>
    requires { ADDRESSES_SIZE ≤ length bytes.now }
    ensures { option_map seen_ether result ≡ tagged_frame ethertype bytes.now after.now }
{
    if after.len() < ETHERTYPE_SIZE {
        return None;
    }
    let mut tag = Cursor::new(after);
    let number = tag.u16();
    if number == 0 || number > LAST_VLAN {
        return None;
    }
    frame_behind(ethertype, bytes, Vid(Vid::TAGGED + number), tag.left())
}

// The frame of a type that bytes with this behind their addresses are.
fn frame_by_type<'a>(ethertype: u16, bytes: &[u8], after: &'a [u8]) -> Option<EtherFrame<'a>>
    requires { ADDRESSES_SIZE ≤ length bytes.now }
    ensures { option_map seen_ether result ≡ frame_by_type ethertype bytes.now after.now }
{
    if begins_type(VLAN_ETHERTYPE, after) {
        return tagged_frame(ethertype, bytes, &after[ETHERTYPE_SIZE..]);
    }
    frame_behind(ethertype, bytes, Vid::UNTAGGED, after)
}

/// The frame of a type that bytes are, where they are one. Takes no memory.
pub fn read_ether_frame(ethertype: u16, bytes: &[u8]) -> Option<EtherFrame<'_>>
    ensures { option_map seen_ether result ≡ ether_frame_of ethertype bytes.now }
{
    if bytes.len() < ADDRESSES_SIZE {
        return None;
    }
    let mut after = Cursor::new(bytes);
    after.skip(ADDRESSES_SIZE);
    frame_by_type(ethertype, bytes, after.left())
}

// The tag of a VLAN, which is nothing for none.
fn put_tag(out: &mut Vec<u8>, vid: Vid)
    requires { HasRoom out.old TAG_SIZE }
    ensures items { out.new.items ≡ out.old.items ++ tag_spelling vid }
    ensures len { vec_len out.new ≤ vec_len out.old + TAG_SIZE }
    ensures room { vec_capacity out.old ≤ vec_capacity out.new }
{
    if vid != Vid::UNTAGGED {
        put_u16(out, VLAN_ETHERTYPE);
        put_u16(out, vid.0.saturating_sub(Vid::TAGGED));
    }
}

/// The most bytes of a frame before what follows its type.
pub(crate) const ETHER_HEAD_SIZE: usize = ADDRESSES_SIZE + TAG_SIZE + ETHERTYPE_SIZE;

/// Puts a frame's addresses, tag and type at the end of a list that has room for them.
pub(crate) fn put_ether_head(out: &mut Vec<u8>, ethertype: u16, dst: Mac, src: Mac, vid: Vid)
    requires { HasRoom out.old ETHER_HEAD_SIZE }
    ensures items { out.new.items ≡ out.old.items
        ++ (dst.0 ++ src.0 ++ tag_spelling vid ++ big_bytes 2 ethertype) }
    ensures len { vec_len out.new ≤ vec_len out.old + ETHER_HEAD_SIZE }
    ensures room { vec_capacity out.old ≤ vec_capacity out.new }
{
    put_mac(out, dst);
    put_mac(out, src);
    put_tag(out, vid);
    put_u16(out, ethertype);
}
