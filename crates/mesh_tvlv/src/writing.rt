ghost use Rattle.std.specs.Prelude.{◌≡◌, ℕ, ◌+◌, ◌≤◌, ◌∷◌, ◌++◌, List, length, OnOk, OnErr};
ghost use Rattle.byteorder.specs.Endian.{big_bytes};
ghost use Rattle.mesh_model.specs.Packets.Containers.{container_spelling};
ghost use Rattle.mesh_model.specs.Packets.Bodies.{change_of};
ghost use Rattle.mesh_model.specs.Packets.BodySpellings.{tt_head_spelling, tt_part_head_spelling, key_spelling, vlan_spelling, change_spelling};

use crate::layout::{
    CHANGE_KEY_OFFSET, CHANGE_SIZE, CLIENT_FLAGS, DEL, HEADER_SIZE, KEY_SIZE, PART_COUNT_OFFSET,
    PART_NUMBER_OFFSET, TT_HEAD_SIZE, TT_PART_HEAD_SIZE, VLAN_SIZE, VLAN_VID_OFFSET, VLANS_OFFSET,
};
use byteorder::{BigEndian, ByteOrder};
use mesh_base::{Entry, Key, NoMemory, Vid};

// What stands in a container before a body of this length.
fn container_head(kind: u8, version: u8, size: u16) -> [u8; HEADER_SIZE]
    ensures { result ≡ kind ∷ version ∷ big_bytes 2 size }
{
    let [high, low] = size.to_be_bytes();
    [kind, version, high, low]
}

/// Appends what stands in a container before a body of this length: its type, its version, the
/// length in 2 bytes.
pub fn write_container_head(
    out: &mut Vec<u8>,
    kind: u8,
    version: u8,
    size: u16,
) -> Result<(), NoMemory>
    ensures ok { (body : List ℕ) → length body ≡ size → OnOk result (out.new.items ++ body
        ≡ out.old.items
        ++ container_spelling (record { kind = kind; version = version; body = body })) }
    ensures longer { OnOk result (length out.new.items ≡ length out.old.items + HEADER_SIZE) }
    ensures err { OnErr result (out.new.items ≡ out.old.items) }
{
    out.extend_from_slice(&container_head(kind, version, size))?;
    Ok(())
}

/// Appends a container: its type, its version, the length of its body in 2 bytes, the body.
pub fn write_container(
    out: &mut Vec<u8>,
    kind: u8,
    version: u8,
    body: &[u8],
) -> Result<(), NoMemory>
    requires { length body.now ≤ 65535 }
    ensures ok { OnOk result (out.new.items ≡ out.old.items
        ++ container_spelling (record { kind = kind; version = version; body = body.now })) }
    ensures err { OnErr result (out.new.items ≡ out.old.items) }
{
    out.reserve(HEADER_SIZE + body.len())?;
    out.extend_from_slice(&container_head(kind, version, body.len() as u16))
        .unwrap();
    out.extend_from_slice(body).unwrap();
    Ok(())
}

/// Appends the head of a translation table: its flags, its version, the number of its VLANs in 2
/// bytes.
pub fn write_tt_head(out: &mut Vec<u8>, flags: u8, ttvn: u8, vlans: u16) -> Result<(), NoMemory>
    ensures ok { OnOk result (out.new.items ≡ out.old.items ++ tt_head_spelling flags ttvn vlans) }
    ensures longer { OnOk result (length out.new.items ≡ length out.old.items + TT_HEAD_SIZE) }
    ensures err { OnErr result (out.new.items ≡ out.old.items) }
{
    let mut head = [0; TT_HEAD_SIZE];
    head[0] = flags;
    head[1] = ttvn;
    BigEndian::write_u16(&mut head[VLANS_OFFSET..], vlans);
    out.extend_from_slice(&head)?;
    Ok(())
}

/// Appends the head of a part of a translation table: as that of a table, then the part's number
/// and how many parts there are, in 2 bytes each.
pub fn write_tt_part_head(
    out: &mut Vec<u8>,
    flags: u8,
    ttvn: u8,
    vlans: u16,
    number: u16,
    count: u16,
) -> Result<(), NoMemory>
    ensures ok { OnOk result (out.new.items ≡ out.old.items
        ++ tt_part_head_spelling flags ttvn vlans number count) }
    ensures err { OnErr result (out.new.items ≡ out.old.items) }
{
    let mut head = [0; TT_PART_HEAD_SIZE];
    head[0] = flags;
    head[1] = ttvn;
    BigEndian::write_u16(&mut head[VLANS_OFFSET..], vlans);
    BigEndian::write_u16(&mut head[PART_NUMBER_OFFSET..], number);
    BigEndian::write_u16(&mut head[PART_COUNT_OFFSET..], count);
    out.extend_from_slice(&head)?;
    Ok(())
}

/// Appends a VLAN: the checksum of its clients in 4 bytes, its wire number in 2, two bytes of 0.
pub fn write_vlan(out: &mut Vec<u8>, vid: Vid, sum: u32) -> Result<(), NoMemory>
    ensures ok { OnOk result (out.new.items ≡ out.old.items
        ++ vlan_spelling (record { vid = vid; sum = sum })) }
    ensures longer { OnOk result (length out.new.items ≡ length out.old.items + VLAN_SIZE) }
    ensures err { OnErr result (out.new.items ≡ out.old.items) }
{
    let mut vlan = [0; VLAN_SIZE];
    BigEndian::write_u32(&mut vlan, sum);
    BigEndian::write_u16(&mut vlan[VLAN_VID_OFFSET..], vid.0);
    out.extend_from_slice(&vlan)?;
    Ok(())
}

/// A client in 8 bytes, which are the body of a roaming advertisement: its address, then the wire
/// number of its VLAN.
pub fn key_bytes(key: Key) -> [u8; KEY_SIZE]
    ensures { result ≡ key_spelling key }
{
    let [a, b, c, d, e, f] = key.mac.0;
    let [high, low] = key.vid.0.to_be_bytes();
    [a, b, c, d, e, f, high, low]
}

/// Appends a record of 12 bytes that adds a client or, with `del`, takes it away. Of the client's
/// flags WIFI and ISOLATED are written, ROAM is 0, and so are the three reserved bytes.
pub fn write_change(out: &mut Vec<u8>, entry: &Entry, del: bool) -> Result<(), NoMemory>
    ensures ok { OnOk result (out.new.items ≡ out.old.items
        ++ change_spelling (change_of entry.now del)) }
    ensures longer { OnOk result (length out.new.items ≡ length out.old.items + CHANGE_SIZE) }
    ensures err { OnErr result (out.new.items ≡ out.old.items) }
{
    let gone = if del { DEL } else { 0 };
    let mut change = [0; CHANGE_SIZE];
    change[0] = (entry.flags & CLIENT_FLAGS) | gone;
    change[CHANGE_KEY_OFFSET..].copy_from_slice(&key_bytes(entry.key));
    out.extend_from_slice(&change)?;
    Ok(())
}
