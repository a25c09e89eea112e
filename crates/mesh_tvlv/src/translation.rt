ghost use Rattle.std.specs.Prelude.{◌≡◌, ◌+◌, ◌^◌, ◌<◌, ◌≤◌, ◌↔◌, length, IsErr, ok_or, option_map, slice_get};
ghost use Rattle.mesh_model.specs.Packets.Bodies.{tt_head_size, tt_part_head_size, tt_of_body, part_of_body, vlans_size, vlan_of_bytes, change_of_bytes};
ghost use Rattle.mesh_model.specs.Packets.Contents.{table_of_body};
ghost use Rattle.mesh_model.specs.Packets.Numbers.{tt_tvlv};
ghost use Rattle.mesh_tvlv.specs.Translation.{vid_and_sum, entry_and_deletion, table_and_place};

use crate::bodies::key_in;
use crate::layout::{
    CHANGE_KEY_OFFSET, CHANGE_SIZE, CLIENT_FLAGS, DEL, PART_COUNT_OFFSET, PART_NUMBER_OFFSET, TT,
    TT_HEAD_SIZE, TT_PART_HEAD_SIZE, VLAN_SIZE, VLAN_VID_OFFSET, VLANS_OFFSET,
};
use crate::piece::piece;
use byteorder::{BigEndian, ByteOrder};
use mesh_base::{Entry, Vid};
use mesh_model::TvlvErr;
use std::marker::Model;

/// A translation table where it lies in a body: its flags and version, its VLANs with their
/// checksums, its records.
#[derive(Debug, Drop)]
pub struct TtView<'a> {
    flags: u8,
    ttvn: u8,
    vlans: &'a [u8],
    changes: &'a [u8],
}

impl<'a> Model for TtView<'a> {
    ghost use Rattle.std.specs.Prelude.{map};
    ghost use Rattle.mesh_model.specs.Packets.Bodies.{TtData, change_size, vlan_size, vlan_of_bytes, change_of_bytes, whole_pieces};

    ghost Value = { TtData };

    ghost view = { λ v. record {
      flags = v.flags;
      ttvn = v.ttvn;
      vlans = map vlan_of_bytes (whole_pieces vlan_size v.vlans.now);
      changes = map change_of_bytes (whole_pieces change_size v.changes.now);
    } };
}

/// The translation table in a body whose head has so many bytes, at least those that are read of
/// it.
fn table_behind(head_size: usize, body: &[u8]) -> Result<TtView<'_>, TvlvErr>
    requires { (tt_head_size ≤ head_size) × (head_size < 2 ^ 32) }
    ensures reads { result ≡ ok_or (tt_of_body head_size body.now)
        (TvlvErr.BadLength tt_tvlv (length body.now)) }
    ensures short { IsErr result ↔ (length body.now < head_size + vlans_size body.now) }
{
    let short = TvlvErr::BadLength {
        kind: TT,
        len: body.len(),
    };
    if body.len() < head_size {
        return Err(short);
    }
    let vlans = usize::from(BigEndian::read_u16(&body[VLANS_OFFSET..]));
    let size = head_size + VLAN_SIZE * vlans;
    if body.len() < size {
        return Err(short);
    }
    Ok(TtView {
        flags: body[0],
        ttvn: body[1],
        vlans: &body[head_size..size],
        changes: &body[size..],
    })
}

/// The translation table in a body. `BadLength` where the body has fewer bytes than 4 and 8 for
/// each VLAN that it tells.
pub fn read_tt(body: &[u8]) -> Result<TtView<'_>, TvlvErr>
    ensures reads { result ≡ ok_or (table_of_body body.now)
        (TvlvErr.BadLength tt_tvlv (length body.now)) }
    ensures short { IsErr result ↔ (length body.now < tt_head_size + vlans_size body.now) }
{
    table_behind(TT_HEAD_SIZE, body)
}

/// The part of a translation table in a body, its number, from 0, and how many parts there are.
/// `BadLength` where the body has fewer bytes than 8 and 8 for each VLAN that it tells.
pub fn read_tt_part(body: &[u8]) -> Result<(TtView<'_>, u16, u16), TvlvErr>
    ensures reads { result ≡ ok_or (option_map table_and_place (part_of_body body.now))
        (TvlvErr.BadLength tt_tvlv (length body.now)) }
    ensures short { IsErr result ↔ (length body.now < tt_part_head_size + vlans_size body.now) }
{
    let table = table_behind(TT_PART_HEAD_SIZE, body)?;
    let number = BigEndian::read_u16(&body[PART_NUMBER_OFFSET..]);
    let count = BigEndian::read_u16(&body[PART_COUNT_OFFSET..]);
    Ok((table, number, count))
}

fn vlan_in(bytes: &[u8]) -> (Vid, u32)
    requires { VLAN_SIZE ≤ length bytes.now }
    ensures { result ≡ vid_and_sum (vlan_of_bytes bytes.now) }
{
    let sum = BigEndian::read_u32(bytes);
    let vid = BigEndian::read_u16(&bytes[VLAN_VID_OFFSET..]);
    (Vid(vid), sum)
}

fn change_in(bytes: &[u8]) -> (Entry, bool)
    requires { CHANGE_SIZE ≤ length bytes.now }
    ensures { result ≡ entry_and_deletion (change_of_bytes bytes.now) }
{
    let flags = bytes[0];
    let key = key_in(&bytes[CHANGE_KEY_OFFSET..]);
    let entry = Entry {
        key,
        flags: flags & CLIENT_FLAGS,
    };
    (entry, flags & DEL == DEL)
}

impl<'a> TtView<'a> {
    /// The flags of the table: OGM_DIFF, REQUEST, RESPONSE and FULL_TABLE, and any others.
    pub fn flags(&self) -> u8
        ensures { result ≡ self.now.flags }
    {
        self.flags
    }

    /// The version of the table.
    pub fn ttvn(&self) -> u8
        ensures { result ≡ self.now.ttvn }
    {
        self.ttvn
    }

    /// The number of VLANs.
    pub fn vlans(&self) -> usize
        ensures { result ≡ length self.now.vlans }
    {
        self.vlans.len() / VLAN_SIZE
    }

    /// The number of records.
    pub fn changes(&self) -> usize
        ensures { result ≡ length self.now.changes }
    {
        self.changes.len() / CHANGE_SIZE
    }

    /// The VLAN at this place, and the checksum of its clients; `None` exactly past the last.
    pub fn vlan_at(&self, i: usize) -> Option<(Vid, u32)>
        ensures { result ≡ option_map vid_and_sum (slice_get self.now.vlans i) }
    {
        let bytes = piece(self.vlans, VLAN_SIZE, i)?;
        Some(vlan_in(bytes))
    }

    /// The client of the record at this place, with its flags WIFI and ISOLATED, and whether the
    /// record takes it away; `None` exactly past the last.
    pub fn change_at(&self, i: usize) -> Option<(Entry, bool)>
        ensures { result ≡ option_map entry_and_deletion (slice_get self.now.changes i) }
    {
        let bytes = piece(self.changes, CHANGE_SIZE, i)?;
        Some(change_in(bytes))
    }

    /// The flags of the record at this place as they stand; `None` exactly past the last.
    pub fn record_flags_at(&self, i: usize) -> Option<u8>
        ensures { result ≡ option_map (λ change. change.flags) (slice_get self.now.changes i) }
    {
        let bytes = piece(self.changes, CHANGE_SIZE, i)?;
        Some(bytes[0])
    }
}
