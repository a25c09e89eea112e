//! The containers that a node makes.

ghost use Rattle.std.specs.Prelude.{◌≡◌, ◌≤◌, ◌<◌, ◌+◌, ◌*◌, ◌∷◌, ◌++◌, [], ℕ, length, flat_map, map, IfOk, OnOk, OnErr};
ghost use Rattle.mesh_model.specs.Clients.Limits.{clients_limit};
ghost use Rattle.mesh_model.specs.Commits.Announcements.{record_of_change};
ghost use Rattle.mesh_model.specs.Acts.OwnContainers.{arp_table_part, gateway_part, multicast_part, own_containers};
ghost use Rattle.mesh_model.specs.Acts.Packing.{part_container, part_containers, reply_containers, request_containers, request_flags, table_container, table_told, with_full};
ghost use Rattle.mesh_model.specs.Acts.TableRows.{is_within_limits};
ghost use Rattle.mesh_model.specs.Packets.BodySpellings.{change_spelling, gateway_spelling, tt_part_spelling, tt_spelling, vlan_spelling};
ghost use Rattle.mesh_model.specs.Packets.Containers.{containers_spelling};
ghost use Rattle.mesh_model.specs.Packets.Numbers.{ogm_diff_flag, response_flag};
ghost use Rattle.mesh_model.specs.Tables.Answers.{numbered_part};
ghost use Rattle.mesh_model.specs.Tables.Pieces.{piece_at, piece_count};
ghost use Rattle.mesh_serv.specs.OffersStand.{bandwidth};
ghost use Rattle.node_ground.specs.Inner.OwnSize.{own_size};
ghost use Rattle.node_ground.specs.Sending.{FitsOgm, FitsPacket, FitsParts};
ghost use Rattle.node_ground.specs.SettingsSeen.{part_seen, settings_seen};
ghost use Rattle.tt_global.specs.Kept.{stamp, stamp_in};
ghost use Rattle.tt_sync.specs.Answers.{answer_in};
ghost use Rattle.tt_table.specs.Sums.{named_sums};

use crate::settings::{GatewayPart, Settings};
use byteorder::{BigEndian, ByteOrder};
use mesh_base::NoMemory;
use mesh_model::{Change, Request};
use mesh_serv::Bandwidth;
use mesh_tvlv::layout::{
    CHANGE_SIZE, DAT, FULL_TABLE, GATEWAY, GATEWAY_SIZE, HEADER_SIZE, MULTICAST, MULTICAST_SIZE,
    MULTICAST_VERSION, OGM_DIFF, REQUEST, RESPONSE, TT, TT_HEAD_SIZE, TT_PART_VERSION, VERSION,
    VLAN_SIZE,
};
use mesh_tvlv::{
    write_change, write_container, write_container_head, write_tt_head, write_tt_part_head,
    write_vlan,
};
use std::alloc::Global;
use tt_local::CLIENTS_LIMIT;
use tt_sync::Reply;
use tt_table::{Announcement, Sums, Table};

/// The most records of an answer with a whole table that go in one packet.
pub const PIECE_SIZE: usize = 1_024;

/// The most VLANs that a node's clients are in.
const VLANS_LIMIT: usize = 16;

/// How many hops are before a packet that a node begins.
pub const FIRST_TTL: u8 = 50;

// Appends the VLANs of a translation table.
fn put_vlans(out: &mut Vec<u8>, sums: &Sums) -> Result<(), NoMemory>
    ensures ok { OnOk result (out.new.items
        ≡ out.old.items ++ flat_map vlan_spelling (named_sums sums.now)) }
    ensures longer { OnOk result (length out.new.items
        ≡ length out.old.items + 8 * length (named_sums sums.now)) }
{
    for i in 0..sums.len() {
        if let Some((vid, sum)) = sums.at(i) {
            write_vlan(out, vid, sum)?;
        }
    }
    Ok(())
}

// Appends the records of a translation table.
fn put_records(out: &mut Vec<u8>, changes: &[Change]) -> Result<(), NoMemory>
    ensures ok { OnOk result (out.new.items
        ≡ out.old.items ++ flat_map change_spelling (map record_of_change changes.now)) }
    ensures longer { OnOk result (length out.new.items
        ≡ length out.old.items + 12 * length changes.now) }
{
    for change in changes {
        write_change(out, &change.entry, change.del)?;
    }
    Ok(())
}

// The size of the body of a translation table.
fn table_size(sums: &Sums, records: &[Change]) -> usize
    requires { 4 + 8 * length (named_sums sums.now) + 12 * length records.now ≤ 65535 }
    ensures { result ≡ 4 + 8 * length (named_sums sums.now) + 12 * length records.now }
{
    TT_HEAD_SIZE + VLAN_SIZE * sums.len() + CHANGE_SIZE * records.len()
}

// Appends the container of a translation table.
fn put_table(
    out: &mut Vec<u8>,
    flags: u8,
    byte: u8,
    sums: &Sums,
    records: &[Change],
) -> Result<(), NoMemory>
    requires { 4 + 8 * length (named_sums sums.now) + 12 * length records.now ≤ 65535 }
    ensures ok { OnOk result (out.new.items ≡ out.old.items ++ containers_spelling
        (table_container (table_told flags (stamp byte sums.now) records.now) ∷ [])) }
    ensures longer { OnOk result (length out.new.items ≡ length out.old.items
        + (8 + 8 * length (named_sums sums.now) + 12 * length records.now)) }
{
    let size = table_size(sums, records);
    out.reserve(HEADER_SIZE + size)?;
    write_container_head(out, TT, VERSION, size as u16)?;
    write_tt_head(out, flags, byte, sums.len() as u16)?;
    put_vlans(out, sums)?;
    put_records(out, records)?;
    Ok(())
}

// The flags of a request.
fn request_flags(request: Request) -> u8
    ensures { result ≡ request_flags request }
{
    match request {
        Request::Full => REQUEST | FULL_TABLE,
        Request::Changes => REQUEST,
    }
}

/// The containers of a request for what was announced.
pub fn request_containers(
    alloc: Global,
    request: Request,
    announced: &Announcement,
) -> Result<Vec<u8>, NoMemory>
    requires { 8 + 8 * length (named_sums announced.now.sums) ≤ 65535 }
    ensures ok { IfOk result (λ bytes. bytes.items
        ≡ request_containers request (stamp_in announced.now)) }
    ensures fits { IfOk result (λ bytes. length bytes.items ≤ 65535) }
{
    let mut containers = Vec::new(alloc);
    let flags = request_flags(request);
    let Announcement { byte, sums, .. } = announced;
    put_table(&mut containers, flags, *byte, sums, &[])?;
    Ok(containers)
}

// The body of a gateway's container.
fn gateway_body(offered: Bandwidth) -> [u8; 8]
    ensures { result ≡ gateway_spelling (bandwidth offered) }
{
    let mut body = [0; 8];
    BigEndian::write_u32(&mut body, offered.download);
    BigEndian::write_u32(&mut body[4..], offered.upload);
    body
}

// How long the container of a gateway is, where the node is one.
fn gateway_size(part: GatewayPart) -> usize
    ensures is { result ≡ length (containers_spelling (gateway_part (part_seen part))) }
    ensures few { result ≤ 12 }
{
    match part {
        GatewayPart::Serves(_) => HEADER_SIZE + GATEWAY_SIZE,
        GatewayPart::NoPart | GatewayPart::Chooses(_) => 0,
    }
}

// Appends the container of a gateway, where the node is one.
fn put_gateway(out: &mut Vec<u8>, part: GatewayPart) -> Result<(), NoMemory>
    ensures ok { OnOk result (out.new.items
        ≡ out.old.items ++ containers_spelling (gateway_part (part_seen part))) }
{
    let GatewayPart::Serves(offered) = part else {
        return Ok(());
    };
    write_container(out, GATEWAY, VERSION, &gateway_body(offered))?;
    Ok(())
}

// How long the container of the distributed ARP table is, where the node takes part in it.
fn arp_table_size(on: bool) -> usize
    ensures is { result ≡ length (containers_spelling (arp_table_part on)) }
    ensures few { result ≤ 4 }
{
    if on { HEADER_SIZE } else { 0 }
}

// Appends the container of the distributed ARP table, where the node takes part in it.
fn put_arp_table(out: &mut Vec<u8>, on: bool) -> Result<(), NoMemory>
    ensures ok { OnOk result (out.new.items
        ≡ out.old.items ++ containers_spelling (arp_table_part on)) }
{
    if on {
        write_container(out, DAT, VERSION, &[])?;
    }
    Ok(())
}

// How long the container of multicast flags is, where any is set.
fn multicast_size(flags: u8) -> usize
    ensures is { result ≡ length (containers_spelling (multicast_part flags)) }
    ensures few { result ≤ 8 }
{
    if flags == 0 {
        0
    } else {
        HEADER_SIZE + MULTICAST_SIZE
    }
}

// Appends the container of multicast flags, where any is set.
fn put_multicast(out: &mut Vec<u8>, flags: u8) -> Result<(), NoMemory>
    ensures ok { OnOk result (out.new.items
        ≡ out.old.items ++ containers_spelling (multicast_part flags)) }
{
    if flags != 0 {
        write_container(out, MULTICAST, MULTICAST_VERSION, &[flags, 0, 0, 0])?;
    }
    Ok(())
}

/// How long the containers of the own originator message are, by the node's settings, with what it
/// announces.
pub(crate) fn own_size(settings: Settings, announced: &Announcement) -> usize
    requires { FitsOgm announced.now }
    ensures is { result ≡ own_size settings announced.now }
    ensures fits { result ≤ 65535 }
{
    let records = announced.changes.as_slice();
    gateway_size(settings.gateway)
        + arp_table_size(settings.arp_table)
        + HEADER_SIZE
        + table_size(&announced.sums, records)
        + multicast_size(settings.multicast)
}

/// Appends the containers of the own originator message, by the node's settings, with what it
/// announces.
pub(crate) fn put_own(
    out: &mut Vec<u8>,
    settings: Settings,
    announced: &Announcement,
) -> Result<(), NoMemory>
    requires { FitsOgm announced.now }
    ensures ok { OnOk result (out.new.items ≡ out.old.items ++ containers_spelling
        (own_containers (settings_seen settings)
        (table_told ogm_diff_flag (stamp_in announced.now) announced.now.changes))) }
    ensures longer { OnOk result (length out.new.items
        ≡ length out.old.items + own_size settings announced.now) }
{
    let Announcement {
        byte,
        sums,
        changes,
    } = announced;
    put_gateway(out, settings.gateway)?;
    put_arp_table(out, settings.arp_table)?;
    put_table(out, OGM_DIFF, *byte, sums, changes.as_slice())?;
    put_multicast(out, settings.multicast)?;
    Ok(())
}

// The flags of an answer, which has a whole table or not.
fn reply_flags(full: bool) -> u8
    ensures { result ≡ with_full response_flag full }
{
    if full {
        RESPONSE | FULL_TABLE
    } else {
        RESPONSE
    }
}

/// The containers of an answer.
pub fn reply_containers(alloc: Global, reply: &Reply) -> Result<Vec<u8>, NoMemory>
    requires { FitsPacket (answer_in reply.now) }
    ensures ok { IfOk result (λ bytes. bytes.items ≡ reply_containers (answer_in reply.now)) }
    ensures fits { IfOk result (λ bytes. length bytes.items ≤ 65535) }
{
    let Reply {
        full,
        byte,
        sums,
        records,
    } = reply;
    let mut containers = Vec::new(alloc);
    let flags = reply_flags(*full);
    put_table(&mut containers, flags, *byte, sums, records.as_slice())?;
    Ok(containers)
}

// The body of a part of a translation table, by its number, of so many.
fn part_body(
    alloc: Global,
    reply: &Reply,
    records: &[Change],
    number: u16,
    count: u16,
) -> Result<Vec<u8>, NoMemory>
    requires { length (named_sums reply.now.sums) ≤ 65535 }
    ensures body { IfOk result (λ body. body.items ≡ tt_part_spelling (record {
      table = table_told (with_full response_flag reply.now.full)
          (stamp reply.now.byte reply.now.sums) records.now;
      number = number;
      count = count;
    })) }
    ensures long { IfOk result (λ body. length body.items
        ≡ 8 + 8 * length (named_sums reply.now.sums) + 12 * length records.now) }
{
    let mut body = Vec::new(alloc);
    let Reply {
        full,
        byte,
        sums,
        ..
    } = reply;
    let flags = reply_flags(*full);
    write_tt_part_head(&mut body, flags, *byte, sums.len() as u16, number, count)?;
    put_vlans(&mut body, sums)?;
    put_records(&mut body, records)?;
    Ok(body)
}

/// How many parts an answer with a whole table has.
#[tactic(auto, unfolding(mesh_model::specs::Tables::Pieces::piece_count))]
pub fn part_count(reply: &Reply) -> u16
    requires { length reply.now.records ≤ clients_limit }
    ensures { result ≡ piece_count (answer_in reply.now).records }
{
    let count = (reply.records.len() + (PIECE_SIZE - 1)) / PIECE_SIZE;
    1_usize.max(count) as u16
}

// The piece at a place of records.
#[tactic(auto, unfolding(mesh_model::specs::Tables::Pieces::piece_size))]
fn piece_at(records: &[Change], place: usize) -> &[Change]
    requires { place * PIECE_SIZE ≤ length records.now }
    ensures is { result.now ≡ piece_at place records.now }
    ensures few { length result.now ≤ PIECE_SIZE }
{
    let rest = &records[place * PIECE_SIZE..];
    &rest[..PIECE_SIZE.min(rest.len())]
}

/// The containers of the part of an answer with a number.
pub fn part_containers(alloc: Global, reply: &Reply, number: u16) -> Result<Vec<u8>, NoMemory>
    requires parts { FitsParts (answer_in reply.now) }
    requires within { number < piece_count (answer_in reply.now).records }
    ensures ok { IfOk result (λ bytes. bytes.items
        ≡ part_containers (numbered_part (answer_in reply.now) number)) }
    ensures fits { IfOk result (λ bytes. length bytes.items ≤ 65535) }
{
    let records = piece_at(reply.records.as_slice(), usize::from(number));
    let body = part_body(alloc, reply, records, number, part_count(reply))?;
    let mut containers = Vec::new(alloc);
    write_container(&mut containers, TT, TT_PART_VERSION, body.as_slice())?;
    Ok(containers)
}

/// Whether a table is within what a node may have.
pub fn is_within_limits(table: &Table) -> bool
    ensures { (byte : ℕ) → result
        ≡ is_within_limits (record { byte = byte; table = table.now.entries }) }
{
    table.entry_at(CLIENTS_LIMIT).is_none() && table.sums().len() <= VLANS_LIMIT
}
