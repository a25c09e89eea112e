//! What a node reads of containers.

ghost use Rattle.std.specs.Prelude.{◌≡◌, ◌↔◌, IfOk, IsTrue, option_map};
ghost use Rattle.mesh_model.specs.Knowledge.Told.{message_changes, sums_told};
ghost use Rattle.mesh_model.specs.Packets.Containers.{containers_of};
ghost use Rattle.mesh_model.specs.Packets.Contents.{first_part, first_roaming, first_table, is_of};
ghost use Rattle.mesh_model.specs.Packets.Numbers.{dat_tvlv, tvlv_version};
ghost use Rattle.mesh_model.specs.Knowledge.Served.{offer_in};
ghost use Rattle.mesh_serv.specs.OffersStand.{bandwidth, offered};
ghost use Rattle.mesh_model.specs.Routes.Ogm.{has_flag};
ghost use Rattle.node_ground.specs.Reading.{Tells};
ghost use Rattle.node_ground.specs.Tables.{client_in, gateway_in, multicast_in, part_in, table_in, with_container};
ghost use Rattle.mesh_tvlv.specs.Translation.{table_and_place};
ghost use Rattle.mesh_tvlv.specs.Walk.{seen};
ghost use Rattle.tt_table.specs.Sums.{named_sums};

use mesh_base::{Key, NoMemory};
use mesh_model::Change;
use mesh_serv::{Bandwidth, Offer};
use mesh_tvlv::layout::{
    DAT, GATEWAY, MULTICAST, MULTICAST_VERSION, ROAMING, TT, TT_PART_VERSION, VERSION,
};
use mesh_tvlv::{
    Container, TtView, TvlvIter, read_gw, read_mcast, read_roam, read_tt, read_tt_part,
};
use std::alloc::Global;
use tt_table::{Announcement, Changes, Sums};

// The translation table in a container, where it is one that can be read.
fn table_in<'a>(container: &Container<'a>) -> Option<TtView<'a>>
    ensures { result ≡ table_in (seen container.now) }
{
    if container.kind != TT || container.version != VERSION {
        return None;
    }
    read_tt(container.body).ok()
}

/// The first translation table in containers that can be read.
pub fn first_table(bytes: &[u8]) -> Option<TtView<'_>>
    ensures { result ≡ first_table (containers_of bytes.now) }
{
    let mut walk = TvlvIter::new(bytes);
    while let Some(Ok(container)) = walk.next() {
        if let Some(table) = table_in(&container) {
            return Some(table);
        }
    }
    None
}

// The part of a translation table in a container, with its number and how many there are, where it
// is one that can be read.
fn part_in<'a>(container: &Container<'a>) -> Option<(TtView<'a>, u16, u16)>
    ensures { result ≡ option_map table_and_place (part_in (seen container.now)) }
{
    if container.kind != TT || container.version != TT_PART_VERSION {
        return None;
    }
    read_tt_part(container.body).ok()
}

/// The first part of a translation table in containers that can be read, with its number and how
/// many there are.
pub fn first_part(bytes: &[u8]) -> Option<(TtView<'_>, u16, u16)>
    ensures { result ≡ option_map table_and_place (first_part (containers_of bytes.now)) }
{
    let mut walk = TvlvIter::new(bytes);
    while let Some(Ok(container)) = walk.next() {
        if let Some(part) = part_in(&container) {
            return Some(part);
        }
    }
    None
}

// The client in a container, where it is a roaming advertisement that can be read.
fn client_in(container: &Container<'_>) -> Option<Key>
    ensures { result ≡ client_in (seen container.now) }
{
    if container.kind != ROAMING || container.version != VERSION {
        return None;
    }
    read_roam(container.body).ok()
}

/// The client of the first roaming advertisement in containers that can be read.
pub fn first_roaming(bytes: &[u8]) -> Option<Key>
    ensures { result ≡ first_roaming (containers_of bytes.now) }
{
    let mut walk = TvlvIter::new(bytes);
    while let Some(Ok(container)) = walk.next() {
        if let Some(key) = client_in(&container) {
            return Some(key);
        }
    }
    None
}

// The throughputs in a container, where it is a gateway's that can be read.
fn gateway_in(container: &Container<'_>) -> Option<Bandwidth>
    ensures { option_map bandwidth result ≡ gateway_in (seen container.now) }
{
    if container.kind != GATEWAY || container.version != VERSION {
        return None;
    }
    let (download, upload) = read_gw(container.body).ok()?;
    Some(Bandwidth { download, upload })
}

// Whether a container is of the distributed ARP table.
fn is_of_arp_table(container: &Container<'_>) -> bool
    ensures { result ≡ is_of dat_tvlv tvlv_version (seen container.now) }
{
    container.kind == DAT && container.version == VERSION
}

// The multicast flags in a container, where it has some that can be read.
fn multicast_in(container: &Container<'_>) -> Option<u8>
    ensures { result ≡ multicast_in (seen container.now) }
{
    if container.kind != MULTICAST || container.version != MULTICAST_VERSION {
        return None;
    }
    read_mcast(container.body).ok()
}

// What is offered by containers that offer this and one more.
fn with_container(before: Offer, container: &Container<'_>) -> Offer
    ensures { offered result ≡ with_container (offered before) (seen container.now) }
{
    if container.kind == TT {
        return before;
    }
    Offer {
        gateway: before.gateway.or(gateway_in(container)),
        arp_table: before.arp_table || is_of_arp_table(container),
        multicast: before.multicast.or(multicast_in(container)),
    }
}

/// What the containers of an originator message offer: the first gateway's that can be read, the
/// first multicast flags that can be read, and whether one is of the distributed ARP table.
pub fn offer_in(bytes: &[u8]) -> Offer
    ensures { offered result ≡ offer_in (containers_of bytes.now) }
{
    let mut offer = Offer {
        gateway: None,
        arp_table: false,
        multicast: None,
    };
    let mut walk = TvlvIter::new(bytes);
    while let Some(Ok(container)) = walk.next() {
        offer = with_container(offer, &container);
    }
    offer
}

/// Whether a flag is set.
pub fn has_flag(flags: u8, flag: u8) -> bool
    ensures { result ≡ has_flag flag flags }
{
    flags & flag != 0
}

/// The sums of a translation table.
pub fn sums_in(alloc: Global, table: &TtView<'_>) -> Result<Sums, NoMemory>
    ensures { IfOk result (λ sums. named_sums sums ≡ sums_told table.now.vlans) }
{
    let mut sums = Sums::new(alloc);
    for i in 0..table.vlans() {
        if let Some((vid, sum)) = table.vlan_at(i) {
            sums.set(vid, sum)?;
        }
    }
    Ok(sums)
}

// The changes of a translation table.
fn changes_in(alloc: Global, table: &TtView<'_>) -> Result<Changes, NoMemory>
    ensures { IfOk result (λ changes. changes ≡ message_changes table.now) }
{
    let mut changes = Changes::new(alloc);
    for i in 0..table.changes() {
        if let Some((entry, del)) = table.change_at(i) {
            changes.push(Change { entry, del })?;
        }
    }
    Ok(changes)
}

/// Whether a translation table has this byte and names the VLANs of these sums, in their order and
/// each with its checksum.
#[inline(always)]
pub fn tells(table: &TtView<'_>, byte: u8, sums: &Sums) -> bool
    ensures { IsTrue result
        ↔ ((table.now.ttvn ≡ byte) × (table.now.vlans ≡ named_sums sums.now)) }
{
    if table.ttvn() != byte || table.vlans() != sums.len() {
        return false;
    }
    for i in 0..table.vlans() {
        let Some((vid, sum)) = table.vlan_at(i) else {
            return false;
        };
        let Some((named, kept)) = sums.at(i) else {
            return false;
        };
        if vid.0 != named.0 || sum != kept {
            return false;
        }
    }
    true
}

/// What a translation table tells.
pub fn announcement_in(alloc: Global, table: &TtView<'_>) -> Result<Announcement, NoMemory>
    ensures { IfOk result (λ announced. Tells announced table.now) }
{
    let sums = sums_in(alloc, table)?;
    let changes = changes_in(alloc, table)?;
    Ok(Announcement {
        byte: table.ttvn(),
        sums,
        changes,
    })
}
