//! The lines of a container, by its type and version.

ghost use Rattle.std.specs.Prelude.{◌≡◌, ◌++◌, IfOk, OnOk, OnErr, Some, option_map, slice_get, flat_map};
ghost use Rattle.mesh_model.specs.Packets.Bodies.{gateway_of_body, multicast_of_body, part_of_body, roaming_of_body};
ghost use Rattle.mesh_model.specs.Packets.Contents.{content_of, table_of_body};
ghost use Rattle.mesh_model.specs.Packets.Contents.Content.{gateway, translation, part, roaming, multicast, unread};
ghost use Rattle.mesh_model.specs.Text.ContainerLines.{change_line};
ghost use Rattle.mesh_model.specs.Text.Tables.{vlan_line};
ghost use Rattle.mesh_tvlv.specs.Walk.{seen};
ghost use Rattle.batctl_text.specs.Inner.Parts.{Grows};
ghost use Rattle.batctl_text.specs.Inner.Printed.{IsPrinted, flags_and_client};

use crate::container_line::{
    change_line, gateway_line, multicast_line, part_start, plain_line, roaming_line, table_start,
    vlan_line,
};
use mesh_base::{Key, NoMemory};
use mesh_tvlv::layout::{
    GATEWAY, MULTICAST, MULTICAST_VERSION, ROAMING, TT, TT_PART_VERSION, VERSION,
};
use mesh_tvlv::{Container, TtView, read_gw, read_mcast, read_roam, read_tt, read_tt_part};

// Appends the lines of the VLANs of a translation table.
fn put_vlans(out: &mut Vec<u8>, table: &TtView<'_>) -> Result<(), NoMemory>
    ensures ok { OnOk result (out.new.items
        ≡ out.old.items ++ flat_map vlan_line table.now.vlans) }
    ensures err { OnErr result (Grows out.old.items out.new.items) }
{
    for i in 0..table.vlans() {
        if let Some((vid, sum)) = table.vlan_at(i) {
            vlan_line(out, vid, sum)?;
        }
    }
    Ok(())
}

// The flags of the record at this place as they stand, and its client; `None` exactly past the
// last.
fn record_at(table: &TtView<'_>, i: usize) -> Option<(u8, Key)>
    ensures { result ≡ option_map flags_and_client (slice_get table.now.changes i) }
{
    let flags = table.record_flags_at(i)?;
    let (entry, _) = table.change_at(i)?;
    Some((flags, entry.key))
}

// Appends the lines of the records of a translation table, their flags as they stand.
fn put_changes(out: &mut Vec<u8>, table: &TtView<'_>) -> Result<(), NoMemory>
    ensures ok { OnOk result (out.new.items
        ≡ out.old.items ++ flat_map change_line table.now.changes) }
    ensures err { OnErr result (Grows out.old.items out.new.items) }
{
    for i in 0..table.changes() {
        if let Some((flags, client)) = record_at(table, i) {
            change_line(out, flags, client)?;
        }
    }
    Ok(())
}

// Appends the line of a container whose body has no fields that are known. Answers whether it is
// long enough.
fn put_plain(out: &mut Vec<u8>, container: &Container<'_>) -> Result<bool, NoMemory>
    ensures ok { IfOk result (λ whole. IsPrinted out.old.items out.new.items (seen container.now)
        (Some unread) whole) }
    ensures err { OnErr result (Grows out.old.items out.new.items) }
{
    plain_line(out, container)?;
    Ok(true)
}

// Appends the line of a gateway's container. Answers whether it is long enough.
fn put_gateway(out: &mut Vec<u8>, container: &Container<'_>) -> Result<bool, NoMemory>
    ensures ok { IfOk result (λ whole. IsPrinted out.old.items out.new.items (seen container.now)
        (option_map gateway (gateway_of_body container.now.body.now)) whole) }
    ensures err { OnErr result (Grows out.old.items out.new.items) }
{
    let Ok((download, upload)) = read_gw(container.body) else {
        return Ok(false);
    };
    gateway_line(out, container, download, upload)?;
    Ok(true)
}

// Appends the line of a roaming advertisement. Answers whether it is long enough.
fn put_roaming(out: &mut Vec<u8>, container: &Container<'_>) -> Result<bool, NoMemory>
    ensures ok { IfOk result (λ whole. IsPrinted out.old.items out.new.items (seen container.now)
        (option_map roaming (roaming_of_body container.now.body.now)) whole) }
    ensures err { OnErr result (Grows out.old.items out.new.items) }
{
    let Ok(client) = read_roam(container.body) else {
        return Ok(false);
    };
    roaming_line(out, container, client)?;
    Ok(true)
}

// Appends the line of multicast flags. Answers whether it is long enough.
fn put_multicast(out: &mut Vec<u8>, container: &Container<'_>) -> Result<bool, NoMemory>
    ensures ok { IfOk result (λ whole. IsPrinted out.old.items out.new.items (seen container.now)
        (option_map multicast (multicast_of_body container.now.body.now)) whole) }
    ensures err { OnErr result (Grows out.old.items out.new.items) }
{
    let Ok(flags) = read_mcast(container.body) else {
        return Ok(false);
    };
    multicast_line(out, container, flags)?;
    Ok(true)
}

// Appends the lines of a translation table. Answers whether it is long enough.
fn put_table(out: &mut Vec<u8>, container: &Container<'_>) -> Result<bool, NoMemory>
    ensures ok { IfOk result (λ whole. IsPrinted out.old.items out.new.items (seen container.now)
        (option_map translation (table_of_body container.now.body.now)) whole) }
    ensures err { OnErr result (Grows out.old.items out.new.items) }
{
    let Ok(table) = read_tt(container.body) else {
        return Ok(false);
    };
    table_start(out, container, &table)?;
    put_vlans(out, &table)?;
    put_changes(out, &table)?;
    Ok(true)
}

// Appends the lines of a part of a translation table. Answers whether it is long enough.
fn put_part(out: &mut Vec<u8>, container: &Container<'_>) -> Result<bool, NoMemory>
    ensures ok { IfOk result (λ whole. IsPrinted out.old.items out.new.items (seen container.now)
        (option_map part (part_of_body container.now.body.now)) whole) }
    ensures err { OnErr result (Grows out.old.items out.new.items) }
{
    let Ok((table, number, count)) = read_tt_part(container.body) else {
        return Ok(false);
    };
    part_start(out, container, &table, number, count)?;
    put_vlans(out, &table)?;
    put_changes(out, &table)?;
    Ok(true)
}

/// Appends the lines of a container, of which there are none where it is too short for its type.
/// Answers whether it is long enough.
pub fn put_container(out: &mut Vec<u8>, container: &Container<'_>) -> Result<bool, NoMemory>
    ensures ok { IfOk result (λ whole. IsPrinted out.old.items out.new.items (seen container.now)
        (content_of (seen container.now)) whole) }
    ensures err { OnErr result (Grows out.old.items out.new.items) }
{
    match (container.kind, container.version) {
        (GATEWAY, VERSION) => put_gateway(out, container),
        (TT, VERSION) => put_table(out, container),
        (TT, TT_PART_VERSION) => put_part(out, container),
        (ROAMING, VERSION) => put_roaming(out, container),
        (MULTICAST, MULTICAST_VERSION) => put_multicast(out, container),
        _ => put_plain(out, container),
    }
}
