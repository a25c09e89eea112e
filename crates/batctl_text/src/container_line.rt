//! The lines of containers.

ghost use Rattle.std.specs.Prelude.{◌≡◌, ◌++◌, OnOk, OnErr};
ghost use Rattle.mesh_model.specs.Text.ContainerLines.{container_start, plain_line, gateway_line, roaming_line, multicast_line, table_start, part_start, change_line};
ghost use Rattle.mesh_model.specs.Text.Tables.{vlan_line};
ghost use Rattle.mesh_tvlv.specs.Walk.{seen};
ghost use Rattle.batctl_text.specs.Inner.Parts.{part_text};

use crate::part::Part::{self, Address, Flags, Number, Sum, Text, Vlan};
use crate::whole_line::put_line;
use mesh_base::{Key, NoMemory, Vid};
use mesh_tvlv::{Container, TtView};

// What a container's line begins with.
fn start(container: &Container<'_>) -> Part<'static>
    ensures { part_text result ≡ container_start (seen container.now) }
{
    Part::Container(container.kind, container.version, container.body.len())
}

/// Appends the line of a container whose body has no fields that are known.
#[tactic(auto, unfolding(mesh_model::specs::Text::ContainerLines::plain_line))]
pub fn plain_line(out: &mut Vec<u8>, container: &Container<'_>) -> Result<(), NoMemory>
    ensures ok { OnOk result (out.new.items ≡ out.old.items ++ plain_line (seen container.now)) }
    ensures err { OnErr result (out.new.items ≡ out.old.items) }
{
    put_line(out, &[start(container)])
}

/// Appends the line of a gateway's container, with its bandwidth down and up in 100 kbit/s.
#[tactic(auto, unfolding(mesh_model::specs::Text::ContainerLines::gateway_line))]
pub fn gateway_line(
    out: &mut Vec<u8>,
    container: &Container<'_>,
    download: u32,
    upload: u32,
) -> Result<(), NoMemory>
    ensures ok { OnOk result (out.new.items ≡ out.old.items
        ++ gateway_line (seen container.now) (record { download = download; upload = upload })) }
    ensures err { OnErr result (out.new.items ≡ out.old.items) }
{
    put_line(
        out,
        &[
            start(container),
            Number(b" down=", u64::from(download)),
            Number(b" up=", u64::from(upload)),
        ],
    )
}

/// Appends the line of a roaming advertisement.
#[tactic(auto, unfolding(mesh_model::specs::Text::ContainerLines::roaming_line))]
pub fn roaming_line(
    out: &mut Vec<u8>,
    container: &Container<'_>,
    client: Key,
) -> Result<(), NoMemory>
    ensures ok { OnOk result (out.new.items
        ≡ out.old.items ++ roaming_line (seen container.now) client) }
    ensures err { OnErr result (out.new.items ≡ out.old.items) }
{
    put_line(
        out,
        &[
            start(container),
            Address(b" mac=", client.mac),
            Text(b" vid="),
            Vlan(client.vid),
        ],
    )
}

/// Appends the line of multicast flags.
#[tactic(auto, unfolding(mesh_model::specs::Text::ContainerLines::multicast_line))]
pub fn multicast_line(
    out: &mut Vec<u8>,
    container: &Container<'_>,
    flags: u8,
) -> Result<(), NoMemory>
    ensures ok { OnOk result (out.new.items
        ≡ out.old.items ++ multicast_line (seen container.now) flags) }
    ensures err { OnErr result (out.new.items ≡ out.old.items) }
{
    put_line(out, &[start(container), Flags(b" flags=", flags)])
}

/// Appends the first line of a translation table.
#[tactic(auto, unfolding(mesh_model::specs::Text::ContainerLines::table_start))]
pub fn table_start(
    out: &mut Vec<u8>,
    container: &Container<'_>,
    table: &TtView<'_>,
) -> Result<(), NoMemory>
    ensures ok { OnOk result (out.new.items
        ≡ out.old.items ++ table_start (seen container.now) table.now) }
    ensures err { OnErr result (out.new.items ≡ out.old.items) }
{
    put_line(
        out,
        &[
            start(container),
            Flags(b" flags=", table.flags()),
            Number(b" ttvn=", u64::from(table.ttvn())),
            Number(b" vlans=", table.vlans() as u64),
            Number(b" changes=", table.changes() as u64),
        ],
    )
}

/// Appends the first line of a part of a translation table, with its number, of so many.
#[tactic(auto, unfolding(mesh_model::specs::Text::ContainerLines::part_start))]
pub fn part_start(
    out: &mut Vec<u8>,
    container: &Container<'_>,
    table: &TtView<'_>,
    number: u16,
    count: u16,
) -> Result<(), NoMemory>
    ensures ok { OnOk result (out.new.items ≡ out.old.items ++ part_start (seen container.now)
        (record { table = table.now; number = number; count = count })) }
    ensures err { OnErr result (out.new.items ≡ out.old.items) }
{
    put_line(
        out,
        &[
            start(container),
            Flags(b" flags=", table.flags()),
            Number(b" ttvn=", u64::from(table.ttvn())),
            Number(b" vlans=", table.vlans() as u64),
            Number(b" part=", u64::from(number)),
            Number(b" of=", u64::from(count)),
            Number(b" changes=", table.changes() as u64),
        ],
    )
}

/// Appends the line of a VLAN with the checksum of its clients.
#[tactic(auto, unfolding(mesh_model::specs::Text::Tables::vlan_line))]
pub fn vlan_line(out: &mut Vec<u8>, vid: Vid, sum: u32) -> Result<(), NoMemory>
    ensures ok { OnOk result (out.new.items
        ≡ out.old.items ++ vlan_line (record { vid = vid; sum = sum })) }
    ensures err { OnErr result (out.new.items ≡ out.old.items) }
{
    put_line(out, &[Text(b"vlan "), Vlan(vid), Text(b" sum="), Sum(sum)])
}

/// Appends the line of a record with these flags, as they stand.
#[tactic(auto, unfolding(mesh_model::specs::Text::ContainerLines::change_line))]
pub fn change_line(out: &mut Vec<u8>, flags: u8, client: Key) -> Result<(), NoMemory>
    ensures ok { OnOk result (out.new.items
        ≡ out.old.items ++ change_line (record { flags = flags; key = client })) }
    ensures err { OnErr result (out.new.items ≡ out.old.items) }
{
    put_line(
        out,
        &[
            Flags(b"change ", flags),
            Address(b" ", client.mac),
            Text(b" "),
            Vlan(client.vid),
        ],
    )
}
