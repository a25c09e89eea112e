//! The gateways that a node knows, and the groups of a node.

ghost use Rattle.std.specs.Prelude.{◌≡◌, ◌++◌, OnOk, OnErr};
ghost use Rattle.mesh_model.specs.Text.Services.{gateway_header, gateway_line, group_header, groups_line, joined_line, mode_word};

use crate::part::Part::{Address, Hex, Hop, Number, Text, Vlan};
use crate::whole_line::put_line;
use mesh_base::{Key, Mac, NoMemory};
use mesh_model::service::{GroupRow, GwMode, GwRow};

// The word of a node's part as a gateway.
fn mode_word(mode: GwMode) -> &'static [u8]
    ensures { result.now ≡ mode_word mode }
{
    match mode {
        GwMode::Off => b"off",
        GwMode::Server => b"server",
        GwMode::Client => b"client",
    }
}

/// Appends the first line of a table of gateways: the node's name, its part as a gateway, and the
/// gateway that it chose, if any.
#[tactic(auto, unfolding(mesh_model::specs::Text::Services::gateway_header))]
pub fn gateway_header(
    out: &mut Vec<u8>,
    name: &[u8],
    mode: GwMode,
    chosen: Option<Mac>,
) -> Result<(), NoMemory>
    ensures ok { OnOk result (out.new.items
        ≡ out.old.items ++ gateway_header name.now mode chosen) }
    ensures err { OnErr result (out.new.items ≡ out.old.items) }
{
    put_line(
        out,
        &[
            Text(b"gw "),
            Text(name),
            Text(b" mode="),
            Text(mode_word(mode)),
            Text(b" chosen="),
            Hop(chosen),
        ],
    )
}

/// Appends the line of a gateway: its address, its throughputs in units of 100 kbit/s, and the
/// metric of the route to it.
#[tactic(auto, unfolding(mesh_model::specs::Text::Services::gateway_line))]
pub fn gateway_line(out: &mut Vec<u8>, row: GwRow) -> Result<(), NoMemory>
    ensures ok { OnOk result (out.new.items ≡ out.old.items ++ gateway_line row) }
    ensures err { OnErr result (out.new.items ≡ out.old.items) }
{
    put_line(
        out,
        &[
            Address(b"g ", row.orig),
            Number(b" down=", u64::from(row.down)),
            Number(b" up=", u64::from(row.up)),
            Number(b" metric=", u64::from(row.metric)),
        ],
    )
}

/// Appends the first line of a table of groups: the node's name, and how many lines follow.
#[tactic(auto, unfolding(mesh_model::specs::Text::Services::group_header))]
pub fn group_header(out: &mut Vec<u8>, name: &[u8], count: usize) -> Result<(), NoMemory>
    ensures ok { OnOk result (out.new.items ≡ out.old.items ++ group_header name.now count) }
    ensures err { OnErr result (out.new.items ≡ out.old.items) }
{
    put_line(
        out,
        &[Text(b"mc "), Text(name), Number(b" count=", count as u64)],
    )
}

/// Appends the line of a group that is joined at the node: its address and VLAN.
#[tactic(auto, unfolding(mesh_model::specs::Text::Services::joined_line))]
pub fn joined_line(out: &mut Vec<u8>, key: Key) -> Result<(), NoMemory>
    ensures ok { OnOk result (out.new.items ≡ out.old.items ++ joined_line key) }
    ensures err { OnErr result (out.new.items ≡ out.old.items) }
{
    put_line(out, &[Address(b"j ", key.mac), Text(b" "), Vlan(key.vid)])
}

/// Appends the line of an originator that tells multicast flags: its address, and these as two hex
/// digits.
#[tactic(auto, unfolding(mesh_model::specs::Text::Services::groups_line))]
pub fn groups_line(out: &mut Vec<u8>, row: GroupRow) -> Result<(), NoMemory>
    ensures ok { OnOk result (out.new.items ≡ out.old.items ++ groups_line row) }
    ensures err { OnErr result (out.new.items ≡ out.old.items) }
{
    put_line(
        out,
        &[
            Address(b"m ", row.orig),
            Text(b" flags="),
            Hex(&[row.flags]),
        ],
    )
}
