//! The pairs of the distributed ARP table that a node knows.

ghost use Rattle.std.specs.Prelude.{◌≡◌, ◌++◌, OnOk, OnErr};
ghost use Rattle.mesh_model.specs.Text.Services.{address_header, address_line};

use crate::part::Part::{Address, Ip, Number, Text, Vlan};
use crate::whole_line::put_line;
use mesh_base::NoMemory;
use mesh_model::service::ArpRow;

/// Appends the first line of an ARP table: the node's name, and how many lines follow.
#[tactic(auto, unfolding(mesh_model::specs::Text::Services::address_header))]
pub fn address_header(out: &mut Vec<u8>, name: &[u8], count: usize) -> Result<(), NoMemory>
    ensures ok { OnOk result (out.new.items ≡ out.old.items ++ address_header name.now count) }
    ensures err { OnErr result (out.new.items ≡ out.old.items) }
{
    put_line(
        out,
        &[Text(b"dat "), Text(name), Number(b" count=", count as u64)],
    )
}

/// Appends the line of a pair: its IP address and VLAN, the address that it has, and how long ago
/// that was learned, in milliseconds.
#[tactic(auto, unfolding(mesh_model::specs::Text::Services::address_line))]
pub fn address_line(out: &mut Vec<u8>, row: ArpRow) -> Result<(), NoMemory>
    ensures ok { OnOk result (out.new.items ≡ out.old.items ++ address_line row) }
    ensures err { OnErr result (out.new.items ≡ out.old.items) }
{
    put_line(
        out,
        &[
            Text(b"d "),
            Ip(row.ip),
            Text(b" "),
            Vlan(row.vid),
            Address(b" ", row.mac),
            Number(b" age=", row.age),
        ],
    )
}
