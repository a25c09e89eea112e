//! The local table of a node.

ghost use Rattle.std.specs.Prelude.{◌≡◌, ◌++◌, OnOk, OnErr};
ghost use Rattle.mesh_model.specs.Text.Tables.{local_header, local_line};

use crate::part::Part::{Address, Age, Marks, Number, Text, Vlan};
use crate::whole_line::put_line;
use mesh_base::{Mac, Millis, NoMemory, Vid};

/// Appends the first line of a local table: the node's name, the byte of its last commit, and how
/// many clients follow.
#[tactic(auto, unfolding(mesh_model::specs::Text::Tables::local_header))]
pub fn local_header(
    out: &mut Vec<u8>,
    name: &[u8],
    version: u8,
    clients: usize,
) -> Result<(), NoMemory>
    ensures ok { OnOk result (out.new.items
        ≡ out.old.items ++ local_header name.now version clients) }
    ensures err { OnErr result (out.new.items ≡ out.old.items) }
{
    put_line(
        out,
        &[
            Text(b"tl "),
            Text(name),
            Number(b" version=", u64::from(version)),
            Number(b" clients=", clients as u64),
        ],
    )
}

/// Appends the line of a present client of a local table: its address and VLAN, its flags, and its
/// age, which a joined group doesn't have.
#[tactic(auto, unfolding(mesh_model::specs::Text::Tables::local_line))]
pub fn local_line(
    out: &mut Vec<u8>,
    mac: Mac,
    vid: Vid,
    flags: u8,
    age: Option<Millis>,
) -> Result<(), NoMemory>
    ensures ok { OnOk result (out.new.items ≡ out.old.items ++ local_line (record {
      entry = record { key = record { mac = mac; vid = vid }; flags = flags };
      age = age;
    })) }
    ensures err { OnErr result (out.new.items ≡ out.old.items) }
{
    put_line(
        out,
        &[
            Address(b"c ", mac),
            Text(b" "),
            Vlan(vid),
            Text(b" "),
            Marks(flags),
            Text(b" age="),
            Age(age),
        ],
    )
}
