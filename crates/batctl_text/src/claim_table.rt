//! The claims on a gateway's LAN.

ghost use Rattle.std.specs.Prelude.{◌≡◌, ◌++◌, OnOk, OnErr};
ghost use Rattle.std.specs.Option.{option_copied};
ghost use Rattle.mesh_model.specs.Text.Claims.{claim_header, claim_line, name_or_dash};
ghost use Rattle.batctl_text.specs.Inner.Parts.{part_text};

use crate::part::Part::{self, Address, Number, Text, Vlan};
use crate::whole_line::put_line;
use mesh_base::{Key, Mac, Millis, NoMemory};

// A name, or `-` for none.
fn name_or_dash(name: Option<&[u8]>) -> Part<'_>
    ensures { part_text result ≡ name_or_dash (option_copied name.entry) }
{
    match name {
        None => Text(b"-"),
        Some(name) => Text(name),
    }
}

/// Appends the first line of a table of claims: the node's name, that of its LAN where it is a
/// gateway, and how many claims follow.
#[tactic(auto, unfolding(mesh_model::specs::Text::Claims::claim_header))]
pub fn claim_header<'a>(
    out: &mut Vec<u8>,
    name: &'a [u8],
    lan: Option<&'a [u8]>,
    count: usize,
) -> Result<(), NoMemory>
    ensures ok { OnOk result (out.new.items ≡ out.old.items
        ++ claim_header name.now (option_copied lan.entry) count) }
    ensures err { OnErr result (out.new.items ≡ out.old.items) }
{
    put_line(
        out,
        &[
            Text(b"cl "),
            Text(name),
            Text(b" lan="),
            name_or_dash(lan),
            Number(b" count=", count as u64),
        ],
    )
}

/// Appends the line of a claim that stands: the address and VLAN of the client, the holder, and the
/// claim's age.
#[tactic(auto, unfolding(mesh_model::specs::Text::Claims::claim_line))]
pub fn claim_line(out: &mut Vec<u8>, key: Key, holder: Mac, age: Millis) -> Result<(), NoMemory>
    ensures ok { OnOk result (out.new.items
        ≡ out.old.items ++ claim_line (record { key = key; holder = holder; age = age })) }
    ensures err { OnErr result (out.new.items ≡ out.old.items) }
{
    put_line(
        out,
        &[
            Address(b"k ", key.mac),
            Text(b" "),
            Vlan(key.vid),
            Address(b" holder=", holder),
            Number(b" age=", age),
        ],
    )
}
