//! What a node knows of the others' clients.

ghost use Rattle.std.specs.Prelude.{◌≡◌, ◌++◌, OnOk, OnErr};
ghost use Rattle.mesh_model.specs.Text.GlobalTables.{entry_line, global_header, global_line, mark_line, state_word};

use crate::part::Part::{Address, Byte, Marks, Number, Text, Vlan};
use crate::whole_line::put_line;
use mesh_base::{Mac, NoMemory, Vid};

// The word of what is held, by whether it agrees with what was told.
fn state_word(held: Option<u8>, ok: bool) -> &'static [u8]
    ensures { result.now ≡ state_word held ok }
{
    match held {
        None => b"none",
        Some(_) if ok => b"ok",
        Some(_) => b"old",
    }
}

/// Appends the first line of a table of what is known of the others' clients: the node's name, and
/// how many originators follow.
#[tactic(auto, unfolding(mesh_model::specs::Text::GlobalTables::global_header))]
pub fn global_header(out: &mut Vec<u8>, name: &[u8], count: usize) -> Result<(), NoMemory>
    ensures ok { OnOk result (out.new.items ≡ out.old.items ++ global_header name.now count) }
    ensures err { OnErr result (out.new.items ≡ out.old.items) }
{
    put_line(
        out,
        &[Text(b"tg "), Text(name), Number(b" count=", count as u64)],
    )
}

/// Appends the line of an originator that announced its clients: its address, the byte under which
/// a table is held, if one is, the byte that was told last, whether they agree, and how many
/// entries are held.
#[tactic(auto, unfolding(mesh_model::specs::Text::GlobalTables::global_line))]
pub fn global_line(
    out: &mut Vec<u8>,
    orig: Mac,
    held: Option<u8>,
    told: u8,
    ok: bool,
    entries: usize,
) -> Result<(), NoMemory>
    ensures ok { OnOk result (out.new.items ≡ out.old.items ++ global_line (record {
      orig = orig;
      held = held;
      told = told;
      ok = ok;
    }) entries) }
    ensures err { OnErr result (out.new.items ≡ out.old.items) }
{
    put_line(
        out,
        &[
            Address(b"t ", orig),
            Text(b" held="),
            Byte(held),
            Number(b" told=", u64::from(told)),
            Text(b" state="),
            Text(state_word(held, ok)),
            Number(b" entries=", entries as u64),
        ],
    )
}

/// Appends the line of an entry that is held: its address and VLAN, and its flags.
#[tactic(auto, unfolding(mesh_model::specs::Text::GlobalTables::entry_line))]
pub fn entry_line(out: &mut Vec<u8>, mac: Mac, vid: Vid, flags: u8) -> Result<(), NoMemory>
    ensures ok { OnOk result (out.new.items ≡ out.old.items ++ entry_line (record {
      key = record { mac = mac; vid = vid };
      flags = flags;
    })) }
    ensures err { OnErr result (out.new.items ≡ out.old.items) }
{
    put_line(
        out,
        &[
            Address(b"e ", mac),
            Text(b" "),
            Vlan(vid),
            Text(b" "),
            Marks(flags),
        ],
    )
}

/// Appends the line of a mark that stands: the address and VLAN of the client, and the originator
/// that its frames are sent to.
#[tactic(auto, unfolding(mesh_model::specs::Text::GlobalTables::mark_line))]
pub fn mark_line(out: &mut Vec<u8>, mac: Mac, vid: Vid, to: Mac) -> Result<(), NoMemory>
    ensures ok { OnOk result (out.new.items
        ≡ out.old.items ++ mark_line (record { mac = mac; vid = vid }, to)) }
    ensures err { OnErr result (out.new.items ≡ out.old.items) }
{
    put_line(
        out,
        &[
            Address(b"r ", mac),
            Text(b" "),
            Vlan(vid),
            Address(b" to=", to),
        ],
    )
}
