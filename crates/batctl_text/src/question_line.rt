//! The line of what came of a question for an IP address, or of one for facts.

ghost use Rattle.std.specs.Prelude.{◌≡◌, ◌++◌, OnOk, OnErr, flat_map};
ghost use Rattle.mesh_base.specs.declared.event.Event.TheVariants.{Alfred, Arp};
ghost use Rattle.mesh_model.specs.Text.Events.{arp_text, event_line, fact_text};
ghost use Rattle.batctl_text.specs.Inner.Parts.{part_text};

use crate::part::Part::{self, Address, Ip, Number, Text};
use crate::part::{NOTHING, name_part};
use crate::whole_line::put_line;
use mesh_base::{ArpResult, FactResult, Mac, Names, NoMemory};

// What came of a question for an IP address.
fn arp_parts(came: ArpResult) -> [Part<'static>; 2]
    ensures { flat_map part_text result ≡ arp_text came }
{
    match came {
        ArpResult::Off => [Text(b" off"), NOTHING],
        ArpResult::Unknown => [Text(b" none"), NOTHING],
        ArpResult::Cached { mac } => [Address(b" is ", mac), Text(b" cache")],
        ArpResult::Found { mac } => [Address(b" is ", mac), Text(b" dht")],
    }
}

// What came of a question for facts.
fn fact_parts(came: &FactResult) -> [Part<'_>; 4]
    ensures { flat_map part_text result ≡ fact_text came.now }
{
    match came {
        FactResult::Off => [Text(b" off"), NOTHING, NOTHING, NOTHING],
        FactResult::NoPrimary => [Text(b" noprimary"), NOTHING, NOTHING, NOTHING],
        FactResult::Empty => [Text(b" empty"), NOTHING, NOTHING, NOTHING],
        FactResult::Fact {
            source,
            version,
            text,
        } => [
            Address(b" ", *source),
            Number(b" ", u64::from(*version)),
            Text(b" "),
            Text(text.as_slice()),
        ],
    }
}

/// Appends the line of what came of a question at a node for an IP address, as a number.
#[tactic(auto, unfolding(mesh_model::specs::Text::Events::event_line))]
pub fn arp_line(
    out: &mut Vec<u8>,
    names: &Names,
    node: Mac,
    ip: u32,
    came: ArpResult,
) -> Result<(), NoMemory>
    ensures ok { OnOk result (out.new.items
        ≡ out.old.items ++ event_line names.now (Arp node ip came)) }
    ensures err { OnErr result (out.new.items ≡ out.old.items) }
{
    let [is, how] = arp_parts(came);
    put_line(
        out,
        &[
            Text(b"arp "),
            name_part(names, node),
            Text(b" "),
            Ip(ip),
            is,
            how,
        ],
    )
}

/// Appends the line of what came of a question at a node for the facts of a type.
#[tactic(auto, unfolding(mesh_model::specs::Text::Events::event_line))]
pub fn fact_line<'a>(
    out: &mut Vec<u8>,
    names: &'a Names,
    node: Mac,
    type_no: u8,
    came: &'a FactResult,
) -> Result<(), NoMemory>
    ensures ok { OnOk result (out.new.items
        ≡ out.old.items ++ event_line names.now (Alfred node type_no came.now)) }
    ensures err { OnErr result (out.new.items ≡ out.old.items) }
{
    let [word, version, space, text] = fact_parts(came);
    put_line(
        out,
        &[
            Text(b"alfred "),
            name_part(names, node),
            Number(b" get ", u64::from(type_no)),
            word,
            version,
            space,
            text,
        ],
    )
}
