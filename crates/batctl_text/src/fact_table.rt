//! The facts that a node keeps.

ghost use Rattle.std.specs.Prelude.{◌≡◌, ◌++◌, OnOk, OnErr};
ghost use Rattle.mesh_model.specs.Text.Services.{fact_header, fact_line, fact_text, mark_word, store_word};
ghost use Rattle.batctl_text.specs.Inner.Parts.{part_text};

use crate::part::Part;
use crate::part::Part::{Address, Hex, Number, Text};
use crate::whole_line::put_line;
use mesh_base::{Millis, NoMemory};
use mesh_model::{AlfredMode, Fact, KeptFact, Mark};

/// The type of a fact that is a picture.
const PICTURE_TYPE: u8 = 1;

// The word of a node's part in the fact store.
fn store_word(mode: AlfredMode) -> &'static [u8]
    ensures { result.now ≡ store_word mode }
{
    match mode {
        AlfredMode::Off => b"off",
        AlfredMode::Primary => b"primary",
        AlfredMode::Secondary => b"secondary",
    }
}

// The word of a mark.
fn mark_word(mark: Mark) -> &'static [u8]
    ensures { result.now ≡ mark_word mark }
{
    match mark {
        Mark::Local => b"local",
        Mark::First => b"first",
        Mark::Synced => b"synced",
    }
}

/// Appends the first line of facts: the node's name, its part in the fact store, and how many lines
/// follow.
#[tactic(auto, unfolding(mesh_model::specs::Text::Services::fact_header))]
pub fn fact_header(
    out: &mut Vec<u8>,
    name: &[u8],
    mode: AlfredMode,
    count: usize,
) -> Result<(), NoMemory>
    ensures ok { OnOk result (out.new.items ≡ out.old.items ++ fact_header name.now mode count) }
    ensures err { OnErr result (out.new.items ≡ out.old.items) }
{
    put_line(
        out,
        &[
            Text(b"alfred "),
            Text(name),
            Text(b" mode="),
            Text(store_word(mode)),
            Number(b" facts=", count as u64),
        ],
    )
}

// The bytes of a fact as they are printed: those of a picture in hex digits.
fn text_part(fact: &Fact) -> Part<'_>
    ensures { part_text result ≡ fact_text fact.now }
{
    let bytes = fact.bytes.as_slice();
    if fact.type_no == PICTURE_TYPE {
        Hex(bytes)
    } else {
        Text(bytes)
    }
}

/// Appends the line of a fact at a moment: its source, its type and version, how the node came by
/// it, its age and its text, or the bytes of a picture in hex digits.
#[tactic(auto, unfolding(mesh_model::specs::Text::Services::fact_line))]
pub fn fact_line(out: &mut Vec<u8>, now: Millis, kept: &KeptFact) -> Result<(), NoMemory>
    ensures ok { OnOk result (out.new.items ≡ out.old.items ++ fact_line now kept.now) }
    ensures err { OnErr result (out.new.items ≡ out.old.items) }
{
    let fact = &kept.fact;
    put_line(
        out,
        &[
            Address(b"a ", fact.source),
            Number(b" ", u64::from(fact.type_no)),
            Number(b" ", u64::from(fact.version)),
            Text(b" "),
            Text(mark_word(kept.mark)),
            Number(b" age=", now.saturating_sub(kept.moment)),
            Text(b" "),
            text_part(fact),
        ],
    )
}
