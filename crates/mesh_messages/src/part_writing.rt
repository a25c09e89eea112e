//! The messages of the fact store that bring facts.

ghost use Rattle.std.specs.Prelude.{◌≡◌, ◌≤◌, ◌+◌, ◌++◌, length, flat_map, OnOk, OnErr};
ghost use Rattle.std.specs.Vec.{vec_len, vec_capacity};
ghost use Rattle.mesh_model.specs.Packets.FactMessages.{fact_message_spelling, fact_spelling};
ghost use Rattle.mesh_messages.specs.LentFacts.{FitPart, lent_facts};
ghost use Rattle.mesh_model.specs.Services.Parts.{fact_size, part_message, part_room};
ghost use Rattle.mesh_messages.specs.Parts.{seen_part};
ghost use Rattle.mesh_messages.specs.Writing.{HasRoom};

use crate::fact_message::{ANSWER_PART, PART_HEAD, PUSH_PART};
use crate::facts::head_size;
use crate::part::Part;
use crate::small_messages::message_head;
use mesh_base::{Mac, NoMemory};
use mesh_model::Fact;

// Puts bytes at the end of a list that has room for them.
fn put(out: &mut Vec<u8>, bytes: &[u8])
    requires { HasRoom out.old (length bytes.now) }
    ensures items { out.new.items ≡ out.old.items ++ bytes.now }
    ensures len { vec_len out.new ≡ vec_len out.old + length bytes.now }
    ensures room { vec_capacity out.old ≤ vec_capacity out.new }
{
    out.extend_from_slice(bytes).unwrap();
}

// Puts a fact at the end of a list that has room for it.
fn put_fact(out: &mut Vec<u8>, fact: &Fact)
    requires fits { fact_size fact.now ≤ part_room }
    requires room { HasRoom out.old (fact_size fact.now) }
    ensures items { out.new.items ≡ out.old.items ++ fact_spelling fact.now }
    ensures len { vec_len out.new ≡ vec_len out.old + fact_size fact.now }
    ensures room { vec_capacity out.old ≤ vec_capacity out.new }
{
    let [high, low] = (fact.bytes.len() as u16).to_be_bytes();
    put(out, &fact.source.0);
    put(out, &[fact.type_no, fact.version, high, low]);
    put(out, fact.bytes.as_slice());
}

// Puts the facts of a part at the end of a list that has room for them.
fn put_facts(out: &mut Vec<u8>, facts: &[&Fact])
    requires fits { FitPart (lent_facts facts.now) }
    requires room { HasRoom out.old (length (flat_map fact_spelling (lent_facts facts.now))) }
    ensures { out.new.items ≡ out.old.items ++ flat_map fact_spelling (lent_facts facts.now) }
{
    for fact in facts {
        put_fact(out, fact);
    }
}

// How many bytes the facts of a part take.
fn facts_size(facts: &[&Fact]) -> usize
    requires { FitPart (lent_facts facts.now) }
    ensures { result ≡ length (flat_map fact_spelling (lent_facts facts.now)) }
{
    let mut size = 0;
    for fact in facts {
        size += head_size(fact.source) + fact.bytes.len();
    }
    size
}

/// Appends the message that brings a part of the transaction of an id: of one that is pushed, or
/// for `push` false of one that answers a request.
pub fn write_part(
    out: &mut Vec<u8>,
    dst: Mac,
    src: Mac,
    push: bool,
    id: u16,
    part: &Part<'_>,
) -> Result<(), NoMemory>
    ensures ok { OnOk result (out.new.items ≡ out.old.items
        ++ fact_message_spelling dst src (part_message push id (seen_part part.now))) }
    ensures err { OnErr result (out.new.items ≡ out.old.items) }
{
    let kind = if push { PUSH_PART } else { ANSWER_PART };
    let size = PART_HEAD + facts_size(part.facts);
    let head = message_head(dst, src, kind, size);
    out.reserve(head.as_slice().len() + size)?;
    put(out, head.as_slice());
    put(out, &id.to_be_bytes());
    put(out, &part.number.to_be_bytes());
    put_facts(out, part.facts);
    Ok(())
}
