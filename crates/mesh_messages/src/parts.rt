//! The parts into which the facts of a transaction go.

ghost use Rattle.std.specs.Prelude.{◌≡◌, ◌≤◌, ◌-◌, nat_le, length, if◌then◌else◌, Some, None};
ghost use Rattle.mesh_messages.specs.LentFacts.{FitPart, lent_facts};
ghost use Rattle.mesh_model.specs.Services.Parts.{fact_size, fitting, most_parts, part_room, parts_of};
ghost use Rattle.mesh_messages.specs.Parts.{seen_part};

use crate::fact_message::{LONGEST_REST, PART_HEAD};
use crate::facts::head_size;
use crate::part::Part;
use mesh_model::Fact;
use std::marker::Model;

/// The most bytes of the facts of a part.
const PART_ROOM: usize = LONGEST_REST - PART_HEAD;
/// The most parts of a transaction.
const MOST_PARTS: u16 = 65_535;

// What is left of so many bytes behind a fact, or `None` where they have no room for it.
fn room_behind(room: usize, fact: &Fact) -> Option<usize>
    ensures { let size = fact_size fact.now in
        result ≡ (if nat_le size room then Some (room - size) else None) }
{
    room.checked_sub(head_size(fact.source))?
        .checked_sub(fact.bytes.len())
}

// How many facts, from the first on, a part has room for.
fn fitting(facts: &[&Fact]) -> usize
    ensures count { result ≡ fitting part_room (lent_facts facts.now) }
    ensures within { result ≤ length facts.now }
{
    let mut room = PART_ROOM;
    for (count, fact) in facts.iter().enumerate() {
        let Some(left) = room_behind(room, fact) else {
            return count;
        };
        room = left;
    }
    facts.len()
}

/// The parts into which the facts of a transaction go, first to last: in their order, each with as
/// many as keep its rest within 1,400 bytes, and at most 65,535 parts. Takes no memory.
#[derive(Debug, Drop)]
pub struct Parts<'a> {
    left: &'a [&'a Fact],
    number: u16,
}

impl<'a> Model for Parts<'a> {
    ghost use Rattle.std.specs.Prelude.{◌-◌, List};
    ghost use Rattle.mesh_model.specs.Services.Transactions.{Part};
    ghost use Rattle.mesh_model.specs.Services.Parts.{most_parts, numbered, fact_pieces};
    ghost use Rattle.mesh_messages.specs.LentFacts.{lent_facts};

    ghost Value = { List Part };

    ghost view = { λ parts. numbered parts.number
        (fact_pieces (most_parts - parts.number) (lent_facts parts.left.now)) };
}

impl<'a> Parts<'a> {
    /// The parts into which these facts go.
    #[tactic(auto, using(crate::proofs::PartLemmas::parts_most))]
    pub fn new(facts: &'a [&'a Fact]) -> Parts<'a>
        ensures parts { result ≡ parts_of (lent_facts facts.now) }
        ensures most { length result ≤ most_parts }
    {
        Parts {
            left: facts,
            number: 0,
        }
    }
}

impl<'a> Iterator for Parts<'a> {
    type Item = Part<'a>;

    ghost use Rattle.std.specs.Iterator.{YieldsFirstBy, item_count};
    ghost use Rattle.mesh_messages.specs.Parts.{seen_part};

    ghost next_gives = { YieldsFirstBy seen_part (λ parts. parts) };

    ghost remaining = { item_count (λ parts. parts) };

    fn next(&mut self) -> Option<Part<'a>> {
        let count = fitting(self.left);
        if count == 0 || self.number == MOST_PARTS {
            return None;
        }
        let facts = self.left;
        let part = Part {
            number: self.number,
            facts: &facts[..count],
        };
        self.left = &facts[count..];
        self.number += 1;
        Some(part)
    }
}

/// How many parts there are into which facts go, as the end of their transaction tells it.
pub fn part_count(facts: &[&Fact]) -> u16
    ensures { result ≡ length (parts_of (lent_facts facts.now)) }
{
    Parts::new(facts).count() as u16
}
