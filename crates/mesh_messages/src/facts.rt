//! The facts of a part where they lie.

ghost use Rattle.std.specs.Prelude.{◌≡◌, ◌≢◌, ◌+◌, [], IfNone, IfOk, IfSome, length, is_some};
ghost use Rattle.mesh_model.specs.Packets.FactMessages.{fact_before, facts_of};
ghost use Rattle.mesh_messages.specs.Facts.{IsFront, seen_fact};

use crate::address::{ADDRESS, address_at};
use byteorder::{BigEndian, ByteOrder};
use mesh_base::{Bytes, Mac, NoMemory};
use mesh_model::Fact;
use std::alloc::Global;
use std::marker::Model;

const VERSION_OFFSET: usize = ADDRESS + 1;

const LENGTH_OFFSET: usize = ADDRESS + 2;
/// The bytes of a fact before its own: source 6, type 1, version 1, length 2.
const FACT_HEAD: usize = LENGTH_OFFSET + 2;

/// How many bytes a fact of this source takes before its own.
pub(crate) fn head_size(source: Mac) -> usize
    ensures { result ≡ length source.0 + 4 }
{
    FACT_HEAD
}

/// A fact where it lies.
#[derive(Clone, Copy, Debug, PartialEq, Eq)]
pub struct FactRef<'a> {
    pub source: Mac,
    pub type_no: u8,
    pub version: u8,
    pub bytes: &'a [u8],
}

impl<'a> FactRef<'a> {
    /// The fact in memory of its own.
    pub fn to_fact(self, alloc: Global) -> Result<Fact, NoMemory>
        ensures { IfOk result (λ fact. fact ≡ seen_fact self.entry) }
    {
        let bytes = Bytes::from_slice(alloc, self.bytes)?;
        Ok(Fact {
            source: self.source,
            type_no: self.type_no,
            version: self.version,
            bytes,
        })
    }
}

// A fact at the front of bytes, and the bytes behind it.
#[derive(Drop)]
struct Front<'a> {
    fact: FactRef<'a>,
    rest: &'a [u8],
}

// The fact that bytes begin with, or `None` where they begin with no whole one.
fn front_fact(bytes: &[u8]) -> Option<Front<'_>>
    ensures some { IfSome result (λ front.
        IsFront bytes.now (seen_fact front.fact) front.rest.now) }
    ensures none { IfNone result (bytes.now ≢ [] → facts_of bytes.now ≡ None) }
{
    if bytes.len() < FACT_HEAD {
        return None;
    }
    let end = FACT_HEAD + usize::from(BigEndian::read_u16(&bytes[LENGTH_OFFSET..]));
    if bytes.len() < end {
        return None;
    }
    let fact = FactRef {
        source: address_at(bytes, 0),
        type_no: bytes[ADDRESS],
        version: bytes[VERSION_OFFSET],
        bytes: &bytes[FACT_HEAD..end],
    };
    Some(Front {
        fact,
        rest: &bytes[end..],
    })
}

// Whether bytes are facts to their last byte.
fn are_facts(bytes: &[u8]) -> bool
    ensures { result ≡ is_some (facts_of bytes.now) }
{
    let mut left = bytes;
    while !left.is_empty() {
        let Some(front) = front_fact(left) else {
            return false;
        };
        left = front.rest;
    }
    true
}

/// The facts of a part where they lie, first to last.
#[derive(Debug, Drop)]
pub struct Facts<'a> {
    left: &'a [u8],
}

impl<'a> Model for Facts<'a> {
    ghost use Rattle.std.specs.Prelude.{List, IsTrue, is_some};
    ghost use Rattle.mesh_model.specs.declared.service.Fact.{Fact};
    ghost use Rattle.mesh_model.specs.Packets.FactMessages.{facts_of};
    ghost use Rattle.mesh_messages.specs.Facts.{facts_read};

    ghost Value = { List Fact };

    ghost view = { λ facts. facts_read facts.left.now };

    ghost invariant = { λ facts. IsTrue (is_some (facts_of facts.left.now)) };
}

impl<'a> Facts<'a> {
    /// The facts that bytes are, or `None` where they aren't facts to their last byte.
    pub(crate) fn read(bytes: &'a [u8]) -> Option<Facts<'a>>
        ensures { result ≡ facts_of bytes.now }
    {
        if !are_facts(bytes) {
            return None;
        }
        Some(Facts { left: bytes })
    }
}

impl<'a> Iterator for Facts<'a> {
    type Item = FactRef<'a>;

    ghost use Rattle.std.specs.Iterator.{YieldsFirstBy, item_count};
    ghost use Rattle.mesh_messages.specs.Facts.{seen_fact};

    ghost next_gives = { YieldsFirstBy seen_fact (λ facts. facts) };

    ghost remaining = { item_count (λ facts. facts) };

    fn next(&mut self) -> Option<FactRef<'a>> {
        let front = front_fact(self.left)?;
        self.left = front.rest;
        Some(front.fact)
    }
}
