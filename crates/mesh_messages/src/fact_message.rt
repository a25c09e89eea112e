//! The messages of the fact store between nodes: those of batmesh's own profile of alfred.

ghost use Rattle.std.specs.Prelude.{◌≡◌, option_map};
ghost use Rattle.mesh_model.specs.Packets.FactMessages.{end_of, fact_message_of, has_fitting_length, message_in_frame, message_of_kind, part_of, request_of};
ghost use Rattle.mesh_codec.specs.Payloads.{seen_ether};
ghost use Rattle.mesh_messages.specs.Messages.{seen_came, seen_message};

use crate::facts::Facts;
use byteorder::{BigEndian, ByteOrder};
use mesh_base::{Mac, Vid};
use mesh_codec::{EtherFrame, read_ether_frame};

/// The type of an Ethernet frame that carries a message.
pub(crate) const ALFRED_ETHERTYPE: u16 = 0x4242;
/// The version byte of a message.
pub(crate) const VERSION: u8 = 0;
/// The bytes of a message before its rest: kind 1, version 1, length 2.
pub(crate) const MESSAGE_HEAD: usize = 4;
/// The most bytes of a message's rest.
pub(crate) const LONGEST_REST: usize = 1_400;

/// The kind of a part of a transaction that is pushed.
pub(crate) const PUSH_PART: u8 = 0;
/// The kind of a primary's announcement.
pub(crate) const PRIMARY: u8 = 1;
/// The kind of a request.
pub(crate) const REQUEST: u8 = 2;
/// The kind of the end of a transaction that is pushed.
pub(crate) const PUSH_END: u8 = 3;
/// The kind of a part of a transaction that answers a request.
pub(crate) const ANSWER_PART: u8 = 4;
/// The kind of the end of a transaction that answers a request.
pub(crate) const ANSWER_END: u8 = 5;

/// The bytes of a part before its facts: id 2, number 2.
pub(crate) const PART_HEAD: usize = 4;

const LENGTH_OFFSET: usize = 2;

const NUMBER_OFFSET: usize = 2;

const TYPE_OFFSET: usize = 2;
/// The bytes of a request's rest: id 2, type 1.
pub(crate) const REQUEST_SIZE: usize = 3;
/// The bytes of an end's rest: id 2, count 2.
pub(crate) const END_SIZE: usize = 4;

/// A message where it lies. `push` tells a transaction that is pushed from one that answers a
/// request.
#[derive(Debug, Drop)]
pub enum FactMessage<'a> {
    /// Facts of the transaction of an id, the part of this number, from 0.
    Part {
        push: bool,
        id: u16,
        number: u16,
        facts: Facts<'a>,
    },
    /// The sender is a primary.
    Primary,
    /// The sender asks for the facts of a type.
    Request {
        id: u16,
        type_no: u8,
    },
    /// The end of the transaction of an id, with how many parts it has.
    End {
        push: bool,
        id: u16,
        count: u16,
    },
}

/// A message with its sender.
#[derive(Debug, Drop)]
pub struct CameFact<'a> {
    pub sender: Mac,
    pub message: FactMessage<'a>,
}

// The part that a rest is.
fn part(push: bool, rest: &[u8]) -> Option<FactMessage<'_>>
    ensures { option_map seen_message result ≡ part_of push rest.now }
{
    if rest.len() < PART_HEAD {
        return None;
    }
    let facts = Facts::read(&rest[PART_HEAD..])?;
    Some(FactMessage::Part {
        push,
        id: BigEndian::read_u16(rest),
        number: BigEndian::read_u16(&rest[NUMBER_OFFSET..]),
        facts,
    })
}

// The end that a rest is.
fn end(push: bool, rest: &[u8]) -> Option<FactMessage<'_>>
    ensures { option_map seen_message result ≡ end_of push rest.now }
{
    if rest.len() != END_SIZE {
        return None;
    }
    Some(FactMessage::End {
        push,
        id: BigEndian::read_u16(rest),
        count: BigEndian::read_u16(&rest[NUMBER_OFFSET..]),
    })
}

// The request that a rest is.
fn request(rest: &[u8]) -> Option<FactMessage<'_>>
    ensures { option_map seen_message result ≡ request_of rest.now }
{
    if rest.len() != REQUEST_SIZE {
        return None;
    }
    Some(FactMessage::Request {
        id: BigEndian::read_u16(rest),
        type_no: rest[TYPE_OFFSET],
    })
}

// The message of a kind whose rest this is.
fn message_of_kind(kind: u8, rest: &[u8]) -> Option<FactMessage<'_>>
    ensures { option_map seen_message result ≡ message_of_kind kind rest.now }
{
    match kind {
        PUSH_PART => part(true, rest),
        PRIMARY if rest.is_empty() => Some(FactMessage::Primary),
        REQUEST => request(rest),
        PUSH_END => end(true, rest),
        ANSWER_PART => part(false, rest),
        ANSWER_END => end(false, rest),
        _ => None,
    }
}

// Whether bytes are a message whose length fits.
fn has_fitting_length(bytes: &[u8]) -> bool
    ensures { result ≡ has_fitting_length bytes.now }
{
    if bytes.len() < MESSAGE_HEAD || bytes[1] != VERSION {
        return false;
    }
    let told = usize::from(BigEndian::read_u16(&bytes[LENGTH_OFFSET..]));
    told <= LONGEST_REST && bytes.len() == MESSAGE_HEAD + told
}

// The message of a frame.
fn message_in(frame: EtherFrame<'_>) -> Option<CameFact<'_>>
    ensures { option_map seen_came result ≡ message_in_frame (seen_ether frame.entry) }
{
    let bytes = frame.rest;
    if frame.vid != Vid::UNTAGGED || !has_fitting_length(bytes) {
        return None;
    }
    let message = message_of_kind(bytes[0], &bytes[MESSAGE_HEAD..])?;
    Some(CameFact {
        sender: frame.src,
        message,
    })
}

/// The message that bytes are, with its sender, where they are one. Takes no memory.
pub fn read_fact_message(bytes: &[u8]) -> Option<CameFact<'_>>
    ensures { option_map seen_came result ≡ fact_message_of bytes.now }
{
    message_in(read_ether_frame(ALFRED_ETHERTYPE, bytes)?)
}
