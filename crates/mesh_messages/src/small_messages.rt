//! The messages of the fact store that have no facts, written without taking memory.

ghost use Rattle.std.specs.Prelude.{◌≡◌, ◌≤◌, ◌+◌, ◌∷◌, ◌++◌, length};
ghost use Rattle.byteorder.specs.Endian.{big_bytes};
ghost use Rattle.mesh_model.specs.Packets.Ethernet.{ether_spelling};
ghost use Rattle.mesh_model.specs.Packets.FactMessages.{fact_message_spelling};
ghost use Rattle.mesh_model.specs.Packets.FactMessages as messages;
ghost use Rattle.mesh_model.specs.Packets.Numbers.{alfred_ethertype};

use crate::fact_message::{
    ALFRED_ETHERTYPE, ANSWER_END, END_SIZE, MESSAGE_HEAD, PRIMARY, PUSH_END, REQUEST, REQUEST_SIZE,
    VERSION,
};
use crate::frame_bytes::{FrameBytes, LONGEST_HEAD};
use mesh_base::{Mac, Vid};

/// The frame of a message up to its rest, of which this is the length.
pub(crate) fn message_head(dst: Mac, src: Mac, kind: u8, rest: usize) -> FrameBytes
    requires { rest ≤ 65535 }
    ensures head { result ≡ ether_spelling alfred_ethertype (record {
      dst = dst;
      src = src;
      vid = Vid.UNTAGGED;
      rest = kind ∷ 0 ∷ big_bytes 2 rest;
    }) }
    ensures len { length result ≤ LONGEST_HEAD + MESSAGE_HEAD }
{
    let [high, low] = (rest as u16).to_be_bytes();
    let mut frame = FrameBytes::head(ALFRED_ETHERTYPE, dst, src, Vid::UNTAGGED);
    frame.put(&[kind, VERSION, high, low]);
    frame
}

/// The announcement of a primary.
pub fn primary_bytes(dst: Mac, src: Mac) -> FrameBytes
    ensures { result ≡ fact_message_spelling dst src messages.Primary }
{
    message_head(dst, src, PRIMARY, 0)
}

/// A request of an id for the facts of a type.
pub fn request_bytes(dst: Mac, src: Mac, id: u16, type_no: u8) -> FrameBytes
    ensures { result ≡ fact_message_spelling dst src (messages.Requests id type_no) }
{
    let [high, low] = id.to_be_bytes();
    let mut frame = message_head(dst, src, REQUEST, REQUEST_SIZE);
    frame.put(&[high, low, type_no]);
    frame
}

/// The end of the transaction of an id, with how many parts it has: of one that is pushed, or for
/// `push` false of one that answers a request.
pub fn end_bytes(dst: Mac, src: Mac, push: bool, id: u16, count: u16) -> FrameBytes
    ensures { result ≡ fact_message_spelling dst src (messages.HasEnd push id count) }
{
    let kind = if push { PUSH_END } else { ANSWER_END };
    let mut frame = message_head(dst, src, kind, END_SIZE);
    frame.put(&id.to_be_bytes());
    frame.put(&count.to_be_bytes());
    frame
}
