ghost use Rattle.std.specs.Prelude.{◌≡◌, ◌≤◌, IfOk, IfErr, OnErr};
ghost use Rattle.mesh_model.specs.Packets.Layout.{HasSpelling};
ghost use Rattle.mesh_model.specs.Packets.Shapes.{Shape, header_size, shape_of};
ghost use Rattle.mesh_model.specs.Packets.LinkFrame.{link_frame, only_ending, put_before, behind, packet_flaw, begin_header, is_followed};
ghost use Rattle.mesh_codec.specs.Frames.{seen, frame_left};
ghost use Rattle.mesh_codec.specs.Inner.Reading.{seen_front};

use crate::first_packet::{Front, Packet, first_packet};
use crate::numbers::{IV_OGM, IV_OGM_SIZE, OGM2, OGM2_SIZE, PREFIX, VERSION};
use mesh_model::{Ending, Head, TvlvErr};
use mesh_tvlv::first_flaw;
use std::marker::Model;

// Why the containers of a packet can't be read to their end.
#[inline(always)]
fn packet_flaw(packet: &Packet<'_>) -> Option<TvlvErr>
    ensures { result ≡ packet_flaw (seen packet.now) }
{
    match packet.head {
        Head::IvOgm { .. } | Head::Ogm2 { .. } | Head::Utvlv { .. } => first_flaw(packet.tail),
        Head::Bcast { .. }
        | Head::Elp { .. }
        | Head::Unicast { .. }
        | Head::Frag { .. }
        | Head::Unicast4 { .. }
        | Head::Icmp { .. } => None,
    }
}

// Whether bytes begin with this type byte and the version, and hold a header of this size.
fn begins_header(kind: u8, size: usize, bytes: &[u8]) -> bool
    requires { PREFIX ≤ size }
    ensures { (shape : Shape) → shape.kind ≡ kind → header_size shape ≡ size →
        result ≡ begin_header shape bytes.now }
{
    bytes.len() >= size && bytes[0] == kind && bytes[1] == VERSION
}

// Whether a head is an originator message, and the bytes after its packet are a further one.
fn is_followed(head: &Head, rest: &[u8]) -> bool
    ensures { result ≡ is_followed (shape_of head.now) rest.now }
{
    match head {
        Head::IvOgm { .. } => begins_header(IV_OGM, IV_OGM_SIZE, rest),
        Head::Ogm2 { .. } => begins_header(OGM2, OGM2_SIZE, rest),
        Head::Bcast { .. }
        | Head::Elp { .. }
        | Head::Unicast { .. }
        | Head::Frag { .. }
        | Head::Unicast4 { .. }
        | Head::Icmp { .. }
        | Head::Utvlv { .. } => false,
    }
}

// What ends the packets behind this one, or none where a further one follows.
#[inline(always)]
fn ending_behind(front: &Front<'_>) -> Option<Ending>
    ensures { frame_left front.now.rest.now result
        ≡ behind link_frame (seen_front front.now) (packet_flaw (seen front.now.packet)) }
{
    if let Some(flaw) = packet_flaw(&front.packet) {
        return Some(Ending::BadContainer(flaw));
    }
    if is_followed(&front.packet.head, front.rest) {
        return None;
    }
    let len = front.rest.len();
    Some(Ending::Rest { len })
}

/// The packets of a link frame, first to last, and what ends them.
///
/// After an originator message the next packet follows while further bytes begin with a header of
/// its kind. Nothing follows a packet whose containers can't be read to their end. Takes no memory.
#[derive(Debug, Drop)]
pub struct LinkFrame<'a> {
    left: &'a [u8],
    ending: Option<Ending>,
}

impl<'a> Model for LinkFrame<'a> {
    ghost use Rattle.mesh_model.specs.Packets.LinkFrame.{LinkFrame};
    ghost use Rattle.mesh_codec.specs.Frames.{frame_left};

    ghost Value = { LinkFrame };

    ghost view = { λ frame. frame_left frame.left.now frame.ending };
}

impl<'a> LinkFrame<'a> {
    /// The link frame that these bytes are.
    pub fn new(bytes: &'a [u8]) -> LinkFrame<'a>
        ensures { result ≡ link_frame bytes.now }
    {
        LinkFrame {
            left: bytes,
            ending: None,
        }
    }

    /// Takes the next packet from the frame, which can be written again. `Err` where there is none,
    /// with what ends them.
    #[inline(always)]
    pub fn next(&mut self) -> Result<Packet<'a>, Ending>
        ensures ok { IfOk result (λ packet. self.old ≡ put_before (seen packet) self.new) }
        ensures written { IfOk result (λ packet. HasSpelling packet.head packet.tail.now) }
        ensures ended { IfErr result (λ ending. self.old ≡ only_ending ending) }
        ensures err { OnErr result (self.new ≡ self.old) }
    {
        if let Some(ending) = self.ending {
            return Err(ending);
        }
        match first_packet(self.left) {
            Ok(front) => {
                self.ending = ending_behind(&front);
                self.left = front.rest;
                Ok(front.packet)
            }
            Err(cause) => Err(Ending::BadPacket(cause)),
        }
    }
}
