//! The text of `decode`: the packets of a link frame with their containers, and what ends them.

ghost use Rattle.std.specs.Prelude.{◌≡◌, ◌++◌, OnOk, OnErr, flat_map};
ghost use Rattle.std.specs.List.{concat};
ghost use Rattle.mesh_model.specs.Packets.Shapes.{shape_of};
ghost use Rattle.mesh_model.specs.Packets.Contents.{sound_containers};
ghost use Rattle.mesh_model.specs.Text.ContainerLines.{container_lines};
ghost use Rattle.mesh_model.specs.Text.Decode.{decode_text, packet_lines, tail_lines};
ghost use Rattle.mesh_codec.specs.Frames.{seen};
ghost use Rattle.batctl_text.specs.Inner.Parts.{Grows};

use crate::container::put_container;
use crate::ending::put_ending;
use crate::packet::packet_line;
use mesh_base::NoMemory;
use mesh_codec::{Head, LinkFrame, Packet};
use mesh_tvlv::TvlvIter;

// Appends the lines of containers, up to the first that is cut or too short.
fn put_containers(out: &mut Vec<u8>, tail: &[u8]) -> Result<(), NoMemory>
    ensures ok { OnOk result (out.new.items ≡ out.old.items
        ++ concat (flat_map container_lines (sound_containers tail.now))) }
    ensures err { OnErr result (Grows out.old.items out.new.items) }
{
    let mut walk = TvlvIter::new(tail);
    while let Some(Ok(container)) = walk.next() {
        if !put_container(out, &container)? {
            break;
        }
    }
    Ok(())
}

// Appends the lines of a packet's tail, which are none where it holds no containers.
fn put_tail(out: &mut Vec<u8>, head: &Head, tail: &[u8]) -> Result<(), NoMemory>
    ensures ok { OnOk result (out.new.items ≡ out.old.items
        ++ concat (tail_lines (shape_of head.now).tail tail.now)) }
    ensures err { OnErr result (Grows out.old.items out.new.items) }
{
    match head {
        Head::IvOgm { .. } | Head::Ogm2 { .. } | Head::Utvlv { .. } => put_containers(out, tail),
        Head::Bcast { .. }
        | Head::Elp { .. }
        | Head::Unicast { .. }
        | Head::Frag { .. }
        | Head::Unicast4 { .. }
        | Head::Icmp { .. } => Ok(()),
    }
}

// Appends the lines of a packet.
fn put_packet(out: &mut Vec<u8>, packet: &Packet<'_>) -> Result<(), NoMemory>
    ensures ok { OnOk result (out.new.items
        ≡ out.old.items ++ concat (packet_lines (seen packet.now))) }
    ensures err { OnErr result (Grows out.old.items out.new.items) }
{
    packet_line(out, &packet.head, packet.tail.len())?;
    put_tail(out, &packet.head, packet.tail)?;
    Ok(())
}

// Appends the lines of a link frame. Where memory runs out, some of them may stay.
fn put_frame(out: &mut Vec<u8>, bytes: &[u8]) -> Result<(), NoMemory>
    ensures ok { OnOk result (out.new.items ≡ out.old.items ++ decode_text bytes.now) }
    ensures err { OnErr result (Grows out.old.items out.new.items) }
{
    let mut frame = LinkFrame::new(bytes);
    loop {
        match frame.next() {
            Ok(packet) => put_packet(out, &packet)?,
            Err(ending) => return put_ending(out, ending),
        }
    }
}

/// Appends the text of `decode`, one line for each packet, container, VLAN and record, and for what
/// can't be read.
///
/// `bytes` are a frame as it is sent on a link, of any length. The layouts are those of
/// `batadv_packet.h` at compat version 15 (Linux, Open-Mesh); the text is batmesh's own.
pub fn decode_text(out: &mut Vec<u8>, bytes: &[u8]) -> Result<(), NoMemory>
    ensures ok { OnOk result (out.new.items ≡ out.old.items ++ decode_text bytes.now) }
    ensures err { OnErr result (out.new.items ≡ out.old.items) }
{
    let before = out.len();
    if let Err(NoMemory) = put_frame(out, bytes) {
        out.truncate(before);
        return Err(NoMemory);
    }
    Ok(())
}
