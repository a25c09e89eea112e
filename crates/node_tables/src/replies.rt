//! How answers for tables are put: a packet, or one for each part.

ghost use Rattle.std.specs.Prelude.{◌≡◌, ◌≤◌, length};
ghost use Rattle.mesh_model.specs.declared.packet.Head.TheVariants.{Utvlv};
ghost use Rattle.mesh_model.specs.Acts.Packing.{sent_over};
ghost use Rattle.mesh_model.specs.Packets.Numbers.{first_ttl};
ghost use Rattle.node_ground.specs.Puts.{Puts};
ghost use Rattle.node_ground.specs.Sending.{FitsParts};
ghost use Rattle.node_tables.specs.Replies.{in_parts, numbered_acts, reply_acts};
ghost use Rattle.tt_sync.specs.Answers.{answer_in};

use mesh_base::Mac;
use mesh_codec::Head;
use node_ground::messages::send_over;
use node_ground::packing::{FIRST_TTL, PIECE_SIZE, part_containers, part_count, reply_containers};
use node_ground::{NodeErr, Port};
use std::alloc::Global;
use tt_sync::Reply;

/// From whom and to whom an answer goes, and to which neighbour first, where there is a way.
#[derive(Clone, Copy)]
pub(crate) struct ReplyWay {
    pub(crate) next: Option<Mac>,
    pub(crate) orig: Mac,
    pub(crate) asker: Mac,
}

impl ReplyWay {
    // Puts the containers of one packet.
    fn send<P: Port>(self, port: &mut P, containers: &[u8]) -> Result<(), NodeErr>
        requires { length containers.now ≤ 65535 }
        ensures { Puts P.takes P.same P.over port.old
            (sent_over self.next (Utvlv first_ttl self.asker self.orig) containers.now)
            result port.new }
    {
        let head = Head::Utvlv {
            ttl: FIRST_TTL,
            dst: self.asker,
            src: self.orig,
        };
        send_over(port, self.next, &head, containers)?;
        Ok(())
    }
}

// Puts the parts of an answer from a number on, in order.
fn send_parts<P: Port>(
    alloc: Global,
    port: &mut P,
    way: ReplyWay,
    reply: &Reply,
    number: u16,
) -> Result<(), NodeErr>
    requires { FitsParts (answer_in reply.now) }
    ensures { Puts P.takes P.same P.over port.old
        (numbered_acts way.next way.orig way.asker (answer_in reply.now) number) result port.new }
{
    if number >= part_count(reply) {
        return Ok(());
    }
    let containers = part_containers(alloc, reply, number)?;
    way.send(port, containers.as_slice())?;
    send_parts(alloc, port, way, reply, number + 1)?;
    Ok(())
}

// Whether an answer is a whole table with more entries than go in one packet.
#[tactic(auto, unfolding(mesh_model::specs::Tables::Pieces::piece_size))]
fn goes_in_parts(reply: &Reply) -> bool
    ensures { result ≡ in_parts (answer_in reply.now) }
{
    reply.full && reply.records.len() > PIECE_SIZE
}

/// Puts an answer: in one packet, or in its parts, where it is a whole table with more entries than
/// go in one.
pub(crate) fn send_reply<P: Port>(
    alloc: Global,
    port: &mut P,
    way: ReplyWay,
    reply: &Reply,
) -> Result<(), NodeErr>
    requires { FitsParts (answer_in reply.now) }
    ensures { Puts P.takes P.same P.over port.old
        (reply_acts way.next way.orig way.asker (answer_in reply.now)) result port.new }
{
    if goes_in_parts(reply) {
        send_parts(alloc, port, way, reply, 0)?;
        return Ok(());
    }
    let containers = reply_containers(alloc, reply)?;
    way.send(port, containers.as_slice())?;
    Ok(())
}
