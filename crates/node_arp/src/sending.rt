//! How messages of the distributed ARP table are put, and how what came of a question is printed.

ghost use Rattle.std.specs.Prelude.{◌≡◌, flat_map};
ghost use Rattle.mesh_base.specs.declared.address.Mac.{Mac};
ghost use Rattle.mesh_messages.specs.Arp.{seen_arp};
ghost use Rattle.mesh_model.specs.Acts.ArpRows.{arp_told, table_packet, table_packets};
ghost use Rattle.mesh_model.specs.Knowledge.Known.{Knowledge};
ghost use Rattle.node_ground.specs.KnowledgeStands.{KnowledgeStands, place};
ghost use Rattle.node_ground.specs.Puts.{Puts};

use mesh_algo::Algo;
use mesh_base::{ArpResult, Event, Mac};
use mesh_codec::Head;
use mesh_messages::{ArpMessage, arp_bytes};
use mesh_model::Act;
use node_ground::messages::send_over;
use node_ground::packing::FIRST_TTL;
use node_ground::{NodeErr, NodeKnowledge, Place, Port};

/// What came of a question for an IP address, as a number, is printed.
pub(crate) fn tell<P: Port>(
    port: &mut P,
    at: Place,
    ip: u32,
    news: ArpResult,
) -> Result<(), NodeErr>
    ensures { Puts P.takes P.same P.over port.old (arp_told (place at) ip news) result port.new }
{
    port.put(Act::Print(Event::Arp {
        node: at.me,
        ip,
        result: news,
    }))?;
    Ok(())
}

/// A packet of the table goes to a node, where a route leads there.
pub(crate) fn send_to<A: Algo, P: Port>(
    kept: &NodeKnowledge<A>,
    port: &mut P,
    at: Place,
    subtype: u8,
    dst: Mac,
    payload: &[u8],
) -> Result<(), NodeErr>
    ensures { (known : Knowledge) → KnowledgeStands A.stands kept.now at.me known →
        Puts P.takes P.same P.over port.old
        (table_packet (A.queries at.me) known (place at) subtype dst payload.now)
        result port.new }
{
    let head = Head::Unicast4 {
        ttl: FIRST_TTL,
        ttvn: 0,
        dst,
        src: at.me,
        subtype,
    };
    let next = kept.algo.route(at.now, dst);
    send_over(port, next, &head, payload)?;
    Ok(())
}

// A packet of the table goes to each of some nodes, in their order.
fn send_each<A: Algo, P: Port>(
    kept: &NodeKnowledge<A>,
    port: &mut P,
    at: Place,
    subtype: u8,
    payload: &[u8],
    nodes: &[Mac],
) -> Result<(), NodeErr>
    ensures { (known : Knowledge) → KnowledgeStands A.stands kept.now at.me known →
        Puts P.takes P.same P.over port.old
        (flat_map (λ dst. table_packet (A.queries at.me) known (place at) subtype dst payload.now)
        nodes.now) result port.new }
{
    let Some((first, rest)) = nodes.split_first() else {
        return Ok(());
    };
    send_to(kept, port, at, subtype, *first, payload)?;
    send_each(kept, port, at, subtype, payload, rest)?;
    Ok(())
}

/// A message of a client goes to each of some nodes, in their order.
pub(crate) fn send_message<A: Algo, P: Port>(
    kept: &NodeKnowledge<A>,
    port: &mut P,
    at: Place,
    subtype: u8,
    message: &ArpMessage,
    nodes: &[Mac],
) -> Result<(), NodeErr>
    ensures { (known : Knowledge) → KnowledgeStands A.stands kept.now at.me known →
        Puts P.takes P.same P.over port.old
        (table_packets (A.queries at.me) known (place at) subtype (seen_arp message.now) nodes.now)
        result port.new }
{
    let frame = arp_bytes(Mac::BROADCAST, message.sender, message);
    send_each(kept, port, at, subtype, frame.as_slice(), nodes)?;
    Ok(())
}
