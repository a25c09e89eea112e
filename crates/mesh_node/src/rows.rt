//! The rows of ticks and packets, one function each.

ghost use Rattle.std.specs.Prelude.{ℕ, OnOk};
ghost use Rattle.mesh_codec.specs.Frames.{seen};
ghost use Rattle.mesh_model.specs.Acts.Rows.{Own, packet_acts, packets_acts};
ghost use Rattle.mesh_model.specs.Knowledge.Known.{Knowledge};
ghost use Rattle.mesh_model.specs.Knowledge.Steps.{after_packet, after_packets};
ghost use Rattle.mesh_model.specs.Packets.Layout.{HasSpelling};
ghost use Rattle.mesh_model.specs.Packets.LinkFrame.{link_frame};
ghost use Rattle.mesh_node.specs.Past.{IsPast};
ghost use Rattle.node_ground.specs.KnowledgeStands.{KnowledgeStands, coming};
ghost use Rattle.node_ground.specs.OwnStands.{OwnStands};
ghost use Rattle.node_ground.specs.Puts.{Puts};
ghost use Rattle.node_lans.specs.BridgeStands.{BridgeStands};

use crate::carrying::{broadcast_came, unicast_came};
use crate::fragments::{Fragment, fragment_came};
use mesh_algo::Algo;
use mesh_base::Mac;
use mesh_codec::{Head, LinkFrame, Packet};
use node_arp::Unicast4;
use node_arp::passing::packet_with_sender;
use node_clients::carried::passed;
use node_ground::{Coming, NodeErr, NodeKnowledge, Place, Port};
use node_lans::Bridge;
use node_probes::echoes::icmp;
use node_probes::icmp_message::IcmpMessage;
use node_tables::containers::containers_here;
use node_tables::elps::elp;
use node_tables::ogms::ogm;
use node_tables::on_the_way::containers_past;
use tt_local::Locals;

/// A packet of a link frame.
// In line in the loop over packets, the addresses that its arms use would be computed for each
// frame, whatever its packets are.
#[inline(never)]
#[tactic(auto, unfolding(mesh_model::specs::Acts::Rows::packet_acts))]
fn packet<A: Algo, P: Port>(
    kept: &mut NodeKnowledge<A>,
    port: &mut P,
    locals: &Locals,
    bridge: &Bridge,
    me: Mac,
    came: Coming,
    packet: &Packet<'_>,
) -> Result<(), NodeErr>
    requires stands { (known : Knowledge) × KnowledgeStands A.stands kept.old me known }
    requires owns { (own : Own) × OwnStands locals.now own came.now }
    requires written { HasSpelling packet.now.head packet.now.tail.now }
    ensures puts { (known : Knowledge) (own : Own) (number : ℕ) →
        KnowledgeStands A.stands kept.old me known → IsPast known came.now →
        OwnStands locals.now own came.now → BridgeStands bridge.now me own.bridge →
        Puts P.takes P.same P.over port.old
        (packet_acts (A.queries me) me own (coming came number) known (seen packet.now))
        result port.new }
    ensures noted { (known : Knowledge) (number : ℕ) →
        KnowledgeStands A.stands kept.old me known → IsPast known came.now →
        OnOk result (KnowledgeStands A.stands kept.new me
        (after_packet (A.queries me) me (coming came number) known (seen packet.now))) }
{
    let at = Place { me, now: came.now };
    let tail = packet.tail;
    match packet.head {
        Head::IvOgm { orig, .. } | Head::Ogm2 { orig, .. } => {
            ogm(kept, port, me, came, orig, packet)?;
        }
        Head::Bcast { ttl, seq, orig } => {
            broadcast_came(kept, port, bridge, at, ttl, seq, orig, tail)?;
        }
        Head::Unicast { ttl, dst, .. } if dst == me => {
            unicast_came(kept, port, locals, bridge, at, ttl, tail)?;
        }
        Head::Unicast { ttl, ttvn, dst } => passed(kept, port, at, ttl, ttvn, dst, tail)?,
        Head::Icmp {
            ttl,
            msg: kind,
            dst,
            orig,
            uid,
            seq,
        } => {
            let message = IcmpMessage {
                ttl,
                kind,
                dst,
                orig,
                uid,
                seq,
            };
            icmp(kept, port, at, message)?;
        }
        Head::Utvlv { dst, src, .. } if dst == me => {
            containers_here(kept, port, locals, bridge, at, src, tail)?;
        }
        Head::Utvlv { ttl, dst, src } => containers_past(kept, port, at, ttl, dst, src, tail)?,
        Head::Elp { .. } => elp(kept, came, &packet.head)?,
        Head::Unicast4 {
            ttl,
            ttvn,
            dst,
            src,
            subtype,
        } => {
            let head = Unicast4 {
                ttl,
                ttvn,
                dst,
                src,
                subtype,
            };
            packet_with_sender(kept, port, at, head, tail)?;
        }
        Head::Frag {
            ttl,
            number,
            priority,
            dst,
            orig,
            seq,
            total,
        } => {
            let fragment = Fragment {
                ttl,
                number,
                priority,
                dst,
                orig,
                seq,
                total,
            };
            fragment_came(kept, port, locals, bridge, at, fragment, tail)?;
        }
    }
    Ok(())
}

/// A link frame.
pub(crate) fn link<A: Algo, P: Port>(
    kept: &mut NodeKnowledge<A>,
    port: &mut P,
    locals: &Locals,
    bridge: &Bridge,
    me: Mac,
    came: Coming,
    bytes: &[u8],
) -> Result<(), NodeErr>
    requires stands { (known : Knowledge) × KnowledgeStands A.stands kept.old me known
        × IsPast known came.now }
    requires owns { (own : Own) × OwnStands locals.now own came.now }
    ensures puts { (known : Knowledge) (own : Own) (number : ℕ) →
        KnowledgeStands A.stands kept.old me known → IsPast known came.now →
        OwnStands locals.now own came.now → BridgeStands bridge.now me own.bridge →
        Puts P.takes P.same P.over port.old
        (packets_acts (A.queries me) me own (coming came number) known
        (link_frame bytes.now).packets) result port.new }
    ensures noted { (known : Knowledge) (number : ℕ) →
        KnowledgeStands A.stands kept.old me known → IsPast known came.now →
        OnOk result (KnowledgeStands A.stands kept.new me
        (after_packets (A.queries me) me (coming came number) known
        (link_frame bytes.now).packets)) }
{
    let mut frame = LinkFrame::new(bytes);
    while let Ok(next) = frame.next() {
        packet(kept, port, locals, bridge, me, came, &next)?;
    }
    Ok(())
}
