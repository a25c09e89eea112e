//! The rows of messages of ping and traceroute: those for this node, and those on their way to
//! another one.

ghost use Rattle.std.specs.Prelude.{◌&&◌, if◌then◌else◌, OnOk};
ghost use Rattle.mesh_model.specs.Acts.ProbeRows.{answered_by, passed_icmp};
ghost use Rattle.mesh_model.specs.Acts.Rows.{icmp_acts};
ghost use Rattle.mesh_model.specs.Knowledge.Known.{Knowledge};
ghost use Rattle.mesh_model.specs.Knowledge.Steps.{after_reply};
ghost use Rattle.mesh_model.specs.Probes.OpenProbes.{is_answer};
ghost use Rattle.mesh_model.specs.Routes.Addresses.{same_mac};
ghost use Rattle.node_probes.specs.Icmp.{icmp_of};
ghost use Rattle.node_ground.specs.KnowledgeStands.{KnowledgeStands, place};
ghost use Rattle.node_ground.specs.Puts.{Puts};

use crate::icmp_message::IcmpMessage;
use crate::probes::answer;
use mesh_algo::Algo;
use mesh_codec::numbers::{DESTINATION_UNREACHABLE, ECHO_REPLY, ECHO_REQUEST, TTL_EXCEEDED};
use node_ground::messages::{send, send_over};
use node_ground::packing::FIRST_TTL;
use node_ground::{NodeErr, NodeKnowledge, Place, Port};

// An echo request is answered by a message of this type; other messages aren't.
fn reply<A: Algo, P: Port>(
    kept: &NodeKnowledge<A>,
    port: &mut P,
    at: Place,
    kind: u8,
    message: IcmpMessage,
) -> Result<(), NodeErr>
    ensures { (known : Knowledge) → KnowledgeStands A.stands kept.now at.me known →
        Puts P.takes P.same P.over port.old
        (answered_by (A.queries at.me) known (place at) kind (icmp_of message))
        result port.new }
{
    if message.kind != ECHO_REQUEST {
        return Ok(());
    }
    let answer = IcmpMessage {
        ttl: FIRST_TTL,
        kind,
        dst: message.orig,
        orig: at.me,
        ..message
    };
    let next = kept.algo.route(at.now, message.orig);
    send_over(port, next, &answer.head(), &[])?;
    Ok(())
}

// A message for another node, which goes on while hops are left and a route leads there.
#[tactic(auto, unfolding(mesh_model::specs::Acts::ProbeRows::passed_icmp))]
fn icmp_past<A: Algo, P: Port>(
    kept: &NodeKnowledge<A>,
    port: &mut P,
    at: Place,
    message: IcmpMessage,
) -> Result<(), NodeErr>
    ensures { (known : Knowledge) → KnowledgeStands A.stands kept.now at.me known →
        Puts P.takes P.same P.over port.old
        (passed_icmp (A.queries at.me) known (place at) (icmp_of message)) result port.new }
{
    if message.ttl <= 1 {
        reply(kept, port, at, TTL_EXCEEDED, message)?;
        return Ok(());
    }
    let Some(next) = kept.algo.route(at.now, message.dst) else {
        reply(kept, port, at, DESTINATION_UNREACHABLE, message)?;
        return Ok(());
    };
    let passed = IcmpMessage {
        ttl: message.ttl - 1,
        ..message
    };
    send(port, Some(next), None, &passed.head(), &[])?;
    Ok(())
}

/// A message of ping or traceroute, for this node or for another one.
#[tactic(auto, unfolding(mesh_model::specs::Acts::ProbeRows::icmp_here))]
pub fn icmp<A: Algo, P: Port>(
    kept: &mut NodeKnowledge<A>,
    port: &mut P,
    at: Place,
    message: IcmpMessage,
) -> Result<(), NodeErr>
    ensures puts { (known : Knowledge) → KnowledgeStands A.stands kept.old at.me known →
        Puts P.takes P.same P.over port.old
        (icmp_acts (A.queries at.me) known (place at) (icmp_of message)) result port.new }
    ensures noted { (known : Knowledge) → KnowledgeStands A.stands kept.old at.me known →
        OnOk result (KnowledgeStands A.stands kept.new at.me
        (if same_mac message.dst at.me && is_answer message.kind
        then after_reply (A.queries at.me) at.now message.kind message.seq known else known)) }
{
    if message.dst != at.me {
        icmp_past(kept, port, at, message)?;
    } else if message.is_answer() {
        answer(kept, port, at, message)?;
    } else {
        reply(kept, port, at, ECHO_REPLY, message)?;
    }
    Ok(())
}
