//! Client frames at a node: what is handed out, what is lost, and what goes on its way.

ghost use Rattle.std.specs.Prelude.{◌≡◌, ◌∷◌, [], IfOk};
ghost use Rattle.mesh_base.specs.declared.address.Mac.{Mac};
ghost use Rattle.mesh_codec.specs.Payloads.{seen_frame};
ghost use Rattle.mesh_model.specs.Acts.Rows.{Own};
ghost use Rattle.mesh_model.specs.Acts.BridgeRows.{handed_out};
ghost use Rattle.mesh_model.specs.Acts.FrameRows.{broadcast_on, is_present, lost, lost_if};
ghost use Rattle.mesh_model.specs.Acts.GroupRows.{addressed};
ghost use Rattle.mesh_model.specs.Knowledge.Known.{Broadcast, Knowledge};
ghost use Rattle.mesh_model.specs.Packets.Payload.{client_frame_of, payload_spelling};
ghost use Rattle.node_ground.specs.KnowledgeStands.{KnowledgeStands, place};
ghost use Rattle.node_ground.specs.OwnStands.{OwnStands};
ghost use Rattle.node_ground.specs.Puts.{Puts};
ghost use Rattle.node_ground.specs.Ways.{way};

use crate::addressee::Way;
use crate::failure::NodeErr;
use crate::knowledge::NodeKnowledge;
use crate::messages::send;
use crate::place::Place;
use crate::port::Port;
use mesh_algo::Algo;
use mesh_base::{Bytes, Event, Key, LossReason, Mac, Millis, NoMemory};
use mesh_codec::{ClientFrame, Head, read_client_frame, write_client_frame};
use mesh_model::Act;
use std::alloc::Global;
use tt_local::Locals;

/// How a client frame is carried.
pub fn payload(alloc: Global, frame: &ClientFrame<'_>) -> Result<Vec<u8>, NoMemory>
    ensures { IfOk result (λ bytes. bytes.items ≡ payload_spelling (seen_frame frame.now)) }
{
    let mut bytes = Vec::new(alloc);
    write_client_frame(&mut bytes, frame)?;
    Ok(bytes)
}

/// Whether a client is present.
pub fn is_present(locals: &Locals, now: Millis, key: Key) -> bool
    ensures { (own : Own) → OwnStands locals.now own now →
        result ≡ is_present own.mentions now key }
{
    locals.present(now, key).is_some()
}

/// A client frame reaches the clients of this node.
pub fn hand_out<P: Port>(
    alloc: Global,
    port: &mut P,
    at: Place,
    frame: &ClientFrame<'_>,
) -> Result<(), NodeErr>
    ensures { Puts P.takes P.same P.over port.old
        (handed_out (place at) (seen_frame frame.now) ∷ []) result port.new }
{
    let text = Bytes::from_slice(alloc, frame.text)?;
    port.put(Act::Print(Event::Received {
        moment: at.now,
        node: at.me,
        vid: frame.vid,
        src: frame.src,
        dst: frame.dst,
        text,
    }))?;
    Ok(())
}

/// A client frame is lost at this node.
pub fn lose<P: Port>(
    port: &mut P,
    at: Place,
    reason: LossReason,
    frame: &ClientFrame<'_>,
) -> Result<(), NodeErr>
    ensures { Puts P.takes P.same P.over port.old
        (lost (place at) reason (seen_frame frame.now) ∷ []) result port.new }
{
    port.put(Act::Print(Event::Lost {
        moment: at.now,
        node: at.me,
        vid: frame.vid,
        src: frame.src,
        dst: frame.dst,
        reason,
    }))?;
    Ok(())
}

/// What is carried is lost at this node, where it is a client frame.
pub fn lose_carried<P: Port>(
    port: &mut P,
    at: Place,
    reason: LossReason,
    tail: &[u8],
) -> Result<(), NodeErr>
    ensures { Puts P.takes P.same P.over port.old
        (lost_if (place at) reason (client_frame_of tail.now)) result port.new }
{
    let Some(frame) = read_client_frame(tail) else {
        return Ok(());
    };
    lose(port, at, reason, &frame)?;
    Ok(())
}

/// A broadcast is sent on, while hops are left.
pub fn send_broadcast_on<P: Port>(
    port: &mut P,
    ttl: u8,
    seq: u32,
    orig: Mac,
    tail: &[u8],
) -> Result<(), NodeErr>
    ensures { let broadcast : Broadcast = record { orig = orig; number = seq } in
        Puts P.takes P.same P.over port.old
        (broadcast_on ttl broadcast tail.now) result port.new }
{
    if ttl <= 1 {
        return Ok(());
    }
    let head = Head::Bcast {
        ttl: ttl - 1,
        seq,
        orig,
    };
    send(port, None, None, &head, tail)?;
    Ok(())
}

/// A client frame goes to the node of a way, with the byte that the node told last.
pub fn address<A: Algo, P: Port>(
    kept: &NodeKnowledge<A>,
    port: &mut P,
    at: Place,
    ttl: u8,
    to: &Way,
    payload: &[u8],
) -> Result<(), NodeErr>
    ensures { (known : Knowledge) → KnowledgeStands A.stands kept.now at.me known →
        Puts P.takes P.same P.over port.old
        (addressed (A.queries at.me) known at.now ttl (way to.now) payload.now ∷ [])
        result port.new }
{
    let head = Head::Unicast {
        ttl,
        ttvn: kept.told_at(at.now, to.orig).unwrap_or(0),
        dst: to.orig,
    };
    let reason = Some(to.reason);
    send(port, Some(to.next), reason, &head, payload)?;
    Ok(())
}
