//! The rows of packets that carry a client frame: broadcasts, and packets for one node.

ghost use Rattle.std.specs.Prelude.{◌≡◌, OnOk};
ghost use Rattle.mesh_codec.specs.Payloads.{seen_frame};
ghost use Rattle.mesh_model.specs.Acts.Rows.{Own};
ghost use Rattle.mesh_model.specs.Acts.FrameRows.{broadcast_acts, here_acts, passed_frame, readdressed};
ghost use Rattle.mesh_model.specs.Clients.Lans as lans;
ghost use Rattle.mesh_model.specs.Knowledge.Addressee.{addressee};
ghost use Rattle.mesh_model.specs.Knowledge.Known.{Broadcast, Knowledge};
ghost use Rattle.mesh_model.specs.Knowledge.Steps.{after_broadcast};
ghost use Rattle.node_ground.specs.KnowledgeStands.{KnowledgeStands, place};
ghost use Rattle.node_ground.specs.OwnStands.{OwnStands};
ghost use Rattle.node_ground.specs.Puts.{Puts};
ghost use Rattle.node_lans.specs.BridgeStands.{BridgeStands};
ghost use Rattle.node_clients.specs.FrameRows.{key_to};

use crate::keys::key_to;
use mesh_algo::Algo;
use mesh_base::{LossReason, Mac, Reason};
use mesh_codec::{ClientFrame, Head, read_client_frame};
use node_ground::deliveries::{address, is_present, lose, lose_carried, send_broadcast_on};
use node_ground::messages::send;
use node_ground::{NodeErr, NodeKnowledge, Place, Port};
use node_lans::Bridge;
use node_lans::bridge::spread_of_packet;
use node_lans::bridging::{out, out_carried};
use tt_local::Locals;

/// A broadcast.
#[tactic(auto, unfolding(mesh_model::specs::Acts::FrameRows::broadcast_acts))]
pub fn broadcast<A: Algo, P: Port>(
    kept: &mut NodeKnowledge<A>,
    port: &mut P,
    bridge: &Bridge,
    at: Place,
    ttl: u8,
    seq: u32,
    orig: Mac,
    tail: &[u8],
) -> Result<(), NodeErr>
    ensures puts { (known : Knowledge) (gateway : lans.Bridge) →
        KnowledgeStands A.stands kept.old at.me known → BridgeStands bridge.now at.me gateway →
        let broadcast : Broadcast = record { orig = orig; number = seq } in
        Puts P.takes P.same P.over port.old
        (broadcast_acts known gateway (place at) ttl broadcast tail.now) result port.new }
    ensures noted { (known : Knowledge) → KnowledgeStands A.stands kept.old at.me known →
        let broadcast : Broadcast = record { orig = orig; number = seq } in
        OnOk result (KnowledgeStands A.stands kept.new at.me
        (after_broadcast at.me at.now broadcast known)) }
{
    if orig == at.me {
        return Ok(());
    }
    if !kept.broadcasts.take(at.now, orig, seq)? {
        return Ok(());
    }
    out_carried(kept.alloc, port, bridge, at, orig, tail)?;
    send_broadcast_on(port, ttl, seq, orig, tail)?;
    Ok(())
}

// A client frame is addressed anew, while hops are left.
fn readdress<A: Algo, P: Port>(
    kept: &NodeKnowledge<A>,
    port: &mut P,
    at: Place,
    ttl: u8,
    frame: &ClientFrame<'_>,
    tail: &[u8],
) -> Result<(), NodeErr>
    ensures { (known : Knowledge) → KnowledgeStands A.stands kept.now at.me known →
        let frame = seen_frame frame.now in
        Puts P.takes P.same P.over port.old
        (readdressed (A.queries at.me) known (place at) ttl frame tail.now
        (addressee (A.queries at.me) known at.now (key_to frame))) result port.new }
{
    let Some(way) = kept.addressee(at.now, key_to(frame)) else {
        lose(port, at, LossReason::Unknown, frame)?;
        return Ok(());
    };
    if ttl <= 1 {
        lose(port, at, LossReason::Ttl, frame)?;
        return Ok(());
    }
    address(kept, port, at, ttl - 1, &way, tail)?;
    Ok(())
}

/// A packet for this node.
#[tactic(auto, unfolding(mesh_model::specs::Acts::FrameRows::here_acts))]
pub fn here<A: Algo, P: Port>(
    kept: &NodeKnowledge<A>,
    port: &mut P,
    locals: &Locals,
    bridge: &Bridge,
    at: Place,
    ttl: u8,
    tail: &[u8],
) -> Result<(), NodeErr>
    ensures { (known : Knowledge) (own : Own) →
        KnowledgeStands A.stands kept.now at.me known → OwnStands locals.now own at.now →
        BridgeStands bridge.now at.me own.bridge →
        Puts P.takes P.same P.over port.old
        (here_acts (A.queries at.me) known own.mentions own.bridge (place at) ttl tail.now)
        result port.new }
{
    let Some(frame) = read_client_frame(tail) else {
        return Ok(());
    };
    if frame.dst.is_group() || is_present(locals, at.now, key_to(&frame)) {
        let spread = spread_of_packet(&frame);
        out(kept.alloc, port, bridge, at, spread, &frame)?;
        return Ok(());
    }
    readdress(kept, port, at, ttl, &frame, tail)?;
    Ok(())
}

/// A packet for another node.
#[tactic(auto, unfolding(mesh_model::specs::Acts::FrameRows::passed_frame))]
pub fn passed<A: Algo, P: Port>(
    kept: &NodeKnowledge<A>,
    port: &mut P,
    at: Place,
    ttl: u8,
    ttvn: u8,
    dst: Mac,
    tail: &[u8],
) -> Result<(), NodeErr>
    ensures { (known : Knowledge) → KnowledgeStands A.stands kept.now at.me known →
        Puts P.takes P.same P.over port.old
        (passed_frame (A.queries at.me) known (place at) ttl ttvn dst tail.now)
        result port.new }
{
    if ttl <= 1 {
        lose_carried(port, at, LossReason::Ttl, tail)?;
        return Ok(());
    }
    let Some(next) = kept.algo.route(at.now, dst) else {
        lose_carried(port, at, LossReason::NoRoute, tail)?;
        return Ok(());
    };
    let head = Head::Unicast {
        ttl: ttl - 1,
        ttvn,
        dst,
    };
    send(port, Some(next), Some(Reason::Fwd), &head, tail)?;
    Ok(())
}
