//! The row of client frames for a group.

ghost use Rattle.std.specs.Prelude.{◌≡◌, ◌∷◌, [], if◌then◌else◌, length, OnOk};
ghost use Rattle.mesh_codec.specs.Payloads.{seen_frame};
ghost use Rattle.mesh_model.specs.Acts.BridgeRows.{handed_out};
ghost use Rattle.mesh_model.specs.Acts.GroupRows.{group_acts, receivers_acts};
ghost use Rattle.mesh_model.specs.Knowledge.Known.{Knowledge};
ghost use Rattle.mesh_model.specs.Knowledge.Offers.{receivers};
ghost use Rattle.node_ground.specs.KnowledgeStands.{KnowledgeStands, place};
ghost use Rattle.node_ground.specs.Puts.{Puts};
ghost use Rattle.node_clients.specs.FrameRows.{key_to};
ghost use Rattle.node_clients.specs.GroupRows.{after_fan, each_addressed, one_addressed};

use crate::keys::key_to;
use crate::sending::flood;
use mesh_algo::Algo;
use mesh_base::{Mac, Reason};
use mesh_codec::ClientFrame;
use mesh_serv::{Fan, plan};
use node_ground::deliveries::{address, hand_out, payload};
use node_ground::packing::FIRST_TTL;
use node_ground::{NodeErr, NodeKnowledge, Place, Port};
use std::alloc::Global;

// A client frame for a group goes to a receiver, where a route leads there.
fn send_one<A: Algo, P: Port>(
    kept: &NodeKnowledge<A>,
    port: &mut P,
    at: Place,
    payload: &[u8],
    receiver: Mac,
) -> Result<(), NodeErr>
    ensures { (known : Knowledge) → KnowledgeStands A.stands kept.now at.me known →
        Puts P.takes P.same P.over port.old
        (one_addressed (A.queries at.me) known at.now payload.now receiver) result port.new }
{
    let Some(to) = kept.way_to(at.now, Reason::Mc, receiver) else {
        return Ok(());
    };
    address(kept, port, at, FIRST_TTL, &to, payload)?;
    Ok(())
}

// A client frame for a group goes to each receiver, in their order.
fn send_each<A: Algo, P: Port>(
    kept: &NodeKnowledge<A>,
    port: &mut P,
    at: Place,
    payload: &[u8],
    receivers: &[Mac],
) -> Result<(), NodeErr>
    ensures { (known : Knowledge) → KnowledgeStands A.stands kept.now at.me known →
        Puts P.takes P.same P.over port.old
        (each_addressed (A.queries at.me) known at.now payload.now receivers.now)
        result port.new }
{
    let Some((first, rest)) = receivers.split_first() else {
        return Ok(());
    };
    send_one(kept, port, at, payload, *first)?;
    send_each(kept, port, at, payload, rest)?;
    Ok(())
}

// A client frame for a group goes to its receivers, by how many there are.
fn send_to_receivers<A: Algo, P: Port>(
    kept: &mut NodeKnowledge<A>,
    port: &mut P,
    at: Place,
    frame: &ClientFrame<'_>,
    receivers: &[Mac],
) -> Result<(), NodeErr>
    ensures puts { (known : Knowledge) → KnowledgeStands A.stands kept.old at.me known →
        Puts P.takes P.same P.over port.old
        (receivers_acts (A.queries at.me) known (place at) (seen_frame frame.now) receivers.now)
        result port.new }
    ensures noted { (known : Knowledge) → KnowledgeStands A.stands kept.old at.me known →
        OnOk result (KnowledgeStands A.stands kept.new at.me
        (after_fan (length receivers.now) known)) }
{
    match plan(receivers.len()) {
        Fan::Nobody => {}
        Fan::Each => {
            let payload = payload(kept.alloc, frame)?;
            send_each(kept, port, at, payload.as_slice(), receivers)?;
        }
        Fan::Flood => flood(kept, port, at, frame)?,
    }
    Ok(())
}

// A client frame for a group is handed out where the group is joined at the node.
fn hand_out_if<P: Port>(
    alloc: Global,
    port: &mut P,
    at: Place,
    frame: &ClientFrame<'_>,
    joined: bool,
) -> Result<(), NodeErr>
    ensures { Puts P.takes P.same P.over port.old
        (if joined then handed_out (place at) (seen_frame frame.now) ∷ [] else [])
        result port.new }
{
    if joined {
        hand_out(alloc, port, at, frame)?;
    }
    Ok(())
}

/// A client frame for a group, which may be joined at the node.
#[tactic(auto, using(node_ground::proofs::PutsLemmas::stops_free))]
pub(crate) fn group_frame<A: Algo, P: Port>(
    kept: &mut NodeKnowledge<A>,
    port: &mut P,
    at: Place,
    frame: &ClientFrame<'_>,
    joined: bool,
) -> Result<(), NodeErr>
    ensures puts { (known : Knowledge) → KnowledgeStands A.stands kept.old at.me known →
        Puts P.takes P.same P.over port.old
        (group_acts (A.queries at.me) known (place at) (seen_frame frame.now) joined)
        result port.new }
    ensures noted { (known : Knowledge) → KnowledgeStands A.stands kept.old at.me known →
        let key = key_to (seen_frame frame.now) in
        OnOk result (KnowledgeStands A.stands kept.new at.me
        (after_fan (length (receivers (A.queries at.me) known at.now key)) known)) }
{
    let receivers = kept.receivers(at.now, key_to(frame))?;
    hand_out_if(kept.alloc, port, at, frame, joined)?;
    send_to_receivers(kept, port, at, frame, receivers.as_slice())?;
    Ok(())
}
