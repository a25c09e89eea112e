//! The row of client frames that lines give a node, behind their sighting.

ghost use Rattle.std.specs.Prelude.{◌≡◌, OnOk};
ghost use Rattle.mesh_codec.specs.Payloads.{seen_frame};
ghost use Rattle.mesh_model.specs.Acts.FrameRows.{frame_acts, on_way};
ghost use Rattle.mesh_model.specs.Acts.Rows.{Own};
ghost use Rattle.mesh_model.specs.Acts.Choosing.{whole_acts};
ghost use Rattle.mesh_model.specs.Acts.NodeLimits.{client_limit};
ghost use Rattle.mesh_model.specs.Clients.Log.{Log};
ghost use Rattle.mesh_model.specs.Clients.Mentions.{Sighted, sighted_after};
ghost use Rattle.mesh_model.specs.Knowledge.Addressee.{addressee};
ghost use Rattle.mesh_model.specs.Knowledge.Known.{Knowledge};
ghost use Rattle.mesh_model.specs.Knowledge.Steps.{after_frame, knowledge, next_knowledge};
ghost use Rattle.node_ground.specs.KnowledgeStands.{KnowledgeStands, place};
ghost use Rattle.node_ground.specs.OwnStands.{HasClients, OwnStands, with_input};
ghost use Rattle.node_clients.specs.FrameRows.{Before, given_frame, key_to};
ghost use Rattle.node_ground.specs.Puts.{Leaves, Puts};

use crate::groups::group_frame;
use crate::keys::key_to;
use crate::seeing::sight_client;
use crate::sending::{flood, send_on};
use mesh_algo::Algo;
use mesh_base::LossReason;
use mesh_codec::ClientFrame;
use node_ground::deliveries::{hand_out, is_present, lose};
use node_ground::{NodeErr, NodeKnowledge, Place, Port};
use node_lans::bridging::key_from;
use tt_local::Locals;

// A client frame goes on its way, or is lost where there is none.
fn send_frame<A: Algo, P: Port>(
    kept: &NodeKnowledge<A>,
    port: &mut P,
    at: Place,
    frame: &ClientFrame<'_>,
) -> Result<(), NodeErr>
    ensures { (known : Knowledge) → KnowledgeStands A.stands kept.now at.me known →
        let frame = seen_frame frame.now in
        Puts P.takes P.same P.over port.old
        (on_way (A.queries at.me) known (place at) frame
        (addressee (A.queries at.me) known at.now (key_to frame))) result port.new }
{
    let Some(way) = kept.addressee(at.now, key_to(frame)) else {
        lose(port, at, LossReason::Unknown, frame)?;
        return Ok(());
    };
    send_on(kept, port, at, &way, frame)?;
    Ok(())
}

/// A client frame of this node, by what is known and who is present after its sighting.
#[tactic(auto, unfolding(mesh_model::specs::Acts::FrameRows::frame_acts))]
pub(crate) fn client_frame<A: Algo, P: Port>(
    kept: &mut NodeKnowledge<A>,
    port: &mut P,
    locals: &Locals,
    at: Place,
    frame: &ClientFrame<'_>,
) -> Result<(), NodeErr>
    requires { (known : Knowledge) × KnowledgeStands A.stands kept.old at.me known }
    ensures puts { (known : Knowledge) (own : Own) →
        KnowledgeStands A.stands kept.old at.me known → OwnStands locals.now own at.now →
        Puts P.takes P.same P.over port.old
        (frame_acts (A.queries at.me) known own.mentions (place at) (seen_frame frame.now))
        result port.new }
    ensures noted { (known : Knowledge) → KnowledgeStands A.stands kept.old at.me known →
        let key = key_to (seen_frame frame.now) in
        OnOk result (KnowledgeStands A.stands kept.new at.me
        (after_frame (A.queries at.me) at.now key known)) }
{
    if frame.dst.is_broadcast() {
        flood(kept, port, at, frame)?;
        return Ok(());
    }
    let present = is_present(locals, at.now, key_to(frame));
    if frame.dst.is_group() {
        group_frame(kept, port, at, frame, present)?;
        return Ok(());
    }
    if present {
        hand_out(kept.alloc, port, at, frame)?;
        return Ok(());
    }
    send_frame(kept, port, at, frame)?;
    Ok(())
}

/// A client frame that a line gives this node, with the flags of its sighting.
pub fn frame<A: Algo, P: Port>(
    kept: &mut NodeKnowledge<A>,
    port: &mut P,
    locals: &mut Locals,
    at: Place,
    flags: u8,
    frame: &ClientFrame<'_>,
) -> Result<(), NodeErr>
    requires { (log : Log)
        × Before A.stands A.queries kept.old locals.old at.me log at.now }
    ensures puts { (log : Log) →
        Before A.stands A.queries kept.old locals.old at.me log at.now →
        Sighted flags ≡ sighted_after log →
        let given = given_frame (seen_frame frame.now) in
        Leaves P.takes P.same P.over (client_limit at.me log at.now given) port.old
        (whole_acts (A.queries at.me) at.me log at.now given) result port.new }
    ensures noted { (log : Log) →
        Before A.stands A.queries kept.old locals.old at.me log at.now →
        let given = given_frame (seen_frame frame.now) in
        let before = knowledge (A.queries at.me) at.me log in
        OnOk result (KnowledgeStands A.stands kept.new at.me
        (next_knowledge (A.queries at.me) at.me log before at.now given)) }
    ensures sighted { (log : Log) →
        Before A.stands A.queries kept.old locals.old at.me log at.now →
        Sighted flags ≡ sighted_after log →
        let given = given_frame (seen_frame frame.now) in
        OnOk result (HasClients locals.new at.me
        (with_input (A.queries at.me) at.me log at.now given)) }
{
    sight_client(kept, port, locals, at, flags, key_from(frame))?;
    client_frame(kept, port, locals, at, frame)?;
    Ok(())
}
