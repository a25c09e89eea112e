//! The row of a client's call for a gateway.

ghost use Rattle.std.specs.Prelude.{◌≡◌, OnOk};
ghost use Rattle.mesh_codec.specs.Payloads.{seen_frame};
ghost use Rattle.mesh_model.specs.Acts.Choosing.{whole_acts};
ghost use Rattle.mesh_model.specs.Acts.GroupRows.{call_acts};
ghost use Rattle.mesh_model.specs.Acts.NodeLimits.{client_limit};
ghost use Rattle.mesh_model.specs.Clients.Log.{Log};
ghost use Rattle.mesh_model.specs.Clients.Mentions.{Sighted, sighted_after};
ghost use Rattle.mesh_model.specs.Knowledge.Known.{Knowledge};
ghost use Rattle.mesh_model.specs.Knowledge.Steps.{after_call, knowledge, next_knowledge};
ghost use Rattle.node_ground.specs.KnowledgeStands.{KnowledgeStands, place};
ghost use Rattle.node_ground.specs.OwnStands.{HasClients, with_input};
ghost use Rattle.node_ground.specs.Puts.{Leaves, Puts};
ghost use Rattle.node_clients.specs.FrameRows.{Before, given_call};

use crate::seeing::sight_client;
use crate::sending::{flood, send_on};
use mesh_algo::Algo;
use mesh_base::{Key, Mac};
use mesh_codec::ClientFrame;
use node_ground::{NodeErr, NodeKnowledge, Place, Port};
use tt_local::Locals;

// A call goes to the chosen gateway, or to all nodes where no route leads there.
#[tactic(auto, unfolding(mesh_model::specs::Acts::GroupRows::call_acts))]
fn call_gateway<A: Algo, P: Port>(
    kept: &mut NodeKnowledge<A>,
    port: &mut P,
    at: Place,
    frame: &ClientFrame<'_>,
) -> Result<(), NodeErr>
    ensures puts { (known : Knowledge) → KnowledgeStands A.stands kept.old at.me known →
        Puts P.takes P.same P.over port.old
        (call_acts (A.queries at.me) known (place at) (seen_frame frame.now)) result port.new }
    ensures noted { (known : Knowledge) → KnowledgeStands A.stands kept.old at.me known →
        OnOk result (KnowledgeStands A.stands kept.new at.me
        (after_call (A.queries at.me) at.now known)) }
{
    match kept.gateway_way(at.now) {
        Some(to) => send_on(kept, port, at, &to, frame)?,
        None => flood(kept, port, at, frame)?,
    }
    Ok(())
}

/// A call for a gateway that a line gives this node, with the flags of its client's sighting.
pub fn call<A: Algo, P: Port>(
    kept: &mut NodeKnowledge<A>,
    port: &mut P,
    locals: &mut Locals,
    at: Place,
    flags: u8,
    key: Key,
    text: &[u8],
) -> Result<(), NodeErr>
    requires { (log : Log)
        × Before A.stands A.queries kept.old locals.old at.me log at.now }
    ensures puts { (log : Log) →
        Before A.stands A.queries kept.old locals.old at.me log at.now →
        Sighted flags ≡ sighted_after log →
        let given = given_call key text.now in
        Leaves P.takes P.same P.over (client_limit at.me log at.now given) port.old
        (whole_acts (A.queries at.me) at.me log at.now given) result port.new }
    ensures noted { (log : Log) →
        Before A.stands A.queries kept.old locals.old at.me log at.now →
        let given = given_call key text.now in
        let before = knowledge (A.queries at.me) at.me log in
        OnOk result (KnowledgeStands A.stands kept.new at.me
        (next_knowledge (A.queries at.me) at.me log before at.now given)) }
    ensures sighted { (log : Log) →
        Before A.stands A.queries kept.old locals.old at.me log at.now →
        Sighted flags ≡ sighted_after log →
        let given = given_call key text.now in
        OnOk result (HasClients locals.new at.me
        (with_input (A.queries at.me) at.me log at.now given)) }
{
    sight_client(kept, port, locals, at, flags, key)?;
    let frame = ClientFrame {
        dst: Mac::BROADCAST,
        src: key.mac,
        vid: key.vid,
        text,
    };
    call_gateway(kept, port, at, &frame)?;
    Ok(())
}
