//! How a node sends a client frame: on a way, or to all nodes.

ghost use Rattle.std.specs.Prelude.{◌≡◌, ◌∷◌, [], OnOk};
ghost use Rattle.mesh_codec.specs.Payloads.{seen_frame};
ghost use Rattle.mesh_model.specs.Acts.GroupRows.{flooded, sent_on};
ghost use Rattle.mesh_model.specs.Knowledge.Known.{Knowledge};
ghost use Rattle.mesh_model.specs.Knowledge.Steps.{after_sent};
ghost use Rattle.node_ground.specs.KnowledgeStands.{KnowledgeStands, place};
ghost use Rattle.node_ground.specs.Puts.{Puts};
ghost use Rattle.node_ground.specs.Ways.{way};

use mesh_algo::Algo;
use mesh_codec::{ClientFrame, Head};
use node_ground::deliveries::{address, payload};
use node_ground::messages::send;
use node_ground::packing::FIRST_TTL;
use node_ground::{NodeErr, NodeKnowledge, Place, Port, Way};

/// A client frame goes to the node of a way.
pub(crate) fn send_on<A: Algo, P: Port>(
    kept: &NodeKnowledge<A>,
    port: &mut P,
    at: Place,
    to: &Way,
    frame: &ClientFrame<'_>,
) -> Result<(), NodeErr>
    ensures { (known : Knowledge) → KnowledgeStands A.stands kept.now at.me known →
        Puts P.takes P.same P.over port.old
        (sent_on (A.queries at.me) known (place at) (seen_frame frame.now) (way to.now) ∷ [])
        result port.new }
{
    let payload = payload(kept.alloc, frame)?;
    address(kept, port, at, FIRST_TTL, to, payload.as_slice())?;
    Ok(())
}

/// A client frame goes to all nodes, as the node's next broadcast.
pub(crate) fn flood<A: Algo, P: Port>(
    kept: &mut NodeKnowledge<A>,
    port: &mut P,
    at: Place,
    frame: &ClientFrame<'_>,
) -> Result<(), NodeErr>
    ensures puts { (known : Knowledge) → KnowledgeStands A.stands kept.old at.me known →
        Puts P.takes P.same P.over port.old
        (flooded known (place at) (seen_frame frame.now) ∷ []) result port.new }
    ensures noted { (known : Knowledge) → KnowledgeStands A.stands kept.old at.me known →
        OnOk result (KnowledgeStands A.stands kept.new at.me (after_sent known)) }
{
    let payload = payload(kept.alloc, frame)?;
    let number = kept.sent.wrapping_add(1);
    let head = Head::Bcast {
        ttl: FIRST_TTL,
        seq: number,
        orig: at.me,
    };
    send(port, None, None, &head, payload.as_slice())?;
    kept.sent = number;
    Ok(())
}
