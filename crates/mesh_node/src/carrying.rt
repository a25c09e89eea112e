//! The rows of packets that carry a client frame or a message of the fact store.

ghost use Rattle.std.specs.Prelude.{◌≡◌, ◌++◌, OnOk};
ghost use Rattle.alfred_store.specs.StoreStands.{IsBefore, store_in};
ghost use Rattle.mesh_model.specs.Acts.FactRows.{fact_acts};
ghost use Rattle.mesh_model.specs.Acts.FrameRows.{broadcast_acts, here_acts};
ghost use Rattle.mesh_model.specs.Acts.Rows.{Own};
ghost use Rattle.mesh_model.specs.Clients.Lans as lans;
ghost use Rattle.mesh_model.specs.Knowledge.FactStore.{after_fact_message};
ghost use Rattle.mesh_model.specs.Knowledge.Known.{Broadcast, Knowledge, is_new_broadcast};
ghost use Rattle.mesh_model.specs.Knowledge.Steps.{after_broadcast, announced_by};
ghost use Rattle.mesh_model.specs.Packets.FactMessages.{fact_message_of};
ghost use Rattle.node_ground.specs.KnowledgeStands.{KnowledgeStands, place};
ghost use Rattle.node_ground.specs.OwnStands.{OwnStands};
ghost use Rattle.node_ground.specs.Puts.{Puts};
ghost use Rattle.node_lans.specs.BridgeStands.{BridgeStands};

use mesh_algo::Algo;
use mesh_base::Mac;
use node_clients::carried::{broadcast, here};
use node_facts::messages;
use node_ground::{NodeErr, NodeKnowledge, Place, Port};
use node_lans::Bridge;
use tt_local::Locals;

// Whether a node takes a broadcast.
fn takes<A: Algo>(kept: &NodeKnowledge<A>, at: Place, orig: Mac, seq: u32) -> bool
    ensures { (known : Knowledge) → KnowledgeStands A.stands kept.now at.me known →
        result ≡ is_new_broadcast at.me at.now (record { orig = orig; number = seq }) known.taken }
{
    orig != at.me && kept.broadcasts.is_new(at.now, orig, seq)
}

/// A broadcast: of the messages of the store it brings announcements alone, where it is taken.
pub(crate) fn broadcast_came<A: Algo, P: Port>(
    kept: &mut NodeKnowledge<A>,
    port: &mut P,
    bridge: &Bridge,
    at: Place,
    ttl: u8,
    seq: u32,
    orig: Mac,
    tail: &[u8],
) -> Result<(), NodeErr>
    ensures puts { (known : Knowledge) (gateway : lans.Bridge) →
        KnowledgeStands A.stands kept.old at.me known → BridgeStands bridge.now at.me gateway →
        let broadcast : Broadcast = record { orig = orig; number = seq } in
        Puts P.takes P.same P.over port.old
        (broadcast_acts known gateway (place at) ttl broadcast tail.now) result port.new }
    ensures noted { (known : Knowledge) → KnowledgeStands A.stands kept.old at.me known →
        let broadcast : Broadcast = record { orig = orig; number = seq } in
        OnOk result (KnowledgeStands A.stands kept.new at.me
        (after_fact_message at.now (announced_by at.me at.now broadcast tail.now known)
        (after_broadcast at.me at.now broadcast known))) }
{
    let is_new = takes(kept, at, orig, seq);
    broadcast(kept, port, bridge, at, ttl, seq, orig, tail)?;
    if is_new {
        messages::broadcast(kept, at.now, tail)?;
    }
    Ok(())
}

/// A packet for this node: a client frame, or a message of the store.
pub(crate) fn unicast_came<A: Algo, P: Port>(
    kept: &mut NodeKnowledge<A>,
    port: &mut P,
    locals: &Locals,
    bridge: &Bridge,
    at: Place,
    ttl: u8,
    tail: &[u8],
) -> Result<(), NodeErr>
    ensures puts { (known : Knowledge) (own : Own) →
        KnowledgeStands A.stands kept.old at.me known → IsBefore (store_in known) at.now →
        OwnStands locals.now own at.now → BridgeStands bridge.now at.me own.bridge →
        Puts P.takes P.same P.over port.old
        (here_acts (A.queries at.me) known own.mentions own.bridge (place at) ttl tail.now
        ++ fact_acts (A.queries at.me) known (place at) (fact_message_of tail.now))
        result port.new }
    ensures noted { (known : Knowledge) → KnowledgeStands A.stands kept.old at.me known →
        IsBefore (store_in known) at.now →
        OnOk result (KnowledgeStands A.stands kept.new at.me
        (after_fact_message at.now (fact_message_of tail.now) known)) }
{
    here(kept, port, locals, bridge, at, ttl, tail)?;
    messages::here(kept, port, at, tail)?;
    Ok(())
}
