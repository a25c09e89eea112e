//! What a node does with what packets of the distributed ARP table bring it.

ghost use Rattle.std.specs.Prelude.{◌≡◌, option_map, OnOk};
ghost use Rattle.mesh_base.specs.declared.address.Mac.{Mac};
ghost use Rattle.mesh_messages.specs.Arp.{seen_arp};
ghost use Rattle.mesh_model.specs.Acts.ArpRows.{answer_to, answered_acts, arp_here, came_acts, found_acts};
ghost use Rattle.mesh_model.specs.Knowledge.Known.{Knowledge};
ghost use Rattle.mesh_model.specs.Knowledge.Pairs.{after_arp, after_came, known_address, with_ask, with_learned};
ghost use Rattle.mesh_model.specs.Services.ArpTable.{ToldOf};
ghost use Rattle.node_arp.specs.Came.{seen_came};
ghost use Rattle.node_ground.specs.KnowledgeStands.{KnowledgeStands, place};
ghost use Rattle.node_ground.specs.Puts.{Puts};

use crate::came::{ArpCame, CACHE_REPLY};
use crate::sending::{send_to, tell};
use mesh_algo::Algo;
use mesh_base::{ArpResult, Mac, NoMemory};
use mesh_messages::{ARP_REPLY, ArpMessage, arp_bytes};
use node_ground::{NodeErr, NodeKnowledge, Place, Port};

// The answer to a question whose pair has this address.
fn answer_to(asked: &ArpMessage, found: Mac) -> ArpMessage
    ensures { seen_arp result ≡ answer_to (seen_arp asked.now) found }
{
    ArpMessage {
        vid: asked.vid,
        operation: ARP_REPLY,
        sender: found,
        sender_ip: asked.target_ip,
        target: asked.sender,
        target_ip: asked.sender_ip,
    }
}

// A question of a node is answered, where the pair is known.
fn answer<A: Algo, P: Port>(
    kept: &NodeKnowledge<A>,
    port: &mut P,
    at: Place,
    src: Mac,
    asked: &ArpMessage,
) -> Result<(), NodeErr>
    ensures { (known : Knowledge) → KnowledgeStands A.stands kept.now at.me known →
        let asked = seen_arp asked.now in
        Puts P.takes P.same P.over port.old (answered_acts (A.queries at.me) known (place at) src
        asked (known_address known at.now asked.target_ip asked.vid)) result port.new }
{
    let Some(found) = kept.known_address(at.now, asked.target_ip, asked.vid) else {
        return Ok(());
    };
    let message = answer_to(asked, found);
    let frame = arp_bytes(asked.sender, found, &message);
    send_to(kept, port, at, CACHE_REPLY, src, frame.as_slice())?;
    Ok(())
}

// The pair of a message's sender is learned.
fn learn<A: Algo>(
    kept: &mut NodeKnowledge<A>,
    at: Place,
    message: &ArpMessage,
) -> Result<(), NoMemory>
    ensures { (known : Knowledge) → KnowledgeStands A.stands kept.old at.me known →
        let m = seen_arp message.now in
        OnOk result (KnowledgeStands A.stands kept.new at.me
        (with_learned at.now m.sender_ip m.vid m.sender known)) }
{
    let ArpMessage {
        vid,
        sender,
        sender_ip,
        ..
    } = *message;
    kept.learn(at.now, sender_ip, vid, sender)?;
    Ok(())
}

// An answer is learned, and printed where one is awaited.
#[tactic(auto, using(node_ground::proofs::PutsLemmas::stops_free))]
fn found<A: Algo, P: Port>(
    kept: &mut NodeKnowledge<A>,
    port: &mut P,
    at: Place,
    told: &ArpMessage,
) -> Result<(), NodeErr>
    ensures puts { (known : Knowledge) → KnowledgeStands A.stands kept.old at.me known →
        Puts P.takes P.same P.over port.old (found_acts known (place at) (seen_arp told.now))
        result port.new }
    ensures noted { (known : Knowledge) → KnowledgeStands A.stands kept.old at.me known →
        let m = seen_arp told.now in
        OnOk result (KnowledgeStands A.stands kept.new at.me (with_ask (ToldOf m.sender_ip m.vid)
        (with_learned at.now m.sender_ip m.vid m.sender known))) }
{
    learn(kept, at, told)?;
    if kept.close(told.sender_ip, told.vid) {
        let mac = told.sender;
        tell(port, at, told.sender_ip, ArpResult::Found { mac })?;
    }
    Ok(())
}

// What a packet of the table brings this node, which takes part in it.
#[tactic(auto, using(node_ground::proofs::PutsLemmas::stops_free))]
fn take<A: Algo, P: Port>(
    kept: &mut NodeKnowledge<A>,
    port: &mut P,
    at: Place,
    src: Mac,
    came: &ArpCame,
) -> Result<(), NodeErr>
    ensures puts { (known : Knowledge) → KnowledgeStands A.stands kept.old at.me known →
        Puts P.takes P.same P.over port.old
        (came_acts (A.queries at.me) known (place at) src (Some (seen_came came.now)))
        result port.new }
    ensures noted { (known : Knowledge) → KnowledgeStands A.stands kept.old at.me known →
        OnOk result (KnowledgeStands A.stands kept.new at.me
        (after_came at.now (Some (seen_came came.now)) known)) }
{
    match came {
        ArpCame::Puts(message) => learn(kept, at, message)?,
        ArpCame::Asks(message) => answer(kept, port, at, src, message)?,
        ArpCame::Tells(message) => found(kept, port, at, message)?,
    }
    Ok(())
}

/// What a packet of the table, if it is one, brings this node, which may take no part in it.
#[tactic(auto, unfolding(mesh_model::specs::Acts::ArpRows::arp_here))]
pub(crate) fn here<A: Algo, P: Port>(
    kept: &mut NodeKnowledge<A>,
    port: &mut P,
    at: Place,
    src: Mac,
    came: &Option<ArpCame>,
) -> Result<(), NodeErr>
    ensures puts { (known : Knowledge) → KnowledgeStands A.stands kept.old at.me known →
        Puts P.takes P.same P.over port.old
        (arp_here (A.queries at.me) known (place at) src (option_map seen_came came.now))
        result port.new }
    ensures noted { (known : Knowledge) → KnowledgeStands A.stands kept.old at.me known →
        OnOk result (KnowledgeStands A.stands kept.new at.me
        (after_arp at.now (option_map seen_came came.now) known)) }
{
    if !kept.services.settings.arp_table {
        return Ok(());
    }
    let Some(came) = came else {
        return Ok(());
    };
    take(kept, port, at, src, came)?;
    Ok(())
}
