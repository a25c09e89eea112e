//! The row of a client's question for an IP address, behind its sighting.

ghost use Rattle.std.specs.Prelude.{◌≡◌, OnOk};
ghost use Rattle.mesh_messages.specs.Arp.{seen_arp};
ghost use Rattle.mesh_model.specs.Acts.ArpRows.{known_or_asked, message_of_client, pair_acts, question_acts};
ghost use Rattle.mesh_model.specs.Knowledge.Known.{Knowledge};
ghost use Rattle.mesh_model.specs.Knowledge.Pairs.{after_asking, after_question, known_address};
ghost use Rattle.node_ground.specs.KnowledgeStands.{KnowledgeStands, place};
ghost use Rattle.node_ground.specs.Puts.{Puts};

use crate::came::{DHT_GET, DHT_PUT};
use crate::sending::{send_message, tell};
use mesh_algo::Algo;
use mesh_base::{ArpResult, Mac, Vid};
use mesh_messages::{ARP_REPLY, ARP_REQUEST, ArpMessage};
use node_ground::{NodeErr, NodeKnowledge, Place, Port};

/// A client's question: the client and its own IP address, and the one that it asks for, as
/// numbers, in a VLAN.
#[derive(Clone, Copy, Debug)]
pub struct Question {
    pub mac: Mac,
    pub own_ip: u32,
    pub asked_ip: u32,
    pub vid: Vid,
}

impl Question {
    // A message of the client, for an IP address.
    fn message(self, operation: u16, target_ip: u32) -> ArpMessage
        ensures { seen_arp result
            ≡ message_of_client operation self.mac self.own_ip target_ip self.vid }
    {
        ArpMessage {
            vid: self.vid,
            operation,
            sender: self.mac,
            sender_ip: self.own_ip,
            target: Mac::ZERO,
            target_ip,
        }
    }
}

// The client's own pair is put at the other nodes that keep it.
#[tactic(auto, using(node_ground::proofs::PutsLemmas::stops_free))]
fn put_pair<A: Algo, P: Port>(
    kept: &NodeKnowledge<A>,
    port: &mut P,
    at: Place,
    asked: Question,
) -> Result<(), NodeErr>
    ensures { (known : Knowledge) → KnowledgeStands A.stands kept.now at.me known →
        Puts P.takes P.same P.over port.old
        (pair_acts (A.queries at.me) known (place at) asked.mac asked.own_ip asked.vid)
        result port.new }
{
    let keepers = kept.pair_keepers(at.me, at.now, asked.own_ip, asked.vid)?;
    let message = asked.message(ARP_REPLY, 0);
    send_message(kept, port, at, DHT_PUT, &message, keepers.as_slice())?;
    Ok(())
}

// The pair that is asked for is asked of the other nodes that keep it, where it isn't known.
#[tactic(auto, using(node_ground::proofs::PutsLemmas::stops_free))]
fn ask_pair<A: Algo, P: Port>(
    kept: &mut NodeKnowledge<A>,
    port: &mut P,
    at: Place,
    asked: Question,
) -> Result<(), NodeErr>
    ensures puts { (known : Knowledge) → KnowledgeStands A.stands kept.old at.me known →
        Puts P.takes P.same P.over port.old
        (known_or_asked (A.queries at.me) known (place at) asked.mac asked.own_ip asked.asked_ip
        asked.vid (known_address known at.now asked.asked_ip asked.vid)) result port.new }
    ensures noted { (known : Knowledge) → KnowledgeStands A.stands kept.old at.me known →
        OnOk result (KnowledgeStands A.stands kept.new at.me
        (after_asking (A.queries at.me) at.me at.now asked.asked_ip asked.vid known)) }
{
    let Question { asked_ip, vid, .. } = asked;
    if let Some(mac) = kept.known_address(at.now, asked_ip, vid) {
        tell(port, at, asked_ip, ArpResult::Cached { mac })?;
        return Ok(());
    }
    let keepers = kept.pair_keepers(at.me, at.now, asked_ip, vid)?;
    if keepers.is_empty() {
        tell(port, at, asked_ip, ArpResult::Unknown)?;
        return Ok(());
    }
    kept.ask(asked_ip, vid)?;
    let message = asked.message(ARP_REQUEST, asked_ip);
    send_message(kept, port, at, DHT_GET, &message, keepers.as_slice())?;
    Ok(())
}

/// A client of this node asks for an IP address: its own pair is learned and put at the nodes that
/// keep it, and the other one is answered or asked for. A node that takes no part says so.
#[tactic(auto, unfolding(mesh_model::specs::Acts::ArpRows::question_acts), using(node_ground::proofs::PutsLemmas::stops_free))]
pub fn ask<A: Algo, P: Port>(
    kept: &mut NodeKnowledge<A>,
    port: &mut P,
    at: Place,
    asked: Question,
) -> Result<(), NodeErr>
    ensures puts { (known : Knowledge) → KnowledgeStands A.stands kept.old at.me known →
        Puts P.takes P.same P.over port.old
        (question_acts (A.queries at.me) known (place at) asked.mac asked.own_ip asked.asked_ip
        asked.vid) result port.new }
    ensures noted { (known : Knowledge) → KnowledgeStands A.stands kept.old at.me known →
        OnOk result (KnowledgeStands A.stands kept.new at.me
        (after_question (A.queries at.me) at.me at.now asked.mac asked.own_ip asked.asked_ip
        asked.vid known)) }
{
    if !kept.services.settings.arp_table {
        tell(port, at, asked.asked_ip, ArpResult::Off)?;
        return Ok(());
    }
    kept.learn(at.now, asked.own_ip, asked.vid, asked.mac)?;
    put_pair(kept, port, at, asked)?;
    ask_pair(kept, port, at, asked)?;
    Ok(())
}
