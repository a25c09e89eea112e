//! The row of packets with their sender: those of the distributed ARP table for this node, and
//! those on their way to another one.

ghost use Rattle.std.specs.Prelude.{if◌then◌else◌, OnOk};
ghost use Rattle.mesh_model.specs.Acts.ArpRows.{arp_here, passed_unicast4};
ghost use Rattle.mesh_model.specs.Knowledge.Known.{Knowledge};
ghost use Rattle.mesh_model.specs.Knowledge.Pairs.{after_arp};
ghost use Rattle.mesh_model.specs.Packets.ArpMessages.{arp_came};
ghost use Rattle.mesh_model.specs.Routes.Addresses.{same_mac};
ghost use Rattle.node_ground.specs.KnowledgeStands.{KnowledgeStands, place};
ghost use Rattle.node_ground.specs.Puts.{Puts};

use crate::came::read_came;
use crate::pairs::here;
use mesh_algo::Algo;
use mesh_base::Mac;
use mesh_codec::Head;
use node_ground::messages::send_over;
use node_ground::{NodeErr, NodeKnowledge, Place, Port};

/// The head of a packet for one node with its sender.
#[derive(Clone, Copy, Debug)]
pub struct Unicast4 {
    pub ttl: u8,
    pub ttvn: u8,
    pub dst: Mac,
    pub src: Mac,
    pub subtype: u8,
}

// A packet for another node, which goes on while hops are left and a route leads there.
#[tactic(auto, unfolding(mesh_model::specs::Acts::ArpRows::passed_unicast4))]
fn pass<A: Algo, P: Port>(
    kept: &NodeKnowledge<A>,
    port: &mut P,
    at: Place,
    head: Unicast4,
    tail: &[u8],
) -> Result<(), NodeErr>
    ensures { (known : Knowledge) → KnowledgeStands A.stands kept.now at.me known →
        Puts P.takes P.same P.over port.old
        (passed_unicast4 (A.queries at.me) known at.now head.ttl head.ttvn head.dst head.src
        head.subtype tail.now) result port.new }
{
    let Unicast4 {
        ttl,
        ttvn,
        dst,
        src,
        subtype,
    } = head;
    if ttl <= 1 {
        return Ok(());
    }
    let passed = Head::Unicast4 {
        ttl: ttl - 1,
        ttvn,
        dst,
        src,
        subtype,
    };
    let next = kept.algo.route(at.now, dst);
    send_over(port, next, &passed, tail)?;
    Ok(())
}

/// A packet with its sender.
pub fn packet_with_sender<A: Algo, P: Port>(
    kept: &mut NodeKnowledge<A>,
    port: &mut P,
    at: Place,
    head: Unicast4,
    tail: &[u8],
) -> Result<(), NodeErr>
    ensures puts { (known : Knowledge) → KnowledgeStands A.stands kept.old at.me known →
        Puts P.takes P.same P.over port.old
        (if same_mac head.dst at.me
        then arp_here (A.queries at.me) known (place at) head.src (arp_came head.subtype tail.now)
        else passed_unicast4 (A.queries at.me) known at.now head.ttl head.ttvn head.dst head.src
        head.subtype tail.now) result port.new }
    ensures noted { (known : Knowledge) → KnowledgeStands A.stands kept.old at.me known →
        OnOk result (KnowledgeStands A.stands kept.new at.me
        (if same_mac head.dst at.me then after_arp at.now (arp_came head.subtype tail.now) known
        else known)) }
{
    if head.dst == at.me {
        let came = read_came(head.subtype, tail);
        here(kept, port, at, head.src, &came)?;
    } else {
        pass(kept, port, at, head, tail)?;
    }
    Ok(())
}
