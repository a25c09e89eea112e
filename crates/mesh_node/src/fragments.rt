//! The row of fragments: those for this node, and those on their way to another one.

ghost use Rattle.std.specs.Prelude.{◌≡◌, ◌-◌, if◌then◌else◌, OnOk};
ghost use Rattle.mesh_model.specs.declared.packet.Head.TheVariants.{Frag};
ghost use Rattle.mesh_model.specs.Acts.FragmentRows.{carried_here, passed_fragment};
ghost use Rattle.mesh_model.specs.Acts.Rows.{Own};
ghost use Rattle.mesh_model.specs.Knowledge.FactStore.{after_fact_message};
ghost use Rattle.mesh_model.specs.Knowledge.Known.{Knowledge};
ghost use Rattle.mesh_model.specs.Knowledge.PutTogether.{after_part, carried_in, fact_carried, put_together};
ghost use Rattle.mesh_model.specs.Packets.FirstPacket.{first_packet};
ghost use Rattle.mesh_model.specs.Packets.Layout.{FitsFragmentByte};
ghost use Rattle.mesh_model.specs.Routes.Addresses.{same_mac};
ghost use Rattle.mesh_node.specs.Fragments.{head_of, part_seen};
ghost use Rattle.mesh_node.specs.Past.{IsPast};
ghost use Rattle.alfred_store.specs.StoreStands.{IsBefore, store_in};
ghost use Rattle.node_ground.specs.KnowledgeStands.{KnowledgeStands, place};
ghost use Rattle.node_ground.specs.OwnStands.{OwnStands};
ghost use Rattle.node_ground.specs.Puts.{Puts};
ghost use Rattle.node_lans.specs.BridgeStands.{BridgeStands};

use crate::carrying::unicast_came;
use mesh_algo::Algo;
use mesh_base::Mac;
use mesh_codec::{Head, decode};
use mesh_frag::{Frag, reach_of_head};
use node_ground::messages::send_over;
use node_ground::{NodeErr, NodeKnowledge, Place, Port};
use node_lans::Bridge;
use tt_local::Locals;

/// The head of a fragment.
#[derive(Clone, Copy, Debug)]
pub(crate) struct Fragment {
    pub(crate) ttl: u8,
    pub(crate) number: u8,
    pub(crate) priority: u8,
    pub(crate) dst: Mac,
    pub(crate) orig: Mac,
    pub(crate) seq: u16,
    pub(crate) total: u16,
}

impl Fragment {
    // It as a packet's head, with so many hops left.
    fn head(self, ttl: u8) -> Head
        ensures { result ≡ head_of (record self { ttl = ttl }) }
    {
        Head::Frag {
            ttl,
            number: self.number,
            priority: self.priority,
            dst: self.dst,
            orig: self.orig,
            seq: self.seq,
            total: self.total,
        }
    }
}

// A packet that was put together here: one for one node is taken as though it had come.
fn whole<A: Algo, P: Port>(
    kept: &mut NodeKnowledge<A>,
    port: &mut P,
    locals: &Locals,
    bridge: &Bridge,
    at: Place,
    bytes: &[u8],
) -> Result<(), NodeErr>
    ensures puts { (known : Knowledge) (own : Own) →
        KnowledgeStands A.stands kept.old at.me known → IsBefore (store_in known) at.now →
        OwnStands locals.now own at.now → BridgeStands bridge.now at.me own.bridge →
        Puts P.takes P.same P.over port.old
        (carried_here (A.queries at.me) known own.mentions own.bridge (place at)
        (carried_in (first_packet bytes.now))) result port.new }
    ensures noted { (known : Knowledge) → KnowledgeStands A.stands kept.old at.me known →
        IsBefore (store_in known) at.now →
        OnOk result (KnowledgeStands A.stands kept.new at.me
        (after_fact_message at.now (fact_carried (carried_in (first_packet bytes.now))) known)) }
{
    let Ok((head, tail, _)) = decode(bytes) else {
        return Ok(());
    };
    let Some((ttl, _)) = reach_of_head(head) else {
        return Ok(());
    };
    unicast_came(kept, port, locals, bridge, at, ttl, tail)?;
    Ok(())
}

// A fragment for this node.
fn here<A: Algo, P: Port>(
    kept: &mut NodeKnowledge<A>,
    port: &mut P,
    locals: &Locals,
    bridge: &Bridge,
    at: Place,
    fragment: Fragment,
    tail: &[u8],
) -> Result<(), NodeErr>
    ensures puts { (known : Knowledge) (own : Own) →
        KnowledgeStands A.stands kept.old at.me known → IsPast known at.now →
        OwnStands locals.now own at.now → BridgeStands bridge.now at.me own.bridge →
        Puts P.takes P.same P.over port.old
        (carried_here (A.queries at.me) known own.mentions own.bridge (place at)
        (put_together (part_seen at.now fragment tail.now) known.parts)) result port.new }
    ensures noted { (known : Knowledge) → KnowledgeStands A.stands kept.old at.me known →
        IsPast known at.now → OnOk result (KnowledgeStands A.stands kept.new at.me
        (after_part (part_seen at.now fragment tail.now) known)) }
{
    let head = fragment.head(fragment.ttl);
    match kept.frags.part(at.now, &head, tail)? {
        Frag::Open { .. } => {}
        Frag::Whole(bytes) => whole(kept, port, locals, bridge, at, bytes.as_slice())?,
    }
    Ok(())
}

// A fragment for another node, which goes on while hops are left and a route leads there.
fn pass<A: Algo, P: Port>(
    kept: &NodeKnowledge<A>,
    port: &mut P,
    at: Place,
    fragment: Fragment,
    tail: &[u8],
) -> Result<(), NodeErr>
    requires { FitsFragmentByte fragment.number fragment.priority }
    ensures { (known : Knowledge) → KnowledgeStands A.stands kept.now at.me known →
        Puts P.takes P.same P.over port.old
        (passed_fragment (A.queries at.me) known at.now fragment.ttl fragment.dst
        (head_of (record fragment { ttl = fragment.ttl - 1 })) tail.now) result port.new }
{
    if fragment.ttl <= 1 {
        return Ok(());
    }
    let head = fragment.head(fragment.ttl - 1);
    let next = kept.algo.route(at.now, fragment.dst);
    send_over(port, next, &head, tail)?;
    Ok(())
}

/// A fragment.
pub(crate) fn fragment_came<A: Algo, P: Port>(
    kept: &mut NodeKnowledge<A>,
    port: &mut P,
    locals: &Locals,
    bridge: &Bridge,
    at: Place,
    fragment: Fragment,
    tail: &[u8],
) -> Result<(), NodeErr>
    requires { FitsFragmentByte fragment.number fragment.priority }
    ensures puts { (known : Knowledge) (own : Own) →
        KnowledgeStands A.stands kept.old at.me known → IsPast known at.now →
        OwnStands locals.now own at.now → BridgeStands bridge.now at.me own.bridge →
        Puts P.takes P.same P.over port.old
        (if same_mac fragment.dst at.me
        then carried_here (A.queries at.me) known own.mentions own.bridge (place at)
        (put_together (part_seen at.now fragment tail.now) known.parts)
        else passed_fragment (A.queries at.me) known at.now fragment.ttl fragment.dst
        (head_of (record fragment { ttl = fragment.ttl - 1 })) tail.now) result port.new }
    ensures noted { (known : Knowledge) → KnowledgeStands A.stands kept.old at.me known →
        IsPast known at.now → OnOk result (KnowledgeStands A.stands kept.new at.me
        (if same_mac fragment.dst at.me
        then after_part (part_seen at.now fragment tail.now) known else known)) }
{
    if fragment.dst == at.me {
        here(kept, port, locals, bridge, at, fragment, tail)?;
    } else {
        pass(kept, port, at, fragment, tail)?;
    }
    Ok(())
}
