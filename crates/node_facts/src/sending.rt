//! How messages of the fact store go to a node.

ghost use Rattle.std.specs.Prelude.{◌≡◌, ◌∷◌, ◌++◌, [], map};
ghost use Rattle.mesh_model.specs.Acts.FactRows.{messages_to};
ghost use Rattle.mesh_model.specs.Knowledge.Known.{Knowledge};
ghost use Rattle.mesh_model.specs.Packets.FactMessages.{Requests};
ghost use Rattle.mesh_model.specs.Services.Parts.{part_message, transaction_messages};
ghost use Rattle.mesh_messages.specs.LentFacts.{lent_facts};
ghost use Rattle.mesh_messages.specs.Parts.{seen_part};
ghost use Rattle.node_facts.specs.Messages.{carried_over, message_over};
ghost use Rattle.node_ground.specs.KnowledgeStands.{KnowledgeStands, place};
ghost use Rattle.node_ground.specs.Puts.{Puts};

use alfred_core::Fact;
use mesh_algo::Algo;
use mesh_base::{Mac, Reason};
use mesh_codec::Head;
use mesh_messages::{Part, Parts, end_bytes, part_count, request_bytes, write_part};
use node_ground::messages::send;
use node_ground::packing::FIRST_TTL;
use node_ground::{NodeErr, NodeKnowledge, Place, Port};
use std::alloc::Global;

/// A transaction: the id under which it goes, and whether it is pushed or answers a request.
#[derive(Clone, Copy, Debug)]
pub(crate) struct Transaction {
    pub push: bool,
    pub id: u16,
}

// What is carried goes to a node over a neighbour.
fn send_over<P: Port>(port: &mut P, next: Mac, dst: Mac, bytes: &[u8]) -> Result<(), NodeErr>
    ensures { Puts P.takes P.same P.over port.old (carried_over next dst bytes.now ∷ [])
        result port.new }
{
    let head = Head::Unicast {
        ttl: FIRST_TTL,
        ttvn: 0,
        dst,
    };
    let reason = Some(Reason::Alfred);
    send(port, Some(next), reason, &head, bytes)?;
    Ok(())
}

// A part of a transaction goes to a node over a neighbour.
fn send_part<P: Port>(
    alloc: Global,
    port: &mut P,
    at: Place,
    next: Mac,
    dst: Mac,
    transaction: Transaction,
    part: &Part<'_>,
) -> Result<(), NodeErr>
    ensures { Puts P.takes P.same P.over port.old
        (message_over next (place at) dst
        (part_message transaction.push transaction.id (seen_part part.now)) ∷ [])
        result port.new }
{
    let Transaction { push, id } = transaction;
    let mut bytes = Vec::new(alloc);
    write_part(&mut bytes, dst, at.me, push, id, part)?;
    send_over(port, next, dst, bytes.as_slice())?;
    Ok(())
}

// A transaction of facts goes to a node over a neighbour: its parts, and then its end.
fn send_transaction_over<P: Port>(
    alloc: Global,
    port: &mut P,
    at: Place,
    next: Mac,
    dst: Mac,
    transaction: Transaction,
    facts: &[&Fact],
) -> Result<(), NodeErr>
    ensures { Puts P.takes P.same P.over port.old (map (message_over next (place at) dst)
        (transaction_messages transaction.push transaction.id (lent_facts facts.now)))
        result port.new }
{
    for part in Parts::new(facts) {
        send_part(alloc, port, at, next, dst, transaction, &part)?;
    }
    let Transaction { push, id } = transaction;
    let end = end_bytes(dst, at.me, push, id, part_count(facts));
    send_over(port, next, dst, end.as_slice())?;
    Ok(())
}

/// A transaction of facts goes to a node, where a route leads there.
pub(crate) fn send_transaction<A: Algo, P: Port>(
    kept: &NodeKnowledge<A>,
    port: &mut P,
    at: Place,
    dst: Mac,
    transaction: Transaction,
    facts: &[&Fact],
) -> Result<(), NodeErr>
    ensures { (known : Knowledge) → KnowledgeStands A.stands kept.now at.me known →
        Puts P.takes P.same P.over port.old
        (messages_to (A.queries at.me) known (place at) dst
        (transaction_messages transaction.push transaction.id (lent_facts facts.now)))
        result port.new }
{
    let Some(next) = kept.algo.route(at.now, dst) else {
        return Ok(());
    };
    send_transaction_over(kept.alloc, port, at, next, dst, transaction, facts)?;
    Ok(())
}

/// A request of an id for the facts of a type goes to a primary, where a route leads there.
pub(crate) fn send_request<A: Algo, P: Port>(
    kept: &NodeKnowledge<A>,
    port: &mut P,
    at: Place,
    primary: Mac,
    id: u16,
    type_no: u8,
) -> Result<(), NodeErr>
    ensures { (known : Knowledge) → KnowledgeStands A.stands kept.now at.me known →
        Puts P.takes P.same P.over port.old
        (messages_to (A.queries at.me) known (place at) primary (Requests id type_no ∷ []))
        result port.new }
{
    let Some(next) = kept.algo.route(at.now, primary) else {
        return Ok(());
    };
    let request = request_bytes(primary, at.me, id, type_no);
    send_over(port, next, primary, request.as_slice())?;
    Ok(())
}
