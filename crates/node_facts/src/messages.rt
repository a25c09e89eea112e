//! The rows of messages that came: in packets for this node, and in broadcasts.

ghost use Rattle.std.specs.Prelude.{◌≡◌, ◌≢◌, List, Some, OnErr, OnOk, option_and_then};
ghost use Rattle.alfred_store.specs.StoreStands.{IsBefore, store_in};
ghost use Rattle.mesh_base.specs.declared.address.Mac.{Mac};
ghost use Rattle.mesh_model.specs.Acts.FactRows.{brought_acts, fact_acts, requested_acts};
ghost use Rattle.mesh_model.specs.Knowledge.FactStore.{after_announced, after_brought, after_fact_message, if_announces, txn_call};
ghost use Rattle.mesh_model.specs.Knowledge.Known.{Knowledge};
ghost use Rattle.mesh_model.specs.Packets.FactMessages.{fact_message_of};
ghost use Rattle.mesh_model.specs.Services.Transactions.{APart, AnEnd, TxnCall};
ghost use Rattle.mesh_messages.specs.Messages.{seen_came};
ghost use Rattle.node_facts.specs.Messages.{takes};
ghost use Rattle.node_ground.specs.KnowledgeStands.{KnowledgeStands, place};
ghost use Rattle.node_ground.specs.Puts.{Puts};

use crate::lists::to_list;
use crate::sending::{Transaction, send_transaction};
use crate::telling::tell_answer;
use mesh_algo::Algo;
use mesh_base::{Mac, Millis, NoMemory};
use mesh_messages::{CameFact, FactMessage, Facts, read_fact_message};
use mesh_model::AlfredMode;
use node_ground::{NodeErr, NodeKnowledge, Place, Port};

// Whether a node with a part in the store takes the messages of a transaction.
fn takes(part: AlfredMode, push: bool) -> bool
    ensures { result ≡ takes part push }
{
    match part {
        AlfredMode::Off => false,
        AlfredMode::Primary => true,
        AlfredMode::Secondary => !push,
    }
}

// A part of a transaction came.
#[tactic(auto, using(node_ground::proofs::PutsLemmas::stops_free))]
fn part<A: Algo, P: Port>(
    kept: &mut NodeKnowledge<A>,
    port: &mut P,
    at: Place,
    sender: Mac,
    transaction: Transaction,
    number: u16,
    facts: Facts<'_>,
) -> Result<(), NodeErr>
    ensures puts { (known : Knowledge) → KnowledgeStands A.stands kept.old at.me known →
        IsBefore (store_in known) at.now →
        let call : TxnCall = txn_call at.now sender transaction.id (APart number facts.entry) in
        Puts P.takes P.same P.over port.old
        (brought_acts known.services.settings.fact_store known.services (place at)
        transaction.push call) result port.new }
    ensures noted { (known : Knowledge) → KnowledgeStands A.stands kept.old at.me known →
        IsBefore (store_in known) at.now →
        let call : TxnCall = txn_call at.now sender transaction.id (APart number facts.entry) in
        OnOk result (KnowledgeStands A.stands kept.new at.me
        (after_brought known.services.settings.fact_store transaction.push call known)) }
{
    let Transaction { push, id } = transaction;
    if !takes(kept.services.settings.fact_store, push) {
        return Ok(());
    }
    let facts = to_list(kept.alloc, facts)?;
    let store = &mut kept.services.store;
    if push {
        store.push_part(at.now, sender, id, number, &facts)?;
        return Ok(());
    }
    let answer = store.answer_part(at.now, sender, id, number, &facts)?;
    tell_answer(kept.alloc, port, at, &answer)?;
    Ok(())
}

// The end of a transaction came.
fn end<A: Algo, P: Port>(
    kept: &mut NodeKnowledge<A>,
    port: &mut P,
    at: Place,
    sender: Mac,
    transaction: Transaction,
    count: u16,
) -> Result<(), NodeErr>
    ensures puts { (known : Knowledge) → KnowledgeStands A.stands kept.old at.me known →
        IsBefore (store_in known) at.now →
        let call : TxnCall = txn_call at.now sender transaction.id (AnEnd count) in
        Puts P.takes P.same P.over port.old
        (brought_acts known.services.settings.fact_store known.services (place at)
        transaction.push call) result port.new }
    ensures noted { (known : Knowledge) → KnowledgeStands A.stands kept.old at.me known →
        IsBefore (store_in known) at.now →
        let call : TxnCall = txn_call at.now sender transaction.id (AnEnd count) in
        OnOk result (KnowledgeStands A.stands kept.new at.me
        (after_brought known.services.settings.fact_store transaction.push call known)) }
{
    let Transaction { push, id } = transaction;
    if !takes(kept.services.settings.fact_store, push) {
        return Ok(());
    }
    let store = &mut kept.services.store;
    if push {
        store.push_end(at.now, sender, id, count)?;
        return Ok(());
    }
    let answer = store.answer_end(at.now, sender, id, count)?;
    tell_answer(kept.alloc, port, at, &answer)?;
    Ok(())
}

// A primary announced itself.
fn announced<A: Algo>(kept: &mut NodeKnowledge<A>, now: Millis, sender: Mac) -> Result<(), NoMemory>
    ensures ok { (me : Mac) (known : Knowledge) → KnowledgeStands A.stands kept.old me known →
        OnOk result (KnowledgeStands A.stands kept.new me
        (after_announced known.services.settings.fact_store now sender known)) }
    ensures err { OnErr result (kept.new ≡ kept.old) }
{
    if kept.services.settings.fact_store == AlfredMode::Off {
        return Ok(());
    }
    kept.services.store.announce(now, sender)?;
    Ok(())
}

// A request came. A primary answers it by its live facts of the type.
#[tactic(auto, using(node_ground::proofs::PutsLemmas::stops_free))]
fn requested<A: Algo, P: Port>(
    kept: &NodeKnowledge<A>,
    port: &mut P,
    at: Place,
    sender: Mac,
    id: u16,
    type_no: u8,
) -> Result<(), NodeErr>
    ensures { (known : Knowledge) → KnowledgeStands A.stands kept.now at.me known →
        Puts P.takes P.same P.over port.old
        (requested_acts (A.queries at.me) known (place at) known.services.settings.fact_store
        sender id type_no) result port.new }
{
    if kept.services.settings.fact_store != AlfredMode::Primary {
        return Ok(());
    }
    let facts = kept.services.store.of_type(at.now, type_no)?;
    let answer = Transaction { push: false, id };
    send_transaction(kept, port, at, sender, answer, facts.as_slice())?;
    Ok(())
}

// A message came.
#[tactic(auto, unfolding(mesh_model::specs::Acts::FactRows::fact_acts))]
fn take<A: Algo, P: Port>(
    kept: &mut NodeKnowledge<A>,
    port: &mut P,
    at: Place,
    came: CameFact<'_>,
) -> Result<(), NodeErr>
    ensures puts { (known : Knowledge) → KnowledgeStands A.stands kept.old at.me known →
        IsBefore (store_in known) at.now →
        Puts P.takes P.same P.over port.old
        (fact_acts (A.queries at.me) known (place at) (Some (seen_came came.entry)))
        result port.new }
    ensures noted { (known : Knowledge) → KnowledgeStands A.stands kept.old at.me known →
        IsBefore (store_in known) at.now →
        OnOk result (KnowledgeStands A.stands kept.new at.me
        (after_fact_message at.now (Some (seen_came came.entry)) known)) }
{
    let sender = came.sender;
    match came.message {
        FactMessage::Part {
            push,
            id,
            number,
            facts,
        } => {
            let transaction = Transaction { push, id };
            part(kept, port, at, sender, transaction, number, facts)?;
        }
        FactMessage::Primary => announced(kept, at.now, sender)?,
        FactMessage::Request { id, type_no } => requested(kept, port, at, sender, id, type_no)?,
        FactMessage::End { push, id, count } => {
            end(kept, port, at, sender, Transaction { push, id }, count)?;
        }
    }
    Ok(())
}

/// What a packet for this node carries, where it is a message of the store. The clauses hold where
/// moments don't fall from input to input.
#[tactic(auto, unfolding(mesh_model::specs::Acts::FactRows::fact_acts))]
pub fn here<A: Algo, P: Port>(
    kept: &mut NodeKnowledge<A>,
    port: &mut P,
    at: Place,
    tail: &[u8],
) -> Result<(), NodeErr>
    ensures puts { (known : Knowledge) → KnowledgeStands A.stands kept.old at.me known →
        IsBefore (store_in known) at.now →
        Puts P.takes P.same P.over port.old
        (fact_acts (A.queries at.me) known (place at) (fact_message_of tail.now))
        result port.new }
    ensures noted { (known : Knowledge) → KnowledgeStands A.stands kept.old at.me known →
        IsBefore (store_in known) at.now →
        OnOk result (KnowledgeStands A.stands kept.new at.me
        (after_fact_message at.now (fact_message_of tail.now) known)) }
{
    let Some(came) = read_fact_message(tail) else {
        return Ok(());
    };
    take(kept, port, at, came)?;
    Ok(())
}

/// What a broadcast carries that is taken: of the messages of the store it brings announcements
/// alone. Refused, all is as before.
pub fn broadcast<A: Algo>(
    kept: &mut NodeKnowledge<A>,
    now: Millis,
    tail: &[u8],
) -> Result<(), NoMemory>
    ensures ok { (me : Mac) (known : Knowledge) → KnowledgeStands A.stands kept.old me known →
        OnOk result (KnowledgeStands A.stands kept.new me (after_fact_message now
        (option_and_then if_announces (fact_message_of tail.now)) known)) }
    ensures err { OnErr result (kept.new ≡ kept.old) }
{
    let Some(came) = read_fact_message(tail) else {
        return Ok(());
    };
    match came.message {
        FactMessage::Primary => announced(kept, now, came.sender)?,
        FactMessage::Part { .. } | FactMessage::Request { .. } | FactMessage::End { .. } => {}
    }
    Ok(())
}
