//! The row of a round, in which a node tells its facts.

ghost use Rattle.std.specs.Prelude.{◌≡◌, ◌%◌, ◌^◌, ◌∷◌, ℕ, [], IfOk, OnOk};
ghost use Rattle.alfred_store.specs.Shares.{is_shared};
ghost use Rattle.mesh_model.specs.declared.line_form.AlfredMode.TheVariants as parts;
ghost use Rattle.mesh_model.specs.Acts.FactRows.{announce_act, fact_round_acts, part_round, push_acts, pushed_to};
ghost use Rattle.mesh_model.specs.Knowledge.FactStore.{after_round, facts_marked};
ghost use Rattle.mesh_model.specs.Knowledge.Known.{Knowledge};
ghost use Rattle.mesh_model.specs.Knowledge.Steps.{after_round_at};
ghost use Rattle.mesh_messages.specs.LentFacts.{lent_facts};
ghost use Rattle.node_facts.specs.Pushes.{apart, pushes_of};
ghost use Rattle.node_ground.specs.KnowledgeStands.{KnowledgeStands, place};
ghost use Rattle.node_ground.specs.Puts.{Puts};

use crate::primaries::{chosen_primary, reached_primaries};
use crate::sending::{Transaction, send_transaction};
use alfred_core::Fact;
use alfred_store::Share;
use mesh_algo::Algo;
use mesh_base::Mac;
use mesh_codec::Head;
use mesh_messages::primary_bytes;
use mesh_model::AlfredMode;
use node_ground::messages::send;
use node_ground::packing::FIRST_TTL;
use node_ground::{NodeErr, NodeKnowledge, Place, Port};

/// How many ticks pass from round to round.
pub(crate) const TICKS_OF_ROUND: u64 = 20;

// A primary announces itself to all, by the node's next broadcast.
fn announce<A: Algo, P: Port>(
    kept: &NodeKnowledge<A>,
    port: &mut P,
    at: Place,
) -> Result<(), NodeErr>
    ensures { (known : Knowledge) → KnowledgeStands A.stands kept.now at.me known →
        Puts P.takes P.same P.over port.old (announce_act known (place at) ∷ [])
        result port.new }
{
    let head = Head::Bcast {
        ttl: FIRST_TTL,
        seq: kept.sent.wrapping_add(1),
        orig: at.me,
    };
    let bytes = primary_bytes(Mac::BROADCAST, at.me);
    send(port, None, None, &head, bytes.as_slice())?;
    Ok(())
}

// Facts are pushed to some nodes, each under the next id behind so many.
fn push_to<A: Algo, P: Port>(
    kept: &NodeKnowledge<A>,
    port: &mut P,
    at: Place,
    facts: &[&Fact],
    taken: u16,
    nodes: &[Mac],
) -> Result<(), NodeErr>
    ensures { (known : Knowledge) (count : ℕ) → KnowledgeStands A.stands kept.now at.me known →
        taken ≡ count % 2 ^ 16 →
        Puts P.takes P.same P.over port.old
        (pushed_to (A.queries at.me) known (place at) (lent_facts facts.now) count nodes.now)
        result port.new }
{
    let Some((first, rest)) = nodes.split_first() else {
        return Ok(());
    };
    let id = taken.wrapping_add(1);
    let push = Transaction { push: true, id };
    send_transaction(kept, port, at, *first, push, facts)?;
    push_to(kept, port, at, facts, id, rest)?;
    Ok(())
}

// Facts that a node tells are pushed to some nodes. Answers how many pushes there are.
#[tactic(auto, using(node_ground::proofs::PutsLemmas::stops_free))]
fn push_shared<A: Algo, P: Port>(
    kept: &NodeKnowledge<A>,
    port: &mut P,
    at: Place,
    share: Share,
    nodes: &[Mac],
) -> Result<usize, NodeErr>
    ensures puts { (known : Knowledge) → KnowledgeStands A.stands kept.now at.me known →
        let facts = facts_marked (is_shared share) known.services at.now in
        Puts P.takes P.same P.over port.old
        (push_acts (A.queries at.me) known (place at) facts nodes.now) (apart result) port.new }
    ensures count { (known : Knowledge) → KnowledgeStands A.stands kept.now at.me known →
        let facts = facts_marked (is_shared share) known.services at.now in
        IfOk result (λ count. count ≡ pushes_of facts nodes.now) }
{
    let facts = kept.services.store.shared(at.now, share)?;
    if facts.is_empty() {
        return Ok(0);
    }
    let taken = kept.services.store.ids;
    push_to(kept, port, at, facts.as_slice(), taken, nodes)?;
    Ok(nodes.len())
}

// What a primary puts in a round: it announces itself, and pushes what it has at first hand to each
// other primary.
fn primary_round<A: Algo, P: Port>(
    kept: &mut NodeKnowledge<A>,
    port: &mut P,
    at: Place,
) -> Result<(), NodeErr>
    ensures puts { (known : Knowledge) → KnowledgeStands A.stands kept.old at.me known →
        Puts P.takes P.same P.over port.old
        (part_round (A.queries at.me) known (place at) parts.Primary) result port.new }
    ensures noted { (known : Knowledge) → KnowledgeStands A.stands kept.old at.me known →
        OnOk result (KnowledgeStands A.stands kept.new at.me
        (after_round (A.queries at.me) at.now parts.Primary known)) }
{
    announce(kept, port, at)?;
    let nodes = reached_primaries(kept, at.now)?;
    let count = push_shared(kept, port, at, Share::FirstHand, nodes.as_slice())?;
    kept.sent = kept.sent.wrapping_add(1);
    kept.services.store.take_ids(count);
    Ok(())
}

// What a secondary puts in a round: it pushes its own facts to the chosen primary.
#[tactic(auto, using(node_ground::proofs::PutsLemmas::stops_free))]
fn secondary_round<A: Algo, P: Port>(
    kept: &mut NodeKnowledge<A>,
    port: &mut P,
    at: Place,
) -> Result<(), NodeErr>
    ensures puts { (known : Knowledge) → KnowledgeStands A.stands kept.old at.me known →
        Puts P.takes P.same P.over port.old
        (part_round (A.queries at.me) known (place at) parts.Secondary) result port.new }
    ensures noted { (known : Knowledge) → KnowledgeStands A.stands kept.old at.me known →
        OnOk result (KnowledgeStands A.stands kept.new at.me
        (after_round (A.queries at.me) at.now parts.Secondary known)) }
{
    let Some(primary) = chosen_primary(kept, at.now)? else {
        return Ok(());
    };
    let count = push_shared(kept, port, at, Share::Own, &[primary])?;
    kept.services.store.take_ids(count);
    Ok(())
}

/// A tick, which may begin a round.
#[tactic(auto, unfolding(mesh_model::specs::Acts::FactRows::fact_round_acts))]
pub fn round<A: Algo, P: Port>(
    kept: &mut NodeKnowledge<A>,
    port: &mut P,
    at: Place,
    index: u64,
) -> Result<(), NodeErr>
    ensures puts { (known : Knowledge) → KnowledgeStands A.stands kept.old at.me known →
        Puts P.takes P.same P.over port.old
        (fact_round_acts (A.queries at.me) known (place at) index) result port.new }
    ensures noted { (known : Knowledge) → KnowledgeStands A.stands kept.old at.me known →
        OnOk result (KnowledgeStands A.stands kept.new at.me
        (after_round_at (A.queries at.me) at.now index known)) }
{
    if index % TICKS_OF_ROUND != 0 {
        return Ok(());
    }
    match kept.services.settings.fact_store {
        AlfredMode::Off => {}
        AlfredMode::Primary => primary_round(kept, port, at)?,
        AlfredMode::Secondary => secondary_round(kept, port, at)?,
    }
    Ok(())
}
