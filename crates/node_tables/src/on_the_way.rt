//! The row of containers that are for another node: an answer on the way, or else they go on.

ghost use Rattle.std.specs.Prelude.{◌≡◌, ◌≤◌, length, option_map, IfOk, IfSome, IsTrue};
ghost use Rattle.mesh_base.specs.declared.address.Mac.{Mac};
ghost use Rattle.mesh_model.specs.Acts.TableRows.{held_within, is_within_limits, other_containers, passed_containers, way_reply};
ghost use Rattle.mesh_model.specs.Knowledge.Known.{Knowledge, known_at};
ghost use Rattle.mesh_model.specs.Knowledge.Told.{message_in, stamp_told};
ghost use Rattle.mesh_model.specs.Packets.Containers.{containers_of};
ghost use Rattle.mesh_model.specs.Packets.Contents.{first_table};
ghost use Rattle.mesh_model.specs.Tables.Answers.{held_reply};
ghost use Rattle.node_ground.specs.KnowledgeStands.{KnowledgeStands};
ghost use Rattle.node_ground.specs.Puts.{Puts};
ghost use Rattle.node_ground.specs.Sending.{FitsParts};
ghost use Rattle.tt_global.specs.Globals.{asked_version};
ghost use Rattle.tt_sync.specs.Answers.{answer_in};

use crate::replies::{ReplyWay, send_reply};
use mesh_algo::Algo;
use mesh_base::{Mac, Millis, NoMemory};
use mesh_codec::Head;
use mesh_tvlv::TtView;
use mesh_tvlv::layout::REQUEST;
use node_ground::messages::send_over;
use node_ground::packing::is_within_limits;
use node_ground::reading::{first_table, has_flag, sums_in};
use node_ground::{NodeErr, NodeKnowledge, Place, Port};
use tt_sync::{AnswerErr, Reply, answer_other};
use tt_table::Table;

// The table that is held of a live originator and is within what a node may have, with its
// byte.
fn held_within<A: Algo>(kept: &NodeKnowledge<A>, now: Millis, orig: Mac) -> Option<(u8, &Table)>
    ensures held { (me : Mac) (known : Knowledge) → KnowledgeStands A.stands kept.now me known →
        option_map asked_version result
        ≡ held_within (known_at (A.queries me) known now orig).held }
    ensures within { IfSome result (λ held. IsTrue (is_within_limits (asked_version held))) }
{
    if !kept.algo.live(now, orig) {
        return None;
    }
    let (byte, table) = kept.globals.held(orig)?;
    if !is_within_limits(table) {
        return None;
    }
    Some((byte, table))
}

// The answer that a node on the way has to a request under a byte and sums, where it has one.
fn way_answer<A: Algo>(
    kept: &NodeKnowledge<A>,
    now: Millis,
    orig: Mac,
    table: &TtView<'_>,
) -> Result<Option<Reply>, NoMemory>
    requires { (me : Mac) × (known : Knowledge) × KnowledgeStands A.stands kept.now me known }
    ensures answer { IfOk result (λ answer. (me : Mac) (known : Knowledge) →
        KnowledgeStands A.stands kept.now me known →
        option_map answer_in answer ≡ held_reply (stamp_told table.now)
        (held_within (known_at (A.queries me) known now orig).held)) }
    ensures fits { IfOk result (λ answer. IfSome answer (λ reply. FitsParts (answer_in reply))) }
{
    if held_within(kept, now, orig).is_none() {
        return Ok(None);
    }
    let asked = sums_in(kept.alloc, table)?;
    match answer_other(&kept.globals, orig, table.ttvn(), &asked) {
        Ok(reply) => Ok(Some(reply)),
        Err(AnswerErr::NotHeld { .. }) => Ok(None),
        Err(AnswerErr::Memory) => Err(NoMemory),
    }
}

// The answer that a node on the way has to containers, where they are a request and it has one.
fn answer_in_stead<A: Algo>(
    kept: &NodeKnowledge<A>,
    now: Millis,
    orig: Mac,
    tail: &[u8],
) -> Result<Option<Reply>, NoMemory>
    requires { (me : Mac) × (known : Knowledge) × KnowledgeStands A.stands kept.now me known }
    ensures answer { IfOk result (λ answer. (me : Mac) (known : Knowledge) →
        KnowledgeStands A.stands kept.now me known →
        option_map answer_in answer ≡ way_reply (A.queries me) known now orig
        (message_in (first_table (containers_of tail.now)))) }
    ensures fits { IfOk result (λ answer. IfSome answer (λ reply. FitsParts (answer_in reply))) }
{
    let Some(table) = first_table(tail) else {
        return Ok(None);
    };
    if !has_flag(table.flags(), REQUEST) {
        return Ok(None);
    }
    let answer = way_answer(kept, now, orig, &table)?;
    Ok(answer)
}

// Containers go on, while hops are left.
fn pass_on<A: Algo, P: Port>(
    kept: &NodeKnowledge<A>,
    port: &mut P,
    at: Place,
    ttl: u8,
    dst: Mac,
    src: Mac,
    tail: &[u8],
) -> Result<(), NodeErr>
    requires fits { length tail.now ≤ 65535 }
    ensures { (known : Knowledge) → KnowledgeStands A.stands kept.now at.me known →
        Puts P.takes P.same P.over port.old
        (passed_containers (A.queries at.me) known at.now ttl dst src tail.now)
        result port.new }
{
    if ttl <= 1 {
        return Ok(());
    }
    let head = Head::Utvlv {
        ttl: ttl - 1,
        dst,
        src,
    };
    let next = kept.algo.route(at.now, dst);
    send_over(port, next, &head, tail)?;
    Ok(())
}

/// Containers that are for another node.
#[tactic(auto, using(node_ground::proofs::PutsLemmas::stops_free), unfolding(mesh_model::specs::Acts::TableRows::other_containers))]
pub fn containers_past<A: Algo, P: Port>(
    kept: &NodeKnowledge<A>,
    port: &mut P,
    at: Place,
    ttl: u8,
    dst: Mac,
    src: Mac,
    tail: &[u8],
) -> Result<(), NodeErr>
    requires stands { (known : Knowledge) × KnowledgeStands A.stands kept.now at.me known }
    requires fits { length tail.now ≤ 65535 }
    ensures { (known : Knowledge) → KnowledgeStands A.stands kept.now at.me known →
        Puts P.takes P.same P.over port.old
        (other_containers (A.queries at.me) known at.now ttl dst src tail.now)
        result port.new }
{
    let Some(answer) = answer_in_stead(kept, at.now, dst, tail)? else {
        pass_on(kept, port, at, ttl, dst, src, tail)?;
        return Ok(());
    };
    let way = ReplyWay {
        next: kept.algo.route(at.now, src),
        orig: dst,
        asker: src,
    };
    send_reply(kept.alloc, port, way, &answer)?;
    Ok(())
}
