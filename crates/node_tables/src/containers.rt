//! The row of containers that are for this node.

ghost use Rattle.std.specs.Prelude.{◌≡◌, ◌++◌, ◌&&◌, List, OnOk};
ghost use Rattle.mesh_base.specs.declared.address.Mac.{Mac};
ghost use Rattle.mesh_model.specs.declared.table_change.Change.{Change};
ghost use Rattle.mesh_model.specs.Acts.BridgeRows.{unclaim_acts};
ghost use Rattle.mesh_model.specs.Acts.TableRows.{own_answer};
ghost use Rattle.mesh_model.specs.Acts.Rows.{Own};
ghost use Rattle.mesh_model.specs.Knowledge.Known.{Knowledge};
ghost use Rattle.mesh_model.specs.Knowledge.Steps.{after_answer, after_containers};
ghost use Rattle.mesh_model.specs.Knowledge.Told.{Asks, carried_told, message_in, part_told, stamp_told};
ghost use Rattle.mesh_model.specs.Packets.Containers.{containers_of};
ghost use Rattle.mesh_model.specs.Packets.Contents.{first_part, first_roaming, first_table};
ghost use Rattle.mesh_model.specs.Packets.Numbers.{full_table_flag, response_flag};
ghost use Rattle.mesh_model.specs.Routes.Ogm.{has_flag};
ghost use Rattle.node_ground.specs.KnowledgeStands.{KnowledgeStands, place};
ghost use Rattle.node_ground.specs.OwnStands.{OwnStands};
ghost use Rattle.node_ground.specs.Puts.{Puts};
ghost use Rattle.node_lans.specs.BridgeStands.{BridgeStands};
ghost use Rattle.node_tables.specs.AnswerKinds.{carried_by};

use crate::answers::{AnswerKind, mark_roamed, take_answer};
use crate::replies::{ReplyWay, send_reply};
use mesh_algo::Algo;
use mesh_base::{Mac, Millis, NoMemory};
use mesh_tvlv::TtView;
use mesh_tvlv::layout::{FULL_TABLE, REQUEST, RESPONSE};
use node_ground::reading::{first_part, first_roaming, first_table, has_flag};
use node_ground::{NodeErr, NodeKnowledge, Place, Port};
use node_lans::Bridge;
use node_lans::bridging::unclaim;
use tt_local::Locals;
use tt_sync::answer_own as own_reply;

// Answers a request for the own table.
#[tactic(auto, unfolding(mesh_model::specs::Acts::TableRows::own_answer))]
fn answer_own<A: Algo, P: Port>(
    kept: &NodeKnowledge<A>,
    port: &mut P,
    locals: &Locals,
    at: Place,
    asker: Mac,
    table: &TtView<'_>,
) -> Result<(), NodeErr>
    requires { (own : Own) × OwnStands locals.now own at.now }
    ensures { (known : Knowledge) (own : Own) → KnowledgeStands A.stands kept.now at.me known →
        OwnStands locals.now own at.now →
        Puts P.takes P.same P.over port.old
        (own_answer (A.queries at.me) at.me known at.now own.last own.told asker
        (Asks (has_flag full_table_flag table.now.flags) (stamp_told table.now)))
        result port.new }
{
    let full = has_flag(table.flags(), FULL_TABLE);
    let reply = own_reply(locals, full, table.ttvn())?;
    let way = ReplyWay {
        next: kept.algo.route(at.now, asker),
        orig: at.me,
        asker,
    };
    send_reply(kept.alloc, port, way, &reply)?;
    Ok(())
}

// What an answer in one packet brings, by its flags.
fn kind_by_flags(flags: u8) -> AnswerKind
    ensures { (records : List Change) → carried_by result records
        ≡ carried_told (has_flag full_table_flag flags) records }
{
    if has_flag(flags, FULL_TABLE) {
        AnswerKind::Full
    } else {
        AnswerKind::Changes
    }
}

// Answers a request for the own table, or takes an answer, where containers hold one of them.
#[tactic(auto, unfolding(mesh_model::specs::Acts::TableRows::own_answer))]
fn table_here<A: Algo, P: Port>(
    kept: &mut NodeKnowledge<A>,
    port: &mut P,
    locals: &Locals,
    at: Place,
    src: Mac,
    tail: &[u8],
) -> Result<(), NodeErr>
    requires { (own : Own) × OwnStands locals.now own at.now }
    ensures puts { (known : Knowledge) (own : Own) →
        KnowledgeStands A.stands kept.old at.me known → OwnStands locals.now own at.now →
        Puts P.takes P.same P.over port.old
        (own_answer (A.queries at.me) at.me known at.now own.last own.told src
        (message_in (first_table (containers_of tail.now)))) result port.new }
    ensures noted { (known : Knowledge) → KnowledgeStands A.stands kept.old at.me known →
        OnOk result (KnowledgeStands A.stands kept.new at.me
        (after_answer (A.queries at.me) at.now src
        (message_in (first_table (containers_of tail.now))) known)) }
{
    let Some(table) = first_table(tail) else {
        return Ok(());
    };
    if has_flag(table.flags(), REQUEST) {
        answer_own(kept, port, locals, at, src, &table)?;
        return Ok(());
    }
    if has_flag(table.flags(), RESPONSE) {
        take_answer(kept, at.now, src, kind_by_flags(table.flags()), &table)?;
    }
    Ok(())
}

// Whether a part with these flags is one of an answer with a whole table.
fn is_of_full_answer(flags: u8) -> bool
    ensures { result ≡ (has_flag response_flag flags && has_flag full_table_flag flags) }
{
    has_flag(flags, RESPONSE) && has_flag(flags, FULL_TABLE)
}

// Takes a part of an answer, where containers hold one.
fn part_here<A: Algo>(
    kept: &mut NodeKnowledge<A>,
    now: Millis,
    src: Mac,
    tail: &[u8],
) -> Result<(), NoMemory>
    ensures { OnOk result ((me : Mac) (known : Knowledge) →
        KnowledgeStands A.stands kept.old me known →
        KnowledgeStands A.stands kept.new me (after_answer (A.queries me) now src
        (part_told (first_part (containers_of tail.now))) known)) }
{
    let Some((table, number, count)) = first_part(tail) else {
        return Ok(());
    };
    if !is_of_full_answer(table.flags()) {
        return Ok(());
    }
    take_answer(kept, now, src, AnswerKind::Part { number, count }, &table)?;
    Ok(())
}

/// Containers that are for this node.
pub fn containers_here<A: Algo, P: Port>(
    kept: &mut NodeKnowledge<A>,
    port: &mut P,
    locals: &Locals,
    bridge: &Bridge,
    at: Place,
    src: Mac,
    tail: &[u8],
) -> Result<(), NodeErr>
    requires { (own : Own) × OwnStands locals.now own at.now }
    ensures puts { (known : Knowledge) (own : Own) →
        KnowledgeStands A.stands kept.old at.me known → OwnStands locals.now own at.now →
        BridgeStands bridge.now at.me own.bridge →
        Puts P.takes P.same P.over port.old
        (own_answer (A.queries at.me) at.me known at.now own.last own.told src
        (message_in (first_table (containers_of tail.now)))
        ++ unclaim_acts (place at) own.bridge (first_roaming (containers_of tail.now)))
        result port.new }
    ensures noted { (known : Knowledge) → KnowledgeStands A.stands kept.old at.me known →
        OnOk result (KnowledgeStands A.stands kept.new at.me
        (after_containers (A.queries at.me) at.now src tail.now known)) }
{
    table_here(kept, port, locals, at, src, tail)?;
    part_here(kept, at.now, src, tail)?;
    let roamed = first_roaming(tail);
    unclaim(kept.alloc, port, bridge, at, roamed)?;
    mark_roamed(kept, at.now, src, roamed)?;
    Ok(())
}
