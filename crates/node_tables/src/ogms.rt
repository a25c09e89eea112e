//! The row of originator messages.

ghost use Rattle.std.specs.Prelude.{◌≡◌, ◌≤◌, ◌+◌, ◌*◌, ℕ, length, OnOk};
ghost use Rattle.mesh_model.specs.Acts.Rows.{ogm_acts, taken_acts};
ghost use Rattle.mesh_model.specs.Acts.TableRows.{request_acts};
ghost use Rattle.mesh_model.specs.Knowledge.Known.{Knowledge};
ghost use Rattle.mesh_model.specs.Knowledge.Steps.{after_announcement, after_message, after_taken, request_out, with_life, with_offered};
ghost use Rattle.mesh_model.specs.Knowledge.Told.{message_with};
ghost use Rattle.mesh_model.specs.Packets.Containers.{containers_of};
ghost use Rattle.mesh_model.specs.Packets.Contents.{first_table};
ghost use Rattle.mesh_model.specs.Routes.Queries.{Queries};
ghost use Rattle.node_ground.specs.KnowledgeStands.{KnowledgeStands, coming};
ghost use Rattle.node_ground.specs.Puts.{Puts};
ghost use Rattle.node_ground.specs.Reading.{message};

use crate::announcements::{begin_life, is_told_again, release, take_announcement};
use mesh_algo::Algo;
use mesh_base::Mac;
use mesh_codec::{Head, Packet};
use mesh_tvlv::TtView;
use node_ground::messages::{send_message, send_over};
use node_ground::packing::{FIRST_TTL, request_containers};
use node_ground::reading::{announcement_in, first_table, offer_in};
use node_ground::{Coming, NodeErr, NodeKnowledge, Port};

/// Asks for what is wanted after an announcement that is accepted.
#[tactic(auto, using(node_ground::proofs::PutsLemmas::stops_free))]
fn accept<A: Algo, P: Port>(
    kept: &mut NodeKnowledge<A>,
    port: &mut P,
    me: Mac,
    came: Coming,
    orig: Mac,
    begins: bool,
    table: &TtView<'_>,
) -> Result<(), NodeErr>
    requires fits { 8 + 8 * length table.now.vlans ≤ 65535 }
    ensures puts { (known : Knowledge) → KnowledgeStands A.stands kept.old me known →
        let then : Knowledge = with_life orig begins known in
        let q : Queries = A.queries me in
        Puts P.takes P.same P.over port.old
        (request_acts me (q.route then.routes came.now orig) (message orig table.now)
        (request_out q then came.now (message orig table.now))) result port.new }
    ensures noted { (known : Knowledge) (number : ℕ) →
        KnowledgeStands A.stands kept.old me known →
        OnOk result (KnowledgeStands A.stands kept.new me
        (after_announcement (A.queries me) (coming came number) (message orig table.now)
        (with_life orig begins known))) }
{
    begin_life(kept, orig, begins);
    if is_told_again(kept, orig, table) {
        release(kept, orig);
        return Ok(());
    }
    let announced = announcement_in(kept.alloc, table)?;
    let Some(request) = take_announcement(kept, came, orig, &announced)? else {
        return Ok(());
    };
    let containers = request_containers(kept.alloc, request, &announced)?;
    let head = Head::Utvlv {
        ttl: FIRST_TTL,
        dst: orig,
        src: me,
    };
    let next = kept.algo.route(came.now, orig);
    send_over(port, next, &head, containers.as_slice())?;
    Ok(())
}

/// An originator message that is taken: it may be sent on; where it is accepted, what it offers is
/// noted, and something may be asked for.
#[tactic(auto, using(node_ground::proofs::PutsLemmas::stops_free))]
fn heard<A: Algo, P: Port>(
    kept: &mut NodeKnowledge<A>,
    port: &mut P,
    me: Mac,
    came: Coming,
    orig: Mac,
    packet: &Packet<'_>,
    table: &TtView<'_>,
) -> Result<(), NodeErr>
    requires stands { (known : Knowledge) × KnowledgeStands A.stands kept.old me known }
    requires tail { length packet.now.tail.now ≤ 65535 }
    requires fits { 8 + 8 * length table.now.vlans ≤ 65535 }
    ensures puts { (known : Knowledge) (number : ℕ) →
        KnowledgeStands A.stands kept.old me known →
        Puts P.takes P.same P.over port.old
        (ogm_acts (A.queries me) me (coming came number) packet.now.head
        (message orig table.now) packet.now.tail.now known) result port.new }
    ensures noted { (known : Knowledge) (number : ℕ) →
        KnowledgeStands A.stands kept.old me known →
        let head = packet.now.head in
        let q = A.queries me in
        OnOk result (KnowledgeStands A.stands kept.new me
        (with_offered (q.hear known.routes came.now came.from came.tp head).accepted orig
        packet.now.tail.now
        (after_message q (coming came number) head (message orig table.now) known))) }
{
    let hearing = kept.algo.hear(came.now, came.from, came.tp, &packet.head)?;
    send_message(port, &hearing.forward, packet.tail)?;
    if hearing.accepted {
        accept(kept, port, me, came, orig, hearing.began, table)?;
        let offer = offer_in(packet.tail);
        kept.services.offers.note(orig, offer)?;
    }
    Ok(())
}

/// An originator message, where it has a translation table.
pub fn ogm<A: Algo, P: Port>(
    kept: &mut NodeKnowledge<A>,
    port: &mut P,
    me: Mac,
    came: Coming,
    orig: Mac,
    packet: &Packet<'_>,
) -> Result<(), NodeErr>
    requires stands { (known : Knowledge) × KnowledgeStands A.stands kept.old me known }
    requires tail { length packet.now.tail.now ≤ 65535 }
    ensures puts { (known : Knowledge) (number : ℕ) →
        KnowledgeStands A.stands kept.old me known →
        Puts P.takes P.same P.over port.old
        (taken_acts (A.queries me) me (coming came number) packet.now.head
        (message_with orig (first_table (containers_of packet.now.tail.now)))
        packet.now.tail.now known) result port.new }
    ensures noted { (known : Knowledge) (number : ℕ) →
        KnowledgeStands A.stands kept.old me known →
        OnOk result (KnowledgeStands A.stands kept.new me
        (after_taken (A.queries me) (coming came number) packet.now.head
        (message_with orig (first_table (containers_of packet.now.tail.now)))
        packet.now.tail.now known)) }
{
    let Some(table) = first_table(packet.tail) else {
        return Ok(());
    };
    heard(kept, port, me, came, orig, packet, &table)?;
    Ok(())
}
