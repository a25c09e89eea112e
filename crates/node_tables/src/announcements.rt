//! What a node does with an announcement of an originator, and with a life of it that begins.

ghost use Rattle.std.specs.Prelude.{◌≡◌, ◌<◌, ◌∷◌, ℕ, if◌then◌else◌, None, IfOk, IsTrue, OnOk};
ghost use Rattle.mesh_base.specs.declared.address.Mac.{Mac};
ghost use Rattle.mesh_model.specs.Knowledge.Known.{Knowledge, agreed_byte};
ghost use Rattle.mesh_model.specs.Knowledge.Steps.{after_announcement, asked_by_request, may_ask, released_under, request_out, with_life};
ghost use Rattle.mesh_model.specs.Knowledge.Told.{message_changes, stamp_told};
ghost use Rattle.mesh_model.specs.Packets.Bodies.{TtData};
ghost use Rattle.mesh_model.specs.Tables.Judging.{announcement_row, wanted_request};
ghost use Rattle.mesh_model.specs.Tables.Known.{Announced, known_by};
ghost use Rattle.node_ground.specs.KnowledgeStands.{KnowledgeStands, coming};
ghost use Rattle.node_ground.specs.Reading.{Tells, message};
ghost use Rattle.tt_global.specs.Kept.{stamp_in};

use mesh_algo::Algo;
use mesh_base::{Mac, Millis, NoMemory, Steps};
use mesh_model::Request;
use mesh_tvlv::TtView;
use node_ground::reading::tells;
use node_ground::{Coming, NodeKnowledge};
use std::marker::Brand;
use std::sync::ledger::{Blank, Ledger};
use tt_global::wanted_request;
use tt_sync::AskErr;
use tt_table::Announcement;

/// Drops what was known of an originator whose life begins.
pub(crate) fn begin_life<A: Algo>(kept: &mut NodeKnowledge<A>, orig: Mac, begins: bool)
    ensures { (me : Mac) (known : Knowledge) → KnowledgeStands A.stands kept.old me known →
        KnowledgeStands A.stands kept.new me (with_life orig begins known) }
{
    if begins {
        kept.globals.drop_orig(orig);
        kept.sync.forget(orig);
    }
}

/// Ends the marks of an originator that are answered by the table that is held of it in
/// agreement.
pub(crate) fn release<A: Algo>(kept: &mut NodeKnowledge<A>, orig: Mac)
    ensures { (me : Mac) (known : Knowledge) → KnowledgeStands A.stands kept.old me known →
        KnowledgeStands A.stands kept.new me (record known {
          marks =
              released_under orig (agreed_byte (known_by known.tables orig)) known.marks;
        }) }
{
    if !kept.sync.has_marks() {
        return;
    }
    if let Some(byte) = kept.globals.agreed_byte(orig) {
        kept.sync.release(orig, byte);
    }
}

/// Notes that an originator is asked for what is wanted of it, if anything, where it may be
/// asked, and answers what it is asked for.
pub(crate) fn ask<A: Algo>(
    kept: &mut NodeKnowledge<A>,
    now: Millis,
    orig: Mac,
    wanted: Option<Request>,
) -> Result<Option<Request>, NoMemory>
    ensures asked { IfOk result (λ request. (me : Mac) (known : Knowledge) →
        KnowledgeStands A.stands kept.old me known →
        request ≡ (if may_ask (A.queries me) known now orig then wanted else None)) }
    ensures noted { IfOk result (λ request. (me : Mac) (known : Knowledge) →
        KnowledgeStands A.stands kept.old me known →
        KnowledgeStands A.stands kept.new me (record known {
          marks =
              asked_by_request now orig request known.marks;
        })) }
{
    if wanted.is_none() || kept.algo.route(now, orig).is_none() {
        return Ok(None);
    }
    match kept.sync.ask(now, orig) {
        Ok(()) => Ok(wanted),
        Err(AskErr::TooSoon { .. }) => Ok(None),
        Err(AskErr::Memory) => Err(NoMemory),
    }
}

/// Whether a translation table of an originator tells again what it announced last, which is held:
/// nothing is noted of it then, and nothing is wanted.
#[inline(always)]
pub(crate) fn is_told_again<A: Algo>(kept: &NodeKnowledge<A>, orig: Mac, table: &TtView<'_>) -> bool
    ensures noted { IsTrue result → (me : Mac) (known : Knowledge) (number : ℕ) →
        KnowledgeStands A.stands kept.now me known →
        KnowledgeStands A.stands kept.now me (record known {
          tables =
              Announced orig number (stamp_told table.now) (message_changes table.now)
              ∷ known.tables;
        }) }
    ensures unwanted { IsTrue result → (me : Mac) (known : Knowledge) →
        KnowledgeStands A.stands kept.now me known →
        wanted_request (announcement_row (known_by known.tables orig).held
        (stamp_told table.now) (message_changes table.now)).outcome ≡ None }
{
    match kept.globals.settled(orig) {
        Some((byte, sums)) => tells(table, byte, sums),
        None => false,
    }
}

// Notes an announcement of an originator, and answers what is wanted of it then.
fn note<A: Algo, L: Ledger>(
    kept: &mut NodeKnowledge<A>,
    orig: Mac,
    announced: &Announcement,
    blank: Blank,
) -> Result<Option<Request>, NoMemory>
    requires name { blank.name ≡ L.name }
    requires parts { blank.parts ≡ L.parts }
    requires some { 0 < blank.parts }
    ensures wanted { IfOk result (λ wanted. (me : Mac) (known : Knowledge) →
        KnowledgeStands A.stands kept.old me known →
        wanted ≡ wanted_request (announcement_row (known_by known.tables orig).held
        (stamp_in announced.now) announced.now.changes).outcome) }
    ensures noted { OnOk result ((me : Mac) (known : Knowledge) (number : ℕ) →
        KnowledgeStands A.stands kept.old me known →
        KnowledgeStands A.stands kept.new me (record known {
          tables =
              Announced orig number (stamp_in announced.now) announced.now.changes
              ∷ known.tables;
        })) }
{
    let mut steps = Steps::<L>::new(blank);
    let heard = kept.globals.announce(orig, announced, &mut steps)?;
    Ok(wanted_request(heard))
}

/// Takes an announcement of an originator, and answers what it is asked for then.
pub(crate) fn take_announcement<A: Algo>(
    kept: &mut NodeKnowledge<A>,
    came: Coming,
    orig: Mac,
    announced: &Announcement,
) -> Result<Option<Request>, NoMemory>
    ensures asked { IfOk result (λ request. (me : Mac) (known : Knowledge) (table : TtData) →
        KnowledgeStands A.stands kept.old me known → Tells announced.now table →
        request ≡ request_out (A.queries me) known came.now (message orig table)) }
    ensures noted { OnOk result ((me : Mac) (known : Knowledge) (table : TtData)
        (number : ℕ) →
        KnowledgeStands A.stands kept.old me known → Tells announced.now table →
        KnowledgeStands A.stands kept.new me (after_announcement (A.queries me)
        (coming came number) (message orig table) known)) }
{
    let wanted = note::<A, Brand>(kept, orig, announced, Blank::new(1))?;
    release(kept, orig);
    let request = ask(kept, came.now, orig, wanted)?;
    Ok(request)
}
