//! The answers for tables that a node takes, and the marks of clients that roamed.

ghost use Rattle.std.specs.Prelude.{◌≡◌, ◌<◌, ◌∷◌, OnOk};
ghost use Rattle.mesh_base.specs.declared.address.Mac.{Mac};
ghost use Rattle.mesh_model.specs.Knowledge.Known.{Knowledge};
ghost use Rattle.mesh_model.specs.Knowledge.Steps.{after_answer, after_roaming};
ghost use Rattle.mesh_model.specs.Knowledge.Told.{Answers, message_changes, stamp_told};
ghost use Rattle.mesh_model.specs.Tables.Known.{Answered, TableCalls};
ghost use Rattle.node_ground.specs.KnowledgeStands.{KnowledgeStands};
ghost use Rattle.node_tables.specs.AnswerKinds.{carried_by};
ghost use Rattle.tt_global.specs.Globals.{GlobalsStand};
ghost use Rattle.tt_global.specs.Kept.{stamp_in};

use crate::announcements::release;
use mesh_algo::Algo;
use mesh_base::{Key, Mac, Millis, NoMemory, Steps};
use mesh_tvlv::TtView;
use node_ground::NodeKnowledge;
use node_ground::reading::announcement_in;
use std::marker::Brand;
use std::sync::ledger::{Blank, Ledger};
use tt_global::Globals;
use tt_table::Announcement;

/// What an answer for a table brings: the whole table, a part of it, by its number, of so many, or
/// changes.
#[derive(Clone, Copy)]
pub(crate) enum AnswerKind {
    Full,
    Part { number: u16, count: u16 },
    Changes,
}

// Notes an answer for the table of an originator.
fn note_answer<L: Ledger>(
    globals: &mut Globals,
    orig: Mac,
    kind: AnswerKind,
    answered: &Announcement,
    blank: Blank,
) -> Result<(), NoMemory>
    requires name { blank.name ≡ L.name }
    requires parts { blank.parts ≡ L.parts }
    requires some { 0 < blank.parts }
    ensures { (calls : TableCalls) → GlobalsStand globals.old calls →
        OnOk result (GlobalsStand globals.new (Answered orig (stamp_in answered.now)
        (carried_by kind answered.now.changes) ∷ calls)) }
{
    let mut steps = Steps::<L>::new(blank);
    let Announcement {
        byte,
        sums,
        changes,
    } = answered;
    match kind {
        AnswerKind::Full => globals.take_full(orig, *byte, sums, changes, &mut steps)?,
        AnswerKind::Part { number, count } => {
            globals.take_part(orig, *byte, sums, number, count, changes, &mut steps)?
        }
        AnswerKind::Changes => globals.take_changes(orig, *byte, sums, changes, &mut steps)?,
    };
    Ok(())
}

/// Takes an answer for the table of an originator, while that is live.
pub(crate) fn take_answer<A: Algo>(
    kept: &mut NodeKnowledge<A>,
    now: Millis,
    orig: Mac,
    kind: AnswerKind,
    table: &TtView<'_>,
) -> Result<(), NoMemory>
    ensures { OnOk result ((me : Mac) (known : Knowledge) →
        KnowledgeStands A.stands kept.old me known →
        KnowledgeStands A.stands kept.new me (after_answer (A.queries me) now orig
        (Answers (stamp_told table.now) (carried_by kind (message_changes table.now))) known)) }
{
    if !kept.algo.live(now, orig) {
        return Ok(());
    }
    let answered = announcement_in(kept.alloc, table)?;
    note_answer::<Brand>(&mut kept.globals, orig, kind, &answered, Blank::new(1))?;
    release(kept, orig);
    Ok(())
}

/// Marks the client that a node advertises, if any, as having roamed to it.
pub(crate) fn mark_roamed<A: Algo>(
    kept: &mut NodeKnowledge<A>,
    now: Millis,
    src: Mac,
    roamed: Option<Key>,
) -> Result<(), NoMemory>
    ensures { OnOk result ((me : Mac) (known : Knowledge) →
        KnowledgeStands A.stands kept.old me known →
        KnowledgeStands A.stands kept.new me (after_roaming (A.queries me) now src roamed known)) }
{
    let Some(key) = roamed else {
        return Ok(());
    };
    let told = kept.told_at(now, src);
    kept.sync.mark(now, key, src, told)?;
    Ok(())
}
