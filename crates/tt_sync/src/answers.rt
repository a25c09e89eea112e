ghost use Rattle.std.specs.Prelude.{◌≡◌, ◌==◌, ◌&&◌, not, if◌then◌else◌, ℕ, List, true, None, Ok, option_map, IfErr, IfOk};
ghost use Rattle.mesh_model.specs.Clients.Mentions.{Mention};
ghost use Rattle.mesh_model.specs.Commits.Announcements.{told_changes};
ghost use Rattle.mesh_model.specs.Commits.History.{History};
ghost use Rattle.mesh_model.specs.Commits.Versions.{last_commit};
ghost use Rattle.mesh_model.specs.Tables.Answers.{full_reply, other_answer, own_reply};
ghost use Rattle.mesh_model.specs.Tables.Known.{TableCalls, known_by};
ghost use Rattle.mesh_model.specs.Tables.Versions.{Version};
ghost use Rattle.mesh_laws.specs.HeldLaws.{CameFrom};
ghost use Rattle.tt_global.specs.Globals.{GlobalsStand};
ghost use Rattle.tt_global.specs.Kept.{stamp};
ghost use Rattle.tt_local.specs.Locals.{LocalsStand};
ghost use Rattle.tt_sync.specs.Answers.{AnswerTells, RepliesCommit, RepliesWhole, answer_in};

use crate::failure::AnswerErr;
use mesh_base::{Mac, NoMemory};
use tt_global::Globals;
use tt_local::Locals;
use tt_table::{Changes, Sums, Table};

/// What a request is answered with: the byte and the sums of the table to which the answer leads,
/// and its records, the whole table where `full`, else changes.
#[derive(Debug, Drop)]
pub struct Reply {
    pub full: bool,
    pub byte: u8,
    pub sums: Sums,
    pub records: Changes,
}

impl Reply {
    // The whole table under a byte.
    fn whole(byte: u8, table: &Table) -> Result<Reply, NoMemory>
        ensures { IfOk result (λ reply. answer_in reply
            ≡ full_reply (record { byte = byte; table = table.now.entries })) }
    {
        let sums = table.sums().copy()?;
        let records = table.additions()?;
        Ok(Reply {
            full: true,
            byte,
            sums,
            records,
        })
    }
}

// The changes of the last commit, where changes are asked for under its byte and a message may
// carry them.
fn asked_changes(locals: &Locals, full: bool, byte: u8) -> Option<&Changes>
    ensures { (mentions : List Mention) (history : History) (since : ℕ) →
        LocalsStand locals.now mentions history since →
        option_map (λ changes. changes.now) result
        ≡ (if not full && (byte == (last_commit history.commits).byte)
        then told_changes history else None) }
{
    if full || byte != locals.last_byte() {
        return None;
    }
    locals.told_changes()
}

/// Answers for a node's own table, from its last commit: with the changes of that commit, where
/// changes are asked for under its byte and a message may carry them, else with the whole table.
pub fn answer_own(locals: &Locals, full: bool, byte: u8) -> Result<Reply, NoMemory>
    ensures answer { IfOk result (λ reply. (mentions : List Mention) (history : History)
        (since : ℕ) → LocalsStand locals.now mentions history since →
        answer_in reply
        ≡ own_reply full byte (last_commit history.commits) (told_changes history)) }

    // It carries a commit; in full it is what a node takes that was told of the last commit.
    ensures commit { IfOk result (λ reply. (mentions : List Mention) (history : History)
        (since : ℕ) → LocalsStand locals.now mentions history since →
        RepliesCommit history.commits reply) }
    ensures whole { IfOk result (λ reply. (mentions : List Mention) (history : History)
        (since : ℕ) → LocalsStand locals.now mentions history since → reply.full ≡ true →
        RepliesWhole (last_commit history.commits) reply) }
{
    let last = locals.last_byte();
    let Some(changes) = asked_changes(locals, full, byte) else {
        let reply = Reply::whole(last, locals.last_table())?;
        return Ok(reply);
    };
    let sums = locals.last_sums().copy()?;
    let records = changes.copy()?;
    Ok(Reply {
        full: false,
        byte: last,
        sums,
        records,
    })
}

/// Answers in an originator's stead: with the table that is held of it, in full, where that has the
/// asked byte and sums.
pub fn answer_other(globals: &Globals, orig: Mac, byte: u8, sums: &Sums) -> Result<Reply, AnswerErr>
    ensures ok { (calls : TableCalls) → GlobalsStand globals.now calls → IfOk result (λ reply.
        other_answer (known_by calls orig).held (stamp byte sums.now) ≡ Ok (answer_in reply)) }
    ensures cause { (calls : TableCalls) → GlobalsStand globals.now calls → IfErr result (λ e.
        AnswerTells e (other_answer (known_by calls orig).held (stamp byte sums.now))) }

    // It carries a commit in full, while all that came tells of commits without an alias.
    ensures commit { (calls : TableCalls) (made : List Version) → GlobalsStand globals.now calls →
        CameFrom made orig calls →
        IfOk result (λ reply. (reply.full ≡ true) × RepliesCommit made reply) }
{
    let asked = byte;
    let Some((byte, table)) = globals.held(orig) else {
        let (held, vid) = (None, None);
        return Err(AnswerErr::NotHeld { held, asked, vid });
    };
    if byte != asked {
        let (held, vid) = (Some(byte), None);
        return Err(AnswerErr::NotHeld { held, asked, vid });
    }
    if let Some(difference) = table.sums().first_difference(sums) {
        let (held, vid) = (Some(byte), Some(difference.vid));
        return Err(AnswerErr::NotHeld { held, asked, vid });
    }
    let reply = Reply::whole(byte, table)?;
    Ok(reply)
}
