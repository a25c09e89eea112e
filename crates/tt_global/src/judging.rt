ghost use Rattle.std.specs.Prelude.{◌≡◌, ◌+◌, ◌≤◌, [], length, option_map, IfErr, IfOk, IfSome, IsOk, None, Some, ◌≢◌, true, false};
ghost use Rattle.mesh_model.specs.Tables.Differences.{first_difference};
ghost use Rattle.mesh_model.specs.Tables.Gathered.{Gathered, gathered_records, is_bad_part, with_table_part};
ghost use Rattle.mesh_model.specs.Tables.Judging.{Carried, InChanges, InFull, InPart, announcement_row, becomes, carried_row, heard_trial, held_row, next_byte_row, part_row, same_byte_row, stays, taken_trial, trial, wanted_request};
ghost use Rattle.mesh_model.specs.Tables.Known.{gathered_after, matches_told, while_missing};
ghost use Rattle.mesh_model.specs.Tables.Sums.{sums_of};
ghost use Rattle.tt_global.specs.Kept.{GathersBy, answer_of, gathered_in, good_of, held_in, parts_then, row_in, stamp, stamp_in, told_in, trial_in, version_of};
ghost use Rattle.tt_global.specs.Lent.{lent};
ghost use Rattle.tt_table.specs.Sums.{named_sums};

use crate::gathered::PartBeside;
use crate::known::{HeldTable, KnownTable};
use mesh_base::{Entry, NoMemory, Steps};
use mesh_model::{Difference, Heard, Request, Taken};
use std::alloc::Global;
use std::sync::ledger::Ledger;
use tt_table::{Announcement, Changes, Sums, Table};

/// The most pieces of a table that are put together.
const MOST_PIECES: u16 = 4;

/// An outcome, and the table that is held then where it is another than before.
#[derive(Debug, Drop)]
pub(crate) struct Judged<T> {
    pub(crate) outcome: T,
    pub(crate) table: Option<Table>,
}

/// How changes do on a table: the first that fails has this entry, the sums differ from the told
/// ones, or they lead to this table.
#[derive(Debug, Drop)]
pub(crate) enum Trial {
    Fails { entry: Entry },
    Differs { difference: Difference },
    Leads { table: Table },
}

/// What becomes of the parts that are gathered.
#[derive(Clone, Copy, Debug, PartialEq, Eq)]
pub(crate) enum Parts {
    /// They stay as they were.
    Stay,
    /// The part that came is noted.
    Grow,
    /// They are dropped, since none is missing.
    End,
}

/// What a node asks for after an announcement.
pub fn wanted_request(heard: Heard) -> Option<Request>
    ensures { result ≡ wanted_request heard }
{
    match heard {
        Heard::Emptied | Heard::Same | Heard::Applied => None,
        Heard::Unheld { .. } | Heard::SumDiffers { .. } | Heard::Gap { .. } | Heard::Clash { .. } =>
            Some(Request::Full),
        Heard::Bare { .. } => Some(Request::Changes),
    }
}

/// What an announcement makes of what is held.
pub(crate) fn judge_announcement<L: Ledger>(
    alloc: Global,
    held: Option<&HeldTable>,
    announced: &Announcement,
    steps: &mut Steps<L>,
) -> Result<Judged<Heard>, NoMemory>
    ensures row { IfOk result (λ judged. row_in judged
        ≡ announcement_row (option_map version_of (lent held.entry)) (stamp_in announced.now)
        announced.now.changes) }
    ensures same { IfSome (option_map version_of (lent held.entry))
        (λ held. held.byte ≡ announced.now.byte) → IsOk result }
    ensures steps { steps.new ≤ steps.old + length announced.now.changes }
{
    if announced.sums.at(0).is_none() {
        return Ok(becomes(Heard::Emptied, Table::new(alloc)));
    }
    match held {
        Some(held) => judge_held(held, announced, steps),
        None => {
            let told = announced.byte;
            Ok(stays(Heard::Unheld { told }))
        }
    }
}

// The same where VLANs are announced and a table is held.
fn judge_held<L: Ledger>(
    held: &HeldTable,
    announced: &Announcement,
    steps: &mut Steps<L>,
) -> Result<Judged<Heard>, NoMemory>
    ensures row { IfOk result (λ judged. row_in judged
        ≡ held_row (version_of held.now) (stamp_in announced.now) announced.now.changes) }
    ensures same { held.now.byte ≡ announced.now.byte → IsOk result }
    ensures steps { steps.new ≤ steps.old + length announced.now.changes }
{
    if held.byte == announced.byte {
        return Ok(stays(compare(&held.table, &announced.sums)));
    }
    if held.byte.wrapping_add(1) != announced.byte {
        return Ok(stays(Heard::Gap {
            held: held.byte,
            told: announced.byte,
        }));
    }
    judge_next(held, announced, steps)
}

// How a table does that is held under the announced byte.
fn compare(table: &Table, sums: &Sums) -> Heard
    ensures { stays result
        ≡ same_byte_row (first_difference (sums_of table.now.entries) (named_sums sums.now)) }
{
    match table.sums().first_difference(sums) {
        None => Heard::Same,
        Some(Difference { vid, kept, told }) => Heard::SumDiffers { vid, kept, told },
    }
}

// The same where the announced byte is the next.
fn judge_next<L: Ledger>(
    held: &HeldTable,
    announced: &Announcement,
    steps: &mut Steps<L>,
) -> Result<Judged<Heard>, NoMemory>
    ensures row { IfOk result (λ judged. row_in judged
        ≡ next_byte_row (version_of held.now) (stamp_in announced.now) announced.now.changes) }
    ensures steps { steps.new ≤ steps.old + length announced.now.changes }
{
    if announced.changes.len() == 0 {
        return Ok(stays(Heard::Bare {
            held: held.byte,
            told: announced.byte,
        }));
    }
    let table = held.table.copy()?;
    let tried = try_changes(table, &announced.changes, &announced.sums, steps)?;
    Ok(heard_of(tried))
}

// The outcome of an announcement's changes.
fn heard_of(tried: Trial) -> Judged<Heard>
    ensures { row_in result ≡ heard_trial (trial_in tried) }
{
    match tried {
        Trial::Fails { entry } => stays(Heard::Clash { entry }),
        Trial::Differs {
            difference: Difference { vid, kept, told },
        } => stays(Heard::SumDiffers { vid, kept, told }),
        Trial::Leads { table } => becomes(Heard::Applied, table),
    }
}

/// What an answer in full makes of what is kept of an originator.
pub(crate) fn judge_full<L: Ledger>(
    alloc: Global,
    kept: Option<&KnownTable>,
    byte: u8,
    sums: &Sums,
    records: &Changes,
    steps: &mut Steps<L>,
) -> Result<Judged<Taken>, NoMemory>
    ensures row { IfOk result (λ judged. row_in judged
        ≡ answer_of (lent kept.entry) (stamp byte sums.now) (InFull records.now)) }
    ensures steps { steps.new ≤ steps.old + length records.now }
{
    match announced(kept, byte, sums) {
        Err(outcome) => Ok(stays(outcome)),
        Ok(known) => {
            let tried = try_changes(Table::new(alloc), records, &known.sums, steps)?;
            Ok(taken_of(tried))
        }
    }
}

/// What a part of an answer in full makes of what is kept of an originator, and of the parts that
/// are gathered.
pub(crate) fn judge_part<L: Ledger>(
    alloc: Global,
    kept: Option<&KnownTable>,
    byte: u8,
    sums: &Sums,
    number: u16,
    count: u16,
    records: &Changes,
    steps: &mut Steps<L>,
) -> Result<(Judged<Taken>, Parts), NoMemory>
    ensures row { IfOk result (λ judged. row_in judged.0
        ≡ answer_of (lent kept.entry) (stamp byte sums.now) (InPart number count records.now)) }
    ensures parts { IfOk result (λ judged. GathersBy judged.1 (lent kept.entry)
        (with_table_part number count records.now (gathered_in (lent kept.entry)))
        (gathered_after (told_in (lent kept.entry)) (stamp byte sums.now)
        (InPart number count records.now) (gathered_in (lent kept.entry)))) }
    ensures steps { steps.new ≤ steps.old + length (gathered_records
        (with_table_part number count records.now (gathered_in (lent kept.entry)))) }
{
    if is_bad_part(number, count) {
        return Ok((stays(Taken::BadPart { number, count }), Parts::Stay));
    }
    match announced(kept, byte, sums) {
        Err(outcome) => Ok((stays(outcome), Parts::Stay)),
        Ok(known) => {
            let beside = PartBeside {
                gathered: &known.gathered,
                number,
                count,
                records,
            };
            let judged = judge_beside(alloc, known, &beside, steps)?;
            Ok(judged)
        }
    }
}

// Whether no part has this number, of so many.
fn is_bad_part(number: u16, count: u16) -> bool
    ensures { result ≡ is_bad_part number count }
{
    count == 0 || count > MOST_PIECES || number >= count
}

// The same where the part has the announced byte and sums, and a number that can be.
fn judge_beside<L: Ledger>(
    alloc: Global,
    known: &KnownTable,
    beside: &PartBeside<'_>,
    steps: &mut Steps<L>,
) -> Result<(Judged<Taken>, Parts), NoMemory>
    ensures row { IfOk result (λ judged. row_in judged.0
        ≡ part_row (stamp known.now.byte known.now.sums) beside.now) }
    ensures parts { IfOk result (λ judged. (before : Gathered) →
        parts_then judged.1 before beside.now ≡ while_missing beside.now) }
    ensures others { IfOk result (λ judged. judged.1 ≢ Parts.Stay) }
    ensures steps { steps.new ≤ steps.old + length (gathered_records beside.now) }
{
    match beside.missing() {
        Some(want) => {
            let have = beside.have();
            Ok((stays(Taken::Part { have, want }), Parts::Grow))
        }
        None => {
            let records = beside.all(alloc)?;
            let tried = try_changes(Table::new(alloc), &records, &known.sums, steps)?;
            Ok((taken_of(tried), Parts::End))
        }
    }
}

/// What an answer in changes makes of what is kept of an originator.
pub(crate) fn judge_changes<L: Ledger>(
    kept: Option<&KnownTable>,
    byte: u8,
    sums: &Sums,
    records: &Changes,
    steps: &mut Steps<L>,
) -> Result<Judged<Taken>, NoMemory>
    ensures row { IfOk result (λ judged. row_in judged
        ≡ answer_of (lent kept.entry) (stamp byte sums.now) (InChanges records.now)) }
    ensures steps { steps.new ≤ steps.old + length records.now }
{
    match announced(kept, byte, sums) {
        Err(outcome) => Ok(stays(outcome)),
        Ok(known) => judge_carried(known, records, steps),
    }
}

// The same where the answer has the announced byte and sums.
fn judge_carried<L: Ledger>(
    known: &KnownTable,
    records: &Changes,
    steps: &mut Steps<L>,
) -> Result<Judged<Taken>, NoMemory>
    ensures row { IfOk result (λ judged. row_in judged
        ≡ carried_row (held_in (Some known.now)) known.now.gathered
        (stamp known.now.byte known.now.sums) (InChanges records.now)) }
    ensures steps { steps.new ≤ steps.old + length records.now }
{
    let Some(held) = &known.held else {
        return Ok(stays(Taken::Unheld));
    };
    if held.byte.wrapping_add(1) != known.byte {
        return Ok(stays(Taken::Gap {
            held: held.byte,
            told: known.byte,
        }));
    }
    let table = held.table.copy()?;
    let tried = try_changes(table, records, &known.sums, steps)?;
    Ok(taken_of(tried))
}

// What is kept of an originator where it announced this byte and these sums, or the outcome.
fn announced<'a>(
    kept: Option<&'a KnownTable>,
    byte: u8,
    sums: &Sums,
) -> Result<&'a KnownTable, Taken>
    ensures other { IfErr result (λ outcome. (carried : Carried) → stays outcome
        ≡ good_of (lent kept.entry) (stamp byte sums.now) carried) }
    ensures announced { IfOk result (λ known. (carried : Carried) →
        carried_row (held_in (Some known.now)) known.now.gathered
        (stamp known.now.byte known.now.sums) carried
        ≡ good_of (lent kept.entry) (stamp byte sums.now) carried) }
    ensures not_told { IfErr result (λ outcome.
        matches_told (told_in (lent kept.entry)) (stamp byte sums.now) ≡ false) }
    ensures told { IfOk result (λ known.
        matches_told (told_in (lent kept.entry)) (stamp byte sums.now) ≡ true) }
    ensures kept { IfOk result (λ known. lent kept.entry ≡ Some known.now) }
{
    let told = byte;
    let Some(known) = kept else {
        let wanted = None;
        return Err(Taken::NotTold { told, wanted });
    };
    if known.byte != byte {
        let wanted = Some(known.byte);
        return Err(Taken::NotTold { told, wanted });
    }
    if let Some(Difference { vid, kept, told }) = known.sums.first_difference(sums) {
        return Err(Taken::SumDiffers { vid, kept, told });
    }
    Ok(known)
}

// The outcome of an answer's records.
fn taken_of(tried: Trial) -> Judged<Taken>
    ensures { row_in result ≡ taken_trial (trial_in tried) }
{
    match tried {
        Trial::Fails { entry } => stays(Taken::Clash { entry }),
        Trial::Differs {
            difference: Difference { vid, kept, told },
        } => stays(Taken::SumDiffers { vid, kept, told }),
        Trial::Leads { table } => becomes(Taken::Taken, table),
    }
}

// Tries changes on a table, and compares the result with the told sums.
fn try_changes<L: Ledger>(
    mut table: Table,
    changes: &Changes,
    told: &Sums,
    steps: &mut Steps<L>,
) -> Result<Trial, NoMemory>
    ensures tried { IfOk result (λ tried. trial_in tried
        ≡ trial table.entries changes.now (named_sums told.now)) }
    ensures steps { steps.new ≤ steps.old + length changes.now }
{
    if let Err(failed) = table.attempt(changes, steps)? {
        return Ok(Trial::Fails {
            entry: failed.entry,
        });
    }
    match table.sums().first_difference(told) {
        Some(difference) => Ok(Trial::Differs { difference }),
        None => Ok(Trial::Leads { table }),
    }
}

// The table stays as it was.
fn stays<T: Drop>(outcome: T) -> Judged<T>
    ensures { row_in result ≡ stays outcome }
{
    Judged {
        outcome,
        table: None,
    }
}

// This table is held.
fn becomes<T: Drop>(outcome: T, table: Table) -> Judged<T>
    ensures { row_in result ≡ becomes outcome table.entries }
{
    Judged {
        outcome,
        table: Some(table),
    }
}
