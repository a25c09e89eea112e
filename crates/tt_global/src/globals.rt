ghost use Rattle.std.specs.Prelude.{◌≡◌, ◌↔◌, ◌+◌, ◌≤◌, ℕ, List, [], ◌∷◌, ◌++◌, length, slice_get, option_map, option_and_then, IfOk, IfSome, IsNone, IsOk, IsSome, IsTrue, None, OnErr, OnOk, Some};
ghost use Rattle.std.specs.Map.{lookup};
ghost use Rattle.mesh_base.specs.declared.address.Mac.{Mac};
ghost use Rattle.mesh_model.specs.declared.table_change.Change.{Change};
ghost use Rattle.mesh_model.specs.Knowledge.Known.{agreed_byte};
ghost use Rattle.mesh_model.specs.Knowledge.Told.{sums_told};
ghost use Rattle.mesh_model.specs.Routes.Addresses.{same_mac};
ghost use Rattle.mesh_model.specs.Tables.Judging.{InChanges, InFull, InPart, announcement_row, answer_row, wanted_request};
ghost use Rattle.mesh_model.specs.Tables.Known.{Announced, Answered, Dropped, TableCalls, holders_by, is_agreed, known_by, originators_by, global_row, stamp_of};
ghost use Rattle.mesh_model.specs.Tables.Gathered.{gathered_records, with_table_part};
ghost use Rattle.mesh_model.specs.Tables.Versions.{Stamp, Version};
ghost use Rattle.mesh_model.specs.declared.table_outcome.Taken.TheVariants.{Taken as IsTaken};
ghost use Rattle.mesh_laws.specs.HeldLaws.{CameFrom, HoldsTold};
ghost use Rattle.mesh_laws.specs.KnownLaws.{ArePartsOf, IsLastPart, IsToldWhole};
ghost use Rattle.tt_global.specs.Globals.{GlobalsStand, IsSettled, KeepsAgreed, KeepsCommits, asked_version};
ghost use Rattle.tt_global.specs.Kept.{Announces, GathersAs, HoldsThen, announcement_of, gathered_in, stamp, stamp_in};
ghost use Rattle.tt_table.specs.Sums.{named_sums};

use crate::gathered::GatheredParts;
use crate::judging::{Judged, Parts, judge_announcement, judge_changes, judge_full, judge_part};
use crate::known::{HeldTable, KnownTable};
use indexmap::IndexMap;
use mesh_base::{Key, Mac, NoMemory, Steps};
use mesh_model::{GlobalRow, Heard, Taken};
use std::alloc::Global;
use std::marker::Model;
use std::sync::ledger::Ledger;
use tt_table::{Announcement, Changes, Sums, Table};

/// What is known of the tables of originators.
#[derive(Debug, Drop)]
pub struct Globals {
    /// In the order of addresses.
    known: IndexMap<Mac, KnownTable>,
    alloc: Global,
}

impl Model for Globals {
    ghost use Rattle.tt_global.specs.Globals.{Kept};

    ghost Value = { Kept };

    ghost view = { λ g. g.known.entries };
}

impl Globals {
    /// Nothing is known.
    pub fn new(alloc: Global) -> Globals
        ensures { GlobalsStand result [] }
    {
        Globals {
            known: IndexMap::new(alloc),
            alloc,
        }
    }

    /// Takes an announcement of an originator, and answers what it makes of the table that is held.
    pub fn announce<L: Ledger>(
        &mut self,
        orig: Mac,
        announced: &Announcement,
        steps: &mut Steps<L>,
    ) -> Result<Heard, NoMemory>
        // The log may give the frame that brought it any number.
        ensures ok { (calls : TableCalls) (frame : ℕ) → GlobalsStand self.old calls →
            OnOk result (GlobalsStand self.new
            (Announced orig frame (stamp_in announced.now) announced.now.changes ∷ calls)) }
        ensures heard { (calls : TableCalls) → GlobalsStand self.old calls →
            IfOk result (λ heard. heard ≡ (announcement_row (known_by calls orig).held
            (stamp_in announced.now) announced.now.changes).outcome) }
        ensures err { OnErr result (self.new ≡ self.old) }
        ensures steps { steps.new ≤ steps.old + length announced.now.changes }

        // What is held is a commit, and where it agrees, the one that was told last, while all that
        // came tells of commits without an alias.
        ensures commits { (calls : TableCalls) (frame : ℕ) (made : List Version) →
            GlobalsStand self.old calls → CameFrom made orig
            (Announced orig frame (stamp_in announced.now) announced.now.changes ∷ calls) →
            OnOk result (KeepsCommits made orig self.new) }

        // No memory is wanted where the byte and the sums were told before, and what is held, if
        // anything, is held under that byte.
        ensures same { (calls : TableCalls) → GlobalsStand self.old calls →
            stamp_of (known_by calls orig) ≡ Some (stamp_in announced.now) →
            IfSome (known_by calls orig).held (λ held. held.byte ≡ announced.now.byte) →
            IsOk result }
    {
        match self.known.get_mut(&orig) {
            Some(known) => {
                let heard = known.announce(self.alloc, announced, steps)?;
                Ok(heard)
            }
            None => {
                let heard = self.announce_first(orig, announced, steps)?;
                Ok(heard)
            }
        }
    }

    // Takes the first announcement of an originator.
    fn announce_first<L: Ledger>(
        &mut self,
        orig: Mac,
        announced: &Announcement,
        steps: &mut Steps<L>,
    ) -> Result<Heard, NoMemory>
        requires { IsNone (lookup (same_mac orig) self.now) }
        ensures ok { OnOk result (Announces orig (stamp_in announced.now) announced.now.changes
            self.old self.new) }
        ensures heard { IfOk result (λ heard. heard ≡ (announcement_of None
            (stamp_in announced.now) announced.now.changes).outcome) }
        ensures err { OnErr result (self.new ≡ self.old) }
        ensures steps { steps.new ≤ steps.old + length announced.now.changes }
    {
        let Judged { outcome, table } = judge_announcement(self.alloc, None, announced, steps)?;
        let byte = announced.byte;
        let known = KnownTable {
            byte,
            sums: announced.sums.copy()?,
            held: table.map(|table| HeldTable { byte, table }),
            gathered: GatheredParts::new(self.alloc),
        };
        self.known.insert_sorted(orig, known)?;
        Ok(outcome)
    }

    /// Takes an answer with a whole table of an originator, under a byte and sums.
    pub fn take_full<L: Ledger>(
        &mut self,
        orig: Mac,
        byte: u8,
        sums: &Sums,
        records: &Changes,
        steps: &mut Steps<L>,
    ) -> Result<Taken, NoMemory>
        ensures ok { (calls : TableCalls) → GlobalsStand self.old calls →
            OnOk result (GlobalsStand self.new
            (Answered orig (stamp byte sums.now) (InFull records.now) ∷ calls)) }
        ensures taken { (calls : TableCalls) → GlobalsStand self.old calls →
            IfOk result (λ taken. taken ≡ (answer_row (stamp_of (known_by calls orig))
            (known_by calls orig).held (known_by calls orig).gathered (stamp byte sums.now)
            (InFull records.now)).outcome) }
        ensures err { OnErr result (self.new ≡ self.old) }
        ensures steps { steps.new ≤ steps.old + length records.now }

        // As after an announcement.
        ensures commits { (calls : TableCalls) (made : List Version) →
            GlobalsStand self.old calls →
            CameFrom made orig (Answered orig (stamp byte sums.now) (InFull records.now) ∷ calls) →
            OnOk result (KeepsCommits made orig self.new) }

        // The whole table that was told last is taken, and what is held agrees then, whatever came.
        ensures whole { (calls : TableCalls) → GlobalsStand self.old calls →
            IsToldWhole (stamp_of (known_by calls orig)) (stamp byte sums.now) records.now →
            IfOk result (λ taken. taken ≡ IsTaken) }
        ensures agreed { (calls : TableCalls) → GlobalsStand self.old calls →
            IsToldWhole (stamp_of (known_by calls orig)) (stamp byte sums.now) records.now →
            OnOk result (KeepsAgreed orig self.new) }
    {
        let kept = self.known.get(&orig);
        let Judged { outcome, table } = judge_full(self.alloc, kept, byte, sums, records, steps)?;
        self.hold(orig, byte, table);
        Ok(outcome)
    }

    /// Takes a part of an answer with a whole table of an originator, by its number, of so many,
    /// under a byte and sums.
    pub fn take_part<L: Ledger>(
        &mut self,
        orig: Mac,
        byte: u8,
        sums: &Sums,
        number: u16,
        count: u16,
        records: &Changes,
        steps: &mut Steps<L>,
    ) -> Result<Taken, NoMemory>
        ensures ok { (calls : TableCalls) → GlobalsStand self.old calls →
            OnOk result (GlobalsStand self.new
            (Answered orig (stamp byte sums.now) (InPart number count records.now) ∷ calls)) }
        ensures taken { (calls : TableCalls) → GlobalsStand self.old calls →
            IfOk result (λ taken. taken ≡ (answer_row (stamp_of (known_by calls orig))
            (known_by calls orig).held (known_by calls orig).gathered (stamp byte sums.now)
            (InPart number count records.now)).outcome) }
        ensures err { OnErr result (self.new ≡ self.old) }
        ensures steps { (calls : TableCalls) → GlobalsStand self.old calls →
            steps.new ≤ steps.old + length (gathered_records
            (with_table_part number count records.now (known_by calls orig).gathered)) }

        // As after an announcement.
        ensures commits { (calls : TableCalls) (made : List Version) →
            GlobalsStand self.old calls → CameFrom made orig
            (Answered orig (stamp byte sums.now) (InPart number count records.now) ∷ calls) →
            OnOk result (KeepsCommits made orig self.new) }

        // The last part that was missing of the table that was told last is taken, and what is held
        // agrees then, whatever came.
        ensures last { (before came : TableCalls) (wanted : Stamp) (parts : ℕ → List Change) →
            GlobalsStand self.old (came ++ before) → ArePartsOf wanted count parts →
            IsLastPart orig before came wanted (stamp byte sums.now) count number parts →
            records.now ≡ parts number → IfOk result (λ taken. taken ≡ IsTaken) }
        ensures agreed { (before came : TableCalls) (wanted : Stamp) (parts : ℕ → List Change) →
            GlobalsStand self.old (came ++ before) → ArePartsOf wanted count parts →
            IsLastPart orig before came wanted (stamp byte sums.now) count number parts →
            records.now ≡ parts number → OnOk result (KeepsAgreed orig self.new) }
    {
        let kept = self.known.get(&orig);
        let (judged, parts) = judge_part(
            self.alloc, kept, byte, sums, number, count, records, steps,
        )?;
        self.gather(orig, parts, number, count, records)?;
        self.hold(orig, byte, judged.table);
        Ok(judged.outcome)
    }

    /// Takes an answer with changes of an originator's table, which lead to a byte and sums.
    pub fn take_changes<L: Ledger>(
        &mut self,
        orig: Mac,
        byte: u8,
        sums: &Sums,
        records: &Changes,
        steps: &mut Steps<L>,
    ) -> Result<Taken, NoMemory>
        ensures ok { (calls : TableCalls) → GlobalsStand self.old calls →
            OnOk result (GlobalsStand self.new
            (Answered orig (stamp byte sums.now) (InChanges records.now) ∷ calls)) }
        ensures taken { (calls : TableCalls) → GlobalsStand self.old calls →
            IfOk result (λ taken. taken ≡ (answer_row (stamp_of (known_by calls orig))
            (known_by calls orig).held (known_by calls orig).gathered (stamp byte sums.now)
            (InChanges records.now)).outcome) }
        ensures err { OnErr result (self.new ≡ self.old) }
        ensures steps { steps.new ≤ steps.old + length records.now }

        // As after an announcement.
        ensures commits { (calls : TableCalls) (made : List Version) →
            GlobalsStand self.old calls →
            CameFrom made orig (Answered orig (stamp byte sums.now) (InChanges records.now) ∷ calls) →
            OnOk result (KeepsCommits made orig self.new) }
    {
        let kept = self.known.get(&orig);
        let Judged { outcome, table } = judge_changes(kept, byte, sums, records, steps)?;
        self.hold(orig, byte, table);
        Ok(outcome)
    }

    /// Drops all that is known of an originator.
    pub fn drop_orig(&mut self, orig: Mac)
        ensures { (calls : TableCalls) → GlobalsStand self.old calls →
            GlobalsStand self.new (Dropped orig ∷ calls) }
    {
        self.known.shift_remove(&orig);
    }

    /// How many originators announced something.
    pub fn len(&self) -> usize
        ensures { (calls : TableCalls) → GlobalsStand self.now calls →
            result ≡ length (originators_by calls) }
    {
        self.known.len()
    }

    /// Whether the held table of an originator has the byte and the sums that it announced last.
    pub fn is_ok(&self, orig: Mac) -> bool
        ensures agreed { (calls : TableCalls) → GlobalsStand self.now calls →
            result ≡ is_agreed (known_by calls orig) }

        // The held table is the commit that was told last, while all that came tells of commits
        // without an alias.
        ensures commit { (calls : TableCalls) (made : List Version) → GlobalsStand self.now calls →
            CameFrom made orig calls → IsTrue result →
            HoldsTold made (stamp_of (known_by calls orig)) (known_by calls orig).held }
    {
        match self.known.get(&orig) {
            Some(known) => known.is_agreed(),
            None => false,
        }
    }

    /// The byte under which the table of an originator is held in agreement.
    pub fn agreed_byte(&self, orig: Mac) -> Option<u8>
        ensures { (calls : TableCalls) → GlobalsStand self.now calls →
            result ≡ agreed_byte (known_by calls orig) }
    {
        self.known.get(&orig)?.agreed_byte()
    }

    /// The byte and the sums that an originator announced last, where the table that is held has
    /// both. An announcement of them again changes nothing and asks for nothing, whatever changes
    /// it has.
    #[inline(always)]
    pub fn settled(&self, orig: Mac) -> Option<(u8, &Sums)>
        ensures again { IfSome result (λ told. (calls : TableCalls) (frame : ℕ)
            (changes : List Change) → GlobalsStand self.now calls → GlobalsStand self.now
            (Announced orig frame (stamp told.0 told.1.now) changes ∷ calls)) }
        ensures unasked { IfSome result (λ told. (calls : TableCalls) (changes : List Change) →
            GlobalsStand self.now calls →
            wanted_request (announcement_row (known_by calls orig).held
            (stamp told.0 told.1.now) changes).outcome ≡ None) }
        ensures told { (calls : TableCalls) → GlobalsStand self.now calls →
            IfSome result (λ told.
            stamp_of (known_by calls orig) ≡ Some (stamp told.0 told.1.now)) }
        ensures some { (calls : TableCalls) → GlobalsStand self.now calls →
            IsSome result ↔ IsSettled (stamp_of (known_by calls orig)) (known_by calls orig).held }

        // They stand by wire number, each VLAN once, so that they are told as they are.
        ensures sums { IfSome result (λ told.
            sums_told (named_sums told.1.now) ≡ named_sums told.1.now) }
    {
        let known = self.known.get(&orig)?;
        if !known.is_settled() {
            return None;
        }
        Some((known.byte, &known.sums))
    }

    /// The byte that an originator announced last, if any.
    pub fn told(&self, orig: Mac) -> Option<u8>
        ensures { (calls : TableCalls) → GlobalsStand self.now calls →
            result ≡ option_map (λ told. told.byte) (stamp_of (known_by calls orig)) }
    {
        self.known.get(&orig).map(|known| known.byte)
    }

    /// The table that is held of an originator, if any, with its byte.
    pub fn held(&self, orig: Mac) -> Option<(u8, &Table)>
        ensures { (calls : TableCalls) → GlobalsStand self.now calls →
            option_map asked_version result ≡ (known_by calls orig).held }
    {
        let held = self.known.get(&orig)?.held.as_ref()?;
        Some((held.byte, &held.table))
    }

    /// Of the originators whose held tables have a client, by address, the one at this place, from
    /// 0.
    pub fn holder(&self, key: Key, i: usize) -> Option<Mac>
        ensures at_place { (calls : TableCalls) → GlobalsStand self.now calls →
            result ≡ slice_get (holders_by calls key) i }
        ensures past_end { (calls : TableCalls) → GlobalsStand self.now calls →
            IsNone result ↔ (length (holders_by calls key) ≤ i) }
    {
        self.known
            .iter()
            .filter_map(|(orig, known)| known.has(key).then_some(*orig))
            .nth(i)
    }

    /// Of the originators that announced something, by address, the one at this place, from 0, with
    /// what is known of its table.
    pub fn row_at(&self, i: usize) -> Option<GlobalRow>
        ensures at_place { (calls : TableCalls) → GlobalsStand self.now calls →
            result ≡ option_and_then (λ orig. global_row orig (known_by calls orig))
            (slice_get (originators_by calls) i) }
        ensures past_end { (calls : TableCalls) → GlobalsStand self.now calls →
            IsNone result ↔ (length (originators_by calls) ≤ i) }
    {
        let (orig, known) = self.known.get_index(i)?;
        Some(known.row(*orig))
    }

    // Notes what becomes of the parts of an originator which announced something, where one came.
    fn gather(
        &mut self,
        orig: Mac,
        parts: Parts,
        number: u16,
        count: u16,
        records: &Changes,
    ) -> Result<(), NoMemory>
        ensures ok { OnOk result (GathersAs parts orig (with_table_part number count records.now
            (gathered_in (lookup (same_mac orig) self.old))) self.old self.new) }
        ensures err { OnErr result (self.new ≡ self.old) }
    {
        if parts == Parts::Stay {
            return Ok(());
        }
        let Some(known) = self.known.get_mut(&orig) else {
            return Ok(());
        };
        match parts {
            Parts::Stay => {}
            Parts::Grow => known.gathered.note(number, count, records)?,
            Parts::End => known.gathered.clear(),
        }
        Ok(())
    }

    // Notes the table that came, if one did, of an originator which announced something.
    fn hold(&mut self, orig: Mac, byte: u8, table: Option<Table>)
        ensures { HoldsThen orig byte (option_map (λ table. table.entries) table)
            self.old self.new }
    {
        let Some(table) = table else {
            return;
        };
        if let Some(known) = self.known.get_mut(&orig) {
            known.hold(byte, table);
        }
    }
}
