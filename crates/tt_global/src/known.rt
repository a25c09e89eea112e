ghost use Rattle.std.specs.Prelude.{◌≡◌, ◌↔◌, ◌+◌, ◌≤◌, length, IfOk, IfSome, IsOk, IsTrue, OnErr, OnOk, Some};
ghost use Rattle.mesh_model.specs.Tables.Known.{agrees, kept_under, matches_told, names};
ghost use Rattle.tt_global.specs.Globals.{IsSettled};
ghost use Rattle.tt_global.specs.Kept.{IsAnnounced, agreed_in, announcement_of, held_in, kept_row, stamp, stamp_in, told_in};
ghost use Rattle.tt_table.specs.Sums.{named_sums};

use crate::gathered::GatheredParts;
use crate::judging::{Judged, judge_announcement};
use mesh_base::{Key, Mac, NoMemory, Steps};
use mesh_model::{GlobalRow, Heard};
use std::alloc::Global;
use std::sync::ledger::Ledger;
use tt_table::{Announcement, Sums, Table};

/// A table under a byte.
#[derive(Debug, Drop)]
pub(crate) struct HeldTable {
    pub(crate) byte: u8,
    pub(crate) table: Table,
}

/// What is kept of an originator: the byte and the sums that it announced last, the table that is
/// held of it, and the parts of a full answer that are gathered.
#[derive(Debug, Drop)]
pub(crate) struct KnownTable {
    pub(crate) byte: u8,
    pub(crate) sums: Sums,
    pub(crate) held: Option<HeldTable>,
    pub(crate) gathered: GatheredParts,
}

impl KnownTable {
    /// Whether the held table has the announced byte and sums.
    pub(crate) fn is_agreed(&self) -> bool
        ensures { result ≡ agrees (told_in (Some self.now)) (held_in (Some self.now)) }
    {
        match &self.held {
            Some(held) => {
                held.byte == self.byte && held.table.sums().first_difference(&self.sums).is_none()
            }
            None => false,
        }
    }

    /// Whether the held table has the announced byte, and its sums are those that were announced,
    /// VLAN by VLAN.
    pub(crate) fn is_settled(&self) -> bool
        ensures { IsTrue result ↔ IsSettled (told_in (Some self.now)) (held_in (Some self.now)) }
    {
        match &self.held {
            Some(held) => held.byte == self.byte && held.table.sums().is_same(&self.sums),
            None => false,
        }
    }

    /// The byte of the held table, where it has the announced byte and sums.
    pub(crate) fn agreed_byte(&self) -> Option<u8>
        ensures { result ≡ agreed_in (Some self.now) }
    {
        self.is_agreed().then_some(self.byte)
    }

    /// Whether a client is in the held table, if any.
    pub(crate) fn has(&self, key: Key) -> bool
        ensures { result ≡ names key (held_in (Some self.now)) }
    {
        match &self.held {
            Some(held) => held.table.get(key).is_some(),
            None => false,
        }
    }

    /// The row of the originator.
    pub(crate) fn row(&self, orig: Mac) -> GlobalRow
        ensures { result ≡ kept_row orig self.now }
    {
        GlobalRow {
            orig,
            held: self.held.as_ref().map(|held| held.byte),
            told: self.byte,
            ok: self.is_agreed(),
        }
    }

    // Whether a byte and sums are those that were announced.
    fn is_announced(&self, byte: u8, sums: &Sums) -> bool
        ensures { result ≡ matches_told (told_in (Some self.now)) (stamp byte sums.now) }
    {
        self.byte == byte && self.sums.first_difference(sums).is_none()
    }

    /// Notes what was announced. Parts under another byte or other sums are dropped.
    pub(crate) fn tell(&mut self, byte: u8, sums: &Sums) -> Result<(), NoMemory>
        ensures told { OnOk result (stamp self.new.byte self.new.sums ≡ stamp byte sums.now) }
        ensures held { self.new.held ≡ self.old.held }
        ensures gathered { OnOk result (self.new.gathered ≡ kept_under (told_in (Some self.old))
            (stamp byte sums.now) self.old.gathered) }
        ensures err { OnErr result (self.new ≡ self.old) }

        // No memory is wanted where the sums are those of before.
        ensures same { named_sums self.old.sums ≡ named_sums sums.now → IsOk result }
    {
        let again = self.is_announced(byte, sums);
        if !self.sums.is_same(sums) {
            self.sums = sums.copy()?;
        }
        self.byte = byte;
        if !again {
            self.gathered.clear();
        }
        Ok(())
    }

    /// Holds a table under a byte.
    pub(crate) fn hold(&mut self, byte: u8, table: Table)
        ensures held { held_in (Some self.new)
            ≡ Some (record { byte = byte; table = table.entries }) }
        ensures told { told_in (Some self.new) ≡ told_in (Some self.old) }
        ensures gathered { self.new.gathered ≡ self.old.gathered }
    {
        self.held = Some(HeldTable { byte, table });
    }

    /// Takes an announcement, and answers what it makes of the held table.
    pub(crate) fn announce<L: Ledger>(
        &mut self,
        alloc: Global,
        announced: &Announcement,
        steps: &mut Steps<L>,
    ) -> Result<Heard, NoMemory>
        ensures ok { OnOk result (IsAnnounced (stamp_in announced.now) announced.now.changes
            (Some self.old) (Some self.new)) }
        ensures heard { IfOk result (λ heard. heard ≡ (announcement_of (Some self.old)
            (stamp_in announced.now) announced.now.changes).outcome) }
        ensures err { OnErr result (self.new ≡ self.old) }
        ensures steps { steps.new ≤ steps.old + length announced.now.changes }

        // No memory is wanted where the byte and the sums were told before, and what is held, if
        // anything, is held under that byte.
        ensures same { told_in (Some self.old) ≡ Some (stamp_in announced.now) →
            IfSome (held_in (Some self.old)) (λ held. held.byte ≡ announced.now.byte) →
            IsOk result }
    {
        let Judged { outcome, table } = judge_announcement(
            alloc,
            self.held.as_ref(),
            announced,
            steps,
        )?;
        self.tell(announced.byte, &announced.sums)?;
        if let Some(table) = table {
            self.hold(announced.byte, table);
        }
        Ok(outcome)
    }
}
