ghost use Rattle.std.specs.Prelude.{◌≡◌, ◌-◌, ◌%◌, ◌≤◌, ◌<◌, ℕ, List, length, option_map, Some, Ok, IfOk, OnOk};
ghost use Rattle.std.specs.Rc.{rc_slice_items};
ghost use Rattle.mesh_base.specs.declared.client.Entry.{Entry};
ghost use Rattle.mesh_model.specs.Clients.Mentions.{Mention};
ghost use Rattle.mesh_model.specs.Commits.History.{History};
ghost use Rattle.mesh_model.specs.Tables.Changes.{IsInKeyOrder};
ghost use Rattle.mesh_model.specs.Tables.Strict.{apply_strictly};
ghost use Rattle.tt_local.specs.Journal.{HasSums, HasTable, JournalStands, snapshot_interval};
ghost use Rattle.tt_local.specs.Locals.{LocalsStand};
ghost use Rattle.tt_table.specs.Sums.{named_sums};

use crate::journal::{Journal, SNAPSHOT_INTERVAL};
use crate::locals::Locals;
use mesh_base::{Entry, NoMemory};
use std::rc::RcSlice;
use tt_table::{Changes, Entries, Sums};

impl Locals {
    /// The table of the commit of a number, in key order.
    pub fn table_at(&self, number: u64) -> Result<RcSlice<Entry>, NoMemory>
        requires made { number ≤ length self.now.journal.past }
        ensures { IfOk result (λ table. (mentions : List Mention) (history : History) (since : ℕ) →
            LocalsStand self.now mentions history since →
            HasTable number (rc_slice_items table) history.commits) }
    {
        let table = self.journal.table_at(number as usize)?;
        Ok(table)
    }
}

impl Journal {
    /// The checksums of the table of a commit.
    pub(crate) fn sums_at(&self, number: usize) -> &Sums
        requires made { number ≤ length self.now.past }
        ensures { (history : History) → JournalStands self.now history →
            HasSums number (named_sums result.now) history.commits }
    {
        match self.past.get(number) {
            Some(past) => &past.sums,
            None => self.table.sums(),
        }
    }

    /// The table of a commit, from the one that is kept whole before it and the changes after.
    pub(crate) fn table_at(&self, number: usize) -> Result<RcSlice<Entry>, NoMemory>
        requires made { number ≤ length self.now.past }
        ensures { IfOk result (λ table. (history : History) → JournalStands self.now history →
            HasTable number (rc_slice_items table) history.commits) }
    {
        if number == self.last() {
            let table = RcSlice::from_slice(self.alloc, self.table.as_slice())?;
            return Ok(table);
        }
        let snapshot = self.kept_before(number);
        let kept = number - number % SNAPSHOT_INTERVAL;
        if kept == number {
            let table = snapshot.clone()?;
            return Ok(table);
        }
        let table = self.rebuilt(snapshot.as_slice(), kept, number)?;
        Ok(table)
    }

    // The last table that is kept whole of the commits up to a number.
    fn kept_before(&self, number: usize) -> &RcSlice<Entry>
        requires made { number < length self.now.past }
        ensures table { (history : History) → JournalStands self.now history →
            HasTable (number - number % snapshot_interval) (rc_slice_items result.now)
            history.commits }
        ensures ordered { IsInKeyOrder (rc_slice_items result.now) }
    {
        &self.snapshots[number / SNAPSHOT_INTERVAL]
    }

    // The table of a commit, from that of an earlier one.
    fn rebuilt(
        &self,
        table: &[Entry],
        kept: usize,
        number: usize,
    ) -> Result<RcSlice<Entry>, NoMemory>
        requires made { number < length self.now.past }
        requires earlier { kept ≤ number }
        requires ordered { IsInKeyOrder table.now }
        ensures { IfOk result (λ rebuilt. (history : History) → JournalStands self.now history →
            HasTable kept table.now history.commits →
            HasTable number (rc_slice_items rebuilt) history.commits) }
    {
        let mut entries = Entries::from_slice(self.alloc, table)?;
        for at in kept..number {
            change(&mut entries, &self.past[at + 1].changes)?;
        }
        let table = RcSlice::from_vec(entries.into_vec())?;
        Ok(table)
    }
}

// Makes the changes that lead from a table to another.
fn change(entries: &mut Entries, changes: &Changes) -> Result<(), NoMemory>
    ensures { (table : List Entry) → apply_strictly entries.old.entries changes.now ≡ Ok table →
        OnOk result (entries.new.entries ≡ table) }
{
    entries.reserve(changes.len())?;
    let _strict = entries.apply(changes.as_slice());
    Ok(())
}
