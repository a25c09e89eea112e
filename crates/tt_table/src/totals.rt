ghost use Rattle.std.specs.Prelude.{◌≡◌, ℕ, ◌+◌, ◌≤◌, false, length, List, Ok, Some, OnOk, IsOk, IsSome};
ghost use Rattle.mesh_base.specs.declared.client.Entry.{Entry};
ghost use Rattle.mesh_model.specs.Tables.Strict.{change_each, change_one};
ghost use Rattle.tt_table.specs.Entries.{half};
ghost use Rattle.tt_table.specs.Sums.{AreByVlan, AreFew, AreNamed, AreTotalsOf, HasRows, HaveEntries, IsNamed, KeepNames, KeepTotals, row_at};

use crate::checksum::entry_sum;
use crate::sums::Sums;
use crate::vlan_total::VlanTotal;
use mesh_base::{NoMemory, Steps, Vid};
use mesh_model::Change;
use std::sync::ledger::Ledger;

impl Sums {
    /// Makes room for so many more VLANs.
    pub(crate) fn reserve(&mut self, more: usize) -> Result<(), NoMemory>
        ensures ok { OnOk result (HasRows more self.new) }
        ensures rows { self.new.rows ≡ self.old.rows }
        ensures capacity { self.old.capacity ≤ self.new.capacity }
    {
        self.rows.reserve(more)?;
        Ok(())
    }

    /// The VLANs stand by wire number, and there is room for them.
    pub(crate) fn tell_order(&self)
        ensures order { AreByVlan self.now.rows }
        ensures room { HasRows 0 self.now }
    {
        let _rows = &self.rows;
    }

    /// Makes a row for the VLAN of each addition that has none.
    pub(crate) fn name_all(&mut self, changes: &[Change]) -> Result<(), NoMemory>
        ensures ok { OnOk result (AreNamed self.new.rows changes.now) }
        ensures totals { KeepTotals self.old.rows self.new.rows }
        ensures capacity { self.old.capacity ≤ self.new.capacity }
        ensures room { HasRows (length changes.now) self.old → IsOk result }
    {
        for change in changes {
            if !change.del {
                self.name(change.entry.key.vid)?;
            }
        }
        Ok(())
    }

    // Makes a row for a VLAN that has none.
    fn name(&mut self, vid: Vid) -> Result<(), NoMemory>
        ensures ok { OnOk result (IsSome (row_at self.new.rows vid)) }
        ensures names { KeepNames self.old.rows self.new.rows }
        ensures totals { KeepTotals self.old.rows self.new.rows }
        ensures capacity { self.old.capacity ≤ self.new.capacity }
        ensures grown { length self.new.rows ≤ length self.old.rows + 1 }
        ensures room { HasRows 1 self.old → IsOk result }
    {
        if let Err(place) = self.search(vid) {
            self.rows.insert(place, VlanTotal::new(vid, 0))?;
        }
        Ok(())
    }

    /// Drops the rows of VLANs without entries.
    pub(crate) fn drop_empty(&mut self)
        ensures totals { (table : List Entry) →
            AreTotalsOf self.old.rows table → AreTotalsOf self.new.rows table }
        ensures entries { HaveEntries self.new.rows }
        ensures capacity { self.old.capacity ≤ self.new.capacity }
    {
        self.rows.retain(|row| row.entries > 0);
    }

    /// Goes along with the deletions among changes that were made, or with the additions.
    pub(crate) fn follow_all<L: Ledger>(
        &mut self,
        changes: &[Change],
        del: bool,
        steps: &mut Steps<L>,
    )
        requires few { AreFew (length (half del changes.now)) self.old.rows }
        ensures totals { (table after : List Entry) → AreTotalsOf self.old.rows table →
            AreNamed self.old.rows changes.now →
            change_each (half del changes.now) table ≡ Ok after → AreTotalsOf self.new.rows after }
        ensures names { KeepNames self.old.rows self.new.rows }
        ensures few { (more : ℕ) → AreFew (more + length (half del changes.now)) self.old.rows →
            AreFew more self.new.rows }
        ensures capacity { self.old.capacity ≤ self.new.capacity }
        ensures steps { steps.new ≡ steps.old + length (half del changes.now) }
    {
        for change in changes {
            if change.del == del {
                self.follow(change, steps);
            }
        }
    }

    // Goes along with a change that was made.
    fn follow<L: Ledger>(&mut self, change: &Change, steps: &mut Steps<L>)
        requires few { AreFew 1 self.old.rows }
        ensures totals { (table after : List Entry) → AreTotalsOf self.old.rows table →
            IsNamed self.old.rows change.now →
            change_one change.now table ≡ Some after → AreTotalsOf self.new.rows after }
        ensures names { KeepNames self.old.rows self.new.rows }
        ensures few { (more : ℕ) → AreFew (more + 1) self.old.rows → AreFew more self.new.rows }
        ensures capacity { self.old.capacity ≤ self.new.capacity }
        ensures step { steps.new ≡ steps.old + 1 }
    {
        let sum = entry_sum(&change.entry, steps);
        if let Ok(place) = self.search(change.entry.key.vid) {
            self.rows[place].follow(sum, change.del);
        }
    }
}
