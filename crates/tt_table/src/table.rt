ghost use Rattle.std.specs.Prelude.{◌≡◌, ◌≢◌, ◌↔◌, ◌+◌, ◌≤◌, [], length, map, slice_get, IfErr, IfOk, IsNone, IsOk, OnErr, OnOk, Ok, Err};
ghost use Rattle.mesh_model.specs.Tables.Changes.{addition, flags_at, IsInKeyOrder};
ghost use Rattle.mesh_model.specs.Tables.Strict.{apply_strictly};
ghost use Rattle.mesh_model.specs.Tables.Sums.{sums_of};
ghost use Rattle.tt_table.specs.Entries.{HasRoom};
ghost use Rattle.tt_table.specs.Sums.{AreTotalsOf, HasRows, named_sums};
ghost use Rattle.tt_table.specs.Table.{Becomes, HasCause};
ghost use Rattle.tt_table.specs.declared.failure.ApplyErr.TheVariants.{Memory};

use crate::entries::Entries;
use crate::failure::ApplyErr;
use crate::sums::Sums;
use mesh_base::{Entry, Key, NoMemory, Steps};
use mesh_model::{Change, Changes};
use std::alloc::Global;
use std::marker::Model;
use std::sync::ledger::Ledger;

/// A table of clients with the checksums of its VLANs.
#[derive(Debug, Drop)]
pub struct Table {
    entries: Entries,
    sums: Sums,
}

impl Model for Table {
    ghost use Rattle.tt_table.specs.Sums.{AreTotalsOf, HaveEntries};
    ghost use Rattle.tt_table.specs.Table.{TableView, spare_of};

    ghost Value = { TableView };

    ghost view = { λ t. record {
      entries = t.entries.entries;
      spare = spare_of t.entries t.sums;
    } };

    ghost invariant = { λ t. AreTotalsOf t.sums.rows t.entries.entries × HaveEntries t.sums.rows };
}

impl Table {
    /// A table without clients.
    pub fn new(alloc: Global) -> Table
        ensures { result.entries ≡ [] }
    {
        Table {
            entries: Entries::new(alloc),
            sums: Sums::new(alloc),
        }
    }

    /// The same table once more. It takes no step.
    pub fn copy(&self) -> Result<Table, NoMemory>
        ensures { IfOk result (λ copy. copy.entries ≡ self.now.entries) }
    {
        let entries = self.entries.copy()?;
        let sums = self.sums.copy()?;
        Ok(Table { entries, sums })
    }

    /// The checksums of the VLANs that have clients.
    pub fn sums(&self) -> &Sums
        ensures { named_sums result.now ≡ sums_of self.now.entries }
    {
        self.sums.tell_order();
        &self.sums
    }

    /// The flags of a client, where the table has it.
    pub fn get(&self, key: Key) -> Option<u8>
        ensures { result ≡ flags_at self.now.entries key }
    {
        self.entries.get(key)
    }

    /// The client at a place in key order, from 0, or `None` past the last.
    pub fn entry_at(&self, i: usize) -> Option<Entry>
        ensures at_place { result ≡ slice_get self.now.entries i }
        ensures past_end { IsNone result ↔ (length self.now.entries ≤ i) }
        ensures in_key_order { IsInKeyOrder self.now.entries }
    {
        self.entries.tell_order();
        self.entries.at(i)
    }

    /// The changes that make this table of the empty one.
    pub fn additions(&self) -> Result<Changes, NoMemory>
        ensures { IfOk result (λ changes. changes ≡ map addition self.now.entries) }
    {
        let additions = self.entries.additions()?;
        Ok(additions)
    }

    /// The clients in key order, lent.
    pub fn as_slice(&self) -> &[Entry]
        ensures { result.now ≡ self.now.entries }
    {
        self.entries.as_slice()
    }

    /// The clients stand in key order.
    pub fn tell_order(&self)
        ensures { IsInKeyOrder self.now.entries }
    {
        self.entries.tell_order();
    }

    /// Makes room for so many changes.
    pub fn reserve(&mut self, changes: usize) -> Result<(), NoMemory>
        ensures ok { OnOk result (changes ≤ self.new.spare) }
        ensures entries { self.new.entries ≡ self.old.entries }
    {
        self.entries.reserve(changes)?;
        self.sums.reserve(changes)?;
        Ok(())
    }

    /// Applies changes strictly: the deletions, each of an entry that is there with its flags, then
    /// the additions, each of a key that is absent.
    pub fn apply<L: Ledger>(
        &mut self,
        changes: &Changes,
        steps: &mut Steps<L>,
    ) -> Result<(), ApplyErr>
        ensures applied { OnOk result
            (apply_strictly self.old.entries changes.now ≡ Ok self.new.entries) }

        // Refused only for the first change that fails, or for want of memory, and then unchanged.
        ensures cause { IfErr result (HasCause (apply_strictly self.old.entries changes.now)) }
        ensures err { OnErr result (self.new.entries ≡ self.old.entries) }

        // No memory is wanted where there is room for the changes.
        ensures room { length changes.now ≤ self.old.spare → result ≢ Err Memory }
        ensures steps { steps.new ≤ steps.old + length changes.now }
    {
        if let Err(failed) = self.attempt(changes, steps)? {
            return Err(ApplyErr::of(failed));
        }
        Ok(())
    }

    /// Applies changes strictly, or leaves the table as it is and answers the first that fails.
    pub fn attempt<L: Ledger>(
        &mut self,
        changes: &Changes,
        steps: &mut Steps<L>,
    ) -> Result<Result<(), Change>, NoMemory>
        ensures attempted { IfOk result (λ outcome. Becomes outcome
            (apply_strictly self.old.entries changes.now) self.old.entries self.new.entries) }
        ensures err { OnErr result (self.new.entries ≡ self.old.entries) }
        ensures room { length changes.now ≤ self.old.spare → IsOk result }
        ensures steps { steps.new ≤ steps.old + length changes.now }
    {
        self.entries.tell_order();
        self.sums.tell_order();
        let outcome = apply_all(&mut self.entries, &mut self.sums, changes.as_slice(), steps);
        self.sums.drop_empty();
        outcome
    }
}

// Applies changes strictly to entries, and goes along in their sums, or leaves both and answers the
// first that fails.
fn apply_all<L: Ledger>(
    entries: &mut Entries,
    sums: &mut Sums,
    changes: &[Change],
    steps: &mut Steps<L>,
) -> Result<Result<(), Change>, NoMemory>
    requires totals { AreTotalsOf sums.old.rows entries.old.entries }
    ensures totals { AreTotalsOf sums.new.rows entries.new.entries }
    ensures attempted { IfOk result (λ outcome. Becomes outcome
        (apply_strictly entries.old.entries changes.now) entries.old.entries entries.new.entries) }
    ensures err { OnErr result (entries.new.entries ≡ entries.old.entries) }
    ensures room { HasRoom (length changes.now) entries.old →
        HasRows (length changes.now) sums.old → IsOk result }
    ensures steps { steps.new ≤ steps.old + length changes.now }
{
    entries.reserve(changes.len())?;
    sums.name_all(changes)?;
    if let Err(failed) = entries.apply(changes) {
        return Ok(Err(failed));
    }
    sums.follow_all(changes, true, steps);
    sums.follow_all(changes, false, steps);
    Ok(Ok(()))
}
