ghost use Rattle.std.specs.Prelude.{◌≡◌, ◌+◌, ◌≤◌, false, true, not, length, List, Ok};
ghost use Rattle.mesh_base.specs.declared.client.Entry.{Entry};
ghost use Rattle.mesh_model.specs.Tables.Changes.{IsInKeyOrder};
ghost use Rattle.mesh_model.specs.Tables.Strict.{apply_strictly, change_each, change_one};
ghost use Rattle.tt_table.specs.Entries.{half, HasRoom, Tells};
ghost use Rattle.tt_table.specs.Table.{Becomes};

use crate::entries::Entries;
use mesh_model::Change;

impl Entries {
    /// Makes changes strictly, or none of them, and answers the first that fails.
    pub fn apply(&mut self, changes: &[Change]) -> Result<(), Change>
        requires room { HasRoom (length changes.now) self.old }
        ensures outcome { Becomes result (apply_strictly self.old.entries changes.now)
            self.old.entries self.new.entries }
        ensures capacity { self.old.capacity ≤ self.new.capacity }
    {
        self.change_all(changes, true)?;
        let added = self.change_all(changes, false);
        if added.is_err() {
            self.undo_all(changes, true);
        }
        added
    }

    // Makes the deletions among changes, or the additions, or none of them where one fails.
    fn change_all(&mut self, changes: &[Change], del: bool) -> Result<(), Change>
        requires room { HasRoom (length changes.now) self.old }
        ensures outcome { Becomes result (change_each (half del changes.now) self.old.entries)
            self.old.entries self.new.entries }
        ensures capacity { self.old.capacity ≤ self.new.capacity }
        ensures ordered { IsInKeyOrder self.old.entries }
        ensures room { del ≡ true → HasRoom (length changes.now) self.new }
    {
        self.tell_order();
        for (place, change) in changes.iter().enumerate() {
            if change.del == del && !self.change(change) {
                self.undo_all(&changes[..place], del);
                return Err(*change);
            }
        }
        Ok(())
    }

    // Takes the deletions among changes back, or the additions, the last first.
    fn undo_all(&mut self, changes: &[Change], del: bool)
        requires room { del ≡ true → HasRoom (length changes.now) self.old }
        ensures undone { (table : List Entry) → IsInKeyOrder table →
            change_each (half del changes.now) table ≡ Ok self.old.entries →
            self.new.entries ≡ table }
        ensures capacity { self.old.capacity ≤ self.new.capacity }
    {
        let mut left = changes.len();
        while left > 0 {
            left -= 1;
            let change = changes[left];
            if change.del == del {
                self.change(&reversed(change));
            }
        }
    }

    // Makes a change, and answers whether it is strict.
    fn change(&mut self, change: &Change) -> bool
        requires room { change.now.del ≡ false → HasRoom 1 self.old }
        ensures told { Tells result (change_one change.now self.old.entries)
            self.old.entries self.new.entries }
        ensures capacity { self.old.capacity ≤ self.new.capacity }
        ensures grown { length self.new.entries ≤ length self.old.entries + 1 }
        ensures shrunk { change.now.del ≡ true →
            length self.new.entries ≤ length self.old.entries }
    {
        if change.del {
            self.remove(&change.entry)
        } else {
            self.insert(&change.entry)
        }
    }
}

// The change that takes a change back.
fn reversed(change: Change) -> Change
    ensures { result ≡ record { entry = change.entry; del = not change.del } }
{
    Change {
        entry: change.entry,
        del: !change.del,
    }
}
