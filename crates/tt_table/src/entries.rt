ghost use Rattle.std.specs.Prelude.{◌≡◌, ◌↔◌, ◌+◌, ◌<◌, ◌≤◌, ◌^◌, [], length, map, slice_get, IfErr, IfOk, IsNone, IsOk, OnOk};
ghost use Rattle.mesh_base.specs.KeyOrder.{key_order};
ghost use Rattle.mesh_model.specs.Tables.Changes.{IsInKeyOrder, addition, flags_at};
ghost use Rattle.mesh_model.specs.Tables.Strict.{with_entry, without_entry};
ghost use Rattle.tt_table.specs.Entries.{entry_key, HasRoom, Tells};
ghost use Rattle.tt_table.specs.Places.{IsGap, IsThere};

use mesh_base::{Entry, Key, NoMemory};
use mesh_model::{Change, Changes};
use std::alloc::Global;
use std::marker::Model;

/// Entries in key order.
#[derive(Debug, Drop)]
pub struct Entries {
    entries: Vec<Entry>,
}

impl Model for Entries {
    ghost use Rattle.std.specs.Prelude.{vec_capacity};
    ghost use Rattle.mesh_model.specs.Tables.Changes.{IsInKeyOrder};
    ghost use Rattle.tt_table.specs.Entries.{EntriesView};

    ghost Value = { EntriesView };

    ghost view = { λ e. record { entries = e.entries.items; capacity = vec_capacity e.entries } };

    ghost invariant = { λ e. IsInKeyOrder e.entries.items };
}

impl Entries {
    /// No entries.
    pub(crate) fn new(alloc: Global) -> Entries
        ensures { result.entries ≡ [] }
    {
        Entries {
            entries: Vec::new(alloc),
        }
    }

    /// Entries that stand in key order.
    pub fn from_slice(alloc: Global, entries: &[Entry]) -> Result<Entries, NoMemory>
        requires ordered { IsInKeyOrder entries.now }
        ensures { IfOk result (λ copied. copied.entries ≡ entries.now) }
    {
        let entries = Vec::from_slice(alloc, entries)?;
        Ok(Entries { entries })
    }

    /// The entries in their order.
    pub fn into_vec(self) -> Vec<Entry>
        ensures { result.items ≡ self.entries }
    {
        self.entries
    }

    /// The same entries once more.
    pub(crate) fn copy(&self) -> Result<Entries, NoMemory>
        ensures { IfOk result (λ copy. copy.entries ≡ self.now.entries) }
    {
        let entries = self.entries.clone()?;
        Ok(Entries { entries })
    }

    /// Makes room for so many more entries.
    pub fn reserve(&mut self, more: usize) -> Result<(), NoMemory>
        ensures ok { OnOk result (HasRoom more self.new) }
        ensures fits { OnOk result (length self.new.entries + more < 2 ^ 64) }
        ensures entries { self.new.entries ≡ self.old.entries }
        ensures capacity { self.old.capacity ≤ self.new.capacity }
        ensures room { HasRoom more self.old → IsOk result }
    {
        self.entries.reserve(more)?;
        Ok(())
    }

    /// The flags of a key, where it is there.
    pub(crate) fn get(&self, key: Key) -> Option<u8>
        ensures { result ≡ flags_at self.now.entries key }
    {
        match self.search(key) {
            Ok(place) => Some(self.entries[place].flags),
            Err(_) => None,
        }
    }

    /// The entry at a place in key order, from 0, or `None` past the last.
    pub(crate) fn at(&self, i: usize) -> Option<Entry>
        ensures at_place { result ≡ slice_get self.now.entries i }
        ensures past_end { IsNone result ↔ (length self.now.entries ≤ i) }
    {
        self.entries.get(i).copied()
    }

    /// The additions of all entries, in their order.
    pub(crate) fn additions(&self) -> Result<Changes, NoMemory>
        ensures { IfOk result (λ changes. changes ≡ map addition self.now.entries) }
    {
        let mut additions = Changes::new(*self.entries.allocator());
        for entry in &self.entries {
            let entry = *entry;
            additions.push(Change { entry, del: false })?;
        }
        Ok(additions)
    }

    /// The entries, lent.
    pub(crate) fn as_slice(&self) -> &[Entry]
        ensures { result.now ≡ self.now.entries }
    {
        self.entries.as_slice()
    }

    /// Takes an entry away, and answers whether it was there with its flags.
    pub(crate) fn remove(&mut self, entry: &Entry) -> bool
        ensures told { Tells result (without_entry entry.now self.old.entries)
            self.old.entries self.new.entries }
        ensures capacity { self.old.capacity ≤ self.new.capacity }
        ensures shrunk { length self.new.entries ≤ length self.old.entries }
    {
        let Ok(place) = self.search(entry.key) else {
            return false;
        };
        if self.entries[place].flags != entry.flags {
            return false;
        }
        self.entries.remove(place);
        true
    }

    /// Adds an entry, and answers whether its key was absent.
    pub(crate) fn insert(&mut self, entry: &Entry) -> bool
        requires room { HasRoom 1 self.old }
        ensures told { Tells result (with_entry entry.now self.old.entries)
            self.old.entries self.new.entries }
        ensures capacity { self.old.capacity ≤ self.new.capacity }
        ensures grown { length self.new.entries ≤ length self.old.entries + 1 }
    {
        let Err(place) = self.search(entry.key) else {
            return false;
        };
        self.entries.insert(place, *entry).unwrap();
        true
    }

    /// The entries stand in key order, and there is room for them.
    pub(crate) fn tell_order(&self)
        ensures order { IsInKeyOrder self.now.entries }
        ensures room { HasRoom 0 self.now }
    {
        let _entries = &self.entries;
    }

    // Where a key stands, or where it would.
    fn search(&self, key: Key) -> Result<usize, usize>
        ensures there { IfOk result (λ i. IsThere key_order entry_key key self.now.entries i) }
        ensures gap { IfErr result (λ i. IsGap key_order entry_key key self.now.entries i) }
    {
        self.entries.binary_search_by_key(&key, |entry| entry.key)
    }
}
