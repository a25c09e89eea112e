ghost use Rattle.std.specs.Prelude.{◌≡◌, ◌<◌, ◌≤◌, ◌||◌, [], length, slice_get, false, Some, IfOk, OnOk};
ghost use Rattle.mesh_base.specs.declared.client.Key.{Key};
ghost use Rattle.mesh_model.specs.Clients.Present.{same_key};
ghost use Rattle.tt_local.specs.Roster.{AreSorted, has_key};

use indexmap::IndexSet;
use mesh_base::{Key, NoMemory};
use std::alloc::Global;
use std::marker::Model;

/// Keys in order, each once.
#[derive(Debug, Drop)]
pub(crate) struct Pending {
    keys: IndexSet<Key>,
}

impl Model for Pending {
    ghost use Rattle.std.specs.Prelude.{◌+◌, length};
    ghost use Rattle.indexmap.specs.IndexSet.{spare};
    ghost use Rattle.tt_local.specs.Roster.{AreSorted, PendingView};

    ghost Value = { PendingView };

    ghost view = { λ p. record { keys = p.keys.keys; room = length p.keys.keys + spare p.keys } };

    ghost invariant = { λ p. AreSorted p.keys.keys };
}

impl Pending {
    /// No keys.
    pub(crate) fn new(alloc: Global) -> Pending
        ensures { result.keys ≡ [] }
    {
        Pending {
            keys: IndexSet::new(alloc),
        }
    }

    /// Makes room for so many keys in all.
    pub(crate) fn reserve(&mut self, keys: usize) -> Result<(), NoMemory>
        ensures ok { OnOk result (keys ≤ self.new.room) }
        ensures keys { self.new.keys ≡ self.old.keys }
        ensures room { self.old.room ≤ self.new.room }
    {
        self.keys.reserve(keys)?;
        Ok(())
    }

    /// Adds a key, where it isn't there.
    pub(crate) fn add(&mut self, key: Key)
        requires { has_key self.old.keys key ≡ false → length self.old.keys < self.old.room }
        ensures added { (other : Key) → has_key self.new.keys other
            ≡ (same_key key other || has_key self.old.keys other) }
        ensures room { self.old.room ≤ self.new.room }
    {
        if !self.has(key) {
            self.keys.insert_sorted(key).unwrap();
        }
    }

    /// Whether a key is there.
    pub(crate) fn has(&self, key: Key) -> bool
        ensures { result ≡ has_key self.now.keys key }
    {
        self.keys.contains(&key)
    }

    /// Takes all keys away.
    pub(crate) fn clear(&mut self)
        ensures keys { self.new.keys ≡ [] }
        ensures room { self.old.room ≤ self.new.room }
    {
        self.keys.clear();
    }

    /// How many keys there are.
    pub(crate) fn len(&self) -> usize
        ensures { result ≡ length self.now.keys }
    {
        self.keys.len()
    }

    /// The keys.
    pub(crate) fn keys(&self, alloc: Global) -> Result<Vec<Key>, NoMemory>
        ensures { IfOk result (λ keys. keys.items ≡ self.now.keys) }
    {
        let keys = self.keys.iter().copied().collect(alloc)?;
        Ok(keys)
    }

    /// The key at a place, from 0.
    pub(crate) fn at(&self, i: usize) -> Key
        requires within { i < length self.now.keys }
        ensures { slice_get self.now.keys i ≡ Some result }
    {
        self.keys.get_index(i).copied().unwrap()
    }

    /// The keys ascend.
    pub(crate) fn tell_order(&self)
        ensures { AreSorted self.now.keys }
    {
        let _keys = &self.keys;
    }
}
