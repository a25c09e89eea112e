ghost use Rattle.std.specs.Prelude.{◌≡◌, ◌<◌, ℕ, ◌++◌, [], length, filter_map, map, true, IfOk, IsSome, OnOk, OnErr};
ghost use Rattle.mesh_model.specs.Clients.Mentions.{Sighted, Departed, Roamed, Joined, Left};
ghost use Rattle.mesh_model.specs.Tables.Changes.{changeset};
ghost use Rattle.tt_local.specs.Clients.{AreInOrder, client_at, HasNews, present_entries};
ghost use Rattle.tt_local.specs.Roster.{AreSorted, differing_entry, gone_entry, has_key, IsRenewed, IsSame, IsSettled, IsTracked, new_entry, present_flags, Tracks};

use crate::clients::Clients;
use crate::pending::Pending;
use mesh_base::{Entry, Key, Millis, NoMemory};
use mesh_model::Change;
use std::alloc::Global;
use std::marker::Model;
use tt_table::{Changes, Table};

/// The clients of a node, and the keys of those that may differ from the last commit.
#[derive(Debug, Drop)]
pub(crate) struct Roster {
    alloc: Global,
    pub(crate) clients: Clients,
    pending: Pending,
}

impl Model for Roster {
    ghost use Rattle.tt_local.specs.Roster.{Fits, RosterView};

    ghost Value = { RosterView };

    ghost view = { λ r. record {
      clients = r.clients;
      pending = r.pending.keys;
      room = r.pending.room;
    } };

    ghost invariant = { λ r. Fits r.clients r.pending };
}

impl Roster {
    /// No clients.
    pub(crate) fn new(alloc: Global) -> Roster
        ensures clients { result.clients ≡ [] }
        ensures pending { result.pending ≡ [] }
    {
        Roster {
            alloc,
            clients: Clients::new(alloc),
            pending: Pending::new(alloc),
        }
    }

    /// Notes a sighting.
    pub(crate) fn sight(&mut self, now: Millis, key: Key, flags: u8) -> Result<(), NoMemory>
        ensures news { OnOk result
            (HasNews now key (Sighted flags) self.old.clients self.new.clients) }
        ensures tracks { OnOk result (Tracks self.old self.new) }
        ensures err { OnErr result (IsSame self.old self.new) }
    {
        self.make_room()?;
        self.clients.sight(now, key, flags)?;
        self.touch_known(key);
        Ok(())
    }

    /// Notes that a group was joined.
    pub(crate) fn join(&mut self, key: Key) -> Result<(), NoMemory>
        ensures news { (now : ℕ) → OnOk result
            (HasNews now key Joined self.old.clients self.new.clients) }
        ensures tracks { OnOk result (Tracks self.old self.new) }
        ensures err { OnErr result (IsSame self.old self.new) }
    {
        self.make_room()?;
        self.clients.join(key)?;
        self.touch_known(key);
        Ok(())
    }

    /// Notes that a client departed, or roamed.
    pub(crate) fn depart(&mut self, key: Key)
        ensures departed { (now : ℕ) → HasNews now key Departed self.old.clients self.new.clients }
        ensures roamed { (now : ℕ) → HasNews now key Roamed self.old.clients self.new.clients }
        ensures tracks { Tracks self.old self.new }
    {
        self.clients.depart(key);
        self.touch(key);
    }

    /// Notes that a group was left.
    pub(crate) fn leave(&mut self, key: Key)
        ensures news { (now : ℕ) → HasNews now key Left self.old.clients self.new.clients }
        ensures tracks { Tracks self.old self.new }
    {
        self.clients.leave(key);
        self.touch(key);
    }

    // A key is pending from now on, where there is a client of it.
    fn touch(&mut self, key: Key)
        ensures clients { self.new.clients ≡ self.old.clients }
        ensures tracks { Tracks self.old self.new }
        ensures touched { IsSome (client_at self.old.clients key) →
            has_key self.new.pending key ≡ true }
    {
        if self.clients.get(key).is_some() {
            self.touch_known(key);
        }
    }

    // The key of a client is pending from now on.
    fn touch_known(&mut self, key: Key)
        requires { IsSome (client_at self.old.clients key) }
        ensures clients { self.new.clients ≡ self.old.clients }
        ensures tracks { Tracks self.old self.new }
        ensures touched { has_key self.new.pending key ≡ true }
    {
        self.pending.tell_order();
        self.pending.add(key);
    }

    // There is room for the key of one more client.
    fn make_room(&mut self) -> Result<(), NoMemory>
        ensures same { IsSame self.old self.new }
        ensures room { OnOk result (length self.new.clients < self.new.room) }
    {
        self.pending.reserve(self.clients.len() + 1)?;
        Ok(())
    }

    /// Makes the keys pending whose sightings count no longer.
    pub(crate) fn renew(&mut self, now: Millis) -> Result<(), NoMemory>
        ensures clients { self.new.clients ≡ self.old.clients }
        ensures tracks { Tracks self.old self.new }
        ensures renewed { OnOk result (IsRenewed now self.new) }
    {
        let aged = self.clients.aged(self.alloc, now)?;
        for key in aged.as_slice() {
            self.touch(*key);
        }
        Ok(())
    }

    /// The entries of pending keys that a table has and that aren't present.
    pub(crate) fn gone(&self, now: Millis, table: &Table) -> Result<Vec<Entry>, NoMemory>
        ensures { IfOk result (λ entries. entries.items
            ≡ filter_map (gone_entry now self.now.clients table.now.entries) self.now.pending) }
    {
        let keys = self.pending.keys(self.alloc)?;
        let entries = keys
            .iter()
            .filter_map(|key| differing(*key, table.get(*key), self.flags(now, *key)))
            .collect(self.alloc)?;
        Ok(entries)
    }

    /// The entries of pending keys that are present and that a table doesn't have.
    pub(crate) fn came(&self, now: Millis, table: &Table) -> Result<Vec<Entry>, NoMemory>
        ensures { IfOk result (λ entries. entries.items
            ≡ filter_map (new_entry now self.now.clients table.now.entries) self.now.pending) }
    {
        let keys = self.pending.keys(self.alloc)?;
        let entries = keys
            .iter()
            .filter_map(|key| differing(*key, self.flags(now, *key), table.get(*key)))
            .collect(self.alloc)?;
        Ok(entries)
    }

    /// The changes that lead from a table to that of the present clients, where the keys that
    /// aren't pending are in both as they are known.
    pub(crate) fn changes(&self, now: Millis, table: &Table) -> Result<Changes, NoMemory>
        requires renewed { IsRenewed now self.now }
        requires tracked { IsTracked self.now table.now.entries }
        ensures { IfOk result (λ changes. changes
            ≡ changeset table.now.entries (present_entries now self.now.clients)) }
    {
        self.tell_order();
        table.tell_order();
        // At most ticks nothing is pending.
        if self.pending.len() == 0 {
            return Ok(Changes::new(self.alloc));
        }
        let gone = self.gone(now, table)?;
        let came = self.came(now, table)?;
        let mut changes = Changes::new(self.alloc);
        push_all(&mut changes, gone.as_slice(), true)?;
        push_all(&mut changes, came.as_slice(), false)?;
        Ok(changes)
    }

    // The flags of a key, where it is present.
    fn flags(&self, now: Millis, key: Key) -> Option<u8>
        ensures { result ≡ present_flags now self.now.clients key }
    {
        self.clients.row(now, key).map(|row| row.entry.flags)
    }

    /// No key is pending any more, and those that aren't present are forgotten, as are sightings
    /// that count no longer.
    pub(crate) fn settle(&mut self, now: Millis)
        ensures settled { IsSettled now self.old.pending self.old.clients self.new.clients }
        ensures pending { self.new.pending ≡ [] }
        ensures order { AreInOrder self.new.clients }
    {
        self.clients.settle(now, &self.pending);
        self.pending.clear();
        self.clients.tell_order();
    }

    /// The keys that are pending ascend, and so do those of the clients.
    pub(crate) fn tell_order(&self)
        ensures clients { AreInOrder self.now.clients }
        ensures pending { AreSorted self.now.pending }
    {
        self.clients.tell_order();
        self.pending.tell_order();
    }
}

// The entry of a key that has flags, where others differ.
fn differing(key: Key, flags: Option<u8>, others: Option<u8>) -> Option<Entry>
    ensures { result ≡ differing_entry key flags others }
{
    let flags = flags?;
    (others != Some(flags)).then_some(Entry { key, flags })
}

/// Adds the changes that take entries away, or that add them.
pub(crate) fn push_all(changes: &mut Changes, entries: &[Entry], del: bool) -> Result<(), NoMemory>
    ensures { OnOk result (changes.new
        ≡ changes.old ++ map (λ entry. record { entry = entry; del = del }) entries.now) }
{
    for entry in entries {
        changes.push(Change { entry: *entry, del })?;
    }
    Ok(())
}
