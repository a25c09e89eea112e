ghost use Rattle.std.specs.Prelude.{◌≡◌, ◌+◌, ◌<◌, ◌≤◌, ◌^◌, ◌↔◌, ℕ, List, [], length, map, option_and_then, true, if◌then◌else◌, slice_get, None, Some, IfOk, OnOk, OnErr, IsNone, IsOk, IsSome};
ghost use Rattle.mesh_base.specs.declared.client.Key.{Key};
ghost use Rattle.mesh_model.specs.Clients.Mentions.{Mention, Sighted, Departed, Roamed, Joined, Left};
ghost use Rattle.mesh_model.specs.Clients.Present.{present_clients, present_row};
ghost use Rattle.tt_local.specs.Moments.{moment_at, moment_of};
ghost use Rattle.tt_local.specs.Roster.{has_key, is_aged, IsSettled, settled_client};
ghost use Rattle.tt_local.specs.declared.client.Client.{Client};
ghost use Rattle.tt_local.specs.Clients.{AreInOrder, client_at, client_row, ClientsStand, HasClient, HasNews, known_client, with_sighting};

use crate::client::Client;
use crate::moments::Moments;
use crate::pending::Pending;
use crate::sighting::Sighting;
use mesh_base::{Key, Millis, NoMemory, Vid};
use mesh_model::LocalRow;
use std::alloc::Global;
use std::collections::BTreeMap;
use std::marker::Model;

/// The clients of a node by key, in key order, and the moments of their last sightings.
#[derive(Debug, Drop)]
pub(crate) struct Clients {
    map: BTreeMap<Key, Client>,
    moments: Moments,
}

impl Model for Clients {
    ghost use Rattle.std.specs.Prelude.{List};
    ghost use Rattle.mesh_base.specs.declared.client.Key.{Key};
    ghost use Rattle.tt_local.specs.Moments.{AreMoments};
    ghost use Rattle.tt_local.specs.declared.client.Client.{Client};

    ghost Value = { List (Key × Client) };

    ghost view = { λ c. c.map.entries };

    ghost invariant = { λ c. AreMoments c.map.entries c.moments };
}

impl Clients {
    /// No clients.
    pub(crate) fn new(alloc: Global) -> Clients
        ensures { result ≡ [] }
    {
        Clients {
            map: BTreeMap::new(alloc),
            moments: Moments::new(alloc),
        }
    }

    /// Notes a sighting.
    pub(crate) fn sight(&mut self, now: Millis, key: Key, flags: u8) -> Result<(), NoMemory>
        ensures news { OnOk result (HasNews now key (Sighted flags) self.old self.new) }
        ensures longer { length self.new ≤ length self.old + 1 }
        ensures err { OnErr result (self.new ≡ self.old) }
    {
        let sighting = Sighting { flags, moment: now };
        let Some(client) = self.map.get_mut(&key) else {
            return self.add(key, sighting);
        };
        self.moments.change(key, client.moment(), now)?;
        client.sighting = Some(sighting);
        Ok(())
    }

    // Adds a key of which nothing is known, with its first sighting.
    fn add(&mut self, key: Key, sighting: Sighting) -> Result<(), NoMemory>
        requires { client_at self.old key ≡ None }
        ensures news { OnOk result (HasNews sighting.moment key (Sighted sighting.flags)
            self.old self.new) }
        ensures longer { length self.new ≤ length self.old + 1 }
        ensures err { OnErr result (self.new ≡ self.old) }
    {
        self.moments.change(key, None, sighting.moment)?;
        let client = Client {
            sighting: Some(sighting),
            joined: false,
        };
        let inserted: Result<_, _> = self.map.insert(key, client);
        if let Err(refused) = inserted {
            // the key had no moment before
            self.moments.forget(key, Some(sighting.moment));
            return Err(NoMemory::from(refused));
        }
        Ok(())
    }

    /// Notes that a group was joined.
    pub(crate) fn join(&mut self, key: Key) -> Result<(), NoMemory>
        ensures news { (now : ℕ) → OnOk result (HasNews now key Joined self.old self.new) }
        ensures longer { length self.new ≤ length self.old + 1 }
        ensures err { OnErr result (self.new ≡ self.old) }
    {
        let sighting = self.known(key).sighting;
        let client = Client {
            sighting,
            joined: true,
        };
        self.put(key, client)?;
        Ok(())
    }

    /// Notes that a client departed, or roamed.
    pub(crate) fn depart(&mut self, key: Key)
        ensures departed { (now : ℕ) → HasNews now key Departed self.old self.new }
        ensures roamed { (now : ℕ) → HasNews now key Roamed self.old self.new }
        ensures as_long { length self.new ≡ length self.old }
    {
        if let Some(client) = self.get(key) {
            self.unsight(key, client);
        }
    }

    /// Notes that a group was left.
    pub(crate) fn leave(&mut self, key: Key)
        ensures news { (now : ℕ) → HasNews now key Left self.old self.new }
        ensures as_long { length self.new ≡ length self.old }
    {
        if let Some(Client { sighting, .. }) = self.get(key) {
            let client = Client {
                sighting,
                joined: false,
            };
            self.replace(key, client);
        }
    }

    /// Forgets a key.
    pub(crate) fn forget(&mut self, key: Key)
        ensures forgotten { HasClient key None self.old self.new }
        ensures fewer { length self.new ≤ length self.old }
    {
        let known = self.known(key);
        self.moments.forget(key, known.moment());
        self.map.remove(&key);
    }

    /// Forgets of these keys those that aren't present, and their sightings that count no longer.
    pub(crate) fn settle(&mut self, now: Millis, keys: &Pending)
        ensures settled { IsSettled now keys.now.keys self.old self.new }
        ensures fewer { length self.new ≤ length self.old }
    {
        for i in 0..keys.len() {
            self.settle_key(now, keys.at(i));
        }
    }

    // Forgets a key that isn't present, or its sighting if that counts no longer.
    fn settle_key(&mut self, now: Millis, key: Key)
        ensures settled { HasClient key (settled_client now key (client_at self.old key))
            self.old self.new }
        ensures fewer { length self.new ≤ length self.old }
    {
        let Some(client) = self.get(key) else {
            return;
        };
        if client.row(now, key).is_none() {
            self.forget(key);
        } else if client.is_aged(now) {
            self.unsight(key, client);
        }
    }

    /// The keys of clients whose sightings count no longer, found without a look at the others.
    pub(crate) fn aged(&self, alloc: Global, now: Millis) -> Result<Vec<Key>, NoMemory>
        ensures { IfOk result (λ keys. (key : Key) (client : Client) →
            client_at self.now key ≡ Some client → is_aged now client ≡ true →
            has_key keys.items key ≡ true) }
    {
        let keys = self.moments.aged(alloc, now)?;
        Ok(keys)
    }

    /// How many keys there are.
    pub(crate) fn len(&self) -> usize
        ensures len { result ≡ length self.now }
        ensures small { result + 1 < 2 ^ 64 }
    {
        self.map.len()
    }

    /// The keys ascend.
    pub(crate) fn tell_order(&self)
        ensures { AreInOrder self.now }
    {
        let _map = &self.map;
    }

    // Gives a key its client, of which the sighting is as before.
    fn put(&mut self, key: Key, client: Client) -> Result<(), NoMemory>
        requires same { moment_at self.old key ≡ moment_of client }
        ensures put { OnOk result (HasClient key (Some client) self.old self.new) }
        ensures known { IsSome (client_at self.old key) → IsOk result }
        ensures longer { length self.new ≤ length self.old + 1 }
        ensures as_long { IsSome (client_at self.old key) →
            length self.new ≡ length self.old }
        ensures err { OnErr result (self.new ≡ self.old) }
    {
        self.tell_order();
        self.map.insert(key, client)?;
        Ok(())
    }

    // Gives a key that is there its client, of which the sighting is as before.
    fn replace(&mut self, key: Key, client: Client)
        requires there { IsSome (client_at self.old key) }
        requires same { moment_at self.old key ≡ moment_of client }
        ensures replaced { HasClient key (Some client) self.old self.new }
        ensures as_long { length self.new ≡ length self.old }
    {
        self.put(key, client).unwrap();
    }

    // Takes the sighting of a client away.
    fn unsight(&mut self, key: Key, client: Client)
        requires there { client_at self.old key ≡ Some client }
        ensures unsighted { HasClient key (Some (with_sighting None client)) self.old self.new }
        ensures as_long { length self.new ≡ length self.old }
    {
        self.moments.forget(key, client.moment());
        // a key that is there wants no memory
        let replaced: Result<_, _> = self.map.insert(key, client.unsighted());
        replaced.unwrap();
    }

    /// What is known of a key.
    pub(crate) fn get(&self, key: Key) -> Option<Client>
        ensures { result ≡ client_at self.now key }
    {
        self.map.get(&key).copied()
    }

    // What is known of a key, or that nothing is.
    fn known(&self, key: Key) -> Client
        ensures { result ≡ known_client (client_at self.now key) }
    {
        let unknown = Client {
            sighting: None,
            joined: false,
        };
        self.get(key).unwrap_or(unknown)
    }

    /// The row of a client, where it is present.
    pub(crate) fn row(&self, now: Millis, key: Key) -> Option<LocalRow>
        ensures kept { result ≡ option_and_then (client_row now key) (client_at self.now key) }
        ensures present { (mentions : List Mention) (since : ℕ) →
            ClientsStand self.now mentions since → since ≤ now →
            result ≡ present_row mentions now key }
    {
        self.get(key)?.row(now, key)
    }

    /// The present client at this place in key order, from 0, with its age.
    pub(crate) fn row_at(&self, now: Millis, i: usize) -> Option<LocalRow>
        ensures at_place { (mentions : List Mention) (since : ℕ) →
            ClientsStand self.now mentions since → since ≤ now →
            result ≡ slice_get (present_clients mentions now) i }
        ensures past_end { (mentions : List Mention) (since : ℕ) →
            ClientsStand self.now mentions since → since ≤ now →
            IsNone result ↔ (length (present_clients mentions now) ≤ i) }
    {
        self.map
            .iter()
            .filter_map(|(key, client)| client.row(now, *key))
            .nth(i)
    }

    /// The present clients in key order, with their ages.
    pub(crate) fn rows(&self, alloc: Global, now: Millis) -> Result<Vec<LocalRow>, NoMemory>
        ensures { IfOk result (λ rows. (mentions : List Mention) (since : ℕ) →
            ClientsStand self.now mentions since → since ≤ now →
            rows.items ≡ present_clients mentions now) }
    {
        let rows = self
            .map
            .iter()
            .filter_map(|(key, client)| client.row(now, *key))
            .collect(alloc)?;
        Ok(rows)
    }

    /// The VLANs of the present clients, in the order of their keys.
    pub(crate) fn vids(&self, alloc: Global, now: Millis) -> Result<Vec<Vid>, NoMemory>
        ensures are { IfOk result (λ vids. (mentions : List Mention) (since : ℕ) →
            ClientsStand self.now mentions since → since ≤ now →
            vids.items ≡ map (λ row. row.entry.key.vid) (present_clients mentions now)) }
        ensures count { IfOk result (λ vids. (mentions : List Mention) (since : ℕ) →
            ClientsStand self.now mentions since → since ≤ now →
            length vids.items ≡ length (present_clients mentions now)) }
    {
        let vids = self
            .map
            .iter()
            .filter_map(|(key, client)| client.vid(now, *key))
            .collect(alloc)?;
        Ok(vids)
    }
}
