ghost use Rattle.std.specs.Prelude.{◌≡◌, ◌+◌, ◌-◌, ◌≤◌, ◌↔◌, ℕ, List, [], ◌∷◌, length, None, Ok, Some, slice_get, option_map, IfErr, IfOk, OnOk, OnErr, IsTrue, IsNone};
ghost use Rattle.mesh_model.specs.Clients.Limits.{limit_beside, limit_of_mention};
ghost use Rattle.mesh_model.specs.Clients.Mentions.{Departed, Joined, Left, Mention, Roamed, Sighted};
ghost use Rattle.mesh_model.specs.Clients.Present.{present_clients, present_row};
ghost use Rattle.mesh_model.specs.Commits.History.{committed, first_history, History, present_table};
ghost use Rattle.tt_local.specs.Limits.{HasLimit, limit_at};
ghost use Rattle.tt_local.specs.Locals.{LocalsStand, Notes, TellsNew};

use crate::failure::LocalErr;
use crate::journal::Journal;
use crate::roster::Roster;
use crate::vlans::{count_vlans, most_vlans, name};
use mesh_base::{Key, Millis, NoMemory, Vid};
use mesh_model::LocalRow;
use std::alloc::Global;
use std::marker::Model;

/// The most clients that are present at once.
pub const CLIENTS_LIMIT: usize = 4_096;

/// The most VLANs that clients are present in at once.
const VLANS_LIMIT: usize = 16;

/// The local clients of a node, and the commits that it made of them.
#[derive(Drop)]
pub struct Locals {
    pub(crate) alloc: Global,
    pub(crate) roster: Roster,
    pub(crate) journal: Journal,
    // The VLANs of all clients that are kept, and maybe of others before: a new client is mostly
    // within the limits whichever of the clients are present, and they needn't be looked at.
    vlans: Vec<Vid>,
}

impl Model for Locals {
    ghost use Rattle.tt_local.specs.Locals.{LocalsView};
    ghost use Rattle.tt_local.specs.Roster.{IsTracked};
    ghost use Rattle.tt_local.specs.Vlans.{AreNamed};

    ghost Value = { LocalsView };

    ghost view = { λ l. record { clients = l.roster.clients; journal = l.journal } };

    ghost invariant = { λ l.
        IsTracked l.roster l.journal.table × AreNamed l.vlans.items l.roster.clients };
}

impl Locals {
    /// No clients, and commit 0.
    pub fn new(alloc: Global) -> Locals
        ensures { LocalsStand result [] first_history 0 }
    {
        Locals {
            alloc,
            roster: Roster::new(alloc),
            journal: Journal::new(alloc),
            vlans: Vec::new(alloc),
        }
    }

    /// Notes a sighting of a client, and answers whether the client is newly present. `Clients` and
    /// `Vlans` where a new client would be too many beside the present ones.
    pub fn see(&mut self, now: Millis, key: Key, flags: u8) -> Result<bool, LocalErr>
        ensures noted { Notes (record { moment = now; key = key; news = Sighted flags })
            self.old self.new result }
        ensures newly { TellsNew now key self.old result }

        // Refused exactly for the limit that is passed, or for want of memory, and then as before.
        ensures within { (mentions : List Mention) (history : History) (since : ℕ) →
            LocalsStand self.old mentions history since → since ≤ now →
            let mention : Mention = record { moment = now; key = key; news = Sighted flags } in
            OnOk result (limit_of_mention mentions mention ≡ None) }
        ensures limit { (mentions : List Mention) (history : History) (since : ℕ) →
            LocalsStand self.old mentions history since → since ≤ now →
            let mention : Mention = record { moment = now; key = key; news = Sighted flags } in
            IfErr result (HasLimit (limit_of_mention mentions mention)) }
        ensures err { OnErr result (self.new ≡ self.old) }
    {
        let newly = self.keep_limits(now, key)?;
        name(&mut self.vlans, key.vid)?;
        self.roster.sight(now, key, flags)?;
        self.roster.tell_order();
        Ok(newly)
    }

    /// Notes that a group was joined. `Clients` and `Vlans` where a group that isn't present would
    /// be too many beside the present clients.
    pub fn join(&mut self, now: Millis, key: Key) -> Result<(), LocalErr>
        ensures noted { Notes (record { moment = now; key = key; news = Joined })
            self.old self.new result }

        // Refused exactly for the limit that is passed, or for want of memory, and then as before.
        ensures within { (mentions : List Mention) (history : History) (since : ℕ) →
            LocalsStand self.old mentions history since → since ≤ now →
            let mention : Mention = record { moment = now; key = key; news = Joined } in
            OnOk result (limit_of_mention mentions mention ≡ None) }
        ensures limit { (mentions : List Mention) (history : History) (since : ℕ) →
            LocalsStand self.old mentions history since → since ≤ now →
            let mention : Mention = record { moment = now; key = key; news = Joined } in
            IfErr result (HasLimit (limit_of_mention mentions mention)) }
        ensures err { OnErr result (self.new ≡ self.old) }
    {
        self.keep_limits(now, key)?;
        name(&mut self.vlans, key.vid)?;
        self.roster.join(key)?;
        self.roster.tell_order();
        Ok(())
    }

    /// Notes that a client departed, or that it roamed to another node.
    pub fn gone(&mut self, key: Key)
        ensures departed { (mentions : List Mention) (history : History) (since now : ℕ) →
            LocalsStand self.old mentions history since →
            let mention : Mention = record { moment = now; key = key; news = Departed } in
            LocalsStand self.new (mention ∷ mentions) history since }
        ensures roamed { (mentions : List Mention) (history : History) (since now : ℕ) →
            LocalsStand self.old mentions history since →
            let mention : Mention = record { moment = now; key = key; news = Roamed } in
            LocalsStand self.new (mention ∷ mentions) history since }
    {
        self.roster.depart(key);
        self.roster.tell_order();
    }

    /// Notes that a group was left.
    pub fn leave(&mut self, key: Key)
        ensures noted { (mentions : List Mention) (history : History) (since now : ℕ) →
            LocalsStand self.old mentions history since →
            let mention : Mention = record { moment = now; key = key; news = Left } in
            LocalsStand self.new (mention ∷ mentions) history since }
    {
        self.roster.leave(key);
        self.roster.tell_order();
    }

    // A client that isn't present is within the limits beside those that are. Answers whether the
    // client is newly present.
    fn keep_limits(&self, now: Millis, key: Key) -> Result<bool, LocalErr>
        ensures newly { TellsNew now key self.now result }
        ensures within { (mentions : List Mention) (history : History) (since : ℕ) →
            LocalsStand self.now mentions history since → since ≤ now →
            OnOk result (limit_at mentions now key ≡ None) }
        ensures limit { (mentions : List Mention) (history : History) (since : ℕ) →
            LocalsStand self.now mentions history since → since ≤ now →
            IfErr result (HasLimit (limit_at mentions now key)) }
    {
        let newly = self.row(now, key).is_none();
        if newly {
            self.keep_limits_beside(now, key.vid)?;
        }
        Ok(newly)
    }

    // One more client in this VLAN is within the limits beside those that are present.
    fn keep_limits_beside(&self, now: Millis, vid: Vid) -> Result<(), LocalErr>
        ensures within { (mentions : List Mention) (history : History) (since : ℕ) →
            LocalsStand self.now mentions history since → since ≤ now →
            OnOk result (limit_beside (present_clients mentions now) vid ≡ None) }
        ensures limit { (mentions : List Mention) (history : History) (since : ℕ) →
            LocalsStand self.now mentions history since → since ≤ now →
            IfErr result (HasLimit (limit_beside (present_clients mentions now) vid)) }
    {
        if self.has_room(vid) {
            return Ok(());
        }
        let vids = self.roster.clients.vids(self.alloc, now)?;
        if vids.len() >= CLIENTS_LIMIT {
            return Err(LocalErr::Clients);
        }
        if count_vlans(self.alloc, vids.as_slice(), vid)? > VLANS_LIMIT {
            return Err(LocalErr::Vlans);
        }
        Ok(())
    }

    // Whether one more client in this VLAN is surely within the limits.
    fn has_room(&self, vid: Vid) -> bool
        ensures { IsTrue result → (mentions : List Mention) (history : History) (since now : ℕ) →
            LocalsStand self.now mentions history since → since ≤ now →
            limit_beside (present_clients mentions now) vid ≡ None }
    {
        self.roster.clients.len() < CLIENTS_LIMIT
            && most_vlans(self.vlans.as_slice(), vid) <= VLANS_LIMIT
    }

    // The row of a client, where it is present.
    fn row(&self, now: Millis, key: Key) -> Option<LocalRow>
        ensures { (mentions : List Mention) (history : History) (since : ℕ) →
            LocalsStand self.now mentions history since → since ≤ now →
            result ≡ present_row mentions now key }
    {
        self.roster.clients.row(now, key)
    }

    /// The flags of a client, where it is present.
    pub fn present(&self, now: Millis, key: Key) -> Option<u8>
        ensures { (mentions : List Mention) (history : History) (since : ℕ) →
            LocalsStand self.now mentions history since → since ≤ now →
            result ≡ option_map (λ row. row.entry.flags) (present_row mentions now key) }
    {
        self.row(now, key).map(|row| row.entry.flags)
    }

    /// The present client at this place in key order, from 0, with its age, or without one where it
    /// is a joined group.
    pub fn row_at(&self, now: Millis, i: usize) -> Option<LocalRow>
        ensures at_place { (mentions : List Mention) (history : History) (since : ℕ) →
            LocalsStand self.now mentions history since → since ≤ now →
            result ≡ slice_get (present_clients mentions now) i }
        ensures past_end { (mentions : List Mention) (history : History) (since : ℕ) →
            LocalsStand self.now mentions history since → since ≤ now →
            IsNone result ↔ (length (present_clients mentions now) ≤ i) }
    {
        self.roster.clients.row_at(now, i)
    }

    /// The present clients in key order, with their ages.
    pub fn rows(&self, alloc: Global, now: Millis) -> Result<Vec<LocalRow>, NoMemory>
        ensures { IfOk result (λ rows. (mentions : List Mention) (history : History) (since : ℕ) →
            LocalsStand self.now mentions history since → since ≤ now →
            rows.items ≡ present_clients mentions now) }
    {
        self.roster.clients.rows(alloc, now)
    }

    /// The number of the last commit.
    pub fn last(&self) -> u64
        ensures past { result ≡ length self.now.journal.past }
        ensures last { (mentions : List Mention) (history : History) (since : ℕ) →
            LocalsStand self.now mentions history since → result + 1 ≡ length history.commits }
    {
        self.journal.last() as u64
    }
}
