ghost use Rattle.std.specs.Prelude.{◌≡◌, ℕ, List, option_map, IfOk, OnErr, OnOk};
ghost use Rattle.mesh_model.specs.Clients.Mentions.{Mention};
ghost use Rattle.mesh_model.specs.Commits.Announcements.{told_changes};
ghost use Rattle.mesh_model.specs.Commits.History.{with_message, History};
ghost use Rattle.mesh_model.specs.Commits.Versions.{last_commit};
ghost use Rattle.mesh_model.specs.Tables.Sums.{sums_of};
ghost use Rattle.tt_local.specs.Announcing.{IsAnnouncement};
ghost use Rattle.tt_local.specs.Locals.{LocalsStand};
ghost use Rattle.tt_table.specs.Sums.{named_sums};

use crate::locals::Locals;
use mesh_base::NoMemory;
use tt_table::{Announcement, Changes, Sums, Table};

impl Locals {
    /// The byte of the last commit.
    pub fn last_byte(&self) -> u8
        ensures { (mentions : List Mention) (history : History) (since : ℕ) →
            LocalsStand self.now mentions history since →
            result ≡ (last_commit history.commits).byte }
    {
        self.journal.byte()
    }

    /// The checksums of the VLANs that have entries in the last commit.
    pub fn last_sums(&self) -> &Sums
        ensures { (mentions : List Mention) (history : History) (since : ℕ) →
            LocalsStand self.now mentions history since →
            named_sums result.now ≡ sums_of (last_commit history.commits).table }
    {
        self.journal.table().sums()
    }

    /// The table of the last commit.
    pub fn last_table(&self) -> &Table
        ensures { (mentions : List Mention) (history : History) (since : ℕ) →
            LocalsStand self.now mentions history since →
            result.now.entries ≡ (last_commit history.commits).table }
    {
        self.journal.table()
    }

    /// The changes of the last commit, where it isn't a first one and a message may carry them.
    pub fn told_changes(&self) -> Option<&Changes>
        ensures { (mentions : List Mention) (history : History) (since : ℕ) →
            LocalsStand self.now mentions history since →
            option_map (λ changes. changes.now) result ≡ told_changes history }
    {
        self.journal.told()
    }

    /// What the next originator message announces of the last commit. The message is counted.
    pub fn announcement(&mut self) -> Result<Announcement, NoMemory>
        ensures announced { IfOk result (λ told. (mentions : List Mention) (history : History)
            (since : ℕ) → LocalsStand self.old mentions history since →
            IsAnnouncement history told) }
        ensures counted { (mentions : List Mention) (history : History) (since : ℕ) →
            LocalsStand self.old mentions history since →
            OnOk result (LocalsStand self.new mentions (with_message history) since) }
        ensures err { OnErr result (self.new ≡ self.old) }
    {
        let sums = self.journal.table().sums().copy()?;
        let changes = self.journal.carried()?;
        let byte = self.journal.byte();
        self.journal.count();
        Ok(Announcement {
            byte,
            sums,
            changes,
        })
    }
}
