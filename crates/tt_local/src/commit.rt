ghost use Rattle.std.specs.Prelude.{◌≡◌, ◌+◌, ◌≤◌, ℕ, List, length, IfOk, OnErr, OnOk};
ghost use Rattle.mesh_model.specs.Clients.Mentions.{Mention};
ghost use Rattle.mesh_model.specs.Commits.History.{committed, History, present_table};
ghost use Rattle.mesh_model.specs.Commits.Versions.{last_commit};
ghost use Rattle.mesh_model.specs.Tables.Changes.{changeset};
ghost use Rattle.tt_local.specs.Journal.{new_number};
ghost use Rattle.tt_local.specs.Locals.{LocalsStand};

use crate::locals::Locals;
use mesh_base::{Millis, NoMemory, Steps};
use std::sync::ledger::Ledger;

impl Locals {
    /// Commits the table of the present clients, if it differs from the last commit's, and answers
    /// the new commit's number. It takes at most one step for a change.
    pub fn commit<L: Ledger>(
        &mut self,
        now: Millis,
        steps: &mut Steps<L>,
    ) -> Result<Option<u64>, NoMemory>
        ensures committed { (mentions : List Mention) (history : History) (since : ℕ) →
            LocalsStand self.old mentions history since → since ≤ now →
            OnOk result (LocalsStand self.new mentions
            (committed (present_table mentions now) history) now) }
        ensures number { (mentions : List Mention) (history : History) (since : ℕ) →
            LocalsStand self.old mentions history since → since ≤ now →
            IfOk result (λ number. number ≡ new_number (present_table mentions now) history) }
        ensures err { OnErr result (self.new ≡ self.old) }
        ensures steps { (mentions : List Mention) (history : History) (since : ℕ) →
            LocalsStand self.old mentions history since → since ≤ now →
            steps.new ≤ steps.old
            + length (changeset (last_commit history.commits).table (present_table mentions now)) }
    {
        self.roster.renew(now)?;
        self.roster.tell_order();
        let table = self.journal.table();
        table.tell_order();
        let changes = self.roster.changes(now, table)?;
        if changes.len() == 0 {
            self.roster.settle(now);
            return Ok(None);
        }
        self.journal.commit(changes, steps)?;
        self.roster.settle(now);
        Ok(Some(self.last()))
    }
}
