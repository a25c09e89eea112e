ghost use Rattle.std.specs.Prelude.{◌≡◌, ℕ, List, [], length, IfOk, OnErr, OnOk};
ghost use Rattle.mesh_model.specs.Clients.Mentions.{Mention};
ghost use Rattle.mesh_model.specs.Commits.History.{History, restarted};
ghost use Rattle.tt_local.specs.Locals.{LocalsStand};

use crate::locals::Locals;
use crate::roster::Roster;
use mesh_base::NoMemory;

impl Locals {
    /// Forgets all clients and makes one more first commit, at a reboot, and answers its number.
    pub fn restart(&mut self) -> Result<u64, NoMemory>
        ensures restarted { (mentions : List Mention) (history : History) (since : ℕ) →
            LocalsStand self.old mentions history since →
            OnOk result (LocalsStand self.new [] (restarted history) 0) }
        ensures number { (mentions : List Mention) (history : History) (since : ℕ) →
            LocalsStand self.old mentions history since →
            IfOk result (λ number. number ≡ length history.commits) }
        ensures err { OnErr result (self.new ≡ self.old) }
    {
        self.journal.restart()?;
        self.roster = Roster::new(self.alloc);
        Ok(self.last())
    }

    /// The number of the last first commit.
    pub fn first(&self) -> u64
        ensures { (mentions : List Mention) (history : History) (since : ℕ) →
            LocalsStand self.now mentions history since → result ≡ history.start }
    {
        self.journal.first() as u64
    }
}
