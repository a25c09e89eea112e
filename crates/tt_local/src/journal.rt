ghost use Rattle.std.specs.Prelude.{◌≡◌, ◌+◌, ◌-◌, ◌%◌, ◌==◌, ◌≤◌, List, [], length, min, option_map, if◌then◌else◌, IfOk, None, Some, Ok, OnErr, OnOk};
ghost use Rattle.std.specs.Rc.{rc_slice_items};
ghost use Rattle.mesh_base.specs.declared.client.Entry.{Entry};
ghost use Rattle.mesh_model.specs.Tables.Changes.{IsInKeyOrder};
ghost use Rattle.mesh_model.specs.Tables.Strict.{apply_strictly};
ghost use Rattle.mesh_model.specs.Commits.Announcements.{announced_changes, told_changes};
ghost use Rattle.mesh_model.specs.Commits.History.{History};
ghost use Rattle.mesh_model.specs.Tables.Changes.{changeset};
ghost use Rattle.tt_local.specs.Journal.{GoesOn, HasCommitted, HasRestarted, HasTwin, JournalStands, present_run, snapshot_interval};

use crate::kind::{Kind, keep};
use crate::roster::push_all;
use crate::run::Run;
use indexmap::IndexMap;
use mesh_base::{Entry, NoMemory, Steps};
use std::alloc::Global;
use std::marker::Model;
use std::mem;
use std::rc::RcSlice;
use std::sync::ledger::Ledger;
use tt_table::{ApplyErr, Changes, Sums, Table};

/// The commits of which one keeps its whole table.
pub(crate) const SNAPSHOT_INTERVAL: usize = 32;

/// The most changes that a message carries.
const CARRIED_CHANGES: usize = 120;

/// The messages of a commit that carry its changes; more aren't counted.
const COUNTED_MESSAGES: u8 = 3;

/// A commit that isn't the last: its changes, and the checksums of its table.
#[derive(Drop)]
pub(crate) struct Past {
    pub(crate) changes: Changes,
    pub(crate) sums: Sums,
}

/// The commits of a node in all its logs: the last one whole, the changes and checksums of each
/// before it, and the whole table of each 32nd of these. A first commit is kept like any other, by
/// the deletions that lead to it.
#[derive(Drop)]
pub(crate) struct Journal {
    pub(crate) alloc: Global,
    pub(crate) past: Vec<Past>,
    /// Of each commit before the last one the number of a commit that has its table: itself, or an
    /// earlier one of its kind.
    pub(crate) twins: Vec<usize>,
    /// Of each kind one of the commits before the last one. It is only a guess where a table was
    /// committed before, and nothing rests on it.
    pub(crate) kinds: IndexMap<Kind, usize>,
    pub(crate) snapshots: Vec<RcSlice<Entry>>,
    pub(crate) table: Table,
    changes: Changes,
    /// The number of the first commit of the log that goes on.
    pub(crate) start: usize,
    /// The logs before it; one without a further commit is left out, unless it is the first.
    pub(crate) runs: Vec<Run>,
    sent: u8,
}

impl Model for Journal {
    ghost use Rattle.std.specs.Prelude.{◌≤◌, length, map};
    ghost use Rattle.std.specs.Rc.{rc_slice_items};
    ghost use Rattle.tt_local.specs.Journal.{AreSnapshots, JournalView};
    ghost use Rattle.tt_table.specs.Sums.{named_sums};

    ghost Value = { JournalView };

    ghost view = { λ j. record {
      table = j.table.entries;
      changes = j.changes;
      past = map (λ p. record { changes = p.changes; sums = named_sums p.sums }) j.past.items;
      twins = j.twins.items;
      snapshots = map rc_slice_items j.snapshots.items;
      start = j.start;
      runs = j.runs.items;
      sent = j.sent;
    } };

    ghost invariant = { λ j. AreSnapshots (map rc_slice_items j.snapshots.items)
        (length j.past.items) × (j.start ≤ length j.past.items) };
}

impl Journal {
    /// Commit 0, the empty table.
    pub(crate) fn new(alloc: Global) -> Journal
        ensures { result ≡ record {
          table = [];
          changes = [];
          past = [];
          twins = [];
          snapshots = [];
          start = 0;
          runs = [];
          sent = 0;
        } }
    {
        Journal {
            alloc,
            past: Vec::new(alloc),
            twins: Vec::new(alloc),
            kinds: IndexMap::new(alloc),
            snapshots: Vec::new(alloc),
            table: Table::new(alloc),
            changes: Changes::new(alloc),
            start: 0,
            runs: Vec::new(alloc),
            sent: 0,
        }
    }

    /// The table of the last commit.
    pub(crate) fn table(&self) -> &Table
        ensures { result.now.entries ≡ self.now.table }
    {
        &self.table
    }

    /// The number of the last commit.
    pub(crate) fn last(&self) -> usize
        ensures { result ≡ length self.now.past }
    {
        self.past.len()
    }

    /// Commits the table to which changes lead from the last commit's, with at most one step for a
    /// change.
    pub(crate) fn commit<L: Ledger>(
        &mut self,
        changes: Changes,
        steps: &mut Steps<L>,
    ) -> Result<(), NoMemory>
        requires strict { (table : List Entry)
            × (apply_strictly self.old.table changes ≡ Ok table) }
        ensures committed { OnOk result (HasCommitted changes self.old self.new) }
        ensures twin { OnOk result (HasTwin self.old self.new) }
        ensures goes_on { OnOk result (GoesOn self.old self.new) }
        ensures err { OnErr result (self.new ≡ self.old) }
        ensures steps { steps.new ≤ steps.old + length changes }
    {
        let sums = self.table.sums().copy()?;
        let snapshot = self.snapshot()?;
        let twin = self.twin()?;
        let kind = self.kind();
        keep(&mut self.kinds, kind, twin)?;
        self.twins.reserve(1)?;
        self.past.reserve(1)?;
        self.snapshots.reserve(1)?;
        match self.table.apply(&changes, steps) {
            Ok(()) => (),
            Err(ApplyErr::Memory) => return Err(NoMemory),
            Err(ApplyErr::Missing { .. } | ApplyErr::Present { .. }) => unreachable!(),
        }
        let changes = mem::replace(&mut self.changes, changes);
        self.twins.push(twin).unwrap();
        self.past.push(Past { changes, sums }).unwrap();
        if let Some(snapshot) = snapshot {
            self.snapshots.push(snapshot).unwrap();
        }
        self.sent = 0;
        Ok(())
    }

    /// Begins another log, by one more first commit.
    pub(crate) fn restart(&mut self) -> Result<(), NoMemory>
        ensures committed { OnOk result
            (HasCommitted (changeset self.old.table []) self.old self.new) }
        ensures twin { OnOk result (HasTwin self.old self.new) }
        ensures restarted { OnOk result (HasRestarted self.old self.new) }
        ensures empty { OnOk result (self.new.table ≡ []) }
        ensures err { OnErr result (self.new ≡ self.old) }
    {
        let sums = self.table.sums().copy()?;
        let snapshot = self.snapshot()?;
        let twin = self.twin()?;
        let kind = self.kind();
        keep(&mut self.kinds, kind, twin)?;
        let mut deletions = Changes::new(self.alloc);
        push_all(&mut deletions, self.table.as_slice(), true)?;
        self.twins.reserve(1)?;
        self.past.reserve(1)?;
        self.snapshots.reserve(1)?;
        self.runs.reserve(1)?;
        let run = self.present();
        if run.is_kept() {
            self.runs.push(run).unwrap();
        }
        self.table = Table::new(self.alloc);
        let changes = mem::replace(&mut self.changes, deletions);
        self.twins.push(twin).unwrap();
        self.past.push(Past { changes, sums }).unwrap();
        if let Some(snapshot) = snapshot {
            self.snapshots.push(snapshot).unwrap();
        }
        self.start = self.past.len();
        self.sent = 0;
        Ok(())
    }

    /// The log that goes on.
    pub(crate) fn present(&self) -> Run
        ensures { result ≡ present_run self.now }
    {
        Run {
            first: self.start,
            count: self.past.len() - self.start + 1,
        }
    }

    /// The number of the first commit of the log that goes on.
    pub(crate) fn first(&self) -> usize
        ensures { result ≡ self.now.start }
    {
        self.start
    }

    /// The byte of the last commit.
    pub(crate) fn byte(&self) -> u8
        ensures { result ≡ (length self.now.past - self.now.start) % 256 }
    {
        ((self.past.len() - self.start) % 256) as u8
    }

    /// The changes that the next message carries: the last commit's, in the first messages after
    /// it, if they are few enough and it isn't a first commit.
    pub(crate) fn carried(&self) -> Result<Changes, NoMemory>
        ensures { IfOk result (λ changes. (history : History) → JournalStands self.now history →
            changes ≡ announced_changes history) }
    {
        if self.sent < COUNTED_MESSAGES {
            if let Some(changes) = self.told() {
                return changes.copy();
            }
        }
        Ok(Changes::new(self.alloc))
    }

    /// The last commit's changes, where it isn't a first commit and a message may carry them.
    pub(crate) fn told(&self) -> Option<&Changes>
        ensures { (history : History) → JournalStands self.now history →
            option_map (λ changes. changes.now) result ≡ told_changes history }
    {
        if self.last() == self.start || self.changes.len() > CARRIED_CHANGES {
            return None;
        }
        Some(&self.changes)
    }

    // The table of the last commit, where it is to be kept whole.
    fn snapshot(&self) -> Result<Option<RcSlice<Entry>>, NoMemory>
        ensures kept { IfOk result (λ snapshot. option_map rc_slice_items snapshot
            ≡ (if length self.now.past % snapshot_interval == 0
            then Some self.now.table else None)) }
        ensures ordered { IsInKeyOrder self.now.table }
    {
        self.table.tell_order();
        if self.last() % SNAPSHOT_INTERVAL != 0 {
            return Ok(None);
        }
        let entries = RcSlice::from_slice(self.alloc, self.table.as_slice())?;
        Ok(Some(entries))
    }

    /// Counts a message that announces the last commit.
    pub(crate) fn count(&mut self)
        ensures { self.new ≡ record self.old { sent = min (self.old.sent + 1) 3 } }
    {
        self.sent = COUNTED_MESSAGES.min(self.sent.saturating_add(1));
    }
}
