ghost use Rattle.std.specs.Prelude.{◌≡◌, ◌↔◌, ◌+◌, ◌≤◌, ◌<◌, ℕ, nat_eq, List, length, IfOk, IfSome, OnOk, IsTrue};
ghost use Rattle.std.specs.List.{list_any};
ghost use Rattle.mesh_model.specs.Clients.Mentions.{Mention};
ghost use Rattle.mesh_model.specs.Commits.Aliases.{alias_of, last_alias};
ghost use Rattle.mesh_model.specs.Commits.History.{History};
ghost use Rattle.mesh_model.specs.Tables.Versions.{Version};
ghost use Rattle.tt_local.specs.AliasSearch.{AreAliasesAt, ArePassed, HasByte, HaveOneByte, IsLeastIn, IsPassed};
ghost use Rattle.tt_local.specs.Journal.{all_runs, HasTable, HasTableOf, JournalStands};
ghost use Rattle.tt_local.specs.Locals.{LocalsStand};
ghost use Rattle.tt_local.specs.Runs.{IsAmong};

use crate::journal::Journal;
use crate::kind::Kind;
use crate::locals::Locals;
use crate::run::{Run, run_of};
use mesh_base::{Entry, NoMemory};

/// After how many commits a byte comes again.
const BYTES: usize = 256;

/// How many tables at most a search keeps in mind that it passed over.
const PASSED: usize = 16;

impl Journal {
    // The alias of a commit: looked for among the earlier commits of its byte, log by log.
    fn alias_of(&self, number: usize) -> Result<Option<u64>, NoMemory>
        requires made { number ≤ length self.now.past }
        ensures { IfOk result (λ alias. (history : History) → JournalStands self.now history →
            alias ≡ alias_of number history.commits) }
    {
        let table = self.table_at(number)?;
        let byte = self.byte_of(number);
        let mut passed = Vec::new(self.alloc);
        for run in &self.runs {
            let found = self.alias_in(*run, number, byte, table.as_slice(), &mut passed)?;
            if let Some(earlier) = found {
                return Ok(Some(earlier as u64));
            }
        }
        let found = self.alias_in(self.present(), number, byte, table.as_slice(), &mut passed)?;
        Ok(found.map(|earlier| earlier as u64))
    }

    // The byte of a commit. One of no log that is kept is a first commit.
    fn byte_of(&self, number: usize) -> usize
        ensures byte { (history : History) → JournalStands self.now history →
            HasByte number result history.commits }
        ensures below { result < 256 }
    {
        let present = self.present();
        if present.has(number) {
            return (number - present.first) % BYTES;
        }
        match run_of(number, self.runs.as_slice()) {
            None => 0,
            Some(run) => (number - run.first) % BYTES,
        }
    }

    // The least alias of a commit, by its number, its byte and its table, among the commits of a
    // log.
    fn alias_in(
        &self,
        run: Run,
        number: usize,
        byte: usize,
        table: &[Entry],
        passed: &mut Vec<usize>,
    ) -> Result<Option<usize>, NoMemory>
        requires made { number ≤ length self.now.past }
        requires byte { byte < 256 }
        ensures alias { IfOk result (λ alias. (history : History) →
            JournalStands self.now history → IsAmong run (all_runs self.now) →
            HasByte number byte history.commits → HasTable number table.now history.commits →
            ArePassed number passed.old.items history.commits →
            IsLeastIn alias run number history.commits) }
        ensures passed { OnOk result ((history : History) →
            JournalStands self.now history → IsAmong run (all_runs self.now) →
            HasByte number byte history.commits → HasTable number table.now history.commits →
            ArePassed number passed.old.items history.commits →
            ArePassed number passed.new.items history.commits) }
    {
        let count = run.count.min(number.saturating_sub(run.first));
        for round in 0..count.saturating_sub(byte).div_ceil(BYTES) {
            let earlier = run.first + (byte + round * BYTES);
            if self.is_alias(number, table, earlier, passed)? {
                return Ok(Some(earlier));
            }
        }
        Ok(None)
    }

    // Whether a commit, by its number and its table, and an earlier one of the same byte are
    // aliases. One with the table of a commit that was passed over isn't looked at.
    fn is_alias(
        &self,
        number: usize,
        table: &[Entry],
        earlier: usize,
        passed: &mut Vec<usize>,
    ) -> Result<bool, NoMemory>
        requires made { number ≤ length self.now.past }
        requires earlier { earlier < number }
        ensures answer { IfOk result (λ answer. (history : History) →
            JournalStands self.now history → HaveOneByte number earlier history.commits →
            HasTable number table.now history.commits →
            ArePassed number passed.old.items history.commits →
            AreAliasesAt answer number earlier history.commits) }
        ensures passed { OnOk result ((history : History) →
            JournalStands self.now history → HaveOneByte number earlier history.commits →
            HasTable number table.now history.commits →
            ArePassed number passed.old.items history.commits →
            ArePassed number passed.new.items history.commits) }
    {
        let twin = self.twin_at(earlier);
        if has(passed.as_slice(), twin) {
            return Ok(false);
        }
        if self.are_aliases(number, table, earlier)? {
            return Ok(true);
        }
        pass(passed, twin)?;
        Ok(false)
    }

    // Whether they are, by their checksums and their tables.
    fn are_aliases(&self, number: usize, table: &[Entry], earlier: usize) -> Result<bool, NoMemory>
        requires made { number ≤ length self.now.past }
        requires earlier { earlier < number }
        ensures { IfOk result (λ answer. (history : History) → JournalStands self.now history →
            HaveOneByte number earlier history.commits → HasTable number table.now history.commits →
            AreAliasesAt answer number earlier history.commits) }
    {
        let sums = self.sums_at(number);
        if sums.first_difference(self.sums_at(earlier)).is_some() {
            return Ok(false);
        }
        let other = self.table_at(earlier)?;
        Ok(!is_same(table, other.as_slice()))
    }
}

impl Journal {
    /// The number of a commit that has the last one's table: that which an earlier one of its kind
    /// has, where their tables are one, else the last.
    pub(crate) fn twin(&self) -> Result<usize, NoMemory>
        ensures { IfOk result (λ twin. (history : History) → JournalStands self.now history →
            HasTableOf twin (length self.now.past) history.commits) }
    {
        let last = self.last();
        let Some(before) = self.before() else {
            return Ok(last);
        };
        let sums = self.sums_at(last);
        if sums.first_difference(self.sums_at(before)).is_some() {
            return Ok(last);
        }
        let table = self.table_at(before)?;
        if !is_same(self.table.as_slice(), table.as_slice()) {
            return Ok(last);
        }
        Ok(self.twin_at(before))
    }

    // An earlier commit of the last one's kind, if there is one.
    fn before(&self) -> Option<usize>
        ensures { IfSome result (λ before. before < length self.now.past) }
    {
        let before = *self.kinds.get(&self.kind())?;
        (before < self.last()).then_some(before)
    }

    /// The kind of the last commit.
    pub(crate) fn kind(&self) -> Kind {
        Kind::new(self.byte(), self.table.sums())
    }

    // The number of a commit that has a commit's table.
    fn twin_at(&self, number: usize) -> usize
        ensures { (history : History) → JournalStands self.now history →
            HasTableOf result number history.commits }
    {
        match self.twins.get(number) {
            None => number,
            Some(twin) => *twin,
        }
    }
}

// Passes over the commits with the table of one, where few are passed over yet.
fn pass(passed: &mut Vec<usize>, twin: usize) -> Result<(), NoMemory>
    ensures { OnOk result ((number : ℕ) (commits : List Version) →
        ArePassed number passed.old.items commits → IsPassed number twin commits →
        ArePassed number passed.new.items commits) }
{
    if passed.len() < PASSED {
        passed.push(twin)?;
    }
    Ok(())
}

// Whether a number is among these.
fn has(numbers: &[usize], number: usize) -> bool
    ensures { result ≡ list_any (nat_eq number) numbers.now }
{
    numbers.contains(&number)
}

// Whether two tables are one.
fn is_same(one: &[Entry], other: &[Entry]) -> bool
    ensures { IsTrue result ↔ (one.now ≡ other.now) }
{
    one == other
}

impl Locals {
    /// The alias of the commit of a number, or of the last where there is no such commit: the least
    /// earlier commit of the same byte that has the same checksums and another table.
    pub fn alias_of(&self, number: u64) -> Result<Option<u64>, NoMemory>
        ensures alias { IfOk result (λ alias. (mentions : List Mention) (history : History)
            (since : ℕ) → LocalsStand self.now mentions history since →
            alias ≡ alias_of number history.commits) }
        ensures newest { IfOk result (λ alias. (mentions : List Mention) (history : History)
            (since : ℕ) → LocalsStand self.now mentions history since →
            number + 1 ≡ length history.commits → alias ≡ last_alias history.commits) }
    {
        let number = number.min(self.last()) as usize;
        let alias = self.journal.alias_of(number)?;
        Ok(alias)
    }
}
