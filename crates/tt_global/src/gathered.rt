ghost use Rattle.std.specs.Prelude.{◌≡◌, ◌++◌, [], IfOk, OnErr, OnOk, unwrap_or};
ghost use Rattle.mesh_model.specs.Tables.Gathered.{gathered_count, gathered_records, missing_part, none_gathered, of_count, records_at, with_table_part};
ghost use Rattle.tt_global.specs.Lent.{lent};

use indexmap::IndexMap;
use mesh_base::NoMemory;
use std::alloc::Global;
use std::marker::Model;
use tt_table::Changes;

/// The parts of a full answer that are there, of so many.
#[derive(Debug, Drop)]
pub(crate) struct GatheredParts {
    count: u16,
    /// By number, in the order in which they came.
    parts: IndexMap<u16, Changes>,
}

impl Model for GatheredParts {
    ghost use Rattle.mesh_model.specs.Tables.Gathered.{Gathered};

    ghost Value = { Gathered };

    ghost view = { λ g. record { count = g.count; got = g.parts.entries } };
}

impl GatheredParts {
    /// No part.
    pub(crate) fn new(alloc: Global) -> GatheredParts
        ensures { result ≡ none_gathered }
    {
        GatheredParts {
            count: 0,
            parts: IndexMap::new(alloc),
        }
    }

    /// Drops all.
    pub(crate) fn clear(&mut self)
        ensures { self.new ≡ none_gathered }
    {
        self.count = 0;
        self.parts = IndexMap::new(*self.parts.allocator());
    }

    /// Notes the part of a number, of so many, unless it is there. Parts of another count are
    /// dropped.
    pub(crate) fn note(
        &mut self,
        number: u16,
        count: u16,
        records: &Changes,
    ) -> Result<(), NoMemory>
        ensures ok { OnOk result
            (self.new ≡ with_table_part number count records.now self.old) }
        ensures err { OnErr result (self.new ≡ self.old) }
    {
        if self.count != count {
            let mut parts = IndexMap::new(*self.parts.allocator());
            let copy = records.copy()?;
            parts.insert(number, copy)?;
            self.count = count;
            self.parts = parts;
            return Ok(());
        }
        if self.parts.contains_key(&number) {
            return Ok(());
        }
        let copy = records.copy()?;
        self.parts.insert(number, copy)?;
        Ok(())
    }

    // The part of a number, of so many, where it is there.
    fn at(&self, number: u16, count: u16) -> Option<&Changes>
        ensures { lent result ≡ records_at number (of_count count self.now) }
    {
        if self.count != count {
            return None;
        }
        self.parts.get(&number)
    }
}

/// A part that came, and the parts that are there beside it.
#[derive(Debug, Drop)]
pub(crate) struct PartBeside<'a> {
    pub(crate) gathered: &'a GatheredParts,
    pub(crate) number: u16,
    pub(crate) count: u16,
    pub(crate) records: &'a Changes,
}

impl<'a> Model for PartBeside<'a> {
    ghost use Rattle.mesh_model.specs.Tables.Gathered.{Gathered, with_table_part};

    ghost Value = { Gathered };

    ghost view = { λ p. with_table_part p.number p.count p.records.now p.gathered.now };
}

impl<'a> PartBeside<'a> {
    /// How many parts are there.
    pub(crate) fn have(&self) -> u16
        ensures { result ≡ gathered_count self.now }
    {
        let mut have = 0;
        for number in 0..self.count {
            if self.at(number).is_some() {
                have += 1;
            }
        }
        have
    }

    /// The least number whose part is missing, if any.
    pub(crate) fn missing(&self) -> Option<u16>
        ensures { result ≡ missing_part self.now }
    {
        (0..self.count).find(|number| self.at(*number).is_none())
    }

    /// The records of the parts that are there, in the order of their numbers.
    pub(crate) fn all(&self, alloc: Global) -> Result<Changes, NoMemory>
        ensures { IfOk result (λ records. records ≡ gathered_records self.now) }
    {
        let mut all = Changes::new(alloc);
        for number in 0..self.count {
            self.add_to(&mut all, number)?;
        }
        Ok(all)
    }

    // Adds the records of the part of a number, where it is there.
    fn add_to(&self, all: &mut Changes, number: u16) -> Result<(), NoMemory>
        ensures { OnOk result (all.new ≡ all.old ++ unwrap_or (records_at number self.now) []) }
    {
        if let Some(records) = self.at(number) {
            all.add(records)?;
        }
        Ok(())
    }

    // The part of a number, where it is there.
    fn at(&self, number: u16) -> Option<&Changes>
        ensures { lent result ≡ records_at number self.now }
    {
        match self.gathered.at(number, self.count) {
            Some(records) => Some(records),
            None if number == self.number => Some(self.records),
            None => None,
        }
    }
}
