ghost use Rattle.std.specs.Prelude.{◌≡◌, ◌-◌, ◌++◌, ◌∷◌, [], nat_eq, length, take, is_some, None, IfOk, IfSome, OnErr, OnOk};
ghost use Rattle.std.specs.Map.{lookup};
ghost use Rattle.mesh_model.specs.Services.Transactions.{facts_below, part_at};

use crate::copies::{add_copies, copies_of};
use indexmap::IndexMap;
use mesh_base::NoMemory;
use mesh_model::FactList;
use std::alloc::Global;
use std::marker::Model;

/// The parts of a transaction, in the order in which they came.
#[derive(Debug, Drop)]
pub(crate) struct Parts {
    /// By number.
    kept: IndexMap<u16, FactList>,
    /// A number of which no part came, mostly the least. So there is no walk over the parts before
    /// all came that are wanted.
    missing: Option<u16>,
}

impl Model for Parts {
    ghost use Rattle.std.specs.Prelude.{List};
    ghost use Rattle.mesh_model.specs.Services.Transactions.{Part};
    ghost use Rattle.alfred_core.specs.Kept.{ArePartsWithout, parts_in};

    ghost Value = { List Part };

    ghost view = { λ p. parts_in p.kept.entries };

    ghost invariant = { λ p. ArePartsWithout p.kept.entries p.missing };
}

impl Parts {
    /// No parts.
    pub(crate) fn new(alloc: Global) -> Parts
        ensures { result ≡ [] }
    {
        Parts {
            kept: IndexMap::new(alloc),
            missing: Some(0),
        }
    }

    /// Whether a part of this number came.
    pub(crate) fn has(&self, number: u16) -> bool
        ensures { result ≡ is_some (part_at self.now number) }
    {
        self.kept.contains_key(&number)
    }

    /// How many parts came.
    pub(crate) fn len(&self) -> u32
        ensures { result ≡ length self.now }
    {
        self.kept.len() as u32
    }

    /// Adds the part of a number of which none came.
    pub(crate) fn add(&mut self, number: u16, facts: &FactList) -> Result<(), NoMemory>
        requires { part_at self.old number ≡ None }
        ensures ok { OnOk result (self.new
            ≡ self.old ++ record { number = number; facts = facts.now } ∷ []) }
        ensures err { OnErr result (self.new ≡ self.old) }
    {
        let copies = copies_of(*self.kept.allocator(), facts)?;
        self.kept.insert(number, copies)?;
        if self.missing == Some(number) {
            self.missing = first_missing(&self.kept, number);
        }
        Ok(())
    }

    /// Drops the part that came last, if any did.
    pub(crate) fn drop_last(&mut self)
        ensures { self.new ≡ take (length self.old - 1) self.old }
    {
        self.kept.pop();
    }

    /// The facts of the first parts, so many, in order of number; `None` where one is missing.
    pub(crate) fn facts_below(&self, count: u16) -> Result<Option<FactList>, NoMemory>
        ensures { IfOk result (λ facts. facts ≡ facts_below self.now count) }
    {
        if self.missing.is_some_and(|number| number < count) {
            return Ok(None);
        }
        let alloc = *self.kept.allocator();
        let mut facts = FactList::new(alloc);
        for number in 0..count {
            match self.kept.get(&number) {
                Some(part) => add_copies(alloc, &mut facts, part)?,
                None => return Ok(None),
            }
        }
        Ok(Some(facts))
    }
}

// The least number, from one on, of which no part is kept.
fn first_missing(kept: &IndexMap<u16, FactList>, from: u16) -> Option<u16>
    ensures { IfSome result (λ number. lookup (nat_eq number) kept.now.entries ≡ None) }
{
    (from..=u16::MAX).find(|number| !kept.contains_key(number))
}
