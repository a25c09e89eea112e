ghost use Rattle.std.specs.Prelude.{◌≡◌, IfOk, OnErr, OnOk};
ghost use Rattle.mesh_model.specs.Services.Transactions.{APart, AnEnd, opened_at, with_brought};
ghost use Rattle.alfred_core.specs.Kept.{brought_in, is_open, told};

use crate::parts::Parts;
use crate::txn::Txn;
use mesh_base::{Millis, NoMemory};
use mesh_model::FactList;
use std::alloc::Global;
use std::marker::Model;

/// How long a transaction stays open, in milliseconds.
const TRANSACTION_AGE: Millis = 60_000;

/// What a message of a transaction brings: a part, or the end with how many parts there are.
#[derive(Clone, Copy)]
pub(crate) enum Brought<'a> {
    Part { number: u16, facts: &'a FactList },
    End { count: u16 },
}

/// A transaction that isn't whole.
#[derive(Debug, Drop)]
pub(crate) struct OpenTransaction {
    opened: Millis,
    parts: Parts,
    /// How many parts there are, where the end came.
    count: Option<u16>,
}

impl Model for OpenTransaction {
    ghost use Rattle.mesh_model.specs.Services.Transactions.{Transaction};

    ghost Value = { Transaction };

    ghost view = { λ t. record { opened = t.opened; parts = t.parts; count = t.count } };
}

impl OpenTransaction {
    /// One that is opened at a moment, of which nothing came.
    pub(crate) fn new(alloc: Global, now: Millis) -> OpenTransaction
        ensures { result ≡ opened_at now }
    {
        OpenTransaction {
            opened: now,
            parts: Parts::new(alloc),
            count: None,
        }
    }

    /// Whether it is open still.
    pub(crate) fn is_open(&self, now: Millis) -> bool
        ensures { result ≡ is_open now self.now }
    {
        now.saturating_sub(self.opened) < TRANSACTION_AGE
    }

    /// Takes what a message brings, and tells what there is then.
    pub(crate) fn take(&mut self, brought: Brought) -> Result<Txn, NoMemory>
        ensures ok { OnOk result (self.new ≡ with_brought (brought_in brought.entry) self.old) }
        ensures answered { IfOk result (λ txn. txn ≡ told self.new) }
        ensures err { OnErr result (self.new ≡ self.old) }
    {
        match brought {
            Brought::Part { number, facts } => self.take_part(number, facts),
            Brought::End { count } => self.take_end(count),
        }
    }

    // Takes a part, unless one of its number came before.
    fn take_part(&mut self, number: u16, facts: &FactList) -> Result<Txn, NoMemory>
        ensures ok { OnOk result (self.new ≡ with_brought (APart number facts.now) self.old) }
        ensures answered { IfOk result (λ txn. txn ≡ told self.new) }
        ensures err { OnErr result (self.new ≡ self.old) }
    {
        if self.parts.has(number) {
            return self.told(self.count);
        }
        self.parts.add(number, facts)?;
        let told = self.told(self.count);
        if told.is_err() {
            self.parts.drop_last();
        }
        told
    }

    // Takes the end, unless one came before.
    fn take_end(&mut self, count: u16) -> Result<Txn, NoMemory>
        ensures ok { OnOk result (self.new ≡ with_brought (AnEnd count) self.old) }
        ensures answered { IfOk result (λ txn. txn ≡ told self.new) }
        ensures err { OnErr result (self.new ≡ self.old) }
    {
        let first = self.count.or(Some(count));
        let told = self.told(first)?;
        self.count = first;
        Ok(told)
    }

    // What there is where so many parts are wanted.
    fn told(&self, want: Option<u16>) -> Result<Txn, NoMemory>
        ensures { IfOk result (λ txn. txn ≡ told (record self.now { count = want })) }
    {
        if let Some(count) = want {
            if let Some(facts) = self.parts.facts_below(count)? {
                return Ok(Txn::Whole(facts));
            }
        }
        Ok(Txn::Open {
            have: self.parts.len(),
            want,
        })
    }
}
