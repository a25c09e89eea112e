//! The transactions in which facts come.

ghost use Rattle.std.specs.Prelude.{◌≡◌, ◌≤◌, ℕ, List, [], ◌∷◌, filter, true, false, IfOk, OnErr, OnOk};
ghost use Rattle.std.specs.Map.{lookup};
ghost use Rattle.indexmap.specs.IndexMap.{spare};
ghost use Rattle.mesh_model.specs.Services.Transactions.{APart, AnEnd, TxnCall};
ghost use Rattle.mesh_laws.specs.Rising.{RiseWithin};
ghost use Rattle.alfred_core.specs.Kept.{IsAnswered, Notes, call_of, is_kept_open, is_open};
ghost use Rattle.alfred_core.specs.Transactions.{Answers, TransactionsStand, newest_moment, opened_moments, same_transaction};

use crate::transaction::{Brought, OpenTransaction};
use crate::txn::Txn;
use indexmap::IndexMap;
use mesh_base::{Mac, Millis, NoMemory};
use mesh_model::FactList;
use std::alloc::Global;
use std::marker::Model;

/// The sender and the id of a transaction, which are one transaction's.
#[derive(Clone, Copy, Debug, PartialEq, Eq, Hash)]
struct TransactionKey {
    sender: Mac,
    id: u16,
}

/// The transactions that are open, each known by its sender and its id.
#[derive(Debug, Drop)]
pub struct Transactions {
    /// In the order of opening.
    rows: IndexMap<TransactionKey, OpenTransaction>,
}

impl Model for Transactions {
    ghost use Rattle.alfred_core.specs.Transactions.{Rows};

    ghost Value = { Rows };

    ghost view = { λ t. t.rows.entries };
}

impl Transactions {
    /// None is open.
    pub fn new(alloc: Global) -> Transactions
        ensures { TransactionsStand result [] }
    {
        Transactions {
            rows: IndexMap::new(alloc),
        }
    }

    /// Takes a part of a transaction, with its facts, unless one of its number came before, and
    /// tells what there is then. What is whole is open no more: a later message opens a new one.
    /// Those that were opened 60,000 ms ago or more are dropped. The first two clauses hold where
    /// moments don't fall from call to call.
    pub fn part(
        &mut self,
        now: Millis,
        sender: Mac,
        id: u16,
        number: u16,
        facts: &FactList,
    ) -> Result<Txn, NoMemory>
        ensures ok { (calls : List TxnCall) → TransactionsStand self.old calls →
            newest_moment calls ≤ now → OnOk result (TransactionsStand self.new
            (record { moment = now; sender = sender; id = id; brought = APart number facts.now }
            ∷ calls)) }
        ensures answered { (calls : List TxnCall) → TransactionsStand self.old calls →
            newest_moment calls ≤ now → IfOk result (Answers
            (record { moment = now; sender = sender; id = id; brought = APart number facts.now })
            calls) }
        ensures err { OnErr result (self.new ≡ self.old) }
    {
        let key = TransactionKey { sender, id };
        self.bring(now, key, Brought::Part { number, facts })
    }

    /// Takes the end of a transaction, with how many parts there are, unless an end came before,
    /// and tells what there is then, as `part` does.
    pub fn end(&mut self, now: Millis, sender: Mac, id: u16, count: u16) -> Result<Txn, NoMemory>
        ensures ok { (calls : List TxnCall) → TransactionsStand self.old calls →
            newest_moment calls ≤ now → OnOk result (TransactionsStand self.new
            (record { moment = now; sender = sender; id = id; brought = AnEnd count } ∷ calls)) }
        ensures answered { (calls : List TxnCall) → TransactionsStand self.old calls →
            newest_moment calls ≤ now → IfOk result (Answers
            (record { moment = now; sender = sender; id = id; brought = AnEnd count }) calls) }
        ensures err { OnErr result (self.new ≡ self.old) }
    {
        let key = TransactionKey { sender, id };
        self.bring(now, key, Brought::End { count })
    }

    // Takes what a message brings.
    fn bring(&mut self, now: Millis, key: TransactionKey, brought: Brought) -> Result<Txn, NoMemory>
        ensures ok { Notes (call_of now key brought.entry) self.old self.new result }
        ensures answered { IsAnswered (call_of now key brought.entry) self.old result }
        ensures err { OnErr result (self.new ≡ self.old) }
    {
        if self.is_open(now, key) {
            self.go_on(now, key, brought)
        } else {
            self.begin(now, key, brought)
        }
    }

    // Whether a transaction of this sender and id is open still.
    fn is_open(&self, now: Millis, key: TransactionKey) -> bool
        ensures { result ≡ is_kept_open now (lookup (same_transaction key) self.now) }
    {
        self.rows.get(&key).is_some_and(|txn| txn.is_open(now))
    }

    // Takes what a message brings into its transaction, which is open still. Others are dropped
    // only once no memory is wanted any more, so that a refusal leaves all.
    fn go_on(&mut self, now: Millis, key: TransactionKey, brought: Brought) -> Result<Txn, NoMemory>
        requires { is_kept_open now (lookup (same_transaction key) self.old) ≡ true }
        ensures ok { Notes (call_of now key brought.entry) self.old self.new result }
        ensures answered { IsAnswered (call_of now key brought.entry) self.old result }
        ensures err { OnErr result (self.new ≡ self.old) }
    {
        let txn = self.rows.get_mut(&key).unwrap();
        let told = txn.take(brought)?;
        drop_aged(&mut self.rows, now);
        if let Txn::Whole(_) = told {
            self.rows.shift_remove(&key);
        }
        Ok(told)
    }

    // Takes what a message brings into a transaction that it opens, behind the others.
    fn begin(&mut self, now: Millis, key: TransactionKey, brought: Brought) -> Result<Txn, NoMemory>
        requires { is_kept_open now (lookup (same_transaction key) self.old) ≡ false }
        ensures ok { Notes (call_of now key brought.entry) self.old self.new result }
        ensures answered { IsAnswered (call_of now key brought.entry) self.old result }
        ensures err { OnErr result (self.new ≡ self.old) }
    {
        let mut txn = OpenTransaction::new(*self.rows.allocator(), now);
        let told = txn.take(brought)?;
        self.rows.reserve(1)?;
        drop_aged(&mut self.rows, now);
        if let Txn::Open { .. } = told {
            self.rows.insert(key, txn).unwrap();
        }
        Ok(told)
    }
}

// Drops the transactions that aren't open any more. The rows stand in the order of opening, so
// where the first is open all are.
fn drop_aged(rows: &mut IndexMap<TransactionKey, OpenTransaction>, now: Millis)
    ensures kept { (first last : ℕ) → RiseWithin first (opened_moments rows.old.entries) last →
        rows.new.entries ≡ filter (λ row. is_open now row.1) rows.old.entries }
    ensures room { spare rows.old ≤ spare rows.new }
{
    let is_aged = rows.first().is_some_and(|(_, txn)| !txn.is_open(now));
    if is_aged {
        rows.retain(|_, txn| txn.is_open(now));
    }
}
