ghost use Rattle.std.specs.Prelude.{◌≡◌, ◌≤◌, List, map, IfOk, OnErr, OnOk, Some, option_map};
ghost use Rattle.mesh_base.specs.declared.address.Mac.{Mac};
ghost use Rattle.mesh_model.specs.Knowledge.FactStore.{after_answering, after_asking_for, after_push, after_put, facts_marked, facts_of_type, next_id, txn_call, with_ids, with_primary};
ghost use Rattle.mesh_model.specs.Knowledge.Known.{Knowledge};
ghost use Rattle.mesh_model.specs.Knowledge.Served.{no_services};
ghost use Rattle.mesh_model.specs.Services.Facts.{FactCall};
ghost use Rattle.mesh_model.specs.Services.Transactions.{APart, AnEnd, TxnCall};
ghost use Rattle.alfred_core.specs.Facts.{FactsStand};
ghost use Rattle.alfred_store.specs.Answers.{answer_to, answered, facts_in};
ghost use Rattle.alfred_store.specs.Shares.{is_shared};
ghost use Rattle.alfred_store.specs.StoreStands.{IsBefore, StoreStands, store_in, store_of, taken_calls};

use crate::answer::{Answer, answer_of};
use crate::primaries::Primaries;
use crate::requests::Requests;
use crate::share::Share;
use alfred_core::{Fact, FactList, Facts, Transactions, Txn};
use mesh_base::{Mac, Millis, NoMemory};
use std::alloc::Global;

/// What a node keeps of the fact store.
#[derive(Debug, Drop)]
pub struct Store {
    pub alloc: Global,
    pub facts: Facts,
    pub primaries: Primaries,
    pub pushes: Transactions,
    pub answers: Transactions,
    pub requests: Requests,
    /// How many ids were taken, modulo 65,536.
    pub ids: u16,
}

impl Store {
    /// Before anything was put or came, at the node of this address.
    pub fn new(alloc: Global, me: Mac) -> Store
        ensures { StoreStands result me (store_of no_services) }
    {
        Store {
            alloc,
            facts: Facts::new(alloc, me),
            primaries: Primaries::new(alloc),
            pushes: Transactions::new(alloc),
            answers: Transactions::new(alloc),
            requests: Requests::new(alloc),
            ids: 0,
        }
    }

    /// Keeps a fact of the node's own. Refused, all is as before.
    pub fn put(
        &mut self,
        now: Millis,
        type_no: u8,
        version: u8,
        bytes: &[u8],
    ) -> Result<(), NoMemory>
        ensures ok { (me : Mac) (known : Knowledge) → StoreStands self.old me (store_in known) →
            OnOk result (StoreStands self.new me
            (store_in (after_put me now type_no version bytes.now known))) }
        ensures err { OnErr result (self.new ≡ self.old) }
    {
        self.facts.put(now, type_no, version, bytes)?;
        Ok(())
    }

    /// Notes that a primary announced itself. Refused, all is as before.
    pub fn announce(&mut self, now: Millis, primary: Mac) -> Result<(), NoMemory>
        ensures ok { (me : Mac) (known : Knowledge) → StoreStands self.old me (store_in known) →
            OnOk result (StoreStands self.new me (store_in (with_primary now primary known))) }
        ensures err { OnErr result (self.new ≡ self.old) }
    {
        self.primaries.note(now, primary)?;
        Ok(())
    }

    /// Takes a part of a push. Its facts are taken once it is whole, all at once. `ok` holds where
    /// moments don't fall from call to call. Refused, all but facts and pushes is as before.
    pub fn push_part(
        &mut self,
        now: Millis,
        sender: Mac,
        id: u16,
        number: u16,
        facts: &FactList,
    ) -> Result<(), NoMemory>
        ensures ok { (me : Mac) (known : Knowledge) → StoreStands self.old me (store_in known) →
            IsBefore (store_in known) now →
            let call : TxnCall = txn_call now sender id (APart number facts.now) in
            OnOk result (StoreStands self.new me (store_in (after_push call known))) }
        ensures err { OnErr result (self.new
            ≡ record self.old { facts = self.new.facts; pushes = self.new.pushes }) }
    {
        let txn = self.pushes.part(now, sender, id, number, facts)?;
        take_whole(&mut self.facts, now, sender, &txn)?;
        Ok(())
    }

    /// Takes the end of a push, as `push_part` does a part.
    pub fn push_end(
        &mut self,
        now: Millis,
        sender: Mac,
        id: u16,
        count: u16,
    ) -> Result<(), NoMemory>
        ensures ok { (me : Mac) (known : Knowledge) → StoreStands self.old me (store_in known) →
            IsBefore (store_in known) now →
            let call : TxnCall = txn_call now sender id (AnEnd count) in
            OnOk result (StoreStands self.new me (store_in (after_push call known))) }
        ensures err { OnErr result (self.new
            ≡ record self.old { facts = self.new.facts; pushes = self.new.pushes }) }
    {
        let txn = self.pushes.end(now, sender, id, count)?;
        take_whole(&mut self.facts, now, sender, &txn)?;
        Ok(())
    }

    /// Takes a part of an answer, and tells what answers the request that it closes, if it closes
    /// one. `noted` and `told` hold where moments don't fall from call to call. Refused, all is as
    /// before.
    pub fn answer_part(
        &mut self,
        now: Millis,
        sender: Mac,
        id: u16,
        number: u16,
        facts: &FactList,
    ) -> Result<Option<Answer>, NoMemory>
        ensures noted { (me : Mac) (known : Knowledge) →
            StoreStands self.old me (store_in known) → IsBefore (store_in known) now →
            let call : TxnCall = txn_call now sender id (APart number facts.now) in
            OnOk result (StoreStands self.new me (store_in (after_answering call known))) }
        ensures told { (me : Mac) (known : Knowledge) →
            StoreStands self.old me (store_in known) → IsBefore (store_in known) now →
            let call : TxnCall = txn_call now sender id (APart number facts.now) in
            IfOk result (λ told. option_map answered told ≡ answer_to call known.services) }
        ensures err { OnErr result (self.new ≡ self.old) }
    {
        let txn = self.answers.part(now, sender, id, number, facts)?;
        Ok(answer_of(&mut self.requests, sender, id, txn))
    }

    /// Takes the end of an answer, as `answer_part` does a part.
    pub fn answer_end(
        &mut self,
        now: Millis,
        sender: Mac,
        id: u16,
        count: u16,
    ) -> Result<Option<Answer>, NoMemory>
        ensures noted { (me : Mac) (known : Knowledge) →
            StoreStands self.old me (store_in known) → IsBefore (store_in known) now →
            let call : TxnCall = txn_call now sender id (AnEnd count) in
            OnOk result (StoreStands self.new me (store_in (after_answering call known))) }
        ensures told { (me : Mac) (known : Knowledge) →
            StoreStands self.old me (store_in known) → IsBefore (store_in known) now →
            let call : TxnCall = txn_call now sender id (AnEnd count) in
            IfOk result (λ told. option_map answered told ≡ answer_to call known.services) }
        ensures err { OnErr result (self.new ≡ self.old) }
    {
        let txn = self.answers.end(now, sender, id, count)?;
        Ok(answer_of(&mut self.requests, sender, id, txn))
    }

    /// Opens a request for the facts of a type to a primary, and tells its id, the node's next.
    /// Refused, all is as before.
    pub fn ask(&mut self, primary: Mac, type_no: u8) -> Result<u16, NoMemory>
        ensures id { (me : Mac) (known : Knowledge) → StoreStands self.old me (store_in known) →
            IfOk result (λ id. id ≡ next_id known.services) }
        ensures noted { (me : Mac) (known : Knowledge) →
            StoreStands self.old me (store_in known) →
            OnOk result (StoreStands self.new me
            (store_in (after_asking_for type_no (Some primary) known))) }
        ensures err { OnErr result (self.new ≡ self.old) }
    {
        let id = self.ids.wrapping_add(1);
        self.requests.open(id, primary, type_no)?;
        self.ids = id;
        Ok(id)
    }

    /// Takes so many ids.
    pub fn take_ids(&mut self, count: usize)
        ensures { (me : Mac) (known : Knowledge) → StoreStands self.old me (store_in known) →
            StoreStands self.new me (store_in (with_ids count known)) }
    {
        self.ids = self.ids.wrapping_add((count % IDS) as u16);
    }

    /// The live facts that the node tells, by source, then by type, in one walk.
    pub fn shared(&self, now: Millis, share: Share) -> Result<Vec<&Fact>, NoMemory>
        ensures { IfOk result (λ rows. (me : Mac) (known : Knowledge) →
            StoreStands self.now me (store_in known) →
            map (λ fact. fact.now) rows.items
            ≡ facts_marked (is_shared share) known.services now) }
    {
        let mut rows = Vec::new(self.alloc);
        let live = self.facts.live(now)?;
        for kept in live.iter() {
            if share.has(kept.mark) {
                rows.push(&kept.fact)?;
            }
        }
        Ok(rows)
    }

    /// The live facts of a type, by source, in one walk.
    pub fn of_type(&self, now: Millis, type_no: u8) -> Result<Vec<&Fact>, NoMemory>
        ensures { IfOk result (λ rows. (me : Mac) (known : Knowledge) →
            StoreStands self.now me (store_in known) →
            map (λ fact. fact.now) rows.items ≡ facts_of_type known.services now type_no) }
    {
        let mut rows = Vec::new(self.alloc);
        let live = self.facts.live(now)?;
        for kept in live.iter() {
            if kept.fact.type_no == type_no {
                rows.push(&kept.fact)?;
            }
        }
        Ok(rows)
    }
}

/// How many ids there are; then they go round.
const IDS: usize = 65_536;

// Takes the facts of a push, where it is whole.
fn take_whole(facts: &mut Facts, now: Millis, sender: Mac, txn: &Txn) -> Result<(), NoMemory>
    ensures { (me : Mac) (calls : List FactCall) → FactsStand facts.old me calls →
        OnOk result (FactsStand facts.new me (taken_calls now sender (facts_in txn.now) calls)) }
{
    let Txn::Whole(came) = txn else {
        return Ok(());
    };
    for i in 0..came.len() {
        let fact = came.at(i).unwrap();
        facts.take(now, sender, fact)?;
    }
    Ok(())
}
