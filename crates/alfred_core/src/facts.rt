//! The facts that a node keeps.

ghost use Rattle.std.specs.Prelude.{◌≡◌, ◌↔◌, ◌≤◌, List, [], ◌∷◌, length, map, not, slice_get, IfOk, IsNone, OnErr, OnOk, option_map};
ghost use Rattle.mesh_base.specs.declared.address.Mac.{Mac};
ghost use Rattle.mesh_model.specs.Services.Facts.{CameFrom, FactCall, WasPut, facts_at, is_live_fact, kept_fact, key_of_fact, mark_from, outweighs, stays_kept};
ghost use Rattle.alfred_core.specs.Facts.{FactsStand, IsKeptBy};

use crate::copies::copy_of;
use indexmap::IndexMap;
use mesh_base::{Bytes, Mac, Millis, NoMemory};
use mesh_model::{Fact, FactKey, KeptFact, Mark};
use std::alloc::Global;
use std::marker::Model;

/// How long a fact is live, in milliseconds.
const FACT_AGE: Millis = 600_000;

/// The facts that a node keeps, one of each source and type, in their order.
#[derive(Debug, Drop)]
pub struct Facts {
    alloc: Global,
    me: Mac,
    kept: IndexMap<FactKey, KeptFact>,
}

impl Model for Facts {
    ghost use Rattle.alfred_core.specs.Facts.{KeptFacts};

    ghost Value = { KeptFacts };

    ghost view = { λ f. record { me = f.me; kept = f.kept.entries } };
}

impl Facts {
    /// Nothing is kept at the node of this address.
    pub fn new(alloc: Global, me: Mac) -> Facts
        ensures { FactsStand result me [] }
    {
        Facts {
            alloc,
            me,
            kept: IndexMap::new(alloc),
        }
    }

    /// Keeps a fact of the node's own.
    pub fn put(
        &mut self,
        now: Millis,
        type_no: u8,
        version: u8,
        bytes: &[u8],
    ) -> Result<(), NoMemory>
        ensures ok { (me : Mac) (calls : List FactCall) → FactsStand self.old me calls →
            OnOk result (FactsStand self.new me (WasPut now
            (record { source = me; type_no = type_no; version = version; bytes = bytes.now })
            ∷ calls)) }
        ensures err { OnErr result (self.new ≡ self.old) }
    {
        let fact = Fact {
            source: self.me,
            type_no,
            version,
            bytes: Bytes::from_slice(self.alloc, bytes)?,
        };
        self.keep(now, Mark::Local, fact)?;
        Ok(())
    }

    /// Takes a fact that a node sent, unless what is kept of its source and type stays, and tells
    /// whether it was taken.
    pub fn take(&mut self, now: Millis, sender: Mac, fact: &Fact) -> Result<bool, NoMemory>
        ensures ok { (me : Mac) (calls : List FactCall) → FactsStand self.old me calls →
            OnOk result (FactsStand self.new me (CameFrom now sender fact.now ∷ calls)) }
        ensures taken { (me : Mac) (calls : List FactCall) → FactsStand self.old me calls →
            IfOk result (λ taken. taken ≡ not (stays_kept now (mark_from sender fact.now)
            (kept_fact calls fact.now.source fact.now.type_no))) }
        ensures err { OnErr result (self.new ≡ self.old) }
    {
        let mark = mark_from(sender, fact);
        if self.stays(now, mark, key_of(fact)) {
            return Ok(false);
        }
        let copy = copy_of(self.alloc, fact)?;
        self.keep(now, mark, copy)?;
        Ok(true)
    }

    /// The live fact at this place, by its source, then by its type, from 0.
    pub fn fact_at(&self, now: Millis, i: usize) -> Option<&Fact>
        ensures at_place { (me : Mac) (calls : List FactCall) → FactsStand self.now me calls →
            option_map (λ fact. fact.now) result
            ≡ option_map (λ kept. kept.fact) (slice_get (facts_at calls now) i) }
        ensures past_end { (me : Mac) (calls : List FactCall) → FactsStand self.now me calls →
            IsNone result ↔ (length (facts_at calls now) ≤ i) }
    {
        let kept = self.live_at(now, i)?;
        Some(&kept.fact)
    }

    /// How the node came by the live fact at this place.
    pub fn mark_at(&self, now: Millis, i: usize) -> Option<Mark>
        ensures { (me : Mac) (calls : List FactCall) → FactsStand self.now me calls →
            result ≡ option_map (λ kept. kept.mark) (slice_get (facts_at calls now) i) }
    {
        let kept = self.live_at(now, i)?;
        Some(kept.mark)
    }

    /// The live facts as they are kept, by source, then by type, in one walk.
    pub fn live(&self, now: Millis) -> Result<Vec<&KeptFact>, NoMemory>
        ensures { IfOk result (λ rows. (me : Mac) (calls : List FactCall) →
            FactsStand self.now me calls →
            map (λ kept. kept.now) rows.items ≡ facts_at calls now) }
    {
        let mut rows = Vec::new(self.alloc);
        for kept in self.kept.values() {
            if is_live(now, kept) {
                rows.push(kept)?;
            }
        }
        Ok(rows)
    }

    // The live fact at this place as it is kept.
    fn live_at(&self, now: Millis, i: usize) -> Option<&KeptFact>
        ensures { (me : Mac) (calls : List FactCall) → FactsStand self.now me calls →
            option_map (λ kept. kept.now) result ≡ slice_get (facts_at calls now) i }
    {
        self.kept.values().filter(|kept| is_live(now, kept)).nth(i)
    }

    // Whether what is kept, if anything, stays when a fact of this mark comes.
    fn stays(&self, now: Millis, mark: Mark, key: FactKey) -> bool
        ensures { (me : Mac) (calls : List FactCall) → FactsStand self.now me calls →
            result ≡ stays_kept now mark (kept_fact calls key.source key.type_no) }
    {
        match self.kept.get(&key) {
            Some(kept) => is_live(now, kept) && outweighs(kept.mark, mark),
            None => false,
        }
    }

    // Keeps a fact in the place of that of its source and type.
    fn keep(&mut self, now: Millis, mark: Mark, fact: Fact) -> Result<(), NoMemory>
        ensures ok { (me : Mac) (calls : List FactCall) (call : FactCall) →
            FactsStand self.old me calls →
            IsKeptBy call calls (record { moment = now; mark = mark; fact = fact }) →
            OnOk result (FactsStand self.new me (call ∷ calls)) }
        ensures err { OnErr result (self.new ≡ self.old) }
    {
        let kept = KeptFact {
            moment: now,
            mark,
            fact,
        };
        self.kept.insert_sorted(key_of(&kept.fact), kept)?;
        Ok(())
    }
}

// The source and the type of a fact.
fn key_of(fact: &Fact) -> FactKey
    ensures { result ≡ key_of_fact fact.now }
{
    FactKey {
        source: fact.source,
        type_no: fact.type_no,
    }
}

// The mark of a fact that a node sent.
fn mark_from(sender: Mac, fact: &Fact) -> Mark
    ensures { result ≡ mark_from sender fact.now }
{
    if sender == fact.source {
        Mark::First
    } else {
        Mark::Synced
    }
}

// Whether a fact is live.
fn is_live(now: Millis, kept: &KeptFact) -> bool
    ensures { result ≡ is_live_fact now kept.now }
{
    now.saturating_sub(kept.moment) < FACT_AGE
}

// Whether a mark stands against another that comes.
fn outweighs(mark: Mark, new: Mark) -> bool
    ensures { result ≡ outweighs mark new }
{
    match (mark, new) {
        (Mark::Local, _) | (Mark::First, Mark::Synced) => true,
        (Mark::First, Mark::Local | Mark::First) | (Mark::Synced, _) => false,
    }
}
