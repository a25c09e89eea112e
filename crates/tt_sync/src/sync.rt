ghost use Rattle.std.specs.Prelude.{ℕ, false, ◌≡◌, [], ◌∷◌, slice_get, length, ◌≤◌, ◌<◌, ◌↔◌, IfErr, IsNone, IsTrue, OnOk, OnErr, None};
ghost use Rattle.mesh_model.specs.Marks.Calls.{Calls, Marked, Released, Unmarked, Advised, Asked, Forgotten};
ghost use Rattle.mesh_model.specs.Marks.RoamingMarks.{is_ended, mark_of, marks_at, marks_by, target_by};
ghost use Rattle.mesh_model.specs.Marks.Requests.{too_soon};
ghost use Rattle.mesh_model.specs.Marks.Advertisements.{sent_by, too_many};
ghost use Rattle.tt_sync.specs.Sync.{StandsFor, AskTells, AdviseTells, last_five};

use crate::failure::{AdviseErr, AskErr};
use indexmap::IndexMap;
use mesh_base::{Key, Mac, Millis, NoMemory};
use mesh_model::RoamingMark;
use std::alloc::Global;
use std::marker::Model;

/// How long a mark stands, in milliseconds.
const MARK_AGE: Millis = 600_000;
/// How long an originator isn't asked again, in milliseconds.
const ASKING_PAUSE: Millis = 3_000;
/// How long an advertisement counts, in milliseconds.
const ADVERT_AGE: Millis = 20_000;

/// Marks of clients, requests to originators and advertisements of clients.
#[derive(Debug, Drop)]
pub struct Sync {
    /// In key order.
    marks: IndexMap<Key, RoamingMark>,
    /// When each originator was last asked.
    asked: IndexMap<Mac, Millis>,
    /// When each client was last advertised, newest first.
    sent: IndexMap<Key, [Option<Millis>; 5]>,
}

impl Model for Sync {
    ghost use Rattle.tt_sync.specs.Sync.{Kept};

    ghost Value = { Kept };

    ghost view = { λ s. record {
      marks = s.marks.entries;
      asked = s.asked.entries;
      sent = s.sent.entries;
    } };
}

impl Sync {
    /// Nothing is remembered.
    pub fn new(alloc: Global) -> Sync
        ensures { StandsFor result [] }
    {
        Sync {
            marks: IndexMap::new(alloc),
            asked: IndexMap::new(alloc),
            sent: IndexMap::new(alloc),
        }
    }

    /// Notes that a client went to a node, which had told this byte, if any.
    pub fn mark(
        &mut self,
        now: Millis,
        key: Key,
        target: Mac,
        told: Option<u8>,
    ) -> Result<(), NoMemory>
        ensures ok { (made : Calls) → StandsFor self.old made →
            OnOk result (StandsFor self.new (Marked now key target told ∷ made)) }
        ensures err { OnErr result (self.new ≡ self.old) }
    {
        let mark = RoamingMark {
            moment: now,
            target,
            told,
        };
        self.marks.insert_sorted(key, mark)?;
        Ok(())
    }

    /// Whether marks are remembered. Where none is, none can be ended.
    pub fn has_marks(&self) -> bool
        ensures has { (made : Calls) → StandsFor self.now made →
            IsTrue result ↔ (0 < length (marks_by made)) }
        ensures none { result ≡ false → (made : Calls) → StandsFor self.now made →
            (target : Mac) (byte : ℕ) → StandsFor self.now (Released target byte ∷ made) }
    {
        !self.marks.is_empty()
    }

    /// Ends the marks of a node that had told another byte than this one, or none.
    pub fn release(&mut self, target: Mac, byte: u8)
        ensures { (made : Calls) → StandsFor self.old made →
            StandsFor self.new (Released target byte ∷ made) }
    {
        self.marks.retain(|_key, mark| !ends_by(mark, target, byte));
    }

    /// Ends a client's mark.
    pub fn unmark(&mut self, key: Key)
        ensures { (made : Calls) → StandsFor self.old made →
            StandsFor self.new (Unmarked key ∷ made) }
    {
        self.marks.shift_remove(&key);
    }

    /// The node that a client's mark names, while it stands.
    pub fn mark_of(&self, now: Millis, key: Key) -> Option<Mac>
        ensures { (made : Calls) → StandsFor self.now made → result ≡ mark_of now made key }
    {
        standing_target(self.marks.get(&key)?, now)
    }

    /// Of the clients whose marks stand, in key order, the one at this place, from 0, with the node
    /// that its mark names.
    pub fn mark_at(&self, now: Millis, i: usize) -> Option<(Key, Mac)>
        ensures at_place { (made : Calls) → StandsFor self.now made →
            result ≡ slice_get (marks_at now made) i }
        ensures past_end { (made : Calls) → StandsFor self.now made →
            IsNone result ↔ (length (marks_at now made) ≤ i) }
    {
        self.marks
            .iter()
            .filter_map(|(key, mark)| standing_target(mark, now).map(|target| (*key, target)))
            .nth(i)
    }

    /// Notes that an originator is asked for its table.
    pub fn ask(&mut self, now: Millis, orig: Mac) -> Result<(), AskErr>
        ensures ok { (made : Calls) → StandsFor self.old made →
            OnOk result (StandsFor self.new (Asked now orig ∷ made)) }
        ensures free { (made : Calls) → StandsFor self.old made →
            OnOk result (too_soon now made orig ≡ None) }
        ensures too_soon { (made : Calls) → StandsFor self.old made →
            IfErr result (λ e. AskTells e (too_soon now made orig)) }
        ensures err { OnErr result (self.new ≡ self.old) }
    {
        if let Some(asked_at) = self.recent_asking(now, orig) {
            return Err(AskErr::TooSoon { asked_at });
        }
        self.asked.insert(orig, now)?;
        Ok(())
    }

    // When an originator was asked, where that was too recent for the next asking.
    fn recent_asking(&self, now: Millis, orig: Mac) -> Option<Millis>
        ensures { (made : Calls) → StandsFor self.now made → result ≡ too_soon now made orig }
    {
        let asked_at = *self.asked.get(&orig)?;
        (now.saturating_sub(asked_at) < ASKING_PAUSE).then_some(asked_at)
    }

    /// Forgets when an originator was asked.
    pub fn forget(&mut self, orig: Mac)
        ensures { (made : Calls) → StandsFor self.old made →
            StandsFor self.new (Forgotten orig ∷ made) }
    {
        self.asked.shift_remove(&orig);
    }

    /// Notes that a client is advertised.
    pub fn advise(&mut self, now: Millis, key: Key) -> Result<(), AdviseErr>
        ensures ok { (made : Calls) → StandsFor self.old made →
            OnOk result (StandsFor self.new (Advised now key ∷ made)) }
        ensures free { (made : Calls) → StandsFor self.old made →
            OnOk result (too_many now made key ≡ None) }
        ensures too_many { (made : Calls) → StandsFor self.old made →
            IfErr result (λ e. AdviseTells e (too_many now made key)) }
        ensures err { OnErr result (self.new ≡ self.old) }
    {
        let [first, second, third, fourth, fifth] = self.last_sent(key);
        if let Some(oldest) = fifth {
            if now.saturating_sub(oldest) < ADVERT_AGE {
                return Err(AdviseErr::TooMany { oldest });
            }
        }
        self.sent
            .insert(key, [Some(now), first, second, third, fourth])?;
        Ok(())
    }

    // When a client was advertised, the five last times, newest first.
    fn last_sent(&self, key: Key) -> [Option<Millis>; 5]
        ensures { (made : Calls) → StandsFor self.now made → result ≡ last_five (sent_by made key) }
    {
        match self.sent.get(&key) {
            Some(moments) => *moments,
            None => [None; 5],
        }
    }
}

// Whether a mark ends where this node is released under this byte.
fn ends_by(mark: &RoamingMark, target: Mac, byte: u8) -> bool
    ensures { result ≡ is_ended target byte mark.now }
{
    mark.target == target && mark.told != Some(byte)
}

// The node that a mark names, while it stands.
fn standing_target(mark: &RoamingMark, now: Millis) -> Option<Mac>
    ensures { result ≡ target_by now mark.now }
{
    let age = now.saturating_sub(mark.moment);
    (age < MARK_AGE).then_some(mark.target)
}
