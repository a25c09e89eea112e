ghost use Rattle.std.specs.Prelude.{◌≡◌, ◌==◌, ◌&&◌, ◌||◌, ℕ, [], not, true, if◌then◌else◌, IfOk, None, OnErr, OnOk, Some};
ghost use Rattle.mesh_base.specs.declared.client.Key.{Key};
ghost use Rattle.mesh_model.specs.Clients.Present.{same_key};
ghost use Rattle.tt_local.specs.Moments.{has_moment, HasMoved, is_aged_moment, is_moment};
ghost use Rattle.tt_local.specs.Roster.{has_key};

use crate::sighting::counts;
use mesh_base::{Key, Millis, NoMemory};
use std::alloc::Global;
use std::collections::BTreeSet;
use std::marker::Model;

/// When a client was sighted: by moment, then by key.
#[derive(Clone, Copy, Debug, PartialEq, Eq, PartialOrd, Ord)]
pub(crate) struct Seen {
    pub(crate) moment: Millis,
    pub(crate) key: Key,
}

/// The moments of sightings in their order, each with the key of the client that was sighted.
#[derive(Debug, Drop)]
pub(crate) struct Moments {
    seen: BTreeSet<Seen>,
}

impl Model for Moments {
    ghost use Rattle.std.specs.Prelude.{List};
    ghost use Rattle.tt_local.specs.declared.moments.Seen.{Seen};

    ghost Value = { List Seen };

    ghost view = { λ m. m.seen.keys };
}

impl Moments {
    /// No moments.
    pub(crate) fn new(alloc: Global) -> Moments
        ensures { result ≡ [] }
    {
        Moments {
            seen: BTreeSet::new(alloc),
        }
    }

    /// The only moment of a key is this, instead of another or none.
    pub(crate) fn change(
        &mut self,
        key: Key,
        before: Option<Millis>,
        now: Millis,
    ) -> Result<(), NoMemory>
        requires before { (at : ℕ) → has_moment self.old at key ≡ is_moment at before }
        ensures ok { OnOk result (HasMoved key (Some now) self.old self.new) }
        ensures err { OnErr result (self.new ≡ self.old) }
    {
        if before == Some(now) {
            return Ok(());
        }
        self.add(now, key)?;
        if let Some(moment) = before {
            self.remove(moment, key);
        }
        Ok(())
    }

    /// A key has no moment any more.
    pub(crate) fn forget(&mut self, key: Key, before: Option<Millis>)
        requires before { (at : ℕ) → has_moment self.old at key ≡ is_moment at before }
        ensures forgotten { HasMoved key None self.old self.new }
    {
        if let Some(moment) = before {
            self.remove(moment, key);
        }
    }

    // Adds a moment of a key.
    fn add(&mut self, moment: Millis, key: Key) -> Result<(), NoMemory>
        ensures ok { OnOk result ((at : ℕ) (other : Key) → has_moment self.new at other
            ≡ ((moment == at && same_key key other) || has_moment self.old at other)) }
        ensures err { OnErr result (self.new ≡ self.old) }
    {
        self.seen.insert(Seen { moment, key })?;
        Ok(())
    }

    // Takes a moment of a key away.
    fn remove(&mut self, moment: Millis, key: Key)
        ensures { (at : ℕ) (other : Key) → has_moment self.new at other
            ≡ (not (moment == at && same_key key other) && has_moment self.old at other) }
    {
        self.seen.remove(&Seen { moment, key });
    }

    /// The keys whose sightings at their moments count no longer.
    pub(crate) fn aged(&self, alloc: Global, now: Millis) -> Result<Vec<Key>, NoMemory>
        ensures { IfOk result (λ keys. (at : ℕ) (key : Key) →
            has_moment self.now at key ≡ true → is_aged_moment now at ≡ true →
            has_key keys.items key ≡ true) }
    {
        let keys = self
            .seen
            .iter()
            .take_while(|seen| !counts(now, seen.moment))
            .map(|seen| seen.key)
            .collect(alloc)?;
        Ok(keys)
    }
}
