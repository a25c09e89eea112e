ghost use Rattle.std.specs.Prelude.{◌≡◌, ◌↔◌, ◌≤◌, ◌%◌, ◌^◌, [], ◌∷◌, length, slice_get, IsNone, IsOk, IsSome, OnErr, OnOk};
ghost use Rattle.mesh_base.specs.declared.address.Mac.{Mac};
ghost use Rattle.mesh_model.specs.Bridges.Claims.{ClaimCalls, claim_holder, claim_row, claims_at, claims_of, last_claim};
ghost use Rattle.mesh_model.specs.Bridges.Verdicts.{hold_of, verdict_from_lan, verdict_from_mesh};
ghost use Rattle.mesh_bla.specs.Claims.{ClaimsStand, call_of};
ghost use Rattle.mesh_bla.specs.Holds.{told_hold};

use crate::hold::Hold;
use crate::kept::Kept;
use indexmap::IndexMap;
use mesh_base::{Key, Mac, Millis, NoMemory};
use mesh_model::{ClaimRow, Spread, Verdict};
use std::alloc::Global;
use std::marker::Model;

/// What a gateway of a LAN knows of who holds the LAN's clients: the last claim or unclaim frame of
/// each of their keys.
#[derive(Debug, Drop)]
pub struct Claims {
    me: Mac,
    /// In key order.
    kept: IndexMap<Key, Kept>,
}

impl Model for Claims {
    ghost use Rattle.mesh_bla.specs.Claims.{KeptClaims};

    ghost Value = { KeptClaims };

    ghost view = { λ c. record { me = c.me; kept = c.kept.entries } };
}

impl Claims {
    /// No frame came to the gateway of this address.
    pub fn new(alloc: Global, me: Mac) -> Claims
        ensures { ClaimsStand result me [] }
    {
        Claims {
            me,
            kept: IndexMap::new(alloc),
        }
    }

    /// Notes a claim frame that came, the gateway's own too, or for `claim` false an unclaim frame.
    pub fn claim_frame(
        &mut self,
        now: Millis,
        sender: Mac,
        key: Key,
        claim: bool,
    ) -> Result<(), NoMemory>
        ensures ok { (me : Mac) (calls : ClaimCalls) → ClaimsStand self.old me calls →
            OnOk result (ClaimsStand self.new me
            (record { moment = now; sender = sender; key = key; claim = claim } ∷ calls)) }
        ensures err { OnErr result (self.new ≡ self.old) }

        // No memory is wanted where a frame of the key came before.
        ensures known { (me : Mac) (calls : ClaimCalls) → ClaimsStand self.old me calls →
            IsSome (last_claim calls key) → IsOk result }
    {
        let kept = Kept {
            moment: now,
            sender,
            claim,
        };
        self.kept.insert_sorted(key, kept)?;
        Ok(())
    }

    /// The gateway that holds a client, if any does.
    pub fn holder(&self, now: Millis, key: Key) -> Option<Mac>
        ensures { (me : Mac) (calls : ClaimCalls) → ClaimsStand self.now me calls →
            result ≡ claim_holder calls now key }
    {
        self.standing(now, key).map(|row| row.holder)
    }

    /// What the gateway does with a client frame from the LAN, by the client that sent it.
    pub fn from_lan(&self, now: Millis, source: Key) -> Verdict
        ensures { (me : Mac) (calls : ClaimCalls) → ClaimsStand self.now me calls →
            result ≡ verdict_from_lan me calls now source }
    {
        self.hold(now, source).held_unless_ours()
    }

    /// What the gateway does with a client frame from the mesh, by the client that sent it.
    pub fn from_mesh(&self, now: Millis, source: Key, spread: Spread) -> Verdict
        ensures { (me : Mac) (calls : ClaimCalls) → ClaimsStand self.now me calls →
            result ≡ verdict_from_mesh me calls now source spread }
    {
        self.hold(now, source).by_spread(spread)
    }

    /// How many clients the gateway holds, as a number of four bytes, which begins anew at 2^32.
    pub fn announce(&self, now: Millis) -> u32
        ensures { (me : Mac) (calls : ClaimCalls) → ClaimsStand self.now me calls →
            result ≡ claims_of me calls now % 2 ^ 32 }
    {
        let count = self
            .kept
            .iter()
            .filter_map(|(key, kept)| kept.row(now, *key))
            .filter(|row| row.holder == self.me)
            .count();
        (count % (1 << 32)) as u32
    }

    /// The claim that stands at this place in key order, from 0.
    pub fn row_at(&self, now: Millis, i: usize) -> Option<ClaimRow>
        ensures at_place { (me : Mac) (calls : ClaimCalls) → ClaimsStand self.now me calls →
            result ≡ slice_get (claims_at calls now) i }
        ensures past_end { (me : Mac) (calls : ClaimCalls) → ClaimsStand self.now me calls →
            IsNone result ↔ (length (claims_at calls now) ≤ i) }
    {
        self.kept
            .iter()
            .filter_map(|(key, kept)| kept.row(now, *key))
            .nth(i)
    }

    // The row of a client, where a claim of it stands.
    fn standing(&self, now: Millis, key: Key) -> Option<ClaimRow>
        ensures { (me : Mac) (calls : ClaimCalls) → ClaimsStand self.now me calls →
            result ≡ claim_row calls now key }
    {
        self.kept.get(&key)?.row(now, key)
    }

    // Who holds a client.
    fn hold(&self, now: Millis, source: Key) -> Hold
        ensures { (me : Mac) (calls : ClaimCalls) → ClaimsStand self.now me calls →
            told_hold result ≡ hold_of me calls now source }
    {
        match self.standing(now, source) {
            Some(row) if row.holder == self.me => Hold::Ours { age: row.age },
            Some(_) => Hold::Anothers,
            None => Hold::Nobodys,
        }
    }
}
