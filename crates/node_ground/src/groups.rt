//! The originators that tell multicast flags, and those that receive the frames of a group.

ghost use Rattle.std.specs.Prelude.{◌≡◌, ◌↔◌, ◌≤◌, length, slice_get, IfOk, IsNone};
ghost use Rattle.mesh_base.specs.declared.address.Mac.{Mac};
ghost use Rattle.mesh_model.specs.Knowledge.Known.{Knowledge};
ghost use Rattle.mesh_model.specs.Knowledge.Offers.{group_rows, receivers};
ghost use Rattle.mesh_model.specs.Tables.Known.{known_by, names};
ghost use Rattle.mesh_serv.specs.OffersStand.{offered};
ghost use Rattle.node_ground.specs.KnowledgeStands.{KnowledgeStands};
ghost use Rattle.node_ground.specs.ServiceRows.{group_of, receiver_of, wants_by};

use crate::knowledge::NodeKnowledge;
use mesh_algo::Algo;
use mesh_base::{Key, Mac, Millis, NoMemory};
use mesh_model::service::GroupRow;
use mesh_serv::{Offer, wants};

// Whether an originator that offers this wants a group.
fn wants_group(group: Mac, offer: Offer) -> bool
    ensures { result ≡ wants_by group (Some (offered offer)) }
{
    match offer.multicast {
        Some(flags) => wants(group, flags),
        None => false,
    }
}

impl<A: Algo> NodeKnowledge<A> {
    // The row of an originator that offers this, where it is live and tells multicast flags.
    fn group(&self, now: Millis, orig: Mac, offer: Offer) -> Option<GroupRow>
        ensures { (me : Mac) (known : Knowledge) → KnowledgeStands A.stands self.now me known →
            result ≡ group_of (A.queries me) known now orig (Some (offered offer)) }
    {
        let flags = offer.multicast?;
        if !self.algo.live(now, orig) {
            return None;
        }
        Some(GroupRow { orig, flags })
    }

    /// The originator that tells multicast flags at this place in the order of addresses, from 0.
    pub fn group_at(&self, now: Millis, i: usize) -> Option<GroupRow>
        ensures at_place { (me : Mac) (known : Knowledge) →
            KnowledgeStands A.stands self.now me known →
            result ≡ slice_get (group_rows (A.queries me) known now) i }
        ensures past_end { (me : Mac) (known : Knowledge) →
            KnowledgeStands A.stands self.now me known →
            IsNone result ↔ (length (group_rows (A.queries me) known now) ≤ i) }
    {
        let mut before = i;
        for (orig, offer) in self.services.offers.iter() {
            if let Some(row) = self.group(now, *orig, *offer) {
                if before == 0 {
                    return Some(row);
                }
                before -= 1;
            }
        }
        None
    }

    // Whether the held table of an originator names a client.
    fn names(&self, orig: Mac, key: Key) -> bool
        ensures { (me : Mac) (known : Knowledge) → KnowledgeStands A.stands self.now me known →
            result ≡ names key (known_by known.tables orig).held }
    {
        match self.globals.held(orig) {
            Some((_, table)) => table.get(key).is_some(),
            None => false,
        }
    }

    // The originator that offers this, where it receives the frames of a group.
    fn receiver(&self, now: Millis, key: Key, orig: Mac, offer: Offer) -> Option<Mac>
        ensures { (me : Mac) (known : Knowledge) → KnowledgeStands A.stands self.now me known →
            result ≡ receiver_of (A.queries me) known now key orig (Some (offered offer)) }
    {
        if !self.algo.live(now, orig) || self.algo.route(now, orig).is_none() {
            return None;
        }
        (self.names(orig, key) || wants_group(key.mac, offer)).then_some(orig)
    }

    /// The originators that receive the frames of a group, by address.
    pub fn receivers(&self, now: Millis, key: Key) -> Result<Vec<Mac>, NoMemory>
        ensures { IfOk result (λ rows. (me : Mac) (known : Knowledge) →
            KnowledgeStands A.stands self.now me known →
            rows.items ≡ receivers (A.queries me) known now key) }
    {
        let mut rows = Vec::new(self.alloc);
        for (orig, offer) in self.services.offers.iter() {
            if let Some(receiver) = self.receiver(now, key, *orig, *offer) {
                rows.push(receiver)?;
            }
        }
        Ok(rows)
    }
}
