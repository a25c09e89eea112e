//! The gateways that a node knows, and the one that it chooses.

ghost use Rattle.std.specs.Prelude.{◌≡◌, ◌↔◌, ◌≤◌, length, slice_get, IfOk, IsNone, OnErr, OnOk, option_map};
ghost use Rattle.mesh_base.specs.declared.address.Mac.{Mac};
ghost use Rattle.mesh_model.specs.Knowledge.Known.{Knowledge};
ghost use Rattle.mesh_model.specs.Knowledge.Offers.{choice_by, choosable_rows, gateway_rows, gateway_way};
ghost use Rattle.mesh_serv.specs.OffersStand.{offered};
ghost use Rattle.node_ground.specs.KnowledgeStands.{KnowledgeStands};
ghost use Rattle.node_ground.specs.ServiceRows.{choosable_of, gateway_of};
ghost use Rattle.node_ground.specs.SettingsSeen.{part_seen};
ghost use Rattle.node_ground.specs.Ways.{way};

use crate::addressee::Way;
use crate::knowledge::NodeKnowledge;
use crate::settings::GatewayPart;
use mesh_algo::Algo;
use mesh_base::{Mac, Millis, NoMemory, Reason};
use mesh_model::GwRow;
use mesh_serv::{Offer, choose};

impl<A: Algo> NodeKnowledge<A> {
    // The row of an originator that offers this, where it is live and a gateway.
    fn gateway(&self, now: Millis, orig: Mac, offer: Offer) -> Option<GwRow>
        ensures { (me : Mac) (known : Knowledge) → KnowledgeStands A.stands self.now me known →
            result ≡ gateway_of (A.queries me) known now orig (Some (offered offer)) }
    {
        let speeds = offer.gateway?;
        if !self.algo.live(now, orig) {
            return None;
        }
        Some(GwRow {
            orig,
            down: speeds.download,
            up: speeds.upload,
            metric: self.algo.metric(now, orig),
        })
    }

    /// The gateway at this place in the order of addresses, from 0.
    pub fn gateway_at(&self, now: Millis, i: usize) -> Option<GwRow>
        ensures at_place { (me : Mac) (known : Knowledge) →
            KnowledgeStands A.stands self.now me known →
            result ≡ slice_get (gateway_rows (A.queries me) known now) i }
        ensures past_end { (me : Mac) (known : Knowledge) →
            KnowledgeStands A.stands self.now me known →
            IsNone result ↔ (length (gateway_rows (A.queries me) known now) ≤ i) }
    {
        let mut before = i;
        for (orig, offer) in self.services.offers.iter() {
            if let Some(row) = self.gateway(now, *orig, *offer) {
                if before == 0 {
                    return Some(row);
                }
                before -= 1;
            }
        }
        None
    }

    // The row of an originator that offers this, where it can be chosen.
    fn choosable_row(&self, now: Millis, orig: Mac, offer: Offer) -> Option<GwRow>
        ensures { (me : Mac) (known : Knowledge) → KnowledgeStands A.stands self.now me known →
            result ≡ choosable_of (A.queries me) known now orig (Some (offered offer)) }
    {
        if self.algo.route(now, orig).is_none() {
            return None;
        }
        self.gateway(now, orig, offer)
    }

    // The gateways to which a route leads, by address.
    fn choosable(&self, now: Millis) -> Result<Vec<GwRow>, NoMemory>
        ensures { IfOk result (λ rows. (me : Mac) (known : Knowledge) →
            KnowledgeStands A.stands self.now me known →
            rows.items ≡ choosable_rows (A.queries me) known now) }
    {
        let mut rows = Vec::new(self.alloc);
        for (orig, offer) in self.services.offers.iter() {
            if let Some(row) = self.choosable_row(now, *orig, *offer) {
                rows.push(row)?;
            }
        }
        Ok(rows)
    }

    // The gateway that a node with this part chooses, if any. Only a node that chooses looks at the
    // gateways.
    fn choice_by(&self, now: Millis, part: GatewayPart) -> Result<Option<Mac>, NoMemory>
        ensures { IfOk result (λ choice. (me : Mac) (known : Knowledge) →
            KnowledgeStands A.stands self.now me known →
            choice ≡ choice_by (part_seen part) (A.queries me) known now) }
    {
        let GatewayPart::Chooses(policy) = part else {
            return Ok(None);
        };
        let rows = self.choosable(now)?;
        Ok(choose(policy, self.services.choice, rows.as_slice()))
    }

    /// Chooses a gateway by the node's part as one. Refused, all is as before.
    pub fn choose_gateway(&mut self, now: Millis) -> Result<(), NoMemory>
        ensures ok { OnOk result ((me : Mac) (known : Knowledge) →
            KnowledgeStands A.stands self.old me known →
            KnowledgeStands A.stands self.new me (record known {
              services =
                  record known.services {
                    choice = choice_by known.services.settings.gateway (A.queries me) known now;
                  };
            })) }
        ensures err { OnErr result (self.new ≡ self.old) }
    {
        self.services.choice = self.choice_by(now, self.services.settings.gateway)?;
        Ok(())
    }

    /// The way to the chosen gateway, where a route leads to it.
    pub fn gateway_way(&self, now: Millis) -> Option<Way>
        ensures { (me : Mac) (known : Knowledge) → KnowledgeStands A.stands self.now me known →
            option_map way result ≡ gateway_way (A.queries me) known now }
    {
        let gateway = self.services.choice?;
        self.way_to(now, Reason::Gw, gateway)
    }
}
