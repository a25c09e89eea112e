//! What a node does for services: its settings, calls for a gateway, and what it shows of gateways
//! and groups.

ghost use Rattle.std.specs.Prelude.{◌≡◌, ◌↔◌, ◌≤◌, length, option_map, slice_get, IsNone, OnOk};
ghost use Rattle.mesh_base.specs.declared.address.Mac.{Mac};
ghost use Rattle.mesh_model.specs.Acts.Choosing.{whole_acts};
ghost use Rattle.mesh_model.specs.Acts.NodeLimits.{client_limit};
ghost use Rattle.mesh_model.specs.Clients.Log.{Log};
ghost use Rattle.mesh_model.specs.Clients.Log as given;
ghost use Rattle.mesh_model.specs.Knowledge.Offers.{gateway_rows, group_rows};
ghost use Rattle.mesh_model.specs.Knowledge.Steps.{knowledge};
ghost use Rattle.mesh_model.specs.Run.Shown.{mode_of};
ghost use Rattle.node_clients.specs.FrameRows.{given_call};
ghost use Rattle.node_ground.specs.OwnStands.{newest_moment, with_input};
ghost use Rattle.node_ground.specs.Puts.{Leaves};
ghost use Rattle.node_ground.specs.SettingsSeen.{setting_seen};
ghost use Rattle.mesh_node.specs.NodeStands.{KeepsLog, NodeStands, flags_of, is_dead};

use crate::node::Node;
use crate::taking::client_flags;
use mesh_algo::Algo;
use mesh_base::{Key, Mac, Millis};
use mesh_model::GwRow;
use mesh_model::service::GwMode;
use node_clients::calls::call;
use node_ground::{GatewayPart, NodeErr, Place, Port, Setting};

impl<A: Algo> Node<A> {
    // Sets one of its settings.
    pub(crate) fn set(&mut self, now: Millis, setting: Setting)
        ensures noted { (me : Mac) (log : Log) → KeepsLog A.stands A.queries self.old me log →
            newest_moment log ≤ now →
            KeepsLog A.stands A.queries self.new me
            (with_input (A.queries me) me log now
            (given.Line (given.Sets (setting_seen setting)))) }
        ensures alive { is_dead self.new ≡ is_dead self.old }
    {
        self.kept.services.set(setting);
    }

    // Takes a call of a client at this node for a gateway.
    pub(crate) fn take_call<P: Port>(
        &mut self,
        port: &mut P,
        now: Millis,
        key: Key,
        text: &[u8],
    ) -> Result<(), NodeErr>
        requires { (me : Mac) × (log : Log) × KeepsLog A.stands A.queries self.old me log
            × (newest_moment log ≤ now) }
        ensures puts { (me : Mac) (log : Log) → KeepsLog A.stands A.queries self.old me log →
            newest_moment log ≤ now →
            let given = given_call key text.now in
            Leaves P.takes P.same P.over (client_limit me log now given) port.old
            (whole_acts (A.queries me) me log now given) result port.new }
        ensures noted { (me : Mac) (log : Log) → KeepsLog A.stands A.queries self.old me log →
            newest_moment log ≤ now →
            OnOk result (KeepsLog A.stands A.queries self.new me
            (with_input (A.queries me) me log now (given_call key text.now))) }
        ensures alive { is_dead self.new ≡ is_dead self.old }
    {
        let at = Place { me: self.me, now };
        let flags = client_flags(self.kept.services.settings.wifi);
        call(&mut self.kept, port, &mut self.locals, at, flags, key, text)?;
        Ok(())
    }

    /// The part as a gateway that was set last.
    pub fn gw_mode(&self) -> GwMode
        ensures { (me : Mac) (log : Log) → NodeStands A.stands A.queries self.now me log →
            result ≡ mode_of (knowledge (A.queries me) me log).services.settings.gateway }
    {
        match self.kept.services.settings.gateway {
            GatewayPart::NoPart => GwMode::Off,
            GatewayPart::Serves(_) => GwMode::Server,
            GatewayPart::Chooses(_) => GwMode::Client,
        }
    }

    /// The gateway at this place in the order of addresses, from 0. Each call walks over all that
    /// offered something.
    pub fn gw_at(&self, now: Millis, i: usize) -> Option<GwRow>
        ensures at_place { (me : Mac) (log : Log) →
            NodeStands A.stands A.queries self.now me log →
            let known = knowledge (A.queries me) me log in
            result ≡ slice_get (gateway_rows (A.queries me) known now) i }
        ensures past_end { (me : Mac) (log : Log) →
            NodeStands A.stands A.queries self.now me log →
            let known = knowledge (A.queries me) me log in
            IsNone result ↔ (length (gateway_rows (A.queries me) known now) ≤ i) }
    {
        self.kept.gateway_at(now, i)
    }

    /// The originator that tells multicast flags at this place in the order of addresses, from 0,
    /// with its flags. Each call walks over all that offered something.
    pub fn mc_at(&self, now: Millis, i: usize) -> Option<(Mac, u8)>
        ensures at_place { (me : Mac) (log : Log) →
            NodeStands A.stands A.queries self.now me log →
            let known = knowledge (A.queries me) me log in
            result ≡ option_map flags_of (slice_get (group_rows (A.queries me) known now) i) }
        ensures past_end { (me : Mac) (log : Log) →
            NodeStands A.stands A.queries self.now me log →
            let known = knowledge (A.queries me) me log in
            IsNone result ↔ (length (group_rows (A.queries me) known now) ≤ i) }
    {
        let row = self.kept.group_at(now, i)?;
        Some((row.orig, row.flags))
    }

    /// The gateway that was chosen last, if any.
    pub fn chosen(&self) -> Option<Mac>
        ensures { (me : Mac) (log : Log) → NodeStands A.stands A.queries self.now me log →
            result ≡ (knowledge (A.queries me) me log).services.choice }
    {
        self.kept.services.choice
    }
}
