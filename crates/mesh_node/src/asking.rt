//! What a node does with the question of one of its clients for an IP address, and what it shows of
//! the distributed ARP table.

ghost use Rattle.std.specs.Prelude.{◌≡◌, ◌↔◌, ◌≤◌, length, slice_get, IsNone, OnOk};
ghost use Rattle.mesh_base.specs.declared.address.Mac.{Mac};
ghost use Rattle.mesh_model.specs.Acts.Choosing.{whole_acts};
ghost use Rattle.mesh_model.specs.Acts.NodeLimits.{client_limit};
ghost use Rattle.mesh_model.specs.Clients.Log.{Log};
ghost use Rattle.mesh_model.specs.Clients.Mentions.{Sighted, sighted_after};
ghost use Rattle.mesh_model.specs.Knowledge.Steps.{knowledge, next_knowledge};
ghost use Rattle.mesh_model.specs.Services.ArpTable.{pairs_at};
ghost use Rattle.node_clients.specs.FrameRows.{Before};
ghost use Rattle.node_ground.specs.KnowledgeStands.{KnowledgeStands};
ghost use Rattle.node_ground.specs.OwnStands.{HasClients, newest_moment, with_input};
ghost use Rattle.node_ground.specs.Puts.{Leaves};
ghost use Rattle.mesh_node.specs.NodeStands.{KeepsLog, NodeStands, is_dead};
ghost use Rattle.mesh_node.specs.Questions.{given_question};

use crate::node::Node;
use crate::taking::client_flags;
use mesh_algo::Algo;
use mesh_base::{Key, Millis};
use mesh_model::service::ArpRow;
use node_arp::Question;
use node_arp::question::ask;
use node_clients::seeing::sight_client;
use node_ground::{NodeErr, NodeKnowledge, Place, Port};
use tt_local::Locals;

// A question that a line gives this node, with the flags of its client's sighting.
fn ask_sighted<A: Algo, P: Port>(
    kept: &mut NodeKnowledge<A>,
    port: &mut P,
    locals: &mut Locals,
    at: Place,
    flags: u8,
    asked: Question,
) -> Result<(), NodeErr>
    ensures puts { (log : Log) →
        Before A.stands A.queries kept.old locals.old at.me log at.now →
        Sighted flags ≡ sighted_after log →
        let given = given_question asked in
        Leaves P.takes P.same P.over (client_limit at.me log at.now given) port.old
        (whole_acts (A.queries at.me) at.me log at.now given) result port.new }
    ensures noted { (log : Log) →
        Before A.stands A.queries kept.old locals.old at.me log at.now →
        let before = knowledge (A.queries at.me) at.me log in
        OnOk result (KnowledgeStands A.stands kept.new at.me
        (next_knowledge (A.queries at.me) at.me log before at.now (given_question asked))) }
    ensures sighted { (log : Log) →
        Before A.stands A.queries kept.old locals.old at.me log at.now →
        Sighted flags ≡ sighted_after log →
        OnOk result (HasClients locals.new at.me
        (with_input (A.queries at.me) at.me log at.now (given_question asked))) }
{
    let key = Key {
        mac: asked.mac,
        vid: asked.vid,
    };
    sight_client(kept, port, locals, at, flags, key)?;
    ask(kept, port, at, asked)?;
    Ok(())
}

impl<A: Algo> Node<A> {
    // Takes the question of a client at this node for an IP address.
    pub(crate) fn take_question<P: Port>(
        &mut self,
        port: &mut P,
        now: Millis,
        asked: Question,
    ) -> Result<(), NodeErr>
        ensures puts { (me : Mac) (log : Log) → KeepsLog A.stands A.queries self.old me log →
            newest_moment log ≤ now →
            let given = given_question asked in
            Leaves P.takes P.same P.over (client_limit me log now given) port.old
            (whole_acts (A.queries me) me log now given) result port.new }
        ensures noted { (me : Mac) (log : Log) → KeepsLog A.stands A.queries self.old me log →
            newest_moment log ≤ now →
            OnOk result (KeepsLog A.stands A.queries self.new me
            (with_input (A.queries me) me log now (given_question asked))) }
        ensures alive { is_dead self.new ≡ is_dead self.old }
    {
        let at = Place { me: self.me, now };
        let flags = client_flags(self.kept.services.settings.wifi);
        ask_sighted(&mut self.kept, port, &mut self.locals, at, flags, asked)?;
        Ok(())
    }

    /// The pair of the ARP table that is known at this place in the order of pairs, from 0. Each
    /// call walks over all that were learned.
    pub fn dat_at(&self, now: Millis, i: usize) -> Option<ArpRow>
        ensures at_place { (me : Mac) (log : Log) →
            NodeStands A.stands A.queries self.now me log →
            let learned = (knowledge (A.queries me) me log).services.learned in
            result ≡ slice_get (pairs_at learned now) i }
        ensures past_end { (me : Mac) (log : Log) →
            NodeStands A.stands A.queries self.now me log →
            let learned = (knowledge (A.queries me) me log).services.learned in
            IsNone result ↔ (length (pairs_at learned now) ≤ i) }
    {
        self.kept.pair_at(now, i)
    }
}
