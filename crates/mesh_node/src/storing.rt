//! What a node does with the facts of lines, and what it shows of the fact store.

ghost use Rattle.std.specs.Prelude.{◌≡◌, ◌≤◌, map, IfErr, IfOk, OnOk};
ghost use Rattle.mesh_base.specs.declared.address.Mac.{Mac};
ghost use Rattle.mesh_model.specs.Acts.FactRows.{get_acts};
ghost use Rattle.mesh_model.specs.Clients.Log.{Log};
ghost use Rattle.mesh_model.specs.Clients.Log as given;
ghost use Rattle.mesh_model.specs.Knowledge.Steps.{knowledge};
ghost use Rattle.mesh_model.specs.Services.Facts.{facts_at};
ghost use Rattle.mesh_node.specs.NodeStands.{KeepsLog, NodeStands, is_dead};
ghost use Rattle.node_ground.specs.OwnStands.{newest_moment, with_input};
ghost use Rattle.node_ground.specs.Puts.{Puts};

use crate::node::Node;
use mesh_algo::Algo;
use mesh_base::{Millis, NoMemory};
use mesh_model::{AlfredMode, KeptFact};
use node_facts::asking::{get, put};
use node_ground::{NodeErr, Place, Port};

impl<A: Algo> Node<A> {
    // Puts a fact of its own.
    pub(crate) fn put_fact(
        &mut self,
        now: Millis,
        type_no: u8,
        version: u8,
        text: &[u8],
    ) -> Result<(), NodeErr>
        ensures memory { IfErr result (λ error. error ≡ NodeErr.Memory) }
        ensures noted { (me : Mac) (log : Log) → KeepsLog A.stands A.queries self.old me log →
            newest_moment log ≤ now →
            OnOk result (KeepsLog A.stands A.queries self.new me
            (with_input (A.queries me) me log now
            (given.Line (given.Put type_no version text.now)))) }
        ensures alive { is_dead self.new ≡ is_dead self.old }
    {
        let at = Place { me: self.me, now };
        put(&mut self.kept, at, type_no, version, text)?;
        Ok(())
    }

    // Asks for the facts of a type.
    pub(crate) fn get_facts<P: Port>(
        &mut self,
        port: &mut P,
        now: Millis,
        type_no: u8,
    ) -> Result<(), NodeErr>
        ensures puts { (me : Mac) (log : Log) → KeepsLog A.stands A.queries self.old me log →
            Puts P.takes P.same P.over port.old
            (get_acts (A.queries me) (knowledge (A.queries me) me log)
            (record { me = me; now = now }) type_no) result port.new }
        ensures noted { (me : Mac) (log : Log) → KeepsLog A.stands A.queries self.old me log →
            newest_moment log ≤ now →
            OnOk result (KeepsLog A.stands A.queries self.new me
            (with_input (A.queries me) me log now (given.Line (given.Get type_no)))) }
        ensures alive { is_dead self.new ≡ is_dead self.old }
    {
        let at = Place { me: self.me, now };
        get(&mut self.kept, port, at, type_no)?;
        Ok(())
    }

    /// The part in the fact store that was set last.
    pub fn alfred_mode(&self) -> AlfredMode
        ensures { (me : Mac) (log : Log) → NodeStands A.stands A.queries self.now me log →
            result ≡ (knowledge (A.queries me) me log).services.settings.fact_store }
    {
        self.kept.services.settings.fact_store
    }

    /// The live facts that it keeps, by source, then by type.
    pub fn facts(&self, now: Millis) -> Result<Vec<&KeptFact>, NoMemory>
        ensures { IfOk result (λ rows. (me : Mac) (log : Log) →
            NodeStands A.stands A.queries self.now me log →
            map (λ kept. kept.now) rows.items
            ≡ facts_at (knowledge (A.queries me) me log).services.facts now) }
    {
        let rows = self.kept.services.store.facts.live(now)?;
        Ok(rows)
    }
}
