//! What a node does at a reboot.

ghost use Rattle.std.specs.Prelude.{◌≡◌, ◌≤◌, OnOk};
ghost use Rattle.mesh_base.specs.declared.address.Mac.{Mac};
ghost use Rattle.mesh_model.specs.Acts.Choosing.{whole_acts};
ghost use Rattle.mesh_model.specs.Clients.Log.{Log};
ghost use Rattle.mesh_model.specs.Clients.Log as given;
ghost use Rattle.mesh_node.specs.NodeStands.{KeepsLog, is_dead};
ghost use Rattle.node_ground.specs.OwnStands.{newest_moment, with_input};
ghost use Rattle.node_ground.specs.Puts.{Puts};

use crate::node::Node;
use mesh_algo::Algo;
use mesh_base::Millis;
use node_ground::{NodeErr, Place, Port};
use node_tables::reboots::reboot;

impl<A: Algo> Node<A> {
    // Reboots: it forgets all but its settings, and makes a new first commit.
    pub(crate) fn take_reboot<P: Port>(&mut self, port: &mut P, now: Millis) -> Result<(), NodeErr>
        ensures puts { (me : Mac) (log : Log) → KeepsLog A.stands A.queries self.old me log →
            Puts P.takes P.same P.over port.old
            (whole_acts (A.queries me) me log now (given.Line given.Reboot)) result port.new }
        ensures noted { (me : Mac) (log : Log) → KeepsLog A.stands A.queries self.old me log →
            newest_moment log ≤ now →
            OnOk result (KeepsLog A.stands A.queries self.new me
            (with_input (A.queries me) me log now (given.Line given.Reboot))) }
        ensures alive { is_dead self.new ≡ is_dead self.old }
    {
        let at = Place { me: self.me, now };
        reboot(port, &mut self.locals, at)?;
        self.kept.restart(self.me);
        Ok(())
    }
}
