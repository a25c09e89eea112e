ghost use Rattle.std.specs.Prelude.{◌-◌, ◌+◌, ℕ, ◌<◌, [], length, IfOk, IfErr, OnOk, OnErr, IsErrOf};
ghost use Rattle.mesh_net.specs.NetStands.{HoldsFor, IsNet, IsDead, net_link};
ghost use Rattle.mesh_net.specs.declared.seat.Seat.{Seat};
ghost use Rattle.mesh_net.specs.Reached.{IsNewLink};
ghost use Rattle.mesh_net.specs.Tells.{NodeTells, LinkTells, HasJoined, HasLinked};

use crate::failure::NetErr;
use crate::link::Link;
use crate::net::Net;
use crate::seat::Seat;
use crate::steps::{TICK_TIME, tick_of};
use mesh_algo::Algo;
use mesh_base::{Bytes, Mac};
use mesh_model::LimitName;
use mesh_node::Node;
use mesh_post::{Pattern, Row, place_of};

/// The most nodes.
const NODES_LIMIT: usize = 64;
/// The most links.
const LINKS_LIMIT: usize = 512;

impl<A: Algo + Drop> Net<A> {
    /// Adds a node of this address, made now, and answers its place, from 0.
    pub fn add_node(&mut self, me: Mac, algo: A) -> Result<u32, NetErr>
        requires net { IsNet A.queries A.stands self.old }
        requires algo { A.stands algo me [] }
        ensures joins { HoldsFor A.queries A.stands self.old (λ choice clock mesh.
            IfOk result (HasJoined A.queries A.stands self.new choice clock mesh me)) }

        // The first cause counts: an earlier refusal, the limit, memory.
        ensures cause { HoldsFor A.queries A.stands self.old (λ choice clock mesh.
            IfErr result (NodeTells (length mesh.nodes))) }
        ensures dead { IsDead self.old → IsErrOf result NetErr.Dead }
        ensures refused { OnErr result (IsDead self.new) }
        ensures net { IsNet A.queries A.stands self.new }
    {
        if self.dead {
            return Err(NetErr::Dead);
        }
        let joined = self.join(me, algo);
        self.dead = joined.is_err();
        joined
    }

    /// Adds a link from the node at one place to the node at another.
    pub fn add_link(&mut self, from: u32, to: u32, link: &Link) -> Result<(), NetErr>
        requires net { IsNet A.queries A.stands self.old }
        requires rules { HoldsFor A.queries A.stands self.old (λ choice clock mesh.
            IsNewLink mesh (net_link from to link.now)) }
        ensures joins { HoldsFor A.queries A.stands self.old (λ choice clock mesh.
            OnOk result (HasLinked A.queries A.stands self.new choice clock mesh
            (net_link from to link.now))) }

        // The first cause counts: an earlier refusal, the limit, memory.
        ensures cause { HoldsFor A.queries A.stands self.old (λ choice clock mesh.
            IfErr result (LinkTells (length mesh.links))) }
        ensures dead { IsDead self.old → IsErrOf result NetErr.Dead }
        ensures refused { OnErr result (IsDead self.new) }
        ensures net { IsNet A.queries A.stands self.new }
    {
        if self.dead {
            return Err(NetErr::Dead);
        }
        let joined = self.join_link(from, to, link);
        self.dead = joined.is_err();
        joined
    }

    // A new node joins.
    fn join(&mut self, me: Mac, algo: A) -> Result<u32, NetErr>
        requires { A.stands algo me [] }
        ensures joins { HoldsFor A.queries A.stands self.old (λ choice clock mesh.
            IfOk result (HasJoined A.queries A.stands self.new choice clock mesh me)) }
        ensures cause { HoldsFor A.queries A.stands self.old (λ choice clock mesh.
            IfErr result (NodeTells (length mesh.nodes))) }
    {
        if self.seats.len() >= NODES_LIMIT {
            return Err(NetErr::Limit(LimitName::Nodes));
        }
        let place = place_of(self.seats.len())?;
        self.post
            .queue
            .push(tick_of(place, self.clock.saturating_add(TICK_TIME)))?;
        self.post.add_node()?;
        self.seats.push(Seat {
            node: Node::new(self.alloc, me, algo),
            mac: me,
            ticks: 0,
        })?;
        Ok(place)
    }

    // A new link joins.
    fn join_link(&mut self, from: u32, to: u32, link: &Link) -> Result<(), NetErr>
        requires { HoldsFor A.queries A.stands self.old (λ choice clock mesh.
            IsNewLink mesh (net_link from to link.now)) }
        ensures joins { HoldsFor A.queries A.stands self.old (λ choice clock mesh.
            OnOk result (HasLinked A.queries A.stands self.new choice clock mesh
            (net_link from to link.now))) }
        ensures cause { HoldsFor A.queries A.stands self.old (λ choice clock mesh.
            IfErr result (LinkTells (length mesh.links))) }
    {
        if self.post.rows.len() >= LINKS_LIMIT {
            return Err(NetErr::Limit(LimitName::Links));
        }
        let row = Row {
            from,
            to,
            start: self.mac_at(from),
            end: self.mac_at(to),
            delay: link.delay,
            pattern: Pattern::new(Bytes::from_slice(self.alloc, link.pattern.as_slice())?),
            tp: link.tp,
        };
        self.post.add_link(row)?;
        Ok(())
    }
}
